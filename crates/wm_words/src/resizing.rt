//! The forms of `resize`.
ghost use Rattle.std.specs.Prelude.{◌≡◌};
ghost use Rattle.wm_words.specs.Forms.{resize_by, resize_set, resize_form, amounts, hundredths};

use crate::keywords::side_of;
use crate::moving::past_px;
use crate::numbers::natural;
use crate::words::{after, is_word, says, split_word};
use wm_language::Command;

#[tactic(auto, unfolding(crate::specs::Forms::resize_form))]
pub fn resize_form(rest: &[u8]) -> Option<Command>
    ensures { result ≡ resize_form rest.now }
{
    let (first, more) = split_word(rest);
    if is_word(first, b"set") {
        return resize_set(more);
    }
    if is_word(first, b"grow") {
        return resize_by(true, more);
    }
    if is_word(first, b"shrink") {
        return resize_by(false, more);
    }
    None
}

#[tactic(auto, unfolding(crate::specs::Forms::resize_set))]
fn resize_set(rest: &[u8]) -> Option<Command>
    ensures { result ≡ resize_set rest.now }
{
    let (first, more) = split_word(rest);
    let width = natural(first)?;
    let (second, more) = split_word(past_px(more));
    let height = natural(second)?;
    past_px(more)
        .is_empty()
        .then_some(Command::ResizeSet(width, height))
}

#[tactic(auto, unfolding(crate::specs::Forms::resize_by))]
fn resize_by(grow: bool, rest: &[u8]) -> Option<Command>
    ensures { result ≡ resize_by grow rest.now }
{
    let (first, more) = split_word(rest);
    let side = side_of(first)?;
    let (px, ppt) = amounts(more)?;
    Some(Command::Resize {
        grow,
        side,
        px,
        ppt,
    })
}

/// By how many pixels and hundredths to resize.
#[tactic(auto, unfolding(crate::specs::Forms::amounts))]
fn amounts(rest: &[u8]) -> Option<(u32, u32)>
    ensures { result ≡ amounts rest.now }
{
    if rest.is_empty() {
        return Some((10, 10));
    }
    let (first, more) = split_word(rest);
    let px = natural(first)?;
    if says(more, b"px") {
        hundredths(px, after(more))
    } else {
        None
    }
}

/// The pixels, and the hundredths behind them.
#[tactic(auto, unfolding(crate::specs::Forms::hundredths))]
fn hundredths(px: u32, rest: &[u8]) -> Option<(u32, u32)>
    ensures { result ≡ hundredths px rest.now }
{
    if rest.is_empty() {
        return Some((px, 0));
    }
    let (first, more) = split_word(rest);
    if !is_word(first, b"or") {
        return None;
    }
    let (second, more) = split_word(more);
    let ppt = natural(second)?;
    if says(more, b"ppt") {
        after(more).is_empty().then_some((px, ppt))
    } else {
        None
    }
}
