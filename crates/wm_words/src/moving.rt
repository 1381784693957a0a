//! The forms of `move` that have no text of their own.
ghost use Rattle.std.specs.Prelude.{◌≡◌};
ghost use Rattle.wm_words.specs.Forms.{move_by, position_form, move_to_form, past_one_to, move_workspace_form, move_form, past_px, past_to, move_in};

use crate::keywords::{dir_of, sent_of};
use crate::numbers::{integer, natural};
use crate::plain::only_output;
use crate::words::{is_word, single, split_word};
use wm_base::Dir;
use wm_language::Command;

/// What follows the word `px`, or all where it does not stand first.
#[tactic(auto, unfolding(crate::specs::Forms::past_px))]
pub fn past_px(rest: &[u8]) -> &[u8]
    ensures { result.now ≡ past_px rest.now }
{
    let (first, more) = split_word(rest);
    if is_word(first, b"px") { more } else { rest }
}

/// What follows the word `to`, or all where it does not stand first.
#[tactic(auto, unfolding(crate::specs::Forms::past_one_to))]
pub fn past_one_to(rest: &[u8]) -> &[u8]
    ensures { result.now ≡ past_one_to rest.now }
{
    let (first, more) = split_word(rest);
    if is_word(first, b"to") { more } else { rest }
}

/// What follows `container` or `window` and then `to`, as far as these words stand first.
#[tactic(auto, unfolding(crate::specs::Forms::past_to, crate::specs::Forms::past_one_to))]
pub fn past_to(rest: &[u8]) -> &[u8]
    ensures { result.now ≡ past_to rest.now }
{
    let (first, more) = split_word(rest);
    if is_word(first, b"container") {
        return past_one_to(more);
    }
    if is_word(first, b"window") {
        return past_one_to(more);
    }
    past_one_to(rest)
}

#[tactic(auto, unfolding(crate::specs::Forms::move_form))]
pub fn move_form(rest: &[u8]) -> Option<Command>
    ensures { result ≡ move_form rest.now }
{
    let (first, more) = split_word(rest);
    if let Some(dir) = dir_of(first) {
        return move_by(dir, more);
    }
    if !is_word(first, b"workspace") {
        return move_to_form(past_to(rest));
    }
    if let Some(command) = move_workspace_form(more) {
        return Some(command);
    }
    move_to_form(rest)
}

/// A move in a direction, by 10 pixels where no number is given.
#[tactic(auto, unfolding(crate::specs::Forms::move_by))]
fn move_by(dir: Dir, rest: &[u8]) -> Option<Command>
    ensures { result ≡ move_by dir rest.now }
{
    if rest.is_empty() {
        return Some(Command::MoveDir(dir, 10));
    }
    let (first, more) = split_word(rest);
    let pixels = natural(first)?;
    past_px(more)
        .is_empty()
        .then_some(Command::MoveDir(dir, pixels))
}

#[tactic(auto, unfolding(crate::specs::Forms::move_workspace_form))]
fn move_workspace_form(rest: &[u8]) -> Option<Command>
    ensures { result ≡ move_workspace_form rest.now }
{
    let (first, more) = split_word(past_one_to(rest));
    if is_word(first, b"output") {
        only_output(more).map(Command::MoveWorkspace)
    } else {
        None
    }
}

#[tactic(auto, unfolding(crate::specs::Forms::move_to_form))]
fn move_to_form(rest: &[u8]) -> Option<Command>
    ensures { result ≡ move_to_form rest.now }
{
    let (first, more) = split_word(rest);
    if is_word(first, b"workspace") {
        return sent_of(single(more)?).map(Command::MoveToWorkspace);
    }
    if is_word(first, b"output") {
        return only_output(more).map(Command::MoveToOutput);
    }
    if is_word(first, b"scratchpad") {
        return more.is_empty().then_some(Command::MoveToScratchpad);
    }
    if is_word(first, b"position") {
        position_form(more)
    } else {
        None
    }
}

#[tactic(auto, unfolding(crate::specs::Forms::position_form))]
fn position_form(rest: &[u8]) -> Option<Command>
    ensures { result ≡ position_form rest.now }
{
    let (first, more) = split_word(rest);
    if is_word(first, b"center") {
        return more.is_empty().then_some(Command::MoveCenter);
    }
    let x = integer(first)?;
    let (second, more) = split_word(past_px(more));
    let y = integer(second)?;
    past_px(more)
        .is_empty()
        .then_some(Command::MovePosition(x, y))
}
