//! The forms of commands that have no text of their own: keywords and numbers alone.
ghost use Rattle.std.specs.Prelude.{◌≡◌, if◌then◌else◌, Some, option_copied, option_map};
ghost use Rattle.wm_words.specs.Forms.{split_form, layout_form, only_output, focus_word, focus_form, fullscreen_form, width_form, border_form, gaps_form, kill_form, scratchpad_form, plain_form, swap_form, past_with, switch_words, cycle_words, target_words};
ghost use Rattle.wm_words.specs.Pieces.{is_nil, only};
ghost use Rattle.wm_language.specs.declared.arguments.Cycle.TheVariants.{Bare};
ghost use Rattle.wm_language.specs.declared.command.Command.TheVariants.{CycleLayout, Floating, Sticky, Workspace};

use crate::keywords::{
    cycle_of, dir_of, gap_op, is_all, is_outer, kind_of, layout_arg, on_off, output_of, side_of,
    split_arg, target_of,
};
use crate::moving::move_form;
use crate::numbers::only_number;
use crate::resizing::resize_form;
use crate::verbs::Verb;
use crate::words::{after, is_word, says, single, split_word};
use wm_base::Border;
use wm_language::{Command, Cycle, OnOff, OutArg, SwapArg};

/// The command of a verb and what follows it, where it has no text.
#[tactic(auto, unfolding(crate::specs::Forms::plain_form))]
pub fn plain_form(verb: Verb, rest: &[u8]) -> Option<Command>
    ensures { result ≡ plain_form verb rest.now }
{
    match verb {
        Verb::Split => split_form(rest),
        Verb::Layout => layout_form(rest),
        Verb::Focus => focus_form(rest),
        Verb::Move => move_form(rest),
        Verb::Swap => swap_form(rest),
        Verb::Resize => resize_form(rest),
        Verb::Floating => floating_form(rest),
        Verb::Fullscreen => fullscreen_form(rest),
        Verb::Border => border_form(rest),
        Verb::Gaps => gaps_form(rest),
        Verb::Sticky => sticky_form(rest),
        Verb::Unmark => rest.is_empty().then_some(Command::Unmark(None)),
        Verb::Workspace => workspace_form(rest),
        Verb::Scratchpad => scratchpad_form(rest),
        Verb::Kill => kill_form(rest),
        Verb::Nop => rest.is_empty().then_some(Command::Nop),
        Verb::Idle => rest.is_empty().then_some(Command::Idle),
        Verb::Exit => rest.is_empty().then_some(Command::Exit),
        Verb::Mark | Verb::Rename | Verb::Mode | Verb::AppendLayout | Verb::TitleFormat => None,
    }
}

fn floating_form(rest: &[u8]) -> Option<Command>
    ensures { result ≡ option_map Floating (only switch_words rest.now) }
{
    on_off(single(rest)?).map(Command::Floating)
}

fn sticky_form(rest: &[u8]) -> Option<Command>
    ensures { result ≡ option_map Sticky (only switch_words rest.now) }
{
    on_off(single(rest)?).map(Command::Sticky)
}

fn workspace_form(rest: &[u8]) -> Option<Command>
    ensures { result ≡ option_map Workspace (only target_words rest.now) }
{
    target_of(single(rest)?).map(Command::Workspace)
}

#[tactic(auto, unfolding(crate::specs::Forms::split_form))]
fn split_form(rest: &[u8]) -> Option<Command>
    ensures { result ≡ split_form rest.now }
{
    split_arg(single(rest)?).map(Command::Split)
}

#[tactic(auto, unfolding(crate::specs::Forms::layout_form))]
fn layout_form(rest: &[u8]) -> Option<Command>
    ensures { result ≡ layout_form rest.now }
{
    if says(rest, b"toggle") {
        cycle_form(after(rest))
    } else {
        layout_arg(single(rest)?).map(Command::SetLayout)
    }
}

/// What follows `layout toggle`.
fn cycle_form(rest: &[u8]) -> Option<Command>
    ensures { result ≡ option_map CycleLayout (if is_nil rest.now then Some Bare else only cycle_words rest.now) }
{
    if rest.is_empty() {
        return Some(Command::CycleLayout(Cycle::Bare));
    }
    cycle_of(single(rest)?).map(Command::CycleLayout)
}

/// The output of a keyword, where nothing follows.
#[tactic(auto, unfolding(crate::specs::Forms::only_output))]
pub fn only_output(rest: &[u8]) -> Option<OutArg>
    ensures { result ≡ only_output rest.now }
{
    output_of(single(rest)?)
}

#[tactic(auto, unfolding(crate::specs::Forms::focus_word))]
fn focus_word(word: &[u8]) -> Option<Command>
    ensures { result ≡ focus_word word.now }
{
    if is_word(word, b"parent") {
        return Some(Command::FocusParent);
    }
    if is_word(word, b"child") {
        return Some(Command::FocusChild);
    }
    if let Some(kind) = kind_of(word) {
        return Some(Command::FocusKind(kind));
    }
    dir_of(word).map(Command::FocusDir)
}

#[tactic(auto, unfolding(crate::specs::Forms::focus_form))]
fn focus_form(rest: &[u8]) -> Option<Command>
    ensures { result ≡ focus_form rest.now }
{
    if rest.is_empty() {
        return Some(Command::Focus);
    }
    let (first, more) = split_word(rest);
    if is_word(first, b"output") {
        return only_output(more).map(Command::FocusOutput);
    }
    if more.is_empty() {
        focus_word(first)
    } else {
        None
    }
}

/// What follows `with`, before which `container` may stand.
#[tactic(auto, unfolding(crate::specs::Forms::past_with))]
pub fn past_with(rest: &[u8]) -> Option<&[u8]>
    ensures { option_copied result ≡ past_with rest.now }
{
    let from = if says(rest, b"container") {
        after(rest)
    } else {
        rest
    };
    if says(from, b"with") {
        Some(after(from))
    } else {
        None
    }
}

#[tactic(auto, unfolding(crate::specs::Forms::swap_form))]
fn swap_form(rest: &[u8]) -> Option<Command>
    ensures { result ≡ swap_form rest.now }
{
    let more = past_with(rest)?;
    if says(more, b"con_id") {
        return only_number(after(more)).map(|n| Command::Swap(SwapArg::Con(n)));
    }
    if says(more, b"id") {
        return only_number(after(more)).map(|n| Command::Swap(SwapArg::Window(n)));
    }
    None
}

#[tactic(auto, unfolding(crate::specs::Forms::fullscreen_form))]
fn fullscreen_form(rest: &[u8]) -> Option<Command>
    ensures { result ≡ fullscreen_form rest.now }
{
    if rest.is_empty() {
        return Some(Command::Fullscreen(OnOff::Toggle));
    }
    on_off(single(rest)?).map(Command::Fullscreen)
}

/// A border's width, 2 where none is given.
#[tactic(auto, unfolding(crate::specs::Forms::width_form))]
fn width_form(rest: &[u8]) -> Option<u32>
    ensures { result ≡ width_form rest.now }
{
    if rest.is_empty() {
        Some(2)
    } else {
        only_number(rest)
    }
}

#[tactic(auto, unfolding(crate::specs::Forms::border_form))]
fn border_form(rest: &[u8]) -> Option<Command>
    ensures { result ≡ border_form rest.now }
{
    let (first, more) = split_word(rest);
    if is_word(first, b"normal") {
        return width_form(more).map(|n| Command::SetBorder(Border::Normal(n)));
    }
    if is_word(first, b"pixel") {
        return width_form(more).map(|n| Command::SetBorder(Border::Pixel(n)));
    }
    if is_word(first, b"none") {
        return more.is_empty().then_some(Command::SetBorder(Border::Bare));
    }
    if is_word(first, b"toggle") {
        return more.is_empty().then_some(Command::CycleBorder);
    }
    None
}

#[tactic(auto, unfolding(crate::specs::Forms::gaps_form))]
fn gaps_form(rest: &[u8]) -> Option<Command>
    ensures { result ≡ gaps_form rest.now }
{
    let (first, more) = split_word(rest);
    let outer = is_outer(first)?;
    let (second, more) = split_word(more);
    let all = is_all(second)?;
    let (third, more) = split_word(more);
    let op = gap_op(third)?;
    let px = only_number(more)?;
    Some(Command::Gaps { outer, all, op, px })
}

#[tactic(auto, unfolding(crate::specs::Forms::kill_form))]
fn kill_form(rest: &[u8]) -> Option<Command>
    ensures { result ≡ kill_form rest.now }
{
    if rest.is_empty() {
        return Some(Command::Kill);
    }
    let (first, more) = split_word(rest);
    if !more.is_empty() {
        return None;
    }
    if is_word(first, b"window") {
        return Some(Command::Kill);
    }
    is_word(first, b"client").then_some(Command::Kill)
}

#[tactic(auto, unfolding(crate::specs::Forms::scratchpad_form))]
fn scratchpad_form(rest: &[u8]) -> Option<Command>
    ensures { result ≡ scratchpad_form rest.now }
{
    let (first, more) = split_word(rest);
    if is_word(first, b"show") {
        more.is_empty().then_some(Command::ScratchpadShow)
    } else {
        None
    }
}
