//! Searching how far a text may read, turn by turn: to the end of each command, or over a blank group.
ghost use Rattle.std.specs.Prelude.{◌≡◌, ◌<◌, ◌≤◌, ℕ, length, IfOk, OnOk, IfSome, option_copied, option_map};
ghost use Rattle.std.specs.List.{All};
ghost use Rattle.wm_grammar.specs.Farthest.{before_last_quote, cut_off, here, farthest};
ghost use Rattle.wm_grammar.specs.Last.{at_turn, last_of};
ghost use Rattle.wm_words.specs.Pieces.{first_of};
ghost use Rattle.wm_grammar.specs.Turns.{command_turn, front_turn, turn_at, command_part};

use crate::groups::criteria_part;
use crate::reading::command_at;
use std::alloc::Global;
use wm_base::NoMemory;
use wm_words::{Stop, past, skip, starts, stops_in};

/// A turn: how many may follow it, whether it stands at the front of a group, its text, and where it stopped.
#[derive(Drop)]
struct Turn<'a> {
    left: usize,
    fresh: bool,
    text: &'a [u8],
    end: &'a [u8],
}

/// What follows the command at the front.
fn command_turn(alloc: Global, text: &[u8]) -> Result<Option<&[u8]>, NoMemory>
    ensures { IfOk result (λ o. option_copied o ≡ command_turn text.now) }
{
    Ok(end_of(command_at(alloc, text)?))
}

/// What follows what was read.
fn end_of<T: Drop>(read: Option<(T, &[u8])>) -> Option<&[u8]>
    ensures { option_copied result ≡ option_map (λ x. x.1.now) read.entry }
{
    match read {
        Some((_, rest)) => Some(rest),
        None => None,
    }
}

/// The same at the front of a group, where criteria may stand, or nothing.
fn front_turn(alloc: Global, text: &[u8]) -> Result<Option<&[u8]>, NoMemory>
    ensures { IfOk result (λ o. option_copied o ≡ front_turn text.now) }
{
    if text.is_empty() || starts(text, b';') {
        return Ok(Some(text));
    }
    match end_of(criteria_part(alloc, text)?) {
        Some(rest) => command_turn(alloc, skip(rest)),
        None => Ok(None),
    }
}

/// What follows the command, at the front of a group (fresh) or behind a `,` within one.
fn turn_at(alloc: Global, fresh: bool, text: &[u8]) -> Result<Option<&[u8]>, NoMemory>
    ensures { IfOk result (λ o. option_copied o ≡ turn_at fresh text.now) }
{
    if fresh {
        front_turn(alloc, skip(text))
    } else {
        command_turn(alloc, skip(text))
    }
}

/// What stands before the last `"`.
fn before_last_quote(text: &[u8]) -> Option<&[u8]>
    ensures front { option_copied result ≡ before_last_quote text.now }
    ensures shorter { IfSome result (λ b. length b.now ≤ length text.now) }
{
    let mut rest = text;
    while let [front @ .., c] = rest {
        if *c == b'"' {
            return Some(front);
        }
        rest = front;
    }
    None
}

/// The text of a turn from its command on.
#[tactic(auto, unfolding(crate::specs::Turns::command_part))]
fn command_part(alloc: Global, fresh: bool, text: &[u8]) -> Result<&[u8], NoMemory>
    ensures { IfOk result (λ c. c.now ≡ command_part fresh text.now) }
{
    if !fresh {
        return Ok(text);
    }
    Ok(end_of(criteria_part(alloc, skip(text))?).unwrap_or(text))
}

/// What stands before the last quote that a turn closed, where its command has a `;` there. The turn stopped at
/// `end`.
#[tactic(auto, unfolding(crate::specs::Farthest::cut_off))]
fn cut_off<'a>(text: &'a [u8], command: &[u8], end: &[u8]) -> Option<&'a [u8]>
    ensures front { option_copied result ≡ cut_off text.now command.now end.now }
    ensures shorter { IfSome result (λ b. length b.now ≤ length text.now) }
{
    let turn = &text[..text.len().saturating_sub(end.len())];
    let front = before_last_quote(turn)?;
    let behind = past(front, text.len().saturating_sub(command.len()));
    if stops_in(behind, Stop::Group) {
        Some(front)
    } else {
        None
    }
}

/// A place at the end of the turn, behind its `;`, or else inside it. Places are said by how many bytes follow.
#[cycle(search)]
#[tactic(auto, unfolding(crate::specs::Farthest::here, crate::specs::Farthest::inside))]
fn here(
    alloc: Global,
    left: usize,
    fresh: bool,
    text: &[u8],
    end: &[u8],
) -> Result<Option<usize>, NoMemory>
    ensures { IfOk result (λ o. o ≡ here (farthest left) fresh text.now end.now) }
{
    if let [b';', more @ ..] = end {
        return Ok(Some(more.len()));
    }
    let command = command_part(alloc, fresh, text)?;
    let Some(front) = cut_off(text, command, end) else {
        return Ok(None)
    };
    match farthest(alloc, left, fresh, front)? {
        Some(n) => Ok(Some(n + (text.len() - front.len()))),
        None => Ok(None),
    }
}

/// The farthest place up to which the text may read and end with `;`, over at most so many turns. What stands
/// before a `;` need not be searched again.
#[cycle(search)]
pub fn farthest(
    alloc: Global,
    most: usize,
    fresh: bool,
    text: &[u8],
) -> Result<Option<usize>, NoMemory>
    ensures found { IfOk result (λ o. o ≡ farthest most fresh text.now) }
    ensures within { IfOk result (λ o. IfSome o (λ n. n ≤ length text.now)) }
{
    let mut turns = Vec::new(alloc);
    let mut rest = text;
    let mut at_front = fresh;
    let mut left = most;
    while left > 0 {
        let Some(end) = turn_at(alloc, at_front, rest)? else {
            return last_found(alloc, most, turns);
        };
        left -= 1;
        let turn = Turn {
            left,
            fresh: at_front,
            text: rest,
            end,
        };
        keep(&mut turns, turn)?;
        let [c, more @ ..] = end else {
            return last_found(alloc, most, turns);
        };
        at_front = *c != b',';
        rest = more;
    }
    last_found(alloc, most, turns)
}

/// Puts a turn behind others, which it leaves out where it ends with `;`.
fn keep<'a>(turns: &mut Vec<Turn<'a>>, turn: Turn<'a>) -> Result<(), NoMemory>
    ensures found { OnOk result (last_of turns.new.items ≡ first_of (at_turn turn.entry) (last_of turns.old.items)) }
    ensures below { OnOk result ((m : ℕ) → All (λ t. t.left < m) turns.old.items → turn.entry.left < m → All (λ t. t.left < m) turns.new.items) }
{
    if starts(turn.end, b';') {
        turns.clear();
    }
    turns.push(turn)?;
    Ok(())
}

/// The place of the last turn that has one.
#[cycle(search)]
fn last_found(alloc: Global, most: usize, turns: Vec<Turn>) -> Result<Option<usize>, NoMemory>
    requires below { All (λ t. t.left < most) turns.items }
    ensures { IfOk result (λ o. o ≡ last_of turns.entry.items) }
{
    let mut turns = turns;
    while let Some(turn) = turns.pop() {
        if let Some(n) = here(alloc, turn.left, turn.fresh, turn.text, turn.end)? {
            return Ok(Some(n));
        }
    }
    Ok(None)
}
