//! Reading one command: its keywords, and the text behind them.
ghost use Rattle.std.specs.Prelude.{◌≡◌, ℕ, List, Option, IfOk, option_map, option_copied, option_and_then};
ghost use Rattle.wm_grammar.specs.Fitted.{piece_bytes};
ghost use Rattle.wm_grammar.specs.Openings.{text_at, closed, bare, named, made, word_at, past_keyword_to, renamed, renamed_to, renaming, before_rest, finished, first_finished, verb_command, command_at};
ghost use Rattle.wm_grammar.specs.Ways.{seen};

use crate::opening::{Opening, opened};
use std::alloc::Global;
use wm_base::{NoMemory, Text};
use wm_language::{Command, OutArg, SwapArg, Target};
use wm_words::{
    Stop, Verb, argument, cut, ends, is_word, past, plain_form, skip, split_word, stops_in,
    trim_end, unquote, verb_of,
};

/// The text of a command: a part of what is read, or what a quoted text stands for.
#[derive(Drop)]
pub enum Piece<'a> {
    Plain(&'a [u8]),
    Quoted(Vec<u8>),
}

impl Piece<'_> {
    pub fn bytes(&self) -> &[u8]
        ensures { result.now ≡ piece_bytes self.now }
    {
        match self {
            Piece::Plain(bytes) => bytes,
            Piece::Quoted(bytes) => bytes.as_slice(),
        }
    }
}

/// A command, and the end of it in the text, from which on more is read.
pub type Read<'a> = Option<(Command, &'a [u8])>;

/// The text of a command, quoted or not, and the end of the command.
#[tactic(auto, unfolding(crate::specs::Openings::text_at))]
fn text_at(
    alloc: Global,
    one_word: bool,
    text: &[u8],
) -> Result<Option<(Piece<'_>, &[u8])>, NoMemory>
    ensures { IfOk result (λ o. option_map (λ x. (piece_bytes x.0, x.1.now)) o ≡ text_at one_word text.now) }
{
    if let [b'"', quoted @ ..] = text {
        return Ok(closed(quoted_piece(unquote(alloc, quoted)?)));
    }
    let (found, rest) = cut(text, Stop::End);
    Ok(bare(one_word, trim_end(found), rest))
}

/// A text that was quoted, and what follows it.
pub fn quoted_piece(read: Option<(Vec<u8>, &[u8])>) -> Option<(Piece<'_>, &[u8])>
    ensures { let o : Option (List ℕ × List ℕ) = option_map (λ x. (x.0.items, x.1.now)) read.entry in option_map (λ x. (piece_bytes x.0, x.1.now)) result ≡ o }
{
    match read {
        Some((bytes, rest)) => Some((Piece::Quoted(bytes), rest)),
        None => None,
    }
}

/// A quoted text, where the command ends behind it, and that end.
fn closed<'a>(read: Option<(Piece<'a>, &'a [u8])>) -> Option<(Piece<'a>, &'a [u8])>
    ensures { option_map (λ x. (piece_bytes x.0, x.1.now)) result ≡ option_and_then closed (option_map (λ x. (piece_bytes x.0, x.1.now)) read.entry) }
{
    let (piece, behind) = read?;
    if ends(skip(behind)) {
        Some((piece, skip(behind)))
    } else {
        None
    }
}

/// A text that is not quoted, where it may stand so, and what follows.
fn bare<'a>(one_word: bool, found: &'a [u8], rest: &'a [u8]) -> Option<(Piece<'a>, &'a [u8])>
    ensures { option_map (λ x. (piece_bytes x.0, x.1.now)) result ≡ bare one_word found.now rest.now }
{
    if found.is_empty() || one_word && stops_in(found, Stop::Break) {
        None
    } else {
        Some((Piece::Plain(found), rest))
    }
}

/// The command of its keywords and its argument.
fn named(opening: Opening, name: Text) -> Option<Command>
    ensures { result ≡ named opening name }
{
    Some(match opening {
        Opening::FocusOutput => Command::FocusOutput(OutArg::Named(name)),
        Opening::MoveToWorkspace => Command::MoveToWorkspace(Target::Named(name)),
        Opening::MoveToNumbered => Command::MoveToWorkspace(Target::Number(name)),
        Opening::MoveToOutput => Command::MoveToOutput(OutArg::Named(name)),
        Opening::MoveWorkspace => Command::MoveWorkspace(OutArg::Named(name)),
        Opening::MoveToMark => Command::MoveToMark(name),
        Opening::SwapMark => Command::Swap(SwapArg::Mark(name)),
        Opening::Mark { add, toggle } => Command::Mark { add, toggle, name },
        Opening::Unmark => Command::Unmark(Some(name)),
        Opening::Workspace => Command::Workspace(Target::Named(name)),
        Opening::WorkspaceNumbered => Command::Workspace(Target::Number(name)),
        Opening::RenameFocused => Command::Rename(None, name),
        Opening::RenameNamed => return None,
        Opening::Mode => Command::Mode(name),
        Opening::AppendLayout => Command::AppendLayout(name),
        Opening::TitleFormat => Command::TitleFormat(name),
        Opening::Nop => Command::Nop,
        Opening::Idle => Command::Idle,
    })
}

/// The command of its keywords and its text.
#[tactic(auto, unfolding(crate::specs::Openings::made))]
fn made(alloc: Global, opening: Opening, text: &[u8]) -> Result<Option<Command>, NoMemory>
    ensures { IfOk result (λ o. o ≡ made opening text.now) }
{
    if let Opening::Idle = opening {
        return Ok(Some(Command::Idle));
    }
    match argument(alloc, text)? {
        Some(name) => Ok(named(opening, name)),
        None => Ok(None),
    }
}

/// A word, quoted or not, and what follows.
#[tactic(auto, unfolding(crate::specs::Openings::word_at))]
fn word_at(alloc: Global, text: &[u8]) -> Result<Option<(Piece<'_>, &[u8])>, NoMemory>
    ensures { IfOk result (λ o. option_map (λ x. (piece_bytes x.0, x.1.now)) o ≡ word_at text.now) }
{
    if let [b'"', quoted @ ..] = text {
        return Ok(quoted_piece(unquote(alloc, quoted)?));
    }
    let (found, rest) = cut(text, Stop::Gap);
    Ok(bare(true, found, rest))
}

/// What follows the word `to`, which stands first.
#[tactic(auto, unfolding(crate::specs::Openings::past_keyword_to))]
fn past_keyword_to(text: &[u8]) -> Option<&[u8]>
    ensures { option_copied result ≡ past_keyword_to text.now }
{
    let (first, rest) = cut(text, Stop::Gap);
    if is_word(first, b"to") {
        Some(skip(rest))
    } else {
        None
    }
}

/// The renaming of a named workspace, behind `rename workspace`.
#[tactic(auto, unfolding(crate::specs::Openings::renamed))]
fn renamed(alloc: Global, text: &[u8]) -> Result<Read<'_>, NoMemory>
    ensures { IfOk result (λ o. option_map (λ x. (x.0, x.1.now)) o ≡ renamed text.now) }
{
    let Some((was, behind)) = word_at(alloc, text)? else {
        return Ok(None)
    };
    match past_keyword_to(skip(behind)) {
        Some(behind) => renamed_to(alloc, was.bytes(), behind),
        None => Ok(None),
    }
}

/// The renaming of the workspace of this name, behind `to`.
fn renamed_to<'a>(alloc: Global, was: &[u8], text: &'a [u8]) -> Result<Read<'a>, NoMemory>
    ensures { IfOk result (λ o. option_map (λ x. (x.0, x.1.now)) o ≡ renamed_to was.now text.now) }
{
    let Some((name, rest)) = text_at(alloc, false, text)? else {
        return Ok(None)
    };
    let command = renaming(alloc, was, name.bytes())?;
    Ok(before_rest(command, rest))
}

/// The renaming of the workspace of one name to another.
fn renaming(alloc: Global, was: &[u8], name: &[u8]) -> Result<Option<Command>, NoMemory>
    ensures { IfOk result (λ o. o ≡ renaming was.now name.now) }
{
    let Some(was) = argument(alloc, was)? else {
        return Ok(None)
    };
    match argument(alloc, name)? {
        Some(name) => Ok(Some(Command::Rename(Some(was), name))),
        None => Ok(None),
    }
}

/// What was read, where anything was, and what follows it.
pub fn before_rest<T: Drop>(read: Option<T>, rest: &[u8]) -> Option<(T, &[u8])>
    ensures { option_map (λ x. (x.0, x.1.now)) result ≡ option_map (before_rest rest.now) read }
{
    match read {
        Some(value) => Some((value, rest)),
        None => None,
    }
}

/// The command of its keywords and the text behind them, and the end of the command.
#[tactic(auto, unfolding(crate::specs::Openings::finished))]
fn finished(alloc: Global, opening: Opening, text: &[u8]) -> Result<Read<'_>, NoMemory>
    ensures { IfOk result (λ o. option_map (λ x. (x.0, x.1.now)) o ≡ finished opening text.now) }
{
    if let Opening::RenameNamed = opening {
        return renamed(alloc, text);
    }
    let Some((found, rest)) = text_at(alloc, opening.is_one_word(), text)? else {
        return Ok(None);
    };
    let command = made(alloc, opening, found.bytes())?;
    Ok(before_rest(command, rest))
}

/// The command of the first way to read the keywords whose text fits.
#[tactic(auto, unfolding(crate::specs::Openings::first_finished))]
fn first_finished<'a>(
    alloc: Global,
    text: &'a [u8],
    raw: &[u8],
    ways: &[(Opening, &[u8])],
) -> Result<Read<'a>, NoMemory>
    ensures { IfOk result (λ o. option_map (λ x. (x.0, x.1.now)) o ≡ first_finished text.now raw.now (seen ways.now)) }
{
    let mut rest = ways;
    while let [(opening, named), more @ ..] = rest {
        let start = raw.len().saturating_sub(named.len());
        if let Some(found) = finished(alloc, *opening, past(text, start))? {
            return Ok(Some(found));
        }
        rest = more;
    }
    Ok(None)
}

/// The command of a verb, where raw is the text up to its first end and rest what follows that.
#[tactic(auto, unfolding(crate::specs::Openings::verb_command))]
fn verb_command<'a>(
    alloc: Global,
    text: &'a [u8],
    raw: &[u8],
    rest: &'a [u8],
    verb: Verb,
) -> Result<Read<'a>, NoMemory>
    ensures { IfOk result (λ o. option_map (λ x. (x.0, x.1.now)) o ≡ verb_command text.now raw.now rest.now verb) }
{
    let told = wm_words::after(raw);
    if let Some(command) = plain_form(verb, told) {
        return Ok(Some((command, rest)));
    }
    let ways = opened(alloc, verb, told)?;
    first_finished(alloc, text, raw, ways.as_slice())
}

/// The command at the front of a text that begins with no blank, and the end of the command.
#[tactic(auto, unfolding(crate::specs::Openings::command_at))]
pub fn command_at(alloc: Global, text: &[u8]) -> Result<Read<'_>, NoMemory>
    ensures { IfOk result (λ o. option_map (λ x. (x.0, x.1.now)) o ≡ command_at text.now) }
{
    let (raw, rest) = cut(text, Stop::End);
    let Some(verb) = verb_of(split_word(raw).0) else {
        return Ok(None)
    };
    verb_command(alloc, text, raw, rest, verb)
}
