//! The forms of commands that end in a text: their keywords.
ghost use Rattle.std.specs.Prelude.{◌≡◌, ◌++◌, ◌∷◌, [], map, IfOk};
ghost use Rattle.wm_grammar.specs.Ways.{seen};
ghost use Rattle.wm_grammar.specs.Openings.{Opened, targets_opened, focus_opened, move_to_opened, move_opened, swap_opened, toggle_opened, mark_opened, rename_opened, opened, is_one_word};

use std::alloc::Global;
use wm_base::NoMemory;
use wm_words::{Verb, after, is_word, past_one_to, past_to, past_with, says, split_word};

/// The keywords that a text follows.
#[derive(Clone, Copy)]
pub enum Opening {
    FocusOutput,
    MoveToWorkspace,
    MoveToNumbered,
    MoveToOutput,
    MoveWorkspace,
    MoveToMark,
    SwapMark,
    Mark { add: bool, toggle: bool },
    Unmark,
    Workspace,
    WorkspaceNumbered,
    RenameFocused,
    RenameNamed,
    Mode,
    AppendLayout,
    TitleFormat,
    Nop,
    Idle,
}

impl Opening {
    /// Whether the text is one word.
    pub fn is_one_word(self) -> bool
        ensures { result ≡ is_one_word self }
    {
        matches!(
            self,
            Opening::FocusOutput | Opening::MoveToOutput | Opening::MoveWorkspace
        )
    }
}

/// Ways to read the keywords of a command, with the text behind them.
pub type Ways<'a> = Vec<(Opening, &'a [u8])>;

/// The ways, and one more behind them.
#[tactic(auto, using(wm_language::proofs::Lists::joining))]
fn with<'a>(ways: Ways<'a>, opening: Opening, rest: &'a [u8]) -> Result<Ways<'a>, NoMemory>
    ensures { IfOk result (λ v. seen v.items ≡ seen ways.entry.items ++ (opening, rest.now) ∷ []) }
{
    let mut ways = ways;
    ways.push((opening, rest))?;
    Ok(ways)
}

/// The ways, and behind them those to read what follows a verb, the ones with more keywords first.
#[tactic(auto, unfolding(crate::specs::Openings::opened))]
pub fn opened(alloc: Global, verb: Verb, rest: &[u8]) -> Result<Ways<'_>, NoMemory>
    ensures { IfOk result (λ v. seen v.items ≡ opened verb rest.now) }
{
    let ways = Vec::new(alloc);
    match verb {
        Verb::Focus => focus_opened(ways, rest),
        Verb::Move => move_opened(ways, rest),
        Verb::Swap => swap_opened(ways, rest),
        Verb::Mark => mark_opened(ways, rest),
        Verb::Unmark => with(ways, Opening::Unmark, rest),
        Verb::Workspace => {
            targets_opened(ways, Opening::WorkspaceNumbered, Opening::Workspace, rest)
        }
        Verb::Rename => rename_opened(ways, rest),
        Verb::Mode => with(ways, Opening::Mode, rest),
        Verb::AppendLayout => with(ways, Opening::AppendLayout, rest),
        Verb::TitleFormat => with(ways, Opening::TitleFormat, rest),
        Verb::Nop => with(ways, Opening::Nop, rest),
        Verb::Idle => with(ways, Opening::Idle, rest),
        Verb::Split | Verb::Layout | Verb::Resize | Verb::Floating => Ok(ways),
        Verb::Fullscreen | Verb::Border | Verb::Gaps | Verb::Sticky => Ok(ways),
        Verb::Scratchpad | Verb::Kill | Verb::Exit => Ok(ways),
    }
}

#[tactic(auto, using(wm_language::proofs::Lists::joining), unfolding(crate::specs::Openings::targets_opened))]
fn targets_opened<'a>(
    ways: Ways<'a>,
    numbered: Opening,
    named: Opening,
    rest: &'a [u8],
) -> Result<Ways<'a>, NoMemory>
    ensures { IfOk result (λ v. seen v.items ≡ seen ways.entry.items ++ targets_opened numbered named rest.now) }
{
    let (first, more) = split_word(rest);
    if !is_word(first, b"number") {
        return with(ways, named, rest);
    }
    let ways = with(ways, numbered, more)?;
    with(ways, named, rest)
}

#[tactic(auto, using(wm_language::proofs::Lists::joining), unfolding(crate::specs::Openings::focus_opened))]
fn focus_opened<'a>(ways: Ways<'a>, rest: &'a [u8]) -> Result<Ways<'a>, NoMemory>
    ensures { IfOk result (λ v. seen v.items ≡ seen ways.entry.items ++ focus_opened rest.now) }
{
    let (first, more) = split_word(rest);
    if is_word(first, b"output") {
        with(ways, Opening::FocusOutput, more)
    } else {
        Ok(ways)
    }
}

#[tactic(auto, using(wm_language::proofs::Lists::joining), unfolding(crate::specs::Openings::move_to_opened))]
fn move_to_opened<'a>(ways: Ways<'a>, rest: &'a [u8]) -> Result<Ways<'a>, NoMemory>
    ensures { IfOk result (λ v. seen v.items ≡ seen ways.entry.items ++ move_to_opened rest.now) }
{
    let (first, more) = split_word(rest);
    if is_word(first, b"workspace") {
        return targets_opened(
            ways,
            Opening::MoveToNumbered,
            Opening::MoveToWorkspace,
            more,
        );
    }
    if is_word(first, b"output") {
        return with(ways, Opening::MoveToOutput, more);
    }
    if is_word(first, b"mark") {
        with(ways, Opening::MoveToMark, more)
    } else {
        Ok(ways)
    }
}

#[tactic(auto, using(wm_language::proofs::Lists::joining), unfolding(crate::specs::Openings::move_opened))]
fn move_opened<'a>(ways: Ways<'a>, rest: &'a [u8]) -> Result<Ways<'a>, NoMemory>
    ensures { IfOk result (λ v. seen v.items ≡ seen ways.entry.items ++ move_opened rest.now) }
{
    let (first, more) = split_word(rest);
    if !is_word(first, b"workspace") {
        return move_to_opened(ways, past_to(rest));
    }
    let (second, named) = split_word(past_one_to(more));
    if !is_word(second, b"output") {
        return move_to_opened(ways, rest);
    }
    let ways = with(ways, Opening::MoveWorkspace, named)?;
    move_to_opened(ways, rest)
}

#[tactic(auto, using(wm_language::proofs::Lists::joining), unfolding(crate::specs::Openings::swap_opened))]
fn swap_opened<'a>(ways: Ways<'a>, rest: &'a [u8]) -> Result<Ways<'a>, NoMemory>
    ensures { IfOk result (λ v. seen v.items ≡ seen ways.entry.items ++ swap_opened rest.now) }
{
    let Some(more) = past_with(rest) else {
        return Ok(ways)
    };
    if says(more, b"mark") {
        with(ways, Opening::SwapMark, after(more))
    } else {
        Ok(ways)
    }
}

/// The ways to read a mark, with the word `--toggle` before it or not.
#[tactic(auto, using(wm_language::proofs::Lists::joining), unfolding(crate::specs::Openings::toggle_opened))]
fn toggle_opened<'a>(ways: Ways<'a>, add: bool, rest: &'a [u8]) -> Result<Ways<'a>, NoMemory>
    ensures { IfOk result (λ v. seen v.items ≡ seen ways.entry.items ++ toggle_opened add rest.now) }
{
    let (first, more) = split_word(rest);
    if !is_word(first, b"--toggle") {
        return with(ways, Opening::Mark { add, toggle: false }, rest);
    }
    let ways = with(ways, Opening::Mark { add, toggle: true }, more)?;
    with(ways, Opening::Mark { add, toggle: false }, rest)
}

#[tactic(auto, using(wm_language::proofs::Lists::joining), unfolding(crate::specs::Openings::mark_opened))]
fn mark_opened<'a>(ways: Ways<'a>, rest: &'a [u8]) -> Result<Ways<'a>, NoMemory>
    ensures { IfOk result (λ v. seen v.items ≡ seen ways.entry.items ++ mark_opened rest.now) }
{
    let (first, more) = split_word(rest);
    if is_word(first, b"--add") {
        let ways = toggle_opened(ways, true, more)?;
        return with(
            ways,
            Opening::Mark {
                add: false,
                toggle: false,
            },
            rest,
        );
    }
    if is_word(first, b"--replace") {
        let ways = toggle_opened(ways, false, more)?;
        return with(
            ways,
            Opening::Mark {
                add: false,
                toggle: false,
            },
            rest,
        );
    }
    toggle_opened(ways, false, rest)
}

#[tactic(auto, using(wm_language::proofs::Lists::joining), unfolding(crate::specs::Openings::rename_opened))]
fn rename_opened<'a>(ways: Ways<'a>, rest: &'a [u8]) -> Result<Ways<'a>, NoMemory>
    ensures { IfOk result (λ v. seen v.items ≡ seen ways.entry.items ++ rename_opened rest.now) }
{
    let (first, more) = split_word(rest);
    if !is_word(first, b"workspace") {
        return Ok(ways);
    }
    let (second, name) = split_word(more);
    if !is_word(second, b"to") {
        return with(ways, Opening::RenameNamed, more);
    }
    let ways = with(ways, Opening::RenameFocused, name)?;
    with(ways, Opening::RenameNamed, more)
}
