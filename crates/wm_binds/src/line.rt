//! What a line says.
ghost use Rattle.std.specs.Prelude.{◌≡◌, IfOk};
ghost use Rattle.wm_binds.specs.Lines.{entry_of, is_bar, is_other_habit, is_other_look, is_other_program, is_passed, other_of, plan_of, said_of};

use crate::entry::Entry;
use crate::layout_lines::layout_line;
use crate::mode_lines::{bind_line, mode_line};
use crate::plan_lines::{border_line, gaps_line, home_line, output_line};
use crate::words::{are_same, first_word, past_blanks, word_then};
use std::alloc::Global;
use wm_base::NoMemory;

/// What a line says, behind the blanks at its front. `None` exactly where it is outside the grammar.
pub fn entry_of(alloc: Global, text: &[u8]) -> Result<Option<Entry>, NoMemory>
    ensures { IfOk result (λ entry. entry ≡ entry_of text.now) }
{
    match past_blanks(text) {
        [] | [b'#', ..] => Ok(Some(Entry::Nothing)),
        text => said_of(alloc, text),
    }
}

/// What a line of this text says.
fn said_of(alloc: Global, text: &[u8]) -> Result<Option<Entry>, NoMemory>
    ensures { IfOk result (λ entry. entry ≡ said_of text.now) }
{
    if let Some(rest) = word_then(text, b"bindsym") {
        return bind_line(alloc, rest);
    }
    if let Some(rest) = word_then(text, b"mode") {
        return mode_line(alloc, rest);
    }
    if let Some(rest) = word_then(text, b"saved_layout") {
        return layout_line(alloc, rest);
    }
    plan_line(alloc, text)
}

/// What a line says of the plan, or what else it says.
fn plan_line(alloc: Global, text: &[u8]) -> Result<Option<Entry>, NoMemory>
    ensures { IfOk result (λ entry. entry ≡ plan_of text.now) }
{
    if let Some(rest) = word_then(text, b"default_border") {
        return Ok(border_line(rest));
    }
    if let Some(rest) = word_then(text, b"gaps") {
        return Ok(gaps_line(rest));
    }
    if let Some(rest) = word_then(text, b"workspace") {
        return home_line(alloc, rest);
    }
    match word_then(text, b"output") {
        Some(rest) => output_line(alloc, rest),
        None => Ok(other_of(text)),
    }
}

/// The end of a block, the beginning of one of a bar, or what is passed over.
fn other_of(text: &[u8]) -> Option<Entry>
    ensures { result ≡ other_of text.now }
{
    if are_same(text, b"}") {
        return Some(Entry::Close);
    }
    if is_bar(text) {
        return Some(Entry::Bar);
    }
    if is_passed(first_word(text)) {
        Some(Entry::Passed)
    } else {
        None
    }
}

/// Whether it is `bar {`.
fn is_bar(text: &[u8]) -> bool
    ensures { result ≡ is_bar text.now }
{
    match word_then(text, b"bar") {
        Some(rest) => are_same(rest, b"{"),
        None => false,
    }
}

/// Whether a line with this first word is passed over.
fn is_passed(word: &[u8]) -> bool
    ensures { result ≡ is_passed word.now }
{
    is_other_program(word)
        || is_other_look(word)
        || is_other_habit(word)
        || word.starts_with(b"client.")
}

/// Whether i3 starts programs or rules by this word, or names files.
fn is_other_program(word: &[u8]) -> bool
    ensures { result ≡ is_other_program word.now }
{
    are_same(word, b"exec")
        || are_same(word, b"exec_always")
        || are_same(word, b"include")
        || are_same(word, b"ipc-socket")
        || are_same(word, b"for_window")
        || are_same(word, b"assign")
        || are_same(word, b"no_focus")
        || are_same(word, b"bindcode")
}

/// Whether i3 says by this word what windows and bars look like.
fn is_other_look(word: &[u8]) -> bool
    ensures { result ≡ is_other_look word.now }
{
    are_same(word, b"font")
        || are_same(word, b"title_align")
        || are_same(word, b"show_marks")
        || are_same(word, b"hide_edge_borders")
        || are_same(word, b"smart_borders")
        || are_same(word, b"smart_gaps")
        || are_same(word, b"default_floating_border")
}

/// Whether i3 says by this word how windows and workspaces behave.
fn is_other_habit(word: &[u8]) -> bool
    ensures { result ≡ is_other_habit word.now }
{
    are_same(word, b"floating_modifier")
        || are_same(word, b"tiling_drag")
        || are_same(word, b"focus_follows_mouse")
        || are_same(word, b"focus_wrapping")
        || are_same(word, b"focus_on_window_activation")
        || are_same(word, b"mouse_warping")
        || are_same(word, b"popup_during_fullscreen")
        || are_same(word, b"workspace_layout")
        || are_same(word, b"default_orientation")
        || are_same(word, b"workspace_auto_back_and_forth")
        || are_same(word, b"force_display_urgency_hint")
}
