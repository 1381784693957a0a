//! Writing words, numbers and quoted texts at the end of a text.
ghost use Rattle.std.specs.Prelude.{◌≡◌, ℕ, ◌<◌, ◌≤◌, ◌++◌, ◌∷◌, [], true, false, length, get_or, take, string_bytes, OnOk, decimal};
ghost use Rattle.std.specs.Fmt.{signed_decimal};
ghost use Rattle.wm_language.specs.Spelling.{is_special, escaped, quoted, bare_text, dir_text, split_text, layout_text, cycle_text, kind_text, switch_text, target_word, side_text, op_text, mark_text, grow_text, gap_text, scope_text};

use crate::arguments::{Cycle, GapOp, Kind, LayoutArg, OnOff, Side, SplitArg, Target};
use crate::command::Command;
use std::fmt::Write;
use wm_base::{Dir, NoMemory};

/// Writes a text.
pub fn put(out: &mut String, text: &str) -> Result<(), NoMemory>
    ensures { OnOk result (string_bytes out.new ≡ string_bytes out.old ++ text.now) }
{
    out.push_str(text)?;
    Ok(())
}

/// Writes a number.
pub fn put_number(out: &mut String, n: u32) -> Result<(), NoMemory>
    ensures { OnOk result (string_bytes out.new ≡ string_bytes out.old ++ decimal n) }
{
    match write!(out, "{n}") {
        Ok(()) => Ok(()),
        Err(_) => Err(NoMemory),
    }
}

/// Writes a number that may be below 0.
pub fn put_integer(out: &mut String, n: i64) -> Result<(), NoMemory>
    ensures { OnOk result (string_bytes out.new ≡ string_bytes out.old ++ signed_decimal n) }
{
    match write!(out, "{n}") {
        Ok(()) => Ok(()),
        Err(_) => Err(NoMemory),
    }
}

/// Writes a text in quotes, with `\` before each `"` and `\`.
pub fn put_quoted(out: &mut String, text: &str) -> Result<(), NoMemory>
    ensures { OnOk result (string_bytes out.new ≡ string_bytes out.old ++ quoted text.now) }
{
    put(out, "\"")?;
    put_escaped(out, text)?;
    put(out, "\"")
}

/// Writes a text with `\` before each `"` and `\`.
fn put_escaped(out: &mut String, text: &str) -> Result<(), NoMemory>
    ensures { OnOk result (string_bytes out.new ≡ string_bytes out.old ++ escaped text.now) }
{
    let mut rest = text;
    'pieces: loop {
        let (plain, tail) = rest.split_at(plain_length(rest));
        put(out, plain)?;
        if tail.is_empty() {
            return Ok(());
        }
        let (special, more) = tail.split_at(1);
        put(out, "\\")?;
        put(out, special)?;
        rest = more;
    }
}

/// How many bytes stand before the first `"` or `\`.
fn plain_length(text: &str) -> usize
    ensures within { result ≤ length text.now }
    ensures before { (k : ℕ) → k < result → is_special (get_or text.now k 0) ≡ false }
    ensures found { result < length text.now → is_special (get_or text.now result 0) ≡ true }
{
    for (i, c) in text.as_bytes().iter().enumerate() {
        if *c == b'"' || *c == b'\\' {
            return i;
        }
    }
    text.len()
}

/// The keywords of a command that has no argument; nothing for any other.
pub fn bare_text(command: &Command) -> &'static str
    ensures { result.now ≡ bare_text command.now }
{
    match command {
        Command::Focus => "focus",
        Command::FocusParent => "focus parent",
        Command::FocusChild => "focus child",
        Command::MoveToScratchpad => "move scratchpad",
        Command::MoveCenter => "move position center",
        Command::CycleBorder => "border toggle",
        Command::ScratchpadShow => "scratchpad show",
        Command::Kill => "kill",
        Command::Nop => "nop",
        Command::Idle => "exec",
        Command::Exit => "exit",
        Command::Split(_) | Command::SetLayout(_) | Command::CycleLayout(_) => "",
        Command::FocusDir(_) | Command::FocusKind(_) | Command::FocusOutput(_) => "",
        Command::MoveDir(..) | Command::MoveToWorkspace(_) | Command::MoveToOutput(_) => "",
        Command::MoveWorkspace(_) | Command::MoveToMark(_) | Command::MovePosition(..) => "",
        Command::Swap(_) | Command::Resize { .. } | Command::ResizeSet(..) => "",
        Command::Floating(_) | Command::Fullscreen(_) | Command::SetBorder(_) => "",
        Command::Gaps { .. } | Command::Sticky(_) | Command::Mark { .. } | Command::Unmark(_) => "",
        Command::Workspace(_) | Command::Rename(..) | Command::Mode(_) => "",
        Command::AppendLayout(_) | Command::TitleFormat(_) => "",
    }
}

pub fn dir_text(dir: Dir) -> &'static str
    ensures { result.now ≡ dir_text dir }
{
    match dir {
        Dir::Left => "left",
        Dir::Right => "right",
        Dir::Up => "up",
        Dir::Down => "down",
    }
}

pub fn split_text(arg: SplitArg) -> &'static str
    ensures { result.now ≡ split_text arg }
{
    match arg {
        SplitArg::H => "split h",
        SplitArg::V => "split v",
        SplitArg::Toggle => "split toggle",
    }
}

pub fn layout_text(arg: LayoutArg) -> &'static str
    ensures { result.now ≡ layout_text arg }
{
    match arg {
        LayoutArg::Default => "layout default",
        LayoutArg::SplitH => "layout splith",
        LayoutArg::SplitV => "layout splitv",
        LayoutArg::Tabbed => "layout tabbed",
        LayoutArg::Stacked => "layout stacked",
    }
}

pub fn cycle_text(arg: Cycle) -> &'static str
    ensures { result.now ≡ cycle_text arg }
{
    match arg {
        Cycle::Bare => "layout toggle",
        Cycle::Split => "layout toggle split",
        Cycle::All => "layout toggle all",
    }
}

pub fn kind_text(arg: Kind) -> &'static str
    ensures { result.now ≡ kind_text arg }
{
    match arg {
        Kind::Floating => "focus floating",
        Kind::Tiling => "focus tiling",
        Kind::Toggle => "focus mode_toggle",
    }
}

pub fn switch_text(arg: OnOff) -> &'static str
    ensures { result.now ≡ switch_text arg }
{
    match arg {
        OnOff::Enable => "enable",
        OnOff::Disable => "disable",
        OnOff::Toggle => "toggle",
    }
}

/// The keyword of a workspace that has no name; nothing for any other.
pub fn target_word(target: &Target) -> &'static str
    ensures { result.now ≡ target_word target.now }
{
    match target {
        Target::Next => "next",
        Target::Prev => "prev",
        Target::NextOnOutput => "next_on_output",
        Target::PrevOnOutput => "prev_on_output",
        Target::BackAndForth => "back_and_forth",
        Target::Current => "current",
        _ => "",
    }
}

pub fn side_text(arg: Side) -> &'static str
    ensures { result.now ≡ side_text arg }
{
    match arg {
        Side::Width => "width",
        Side::Height => "height",
        Side::At(dir) => dir_text(dir),
    }
}

pub fn op_text(arg: GapOp) -> &'static str
    ensures { result.now ≡ op_text arg }
{
    match arg {
        GapOp::Set => "set ",
        GapOp::Plus => "plus ",
        GapOp::Minus => "minus ",
    }
}

pub fn mark_text(add: bool, toggle: bool) -> &'static str
    ensures { result.now ≡ mark_text add toggle }
{
    match (add, toggle) {
        (true, true) => "mark --add --toggle ",
        (true, false) => "mark --add ",
        (false, true) => "mark --toggle ",
        (false, false) => "mark ",
    }
}

pub fn grow_text(grow: bool) -> &'static str
    ensures { result.now ≡ grow_text grow }
{
    if grow {
        "resize grow "
    } else {
        "resize shrink "
    }
}

pub fn gap_text(outer: bool) -> &'static str
    ensures { result.now ≡ gap_text outer }
{
    if outer { "gaps outer " } else { "gaps inner " }
}

pub fn scope_text(all: bool) -> &'static str
    ensures { result.now ≡ scope_text all }
{
    if all { "all " } else { "current " }
}
