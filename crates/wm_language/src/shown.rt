//! How keys and commands are shown: as a derived `Debug` shows them, in parts.
use crate::arguments::{GapOp, Side};
use crate::batch::Key;
use crate::command::Command;
use std::fmt::{Debug, Formatter, Result, Write};
use wm_base::Text;

/// Shows a name and one value.
fn show_one<W: Write, T: Debug>(f: &mut Formatter<W>, name: &str, value: &T) -> Result {
    f.debug_tuple(name).field(value).finish()
}

/// Shows a name and two values.
fn show_two<W: Write, A: Debug, B: Debug>(
    f: &mut Formatter<W>,
    name: &str,
    first: &A,
    second: &B,
) -> Result {
    f.debug_tuple(name).field(first).field(second).finish()
}

impl Debug for Key {
    fn fmt<W: Write>(&self, f: &mut Formatter<W>) -> Result {
        match self {
            Key::Id(id) => show_one(f, "Id", id),
            Key::Con(id) => show_one(f, "Con", id),
            Key::Urgent { latest } => f.debug_struct("Urgent").field("latest", latest).finish(),
            Key::Floating => f.write_str("Floating"),
            Key::Tiling => f.write_str("Tiling"),
            Key::All => f.write_str("All"),
            _ => show_pattern(f, self),
        }
    }
}

/// Shows a key that has a text; nothing for any other.
fn show_pattern<W: Write>(f: &mut Formatter<W>, key: &Key) -> Result {
    match key {
        Key::Class(text) => show_one(f, "Class", text),
        Key::Instance(text) => show_one(f, "Instance", text),
        Key::Role(text) => show_one(f, "Role", text),
        Key::Kind(text) => show_one(f, "Kind", text),
        Key::Machine(text) => show_one(f, "Machine", text),
        Key::Title(text) => show_one(f, "Title", text),
        Key::Mark(text) => show_one(f, "Mark", text),
        Key::Workspace(text) => show_one(f, "Workspace", text),
        _ => Ok(()),
    }
}

impl Debug for Command {
    fn fmt<W: Write>(&self, f: &mut Formatter<W>) -> Result {
        match self {
            Command::Split(arg) => show_one(f, "Split", arg),
            Command::SetLayout(arg) => show_one(f, "SetLayout", arg),
            Command::CycleLayout(arg) => show_one(f, "CycleLayout", arg),
            Command::FocusDir(dir) => show_one(f, "FocusDir", dir),
            Command::FocusKind(kind) => show_one(f, "FocusKind", kind),
            Command::FocusOutput(output) => show_one(f, "FocusOutput", output),
            Command::Swap(arg) => show_one(f, "Swap", arg),
            _ => show_moving(f, self),
        }
    }
}

/// Shows a command that moves its subject, or one of those below.
fn show_moving<W: Write>(f: &mut Formatter<W>, command: &Command) -> Result {
    match command {
        Command::MoveDir(dir, n) => show_two(f, "MoveDir", dir, n),
        Command::MoveToWorkspace(target) => show_one(f, "MoveToWorkspace", target),
        Command::MoveToOutput(output) => show_one(f, "MoveToOutput", output),
        Command::MoveWorkspace(output) => show_one(f, "MoveWorkspace", output),
        Command::MoveToMark(mark) => show_one(f, "MoveToMark", mark),
        Command::MovePosition(x, y) => show_two(f, "MovePosition", x, y),
        _ => show_window(f, command),
    }
}

/// Shows a command on the looks of a window, or one of those below.
fn show_window<W: Write>(f: &mut Formatter<W>, command: &Command) -> Result {
    match command {
        Command::Resize {
            grow,
            side,
            px,
            ppt,
        } => show_resize(f, grow, side, px, ppt),
        Command::ResizeSet(w, h) => show_two(f, "ResizeSet", w, h),
        Command::Floating(arg) => show_one(f, "Floating", arg),
        Command::Fullscreen(arg) => show_one(f, "Fullscreen", arg),
        Command::SetBorder(border) => show_one(f, "SetBorder", border),
        Command::Gaps { outer, all, op, px } => show_gaps(f, outer, all, op, px),
        Command::Sticky(arg) => show_one(f, "Sticky", arg),
        _ => show_naming(f, command),
    }
}

fn show_resize<W: Write>(
    f: &mut Formatter<W>,
    grow: &bool,
    side: &Side,
    px: &u32,
    ppt: &u32,
) -> Result {
    f.debug_struct("Resize")
        .field("grow", grow)
        .field("side", side)
        .field("px", px)
        .field("ppt", ppt)
        .finish()
}

fn show_gaps<W: Write>(
    f: &mut Formatter<W>,
    outer: &bool,
    all: &bool,
    op: &GapOp,
    px: &u32,
) -> Result {
    f.debug_struct("Gaps")
        .field("outer", outer)
        .field("all", all)
        .field("op", op)
        .field("px", px)
        .finish()
}

/// Shows a command that gives or takes a name, or one that has no argument.
fn show_naming<W: Write>(f: &mut Formatter<W>, command: &Command) -> Result {
    match command {
        Command::Mark { add, toggle, name } => show_mark(f, add, toggle, name),
        Command::Unmark(mark) => show_one(f, "Unmark", mark),
        Command::Workspace(target) => show_one(f, "Workspace", target),
        Command::Rename(was, name) => show_two(f, "Rename", was, name),
        Command::Mode(mode) => show_one(f, "Mode", mode),
        Command::AppendLayout(layout) => show_one(f, "AppendLayout", layout),
        Command::TitleFormat(format) => show_one(f, "TitleFormat", format),
        _ => f.write_str(bare_name(command)),
    }
}

fn show_mark<W: Write>(f: &mut Formatter<W>, add: &bool, toggle: &bool, name: &Text) -> Result {
    f.debug_struct("Mark")
        .field("add", add)
        .field("toggle", toggle)
        .field("name", name)
        .finish()
}

/// The name of a command that has no argument; nothing for any other.
fn bare_name(command: &Command) -> &'static str {
    match command {
        Command::Focus => "Focus",
        Command::FocusParent => "FocusParent",
        Command::FocusChild => "FocusChild",
        Command::MoveToScratchpad => "MoveToScratchpad",
        Command::MoveCenter => "MoveCenter",
        Command::CycleBorder => "CycleBorder",
        Command::ScratchpadShow => "ScratchpadShow",
        Command::Kill => "Kill",
        Command::Nop => "Nop",
        Command::Idle => "Idle",
        Command::Exit => "Exit",
        Command::Split(_) | Command::SetLayout(_) | Command::CycleLayout(_) => "",
        Command::FocusDir(_) | Command::FocusKind(_) | Command::FocusOutput(_) => "",
        Command::MoveDir(..) | Command::MoveToWorkspace(_) | Command::MoveToOutput(_) => "",
        Command::MoveWorkspace(_) | Command::MoveToMark(_) | Command::MovePosition(..) => "",
        Command::Swap(_) | Command::Resize { .. } | Command::ResizeSet(..) => "",
        Command::Floating(_) | Command::Fullscreen(_) | Command::SetBorder(_) => "",
        Command::Gaps { .. } | Command::Sticky(_) | Command::Mark { .. } | Command::Unmark(_) => "",
        Command::Workspace(_) | Command::Rename(..) | Command::Mode(_) => "",
        Command::AppendLayout(_) | Command::TitleFormat(_) => "",
    }
}
