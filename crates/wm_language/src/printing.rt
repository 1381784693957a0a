//! Writing commands.
ghost use Rattle.std.specs.Prelude.{◌≡◌, ◌++◌, string_bytes, OnOk, codes, decimal};
ghost use Rattle.std.specs.Fmt.{signed_decimal};
ghost use Rattle.wm_language.specs.Spelling.{spelled, moving_text, window_text, naming_text, quoted, output_text, target_text, swap_text, border_text, unmark_text, rename_text, renaming_text, move_text, position_text, sides_text, resize_text, gaps_text};

use crate::arguments::{GapOp, OutArg, Side, SwapArg, Target};
use crate::command::Command;
use crate::writing::{
    bare_text, cycle_text, dir_text, gap_text, grow_text, kind_text, layout_text, mark_text,
    op_text, put, put_integer, put_number, put_quoted, scope_text, side_text, split_text,
    switch_text, target_word,
};
use wm_base::{Border, Dir, NoMemory, Text};

/// Writes a command.
#[tactic(auto, unfolding(crate::specs::Spelling::spelled))]
pub fn put_command(out: &mut String, command: &Command) -> Result<(), NoMemory>
    ensures { OnOk result (string_bytes out.new ≡ string_bytes out.old ++ spelled command.now) }
{
    match command {
        Command::Split(arg) => put(out, split_text(*arg)),
        Command::SetLayout(arg) => put(out, layout_text(*arg)),
        Command::CycleLayout(arg) => put(out, cycle_text(*arg)),
        Command::FocusDir(dir) => put_two(out, "focus ", dir_text(*dir)),
        Command::FocusKind(kind) => put(out, kind_text(*kind)),
        Command::FocusOutput(output) => put_output(out, "focus output ", output),
        Command::Swap(arg) => put_swap(out, "swap container with ", arg),
        _ => put_moving(out, command),
    }
}

/// Writes a command that moves its subject, or one of those below.
fn put_moving(out: &mut String, command: &Command) -> Result<(), NoMemory>
    ensures { OnOk result (string_bytes out.new ≡ string_bytes out.old ++ moving_text command.now) }
{
    match command {
        Command::MoveDir(dir, n) => put_move(out, *dir, *n),
        Command::MoveToWorkspace(target) => put_target(out, "move container to workspace ", target),
        Command::MoveToOutput(output) => put_output(out, "move container to output ", output),
        Command::MoveWorkspace(output) => put_output(out, "move workspace to output ", output),
        Command::MoveToMark(mark) => put_named(out, "move container to mark ", mark),
        Command::MovePosition(x, y) => put_position(out, *x, *y),
        _ => put_window(out, command),
    }
}

/// Writes a command on the looks of a window, or one of those below.
fn put_window(out: &mut String, command: &Command) -> Result<(), NoMemory>
    ensures { OnOk result (string_bytes out.new ≡ string_bytes out.old ++ window_text command.now) }
{
    match command {
        Command::Resize {
            grow,
            side,
            px,
            ppt,
        } => put_resize(out, *grow, *side, *px, *ppt),
        Command::ResizeSet(w, h) => put_sides(out, *w, *h),
        Command::Floating(arg) => put_two(out, "floating ", switch_text(*arg)),
        Command::Fullscreen(arg) => put_two(out, "fullscreen ", switch_text(*arg)),
        Command::SetBorder(border) => put_border(out, *border),
        Command::Gaps { outer, all, op, px } => put_gaps(out, *outer, *all, *op, *px),
        Command::Sticky(arg) => put_two(out, "sticky ", switch_text(*arg)),
        _ => put_naming(out, command),
    }
}

/// Writes a command that gives or takes a name, or one that has no argument.
fn put_naming(out: &mut String, command: &Command) -> Result<(), NoMemory>
    ensures { OnOk result (string_bytes out.new ≡ string_bytes out.old ++ naming_text command.now) }
{
    match command {
        Command::Mark { add, toggle, name } => put_named(out, mark_text(*add, *toggle), name),
        Command::Unmark(mark) => put_unmark(out, mark),
        Command::Workspace(target) => put_target(out, "workspace ", target),
        Command::Rename(was, name) => put_rename(out, was, name),
        Command::Mode(mode) => put_named(out, "mode ", mode),
        Command::AppendLayout(layout) => put_named(out, "append_layout ", layout),
        Command::TitleFormat(format) => put_named(out, "title_format ", format),
        _ => put(out, bare_text(command)),
    }
}

/// Writes two texts.
#[tactic(auto, using(crate::proofs::Lists::joining))]
fn put_two(out: &mut String, first: &str, second: &str) -> Result<(), NoMemory>
    ensures { OnOk result (string_bytes out.new ≡ string_bytes out.old ++ (first.now ++ second.now)) }
{
    put(out, first)?;
    put(out, second)
}

/// Writes keywords and a quoted text.
#[tactic(auto, using(crate::proofs::Lists::joining))]
pub fn put_named(out: &mut String, keywords: &str, name: &Text) -> Result<(), NoMemory>
    ensures { OnOk result (string_bytes out.new ≡ string_bytes out.old ++ (keywords.now ++ quoted name.now)) }
{
    put(out, keywords)?;
    put_quoted(out, name.as_str())
}

/// Writes keywords and an output.
fn put_output(out: &mut String, keywords: &str, output: &OutArg) -> Result<(), NoMemory>
    ensures { OnOk result (string_bytes out.new ≡ string_bytes out.old ++ (keywords.now ++ output_text output.now)) }
{
    match output {
        OutArg::At(dir) => put_two(out, keywords, dir_text(*dir)),
        OutArg::Current => put_two(out, keywords, "current"),
        OutArg::Primary => put_two(out, keywords, "primary"),
        OutArg::Next => put_two(out, keywords, "next"),
        OutArg::Named(name) => put_named(out, keywords, name),
    }
}

/// Writes keywords and a workspace.
fn put_target(out: &mut String, keywords: &str, target: &Target) -> Result<(), NoMemory>
    ensures { OnOk result (string_bytes out.new ≡ string_bytes out.old ++ (keywords.now ++ target_text target.now)) }
{
    match target {
        Target::Number(name) => put_numbered(out, keywords, name),
        Target::Named(name) => put_named(out, keywords, name),
        _ => put_two(out, keywords, target_word(target)),
    }
}

/// Writes keywords and the name of a numbered workspace.
#[tactic(auto, using(crate::proofs::Lists::joining))]
fn put_numbered(out: &mut String, keywords: &str, name: &Text) -> Result<(), NoMemory>
    ensures { OnOk result (string_bytes out.new ≡ string_bytes out.old ++ (keywords.now ++ (codes "number " ++ quoted name.now))) }
{
    put(out, keywords)?;
    put_named(out, "number ", name)
}

/// Writes keywords and a number.
#[tactic(auto, using(crate::proofs::Lists::joining))]
pub fn put_counted(out: &mut String, keywords: &str, n: u32) -> Result<(), NoMemory>
    ensures { OnOk result (string_bytes out.new ≡ string_bytes out.old ++ (keywords.now ++ decimal n)) }
{
    put(out, keywords)?;
    put_number(out, n)
}

/// Writes keywords, a number and its unit.
#[tactic(auto, using(crate::proofs::Lists::joining))]
fn put_measured(out: &mut String, keywords: &str, n: u32, unit: &str) -> Result<(), NoMemory>
    ensures { OnOk result (string_bytes out.new ≡ string_bytes out.old ++ (keywords.now ++ decimal n ++ unit.now)) }
{
    put_counted(out, keywords, n)?;
    put(out, unit)
}

/// Writes keywords, a place along one axis and its unit.
#[tactic(auto, using(crate::proofs::Lists::joining))]
fn put_place(out: &mut String, keywords: &str, n: i64, unit: &str) -> Result<(), NoMemory>
    ensures { OnOk result (string_bytes out.new ≡ string_bytes out.old ++ (keywords.now ++ signed_decimal n ++ unit.now)) }
{
    put(out, keywords)?;
    put_integer(out, n)?;
    put(out, unit)
}

fn put_move(out: &mut String, dir: Dir, n: u32) -> Result<(), NoMemory>
    ensures { OnOk result (string_bytes out.new ≡ string_bytes out.old ++ move_text dir n) }
{
    put_two(out, "move ", dir_text(dir))?;
    put_measured(out, " ", n, " px")
}

fn put_position(out: &mut String, x: i64, y: i64) -> Result<(), NoMemory>
    ensures { OnOk result (string_bytes out.new ≡ string_bytes out.old ++ position_text x y) }
{
    put_place(out, "move position ", x, " px")?;
    put_place(out, " ", y, " px")
}

fn put_sides(out: &mut String, w: u32, h: u32) -> Result<(), NoMemory>
    ensures { OnOk result (string_bytes out.new ≡ string_bytes out.old ++ sides_text w h) }
{
    put_measured(out, "resize set ", w, " px")?;
    put_measured(out, " ", h, " px")
}

fn put_resize(out: &mut String, grow: bool, side: Side, px: u32, ppt: u32) -> Result<(), NoMemory>
    ensures { OnOk result (string_bytes out.new ≡ string_bytes out.old ++ resize_text grow side px ppt) }
{
    put_two(out, grow_text(grow), side_text(side))?;
    put_measured(out, " ", px, " px or ")?;
    put_measured(out, "", ppt, " ppt")
}

fn put_gaps(out: &mut String, outer: bool, all: bool, op: GapOp, px: u32) -> Result<(), NoMemory>
    ensures { OnOk result (string_bytes out.new ≡ string_bytes out.old ++ gaps_text outer all op px) }
{
    put_two(out, gap_text(outer), scope_text(all))?;
    put_counted(out, op_text(op), px)
}

/// Writes keywords and with whom to swap.
#[tactic(auto, using(crate::proofs::Lists::joining))]
fn put_swap(out: &mut String, keywords: &str, arg: &SwapArg) -> Result<(), NoMemory>
    ensures { OnOk result (string_bytes out.new ≡ string_bytes out.old ++ (keywords.now ++ swap_text arg.now)) }
{
    put(out, keywords)?;
    match arg {
        SwapArg::Con(n) => put_counted(out, "con_id ", *n),
        SwapArg::Window(n) => put_counted(out, "id ", *n),
        SwapArg::Mark(mark) => put_named(out, "mark ", mark),
    }
}

fn put_border(out: &mut String, border: Border) -> Result<(), NoMemory>
    ensures { OnOk result (string_bytes out.new ≡ string_bytes out.old ++ border_text border) }
{
    match border {
        Border::Normal(n) => put_counted(out, "border normal ", n),
        Border::Pixel(n) => put_counted(out, "border pixel ", n),
        Border::Bare => put(out, "border none"),
    }
}

fn put_unmark(out: &mut String, mark: &Option<Text>) -> Result<(), NoMemory>
    ensures { OnOk result (string_bytes out.new ≡ string_bytes out.old ++ unmark_text mark.now) }
{
    match mark {
        None => put(out, "unmark"),
        Some(mark) => put_named(out, "unmark ", mark),
    }
}

fn put_rename(out: &mut String, was: &Option<Text>, name: &Text) -> Result<(), NoMemory>
    ensures { OnOk result (string_bytes out.new ≡ string_bytes out.old ++ rename_text was.now name.now) }
{
    match was {
        None => put_named(out, "rename workspace to ", name),
        Some(was) => put_renaming(out, was, name),
    }
}

fn put_renaming(out: &mut String, was: &Text, name: &Text) -> Result<(), NoMemory>
    ensures { OnOk result (string_bytes out.new ≡ string_bytes out.old ++ renaming_text was.now name.now) }
{
    put_named(out, "rename workspace ", was)?;
    put_named(out, " to ", name)
}
