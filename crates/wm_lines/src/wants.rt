//! The lines that tell what is asked of windows.
ghost use Rattle.std.specs.Prelude.{◌≡◌, ◌++◌, OnOk};
ghost use Rattle.std.specs.List.{flat_map};
ghost use Rattle.wm_history.specs.declared.state.Want.TheVariants as wanted;
ghost use Rattle.wm_lines.specs.Told.{want_text};

use crate::texts::push_text;
use std::alloc::Global;
use wm_base::{ConId, NoMemory, Size};
use wm_core::Want;

/// Adds a line for each thing that is asked.
pub fn push_wants(alloc: Global, piece: &mut Vec<u8>, wants: &[Want]) -> Result<(), NoMemory>
    ensures { OnOk result (piece.new.items ≡ piece.old.items ++ flat_map want_text wants.now) }
{
    let mut rest = wants;
    while let [want, after @ ..] = rest {
        push_want(alloc, piece, *want)?;
        rest = after;
    }
    Ok(())
}

/// Adds the line of what is asked of a window.
fn push_want(alloc: Global, piece: &mut Vec<u8>, want: Want) -> Result<(), NoMemory>
    ensures { OnOk result (piece.new.items ≡ piece.old.items ++ want_text want) }
{
    match want {
        Want::Configure { con, serial, size } => push_configure(alloc, piece, con, serial, size),
        Want::Kill { con, number } => push_kill(alloc, piece, con, number),
    }
}

/// Adds the line that asks a window for a size.
fn push_configure(
    alloc: Global,
    piece: &mut Vec<u8>,
    con: ConId,
    serial: u64,
    size: Size,
) -> Result<(), NoMemory>
    ensures { OnOk result (piece.new.items ≡ piece.old.items ++ want_text (wanted.Configure con serial size)) }
{
    let line = format!(in alloc; "configure {} {serial} {}x{}\n", con.0, size.w, size.h)?;
    push_text(piece, line.as_str())
}

/// Adds the line that asks a window to close.
fn push_kill(alloc: Global, piece: &mut Vec<u8>, con: ConId, number: u64) -> Result<(), NoMemory>
    ensures { OnOk result (piece.new.items ≡ piece.old.items ++ want_text (wanted.Kill con number)) }
{
    let line = format!(in alloc; "kill {} {number}\n", con.0)?;
    push_text(piece, line.as_str())
}
