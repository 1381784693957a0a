//! Placing a part.
ghost use Rattle.std.specs.Prelude.{◌≡◌, ◌++◌, OnOk};
ghost use Rattle.wm_arrange.specs.Parts.{placed};

use crate::parts::{Placed, PlacedPart};
use wm_base::{ConId, NoMemory, Rect};

/// Adds a part, unless its rectangle is empty.
pub fn place(
    parts: &mut Vec<Placed>,
    con: ConId,
    part: PlacedPart,
    rect: Rect,
) -> Result<(), NoMemory>
    ensures { OnOk result (parts.new.items ≡ parts.old.items ++ placed con part rect) }
{
    if rect.w == 0 || rect.h == 0 {
        return Ok(());
    }
    parts.push(Placed { con, part, rect })?;
    Ok(())
}
