//! The outer rectangles of windows that float, and the numbers that a place may have.
ghost use Rattle.std.specs.Prelude.{◌≡◌};
ghost use Rattle.std.specs.Option.{option_copied};
ghost use Rattle.wm_shared.specs.Rects.{held, is_in_range, output_part_of, rect_of};

use crate::outputs::output_of;
use wm_base::{ConId, NOWHERE, Rect};
use wm_tree::{OutputPart, Tree};

/// The least and the greatest number of a place.
const LEAST: i64 = -131_072;

const GREATEST: i64 = 131_071;

/// Whether a place may have this number.
pub fn is_in_range(n: i64) -> bool
    ensures { result ≡ is_in_range n }
{
    LEAST <= n && n <= GREATEST
}

/// The nearest number that a place may have.
pub fn held(n: i64) -> i32
    ensures { result ≡ held n }
{
    if n < LEAST {
        LEAST as i32
    } else if n > GREATEST {
        GREATEST as i32
    } else {
        n as i32
    }
}

/// The output of a container or workspace, as it is.
pub fn output_part_of(t: &Tree, con: ConId) -> Option<&OutputPart>
    ensures { option_copied result ≡ output_part_of con t.now }
{
    t.output(output_of(t, con)?)
}

/// The outer rectangle of a floating window.
pub fn rect_of(t: &Tree, con: ConId) -> Rect
    ensures { result ≡ rect_of con t.now }
{
    match t.container(con) {
        Some(part) => part.state.rect.unwrap_or(NOWHERE),
        None => NOWHERE,
    }
}
