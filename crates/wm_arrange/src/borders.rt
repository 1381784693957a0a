//! Placing what a window has in its area.
ghost use Rattle.std.specs.Prelude.{◌≡◌, ◌≤◌, ◌++◌, IfSome, OnOk};
ghost use Rattle.wm_arrange.specs.Areas.{some_area, IsArea, IsFitMargins};
ghost use Rattle.wm_arrange.specs.Borders.{below_title, border_part, width, window_parts, within_border};
ghost use Rattle.wm_arrange.specs.Scene.{seen, IsScene};
ghost use Rattle.wm_forest.specs.Counts.{row_length};

use crate::areas::{Margins, below, some_area, trim};
use crate::parts::{Placed, PlacedPart};
use crate::placing::place;
use crate::scene::Scene;
use crate::titles::{TITLE_HEIGHT, place_own_title};
use wm_base::{Border, NoMemory, Rect};
use wm_tree::{Cursor, Part};

/// Places the title, the border and the content of a window in its area: nothing where its content is empty.
pub fn place_window(
    parts: &mut Vec<Placed>,
    scene: &Scene<'_>,
    own: bool,
    part: &Part,
    kids: &Cursor<'_>,
    border: Border,
    area: Rect,
) -> Result<(), NoMemory>
    requires scene { IsScene scene.now }
    requires area { IsArea area }
    requires few { row_length kids.now ≤ 256 }
    ensures { OnOk result (parts.new.items ≡ parts.old.items ++ window_parts (seen scene.now) own part.now kids.now border area) }
{
    let Some(rect) = below_title(own, border, area) else {
        return Ok(());
    };
    let Some(content) = within_border(border, rect) else {
        return Ok(());
    };
    place_own_title(parts, scene, own, part, kids, border, area)?;
    place_border(parts, scene, part, border, rect)?;
    place(parts, part.id, PlacedPart::Content, content)
}

/// What the title leaves of a window's area. `None` where nothing is.
fn below_title(own: bool, border: Border, area: Rect) -> Option<Rect>
    requires area { IsArea area }
    ensures value { result ≡ some_area (below_title own border area) }
    ensures area { IfSome result (λ area. IsArea area) }
{
    match border {
        Border::Normal(_) if own => below(TITLE_HEIGHT, area),
        Border::Normal(_) | Border::Pixel(_) | Border::Bare => some_area(area),
    }
}

/// What the border leaves to the content. `None` where nothing is.
fn within_border(border: Border, rect: Rect) -> Option<Rect>
    requires area { IsArea rect }
    ensures { result ≡ some_area (within_border border rect) }
{
    match border {
        Border::Normal(width) => trim(rect, margins(0, width)),
        Border::Pixel(width) => trim(rect, margins(width, width)),
        Border::Bare => some_area(rect),
    }
}

/// So many pixels at the top, and so many at each other side.
fn margins(top: u32, side: u32) -> Margins
    ensures value { result ≡ record { top = top; right = side; bottom = side; left = side } }
    ensures fit { IsFitMargins result }
{
    let side = u64::from(side);
    Margins {
        top: u64::from(top),
        right: side,
        bottom: side,
        left: side,
    }
}

/// Places the border of a window, unless it has no width.
fn place_border(
    parts: &mut Vec<Placed>,
    scene: &Scene<'_>,
    part: &Part,
    border: Border,
    rect: Rect,
) -> Result<(), NoMemory>
    requires scene { IsScene scene.now }
    ensures { OnOk result (parts.new.items ≡ parts.old.items ++ border_part (seen scene.now) part.now border rect) }
{
    if width(border) == 0 {
        return Ok(());
    }
    let ink = scene.ink(part.id);
    place(parts, part.id, PlacedPart::Border { ink }, rect)
}

fn width(border: Border) -> u32
    ensures { result ≡ width border }
{
    match border {
        Border::Normal(width) | Border::Pixel(width) => width,
        Border::Bare => 0,
    }
}
