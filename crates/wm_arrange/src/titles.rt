//! Placing titles: above a window, or above the children of a container.
ghost use Rattle.std.specs.Prelude.{◌≡◌, ◌+◌, ◌≤◌, ◌++◌, OnOk};
ghost use Rattle.wm_forest.specs.Counts.{row_length};
ghost use Rattle.wm_forest.specs.Look.{first_kids};
ghost use Rattle.wm_arrange.specs.Areas.{IsArea};
ghost use Rattle.wm_arrange.specs.Scene.{seen, IsScene};
ghost use Rattle.wm_arrange.specs.Slots.{line_at, FitsLines, IsTiledRow};
ghost use Rattle.wm_arrange.specs.Titles.{kids_titles, own_title, title_part, titles};

use crate::areas::{cut_between, lower, upper};
use crate::parts::{Placed, PlacedPart};
use crate::placing::place;
use crate::rows::count;
use crate::scene::Scene;
use crate::texts::title_text;
use wm_base::{Axis, Border, Layout, NoMemory, Rect};
use wm_tree::{Cursor, Part};

/// The height of a title in pixels.
pub const TITLE_HEIGHT: u32 = 20;

/// Places the title of a container.
fn place_title(
    parts: &mut Vec<Placed>,
    scene: &Scene<'_>,
    part: &Part,
    kids: &Cursor<'_>,
    rect: Rect,
) -> Result<(), NoMemory>
    requires scene { IsScene scene.now }
    requires few { row_length kids.now ≤ 256 }
    ensures { OnOk result (parts.new.items ≡ parts.old.items ++ title_part (seen scene.now) part.now kids.now rect) }
{
    if rect.w == 0 || rect.h == 0 {
        return Ok(());
    }
    let text = title_text(scene.alloc, part, kids)?;
    let ink = scene.ink(part.id);
    place(parts, part.id, PlacedPart::Title { ink, text }, rect)
}

/// Places the title of a window or placeholder that has its own, at the top of its area.
pub fn place_own_title(
    parts: &mut Vec<Placed>,
    scene: &Scene<'_>,
    own: bool,
    part: &Part,
    kids: &Cursor<'_>,
    border: Border,
    area: Rect,
) -> Result<(), NoMemory>
    requires scene { IsScene scene.now }
    requires few { row_length kids.now ≤ 256 }
    ensures { OnOk result (parts.new.items ≡ parts.old.items ++ own_title (seen scene.now) own part.now kids.now border area) }
{
    match border {
        Border::Normal(_) if own => place_title(
            parts,
            scene,
            part,
            kids,
            upper(TITLE_HEIGHT, area),
        ),
        Border::Normal(_) | Border::Pixel(_) | Border::Bare => Ok(()),
    }
}

/// How the titles of children stand: a tab of one line for each of so many, or a line for each.
#[derive(Clone, Copy, Debug)]
pub enum Lines {
    Tabs { count: u32 },
    Stack,
}

impl Lines {
    /// The place of the title of a child with this number, from 0.
    fn at(self, area: Rect, i: u32) -> Rect
        requires area { IsArea area }
        requires few { i + 1 ≤ 256 }
        requires fit { FitsLines self (i + 1) }
        ensures { result ≡ line_at self area i }
    {
        match self {
            Lines::Tabs { count } => {
                let line = upper(TITLE_HEIGHT, area);
                let before = u64::from(i);
                cut_between(Axis::Across, line, before, before + 1, u64::from(count))
            }
            Lines::Stack => upper(TITLE_HEIGHT, lower(TITLE_HEIGHT * i, area)),
        }
    }
}

/// Places the titles of the children of the row's first node, a container with this layout, in its area.
pub fn place_kids_titles(
    parts: &mut Vec<Placed>,
    scene: &Scene<'_>,
    layout: Layout,
    area: Rect,
    row: &Cursor<'_>,
) -> Result<(), NoMemory>
    requires scene { IsScene scene.now }
    requires few { row_length (first_kids row.now) ≤ 256 }
    requires sound { IsTiledRow (first_kids row.now) }
    requires area { IsArea area }
    ensures { OnOk result (parts.new.items ≡ parts.old.items ++ kids_titles (seen scene.now) layout area (first_kids row.now)) }
{
    match layout {
        Layout::SplitH | Layout::SplitV => Ok(()),
        Layout::Tabbed => {
            let count = count(&row.kids());
            place_titles(parts, scene, Lines::Tabs { count }, area, row.kids())
        }
        Layout::Stacked => place_titles(parts, scene, Lines::Stack, area, row.kids()),
    }
}

/// Places the titles of a row of children.
#[tactic(auto, using(crate::proofs::TreeLemmas::tiled_kids, crate::proofs::TreeLemmas::tiled_rest))]
fn place_titles(
    parts: &mut Vec<Placed>,
    scene: &Scene<'_>,
    lines: Lines,
    area: Rect,
    row: Cursor<'_>,
) -> Result<(), NoMemory>
    requires scene { IsScene scene.now }
    requires few { row_length row ≤ 256 }
    requires sound { IsTiledRow row }
    requires fit { FitsLines lines (row_length row) }
    requires area { IsArea area }
    ensures { OnOk result (parts.new.items ≡ parts.old.items ++ titles (seen scene.now) (line_at lines area) 0 row.entry) }
{
    let mut i = 0;
    let mut left = row;
    while let Some(part) = left.part() {
        place_title(parts, scene, part, &left.kids(), lines.at(area, i))?;
        i += 1;
        left = left.rest();
    }
    Ok(())
}
