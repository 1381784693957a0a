//! Maps from ids to what is looked up.
ghost use Rattle.std.specs.Prelude.{◌≡◌, IfOk, OnOk};
ghost use Rattle.std.specs.Option.{option_or};
ghost use Rattle.wm_base.specs.declared.ids.ConId.{ConId};
ghost use Rattle.wm_views.specs.Maps.{is_wanted, of_node, or_unplaced, put_at, rect_at, rect_in, rect_kept, rect_of, value_at};
ghost use Rattle.wm_views.specs.declared.maps.Wanted.{Wanted};
ghost use Rattle.wm_views.specs.declared.maps.Wanted.TheVariants.{Areas, Contents, Titles};

use std::alloc::Global;
use wm_arrange::{Placed, PlacedPart};
use wm_base::{ConId, NoMemory, Rect};
use wm_ids::IdMap;

/// Which parts' rectangles are looked up.
#[derive(Clone, Copy, Debug)]
pub enum Wanted {
    Areas,
    Titles,
    Contents,
}

/// The area, the title and the content of a node, each where it is placed.
#[derive(Clone, Copy, Debug)]
pub struct NodeRects {
    pub area: Option<Rect>,
    pub title: Option<Rect>,
    pub content: Option<Rect>,
}

impl NodeRects {
    /// The rectangle that is wanted.
    pub fn rect(&self, wanted: Wanted) -> Option<Rect>
        ensures { result ≡ rect_in wanted self.now }
    {
        match wanted {
            Wanted::Areas => self.area,
            Wanted::Titles => self.title,
            Wanted::Contents => self.content,
        }
    }

    /// With a part's rectangle, unless it has one of such a part.
    #[tactic(auto, using(crate::proofs::MapLemmas::or_none))]
    fn with_part(self, placed: &Placed) -> NodeRects
        ensures area { result.area ≡ option_or self.area (rect_of Areas placed.now) }
        ensures title { result.title ≡ option_or self.title (rect_of Titles placed.now) }
        ensures content { result.content ≡ option_or self.content (rect_of Contents placed.now) }
    {
        let mut rects = self;
        let rect = Some(placed.rect);
        match placed.part {
            PlacedPart::Area => rects.area = rects.area.or(rect),
            PlacedPart::Title { .. } => rects.title = rects.title.or(rect),
            PlacedPart::Content => rects.content = rects.content.or(rect),
            PlacedPart::Back | PlacedPart::Border { .. } => {}
        }
        rects
    }
}

/// The rectangles of all nodes by id.
#[tactic(auto, using(crate::proofs::MapLemmas::or_assoc))]
pub fn rects(alloc: Global, parts: &[Placed]) -> Result<IdMap<NodeRects>, NoMemory>
    ensures { IfOk result (λ map. (w : Wanted) (c : ConId) → rect_kept w (value_at map c) ≡ rect_at w c parts.now) }
{
    let mut map = IdMap::new(alloc);
    let mut rest = parts;
    while let [placed, after @ ..] = rest {
        keep(&mut map, placed)?;
        rest = after;
    }
    Ok(map)
}

/// Keeps a part's rectangle, unless one of such a part of its node is kept.
fn keep(map: &mut IdMap<NodeRects>, placed: &Placed) -> Result<(), NoMemory>
    ensures { (w : Wanted) (c : ConId) → OnOk result (rect_kept w (value_at map.new c) ≡ option_or (rect_kept w (value_at map.old c)) (of_node c placed.now.con (rect_of w placed.now))) }
{
    let rects = held(map, placed.con).with_part(placed);
    put(map, placed.con, rects)
}

/// What is kept of a node.
fn held(map: &IdMap<NodeRects>, id: ConId) -> NodeRects
    ensures { result ≡ or_unplaced (value_at map.now id) }
{
    match map.get(id.0) {
        Some(rects) => *rects,
        None => NodeRects {
            area: None,
            title: None,
            content: None,
        },
    }
}

fn put(map: &mut IdMap<NodeRects>, id: ConId, rects: NodeRects) -> Result<(), NoMemory>
    ensures { (c : ConId) → OnOk result (value_at map.new c ≡ put_at id rects c (value_at map.old c)) }
{
    map.insert(id.0, rects)?;
    Ok(())
}

/// The rectangle of the first wanted part of a node, looked for part by part.
pub fn rect_at(wanted: Wanted, id: ConId, parts: &[Placed]) -> Option<Rect>
    ensures { result ≡ rect_at wanted id parts.now }
{
    let mut rest = parts;
    while let [placed, after @ ..] = rest {
        if placed.con == id && is_wanted(wanted, &placed.part) {
            return Some(placed.rect);
        }
        rest = after;
    }
    None
}

fn is_wanted(wanted: Wanted, part: &PlacedPart) -> bool
    ensures { result ≡ is_wanted wanted part.now }
{
    match (wanted, part) {
        (Wanted::Areas, PlacedPart::Area)
        | (Wanted::Titles, PlacedPart::Title { .. })
        | (Wanted::Contents, PlacedPart::Content) => true,
        _ => false,
    }
}
