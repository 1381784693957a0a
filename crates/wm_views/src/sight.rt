//! A tree with its arrangement, and what is looked up in them by id.
ghost use Rattle.std.specs.Prelude.{◌≡◌, IfOk};
ghost use Rattle.wm_forest.specs.Look.{same};
ghost use Rattle.wm_forest.specs.Recency.{lists};
ghost use Rattle.wm_tree.specs.TreeValue.{focused};
ghost use Rattle.wm_base.specs.declared.ids.ConId.{ConId};
ghost use Rattle.wm_views.specs.Maps.{area, rect_at, rect_kept, value_at};
ghost use Rattle.wm_views.specs.declared.maps.Wanted.TheVariants.{Areas, Contents, Titles};
ghost use Rattle.wm_views.specs.Recency.{place_of};
ghost use Rattle.wm_views.specs.Sight.{IsSight};

use crate::maps::{NodeRects, Wanted, rect_at, rects};
use std::alloc::Global;
use wm_arrange::{Arrangement, id_set, places_of};
use wm_base::{ConId, NoMemory, Rect};
use wm_ids::IdMap;
use wm_tree::Tree;

/// The rectangles of an arrangement by id, and the places of ids in the list by recency.
#[derive(Drop)]
pub struct SightMaps {
    pub rects: IdMap<NodeRects>,
    pub places: IdMap<usize>,
}

/// A tree with its arrangement, its focused workspace, and the ids of the urgent windows. The focused node is looked for
/// where it is not kept. What else is looked up by id is in maps, where there are any, and else looked for.
#[derive(Drop)]
pub struct Sight<'a> {
    pub tree: &'a Tree,
    pub arrangement: &'a Arrangement,
    pub focused: Option<ConId>,
    pub shown: ConId,
    pub urgent: IdMap<()>,
    pub maps: Option<SightMaps>,
}

impl<'a> Sight<'a> {
    /// A tree and its arrangement of which only workspaces are looked at: no maps are made, and no focused node is kept.
    pub fn bare(
        alloc: Global,
        tree: &'a Tree,
        arrangement: &'a Arrangement,
    ) -> Result<Sight<'a>, NoMemory>
        ensures sight { IfOk result (λ sight. IsSight sight) }
        ensures tree { IfOk result (λ sight. sight.tree.now ≡ tree.now) }
        ensures parts { IfOk result (λ sight. sight.arrangement.now ≡ arrangement.now) }
    {
        let urgent = id_set(alloc, tree.urgent_ids())?;
        Ok(Sight {
            tree,
            arrangement,
            focused: None,
            shown: tree.shown(),
            urgent,
            maps: None,
        })
    }

    /// A tree and its arrangement in which few ids are looked up: no maps are made.
    pub fn plain(
        alloc: Global,
        tree: &'a Tree,
        arrangement: &'a Arrangement,
    ) -> Result<Sight<'a>, NoMemory>
        ensures sight { IfOk result (λ sight. IsSight sight) }
        ensures tree { IfOk result (λ sight. sight.tree.now ≡ tree.now) }
        ensures parts { IfOk result (λ sight. sight.arrangement.now ≡ arrangement.now) }
    {
        let mut sight = Sight::bare(alloc, tree, arrangement)?;
        sight.focused = Some(tree.focused());
        Ok(sight)
    }

    /// A tree and its arrangement in which many ids are looked up.
    pub fn new(
        alloc: Global,
        tree: &'a Tree,
        arrangement: &'a Arrangement,
    ) -> Result<Sight<'a>, NoMemory>
        ensures sight { IfOk result (λ sight. IsSight sight) }
        ensures tree { IfOk result (λ sight. sight.tree.now ≡ tree.now) }
        ensures parts { IfOk result (λ sight. sight.arrangement.now ≡ arrangement.now) }
    {
        let rects = rects(alloc, arrangement.parts.items())?;
        let places = places_of(alloc, tree.recent_ids())?;
        let mut sight = Sight::plain(alloc, tree, arrangement)?;
        sight.maps = Some(SightMaps { rects, places });
        Ok(sight)
    }

    fn rect(&self, wanted: Wanted, id: ConId) -> Option<Rect>
        requires { IsSight self.now }
        ensures { result ≡ rect_at wanted id self.now.arrangement.now.parts }
    {
        match &self.maps {
            Some(maps) => kept_rect(maps, wanted, id),
            None => rect_at(wanted, id, self.arrangement.parts.items()),
        }
    }

    /// The area of a node, without pixels at 0,0 where it is not placed.
    pub fn area(&self, id: ConId) -> Rect
        requires { IsSight self.now }
        ensures { result ≡ area self.now.arrangement.now.parts id }
    {
        match self.rect(Wanted::Areas, id) {
            Some(rect) => rect,
            None => Rect {
                x: 0,
                y: 0,
                w: 0,
                h: 0,
            },
        }
    }

    /// Whether the id is that of the focused node.
    pub fn is_focused(&self, id: ConId) -> bool
        requires { IsSight self.now }
        ensures { result ≡ same id (focused self.now.tree.now) }
    {
        match self.focused {
            Some(focused) => id == focused,
            None => id == self.tree.focused(),
        }
    }

    /// Whether the id is that of an urgent window.
    pub fn is_urgent(&self, id: ConId) -> bool
        requires { IsSight self.now }
        ensures { result ≡ lists id self.now.tree.now.urgent }
    {
        self.urgent.get(id.0).is_some()
    }

    /// The place of an id in the list by recency, or the list's length where it is not there.
    pub fn place(&self, id: ConId) -> usize
        requires { IsSight self.now }
        ensures { result ≡ place_of id self.now.tree.now.recency }
    {
        let found = match &self.maps {
            Some(maps) => maps.places.get(id.0).copied(),
            None => self.tree.recent_place(id),
        };
        match found {
            Some(place) => place,
            None => self.tree.recent_ids().len(),
        }
    }

    /// The title of a node, where it has one.
    pub fn title(&self, id: ConId) -> Option<Rect>
        requires { IsSight self.now }
        ensures { result ≡ rect_at Titles id self.now.arrangement.now.parts }
    {
        self.rect(Wanted::Titles, id)
    }

    /// The content of a window, where it is placed.
    pub fn content(&self, id: ConId) -> Option<Rect>
        requires { IsSight self.now }
        ensures { result ≡ rect_at Contents id self.now.arrangement.now.parts }
    {
        self.rect(Wanted::Contents, id)
    }
}

/// The rectangle that the maps have of a node.
fn kept_rect(maps: &SightMaps, wanted: Wanted, id: ConId) -> Option<Rect>
    ensures { result ≡ rect_kept wanted (value_at maps.now.rects id) }
{
    match maps.rects.get(id.0) {
        Some(rects) => rects.rect(wanted),
        None => None,
    }
}
