//! Changing rows: taking out, putting behind, and what raising and settling make of a row.
ghost use Rattle.std.specs.Prelude.{◌≡◌, false, true, if◌then◌else◌, is_some, MatchOption};
ghost use Rattle.wm_forest.specs.Change.{arriving, hole, in_place, placed, replaced, is_end, is_split, is_window_kind, shown_of, to_end, unfull, unfull_kind, without};
ghost use Rattle.wm_forest.specs.Counts.{but};
ghost use Rattle.wm_forest.specs.Forest.{end, con};
ghost use Rattle.wm_forest.specs.Look.{has, only, node_in, first_alone, rest_of};
ghost use Rattle.wm_forest.specs.Row.{alone, row_of};

use crate::edit::Change;
use crate::part::{ConKind, NodeKind, Part};
use crate::row::{Cell, Row};
use std::alloc::Global;
use std::mem;
use wm_base::{ConId, List, Rect};

impl NodeKind {
    /// Takes fullscreen from a container.
    fn clear_fullscreen(&mut self)
        ensures { self.new ≡ unfull_kind self.old }
    {
        if let NodeKind::Con(con) = self {
            con.state.fullscreen = false;
        }
    }

    /// Gives a container this share, and this outer rectangle where one is given.
    fn place(&mut self, share: u32, rect: Option<Rect>)
        ensures { self.new ≡ placed share rect self.old }
    {
        if let NodeKind::Con(con) = self {
            con.share = share;
            if rect.is_some() {
                con.state.rect = rect;
            }
        }
    }

    /// The workspace that an output shows. `None` exactly where this is no output.
    pub fn shown(&self) -> Option<ConId>
        ensures { result ≡ shown_of self.now }
    {
        match self {
            NodeKind::Output(output) => Some(output.shown),
            NodeKind::Root { .. } | NodeKind::Space(_) | NodeKind::Con(_) => None,
        }
    }
}

/// The id that no node has.
pub const NOBODY: ConId = ConId(0);

impl Cell {
    /// A cell that stands in a place while two containers change places.
    pub fn hole(alloc: Global) -> Cell
        ensures { alone result ≡ hole }
    {
        let part = Part {
            id: NOBODY,
            kind: NodeKind::Root { current: NOBODY },
            marks: List::of(Vec::new(alloc)),
        };
        Cell {
            part,
            kids: Row::new(),
            floats: Row::new(),
            rest: Row::new(),
        }
    }

    /// Makes this a cell that stands in a place while two containers change places.
    pub fn empty(&mut self, alloc: Global)
        ensures { alone self.new ≡ hole }
    {
        drop(mem::replace(self, Cell::hole(alloc)));
    }

    /// Takes fullscreen from the node and from what is below it, where they are not this one.
    #[cycle(unfull)]
    fn clear_fullscreen(&mut self, id: ConId)
        ensures { alone self.new ≡ unfull id (alone self.old) }
    {
        if self.part.id != id {
            self.part.kind.clear_fullscreen();
        }
        self.kids.clear_fullscreen(id);
        self.floats.clear_fullscreen(id);
    }

    /// Makes the node ready for its new place. From another workspace (`away`) it and what is below lose fullscreen.
    pub(crate) fn arrive(&mut self, share: u32, rect: Option<Rect>, away: bool)
        ensures row { row_of self.new ≡ arriving share rect away (row_of self.old) }
        ensures alone { alone self.new ≡ arriving share rect away (alone self.old) }
    {
        self.part.kind.place(share, rect);
        if away {
            self.part.kind.clear_fullscreen();
            self.kids.clear_fullscreen(NOBODY);
            self.floats.clear_fullscreen(NOBODY);
        }
    }

    /// Changes places with another node; each row keeps its rest.
    fn swap_with(&mut self, spare: &mut Cell)
        ensures here { row_of self.new ≡ con spare.old.part spare.old.kids spare.old.floats self.old.rest }
        ensures there { spare.new ≡ record spare.old { part = self.old.part; kids = self.old.kids; floats = self.old.floats } }
    {
        mem::swap(&mut self.part, &mut spare.part);
        mem::swap(&mut self.kids, &mut spare.kids);
        mem::swap(&mut self.floats, &mut spare.floats);
    }
}

impl ConKind {
    /// Whether this is a split.
    pub fn is_split(&self) -> bool
        ensures { result ≡ is_split self.now }
    {
        match self {
            ConKind::Split { .. } => true,
            ConKind::Window { .. } | ConKind::Placeholder { .. } => false,
        }
    }

    /// Whether this is a window.
    pub fn is_window(&self) -> bool
        ensures { result ≡ is_window_kind self.now }
    {
        match self {
            ConKind::Window { .. } => true,
            ConKind::Split { .. } | ConKind::Placeholder { .. } => false,
        }
    }
}

/// Taking a node out, and what was taken out.
#[derive(Drop)]
struct TakeOut(Row);

impl Change for TakeOut {
    ghost word = { λ x part kids floats rest. rest };

    ghost after = { λ x part kids floats. record { 0 = con part kids floats end } };

    fn make(&mut self, row: &mut Row) {
        if !row.is_end() {
            self.0 = row.take_first();
        }
    }
}

impl Change for Cell {
    ghost word = { λ x. in_place (alone x) };

    ghost after = { λ x part kids floats. record x { part = part; kids = kids; floats = floats } };

    fn make(&mut self, row: &mut Row) {
        if let Some(cell) = &mut row.first {
            cell.swap_with(self);
        }
    }
}

impl Row {
    /// Whether the row has no node.
    pub fn is_end(&self) -> bool
        ensures { result ≡ is_end self.now }
    {
        self.first.is_none()
    }

    /// Takes out the first node with all that is below it. Nothing where the row is at its end.
    pub fn take_first(&mut self) -> Row
        ensures taken { result ≡ first_alone self.old }
        ensures rest { self.new ≡ rest_of self.old }
    {
        match self.first.take() {
            None => Row::new(),
            Some(mut cell) => {
                mem::swap(self, &mut cell.rest);
                Row { first: Some(cell) }
            }
        }
    }

    /// Takes the node out with all that is below it. `None` exactly where it is not here.
    pub fn take_out(&mut self, id: ConId) -> Option<Row>
        ensures taken { MatchOption result (has id self.old ≡ false)
            (λ row. (has id self.old ≡ true) × (row ≡ only id self.old)) }
        ensures rest { self.new ≡ without id self.old }
    {
        let mut gone = TakeOut(Row::new());
        if !self.alter(id, &mut gone) {
            return None;
        }
        let TakeOut(row) = gone;
        Some(row)
    }

    /// Changes the node's place with that of the spare cell, where it is here. Says whether it is.
    pub(crate) fn swap(&mut self, id: ConId, spare: &mut Cell) -> bool
        ensures found { result ≡ has id self.old }
        ensures left { self.new ≡ replaced id (alone spare.old) self.old }
        ensures taken { alone spare.new ≡ (if has id self.old then only id self.old else alone spare.old) }
    {
        self.alter(id, spare)
    }

    /// Takes the node out of the row itself, with all that is below it.
    fn take_here(&mut self, id: ConId) -> Row
        ensures taken { result ≡ first_alone (node_in id self.old) }
        ensures rest { self.new ≡ but id self.old }
    {
        let mut done = Row::new();
        while let Some(cell) = &self.first
            && cell.part.id != id
        {
            self.pass(&mut done);
        }
        let taken = self.take_first();
        self.hang(done);
        taken
    }

    /// Puts the row's own node last, where it has it.
    #[tactic(auto, using(crate::proofs::ForestLemmas::to_end_absent))]
    pub fn put_at_end(&mut self, id: ConId)
        ensures { self.new ≡ to_end id self.old }
    {
        let taken = self.take_here(id);
        self.append(taken);
    }

    /// Takes fullscreen from every container but this one.
    #[cycle(unfull)]
    pub fn clear_fullscreen(&mut self, id: ConId)
        ensures { self.new ≡ unfull id self.old }
    {
        let mut done = Row::new();
        while let Some(mut cell) = self.pop() {
            cell.clear_fullscreen(id);
            done.push(cell);
        }
        self.hang(done);
    }
}
