//! The tree: its nodes, the order of recency, the urgent windows, the next id, and what new nodes get.
ghost use Rattle.std.specs.Prelude.{◌≡◌, ◌≤◌, ◌<◌, ◌+◌, ◌∷◌, [], IfSome, MatchOption, OnSome, true, length, slice_get};
ghost use Rattle.std.specs.Option.{option_copied};
ghost use Rattle.wm_forest.specs.Forest.{Forest, end, con};
ghost use Rattle.wm_forest.specs.Holding.{is_held};
ghost use Rattle.wm_forest.specs.Look.{node_in, con_kind, first_floats, first_kids, first_marks, has, kind_of, nth_id, only, output_kind, space_kind};
ghost use Rattle.wm_forest.specs.Row.{alone, row_of};
ghost use Rattle.wm_tree.specs.Sound.{IsSound};
ghost use Rattle.wm_tree.specs.TreeValue.{current, current_in, focused, focused_child, leaf, parent, shown, shown_space, spot, workspace_of};
ghost use Rattle.wm_forest.specs.Focus.{floating_row, focused_in, floats_by, tiled_by, tiled_kids};

use std::alloc::Global;
use std::marker::Model;
use wm_base::{Border, ConId, Text};
use wm_forest::{
    Cell, ConPart, Cursor, NodeKind, OutputPart, ROOT, Row, SpacePart, Spot, TOP, recency,
};

/// The container tree of a desktop.
#[derive(Drop)]
pub struct Tree {
    pub(crate) alloc: Global,
    pub(crate) nodes: Row,
    pub(crate) recency: Vec<ConId>,
    pub(crate) urgent: Vec<ConId>,
    pub(crate) previous: Option<Text>,
    pub(crate) next_id: u32,
    pub(crate) border: Border,
    pub(crate) inner: u32,
    pub(crate) outer: u32,
    pub(crate) spare: Box<Cell>,
}

impl Model for Tree {
    ghost use Rattle.wm_tree.specs.TreeValue.{TreeValue, tree_code};

    ghost Value = { TreeValue };

    ghost coded = { tree_code };

    ghost view = { λ t. record { nodes = t.nodes; recency = t.recency.items; urgent = t.urgent.items; previous = t.previous; next_id = t.next_id; border = t.border; inner = t.inner; outer = t.outer } };
}

impl Tree {
    /// The output with this id. `None` exactly where the id names no output.
    pub fn output(&self, con: ConId) -> Option<&OutputPart>
        ensures { option_copied result ≡ kind_of output_kind con self.now.nodes }
    {
        match self.nodes.find(con)?.part.kind {
            NodeKind::Output(ref part) => Some(part),
            NodeKind::Root { .. } | NodeKind::Space(_) | NodeKind::Con(_) => None,
        }
    }

    /// The workspace with this id. `None` exactly where the id names no workspace.
    pub fn space(&self, con: ConId) -> Option<&SpacePart>
        ensures { option_copied result ≡ kind_of space_kind con self.now.nodes }
    {
        match self.nodes.find(con)?.part.kind {
            NodeKind::Space(ref part) => Some(part),
            NodeKind::Root { .. } | NodeKind::Output(_) | NodeKind::Con(_) => None,
        }
    }

    /// The container with this id. `None` exactly where the id names no container.
    pub fn container(&self, con: ConId) -> Option<&ConPart>
        ensures part { option_copied result ≡ kind_of con_kind con self.now.nodes }
        ensures there { OnSome result (has con self.now.nodes ≡ true) }
    {
        match self.nodes.find(con)?.part.kind {
            NodeKind::Con(ref part) => Some(part),
            NodeKind::Root { .. } | NodeKind::Output(_) | NodeKind::Space(_) => None,
        }
    }

    /// The child with this number, from 0: an output of the root, a workspace of an output, else a tiled child.
    pub fn child(&self, con: ConId, i: u32) -> Option<ConId>
        ensures { result ≡ nth_id i (first_kids (only con self.now.nodes)) }
    {
        self.nodes.find(con)?.kids.nth(i)
    }

    /// The floating window of a workspace with this number, from 0.
    pub fn floating(&self, w: ConId, i: u32) -> Option<ConId>
        ensures { result ≡ nth_id i (floating_row (only w self.now.nodes)) }
    {
        let cell = self.nodes.find(w)?;
        match cell.part.kind {
            NodeKind::Space(_) => cell.floats.nth(i),
            NodeKind::Root { .. } | NodeKind::Output(_) | NodeKind::Con(_) => None,
        }
    }

    /// The window in the scratchpad with this number, from 0.
    pub fn scratchpad(&self, i: u32) -> Option<ConId>
        ensures { result ≡ nth_id i (first_floats self.now.nodes) }
    {
        match &self.nodes.first {
            None => None,
            Some(root) => root.floats.nth(i),
        }
    }

    /// The id with this number, from 0, in the list by recency.
    pub fn recent(&self, i: u32) -> Option<ConId>
        ensures { result ≡ slice_get self.now.recency i }
    {
        self.recency.get(i as usize).copied()
    }

    /// The urgent window with this number, from 0, in the order they became so.
    pub fn urgent(&self, i: u32) -> Option<ConId>
        ensures { result ≡ slice_get self.now.urgent i }
    {
        self.urgent.get(i as usize).copied()
    }

    /// The node's mark with this number, from 0, in the order they were added.
    pub fn mark(&self, con: ConId, i: u32) -> Option<&Text>
        ensures { option_copied result ≡ slice_get (first_marks (only con self.now.nodes)) i }
    {
        let cell = self.nodes.find(con)?;
        cell.part.marks.items().get(i as usize)
    }

    /// The current output.
    pub fn current(&self) -> ConId
        ensures { result ≡ current self.now }
    {
        match &self.nodes.first {
            None => ROOT,
            Some(root) => root.part.kind.current(),
        }
    }

    /// The name of the previous workspace.
    pub fn previous(&self) -> Option<&Text>
        ensures { option_copied result ≡ self.now.previous }
    {
        self.previous.as_ref()
    }

    /// The id that the next node gets.
    pub fn next_id(&self) -> u32
        ensures { result ≡ self.now.next_id }
    {
        self.next_id
    }

    /// The row of the root: its children are the outputs.
    pub fn nodes(&self) -> Cursor<'_>
        ensures { result ≡ self.now.nodes }
    {
        Cursor::at(&self.nodes)
    }

    /// The border of new containers, and the inner and outer gap of new workspaces.
    pub fn defaults(&self) -> (Border, u32, u32)
        ensures { result ≡ (self.now.border, self.now.inner, self.now.outer) }
    {
        (self.border, self.inner, self.outer)
    }

    /// Where the node stands. `None` exactly where the id is not in the tree.
    pub(crate) fn spot(&self, con: ConId) -> Option<Spot>
        ensures { result ≡ spot self.now con }
    {
        self.nodes.spot(TOP, con)
    }

    /// The node that holds this one among its children or floating windows. Nothing holds the root, nor the windows
    /// in the scratchpad.
    pub fn parent(&self, con: ConId) -> Option<ConId>
        ensures value { result ≡ parent self.now con }
        ensures holds { IsSound self.now → IfSome result (λ p. is_held con p self.now.nodes ≡ true) }
    {
        self.spot(con)?.holder
    }

    /// The workspace of the node; a workspace's own is itself. `None` for other nodes, and in the scratchpad.
    pub fn workspace_of(&self, con: ConId) -> Option<ConId>
        ensures { result ≡ workspace_of self.now con }
    {
        self.spot(con)?.space
    }

    /// The tiled child of the node that is the most recent, by itself or what is below it.
    pub fn focused_child(&self, con: ConId) -> Option<ConId>
        ensures { result ≡ focused_child self.now con }
    {
        let cell = self.nodes.find(con)?;
        match cell.part.kind {
            NodeKind::Space(_) | NodeKind::Con(_) => cell.kids.focused(&self.recency),
            NodeKind::Root { .. } | NodeKind::Output(_) => None,
        }
    }

    /// The node of the row that is the most recent, by itself or what is below it.
    pub fn focused_in(&self, row: &Cursor<'_>) -> Option<ConId>
        ensures { result ≡ focused_in self.now.recency row.now }
    {
        row.focused(&self.recency)
    }

    /// The node that is reached from this one by the focused child until there is none.
    pub fn leaf(&self, con: ConId) -> Option<ConId>
        ensures value { result ≡ leaf self.now con }
        ensures ends { IsSound self.now → IfSome result (λ d. tiled_kids (only d self.now.nodes) ≡ end) }
    {
        self.leaf_from(con)
    }

    /// The node that is reached from this one by the focused child until there is none.
    #[tactic(auto, using(wm_forest::proofs::ForestLemmas::first_held_end))]
    fn leaf_from(&self, con: ConId) -> Option<ConId>
        ensures { result ≡ leaf self.now con }
    {
        let cell = self.nodes.find(con)?;
        match cell.part.kind {
            NodeKind::Space(_) | NodeKind::Con(_) => Some(cell.leaf(&self.recency)),
            NodeKind::Root { .. } | NodeKind::Output(_) => Some(cell.part.id),
        }
    }

    /// The cell of the output in the row of outputs.
    fn output_cell(&self, output: ConId) -> Option<&Cell>
        ensures { MatchOption result (node_in output (first_kids self.now.nodes) ≡ end)
            (λ cell. node_in output (first_kids self.now.nodes) ≡ row_of cell.now) }
    {
        match &self.nodes.first {
            None => None,
            Some(root) => root.kids.node(output),
        }
    }

    /// The cell of the workspace that the current output shows.
    fn shown_space(&self) -> Option<&Cell>
        ensures { MatchOption result (shown_space self.now ≡ end)
            (λ cell. shown_space self.now ≡ alone cell.now) }
    {
        self.output_cell(self.current())?.kids.node(self.shown())
    }

    /// The workspace that the current output shows.
    pub fn shown(&self) -> ConId
        ensures { result ≡ shown self.now }
    {
        let current = self.current();
        match self.output_cell(current) {
            Some(cell) => cell.part.kind.shown().unwrap_or(current),
            None => current,
        }
    }

    /// The focused node: the most recent one within the workspace that the current output shows, itself included.
    #[tactic(auto, using(wm_forest::proofs::ForestLemmas::first_held_end))]
    pub fn focused(&self) -> ConId
        ensures value { result ≡ focused self.now }
        ensures there { IsSound self.now → has result self.now.nodes ≡ true }
    {
        match self.shown_space() {
            Some(space) => recency::first_below(&self.recency, space).unwrap_or(self.shown()),
            None => self.shown(),
        }
    }
}
