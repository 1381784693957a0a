//! Changing the states of all containers.
ghost use Rattle.std.specs.Prelude.{◌≡◌};
ghost use Rattle.wm_base.specs.declared.ids.ConId.{ConId};
ghost use Rattle.wm_forest.specs.Each.{mapped};
ghost use Rattle.wm_forest.specs.declared.part.ConPart.{ConPart};
ghost use Rattle.wm_forest.specs.declared.part.ConState.{ConState};
ghost use Rattle.wm_tree.specs.Sound.{IsSound};
ghost use Rattle.wm_tree.specs.States.{part_restated};

use crate::tree::Tree;
use wm_base::ConId;
use wm_forest::{ConPart, ConState, EachPart, NodeKind, Part};

/// A change of the states of containers.
pub trait StateChange {
    /// What the change makes of the state of the container with this id.
    ghost word: { Self → ConId → ConPart → ConState };

    /// The container's state after the change.
    fn state(&self, id: ConId, con: &ConPart) -> ConState
        ensures { result ≡ word self.now id con.now };
}

/// Changing the states of containers.
#[derive(Drop)]
struct Restate<'a, C: StateChange>(&'a C);

impl<'a, C: StateChange> EachPart for Restate<'a, C> {
    ghost word = { λ x. part_restated (C.word x.0.now) };

    fn change(&self, part: &mut Part) {
        if let NodeKind::Con(con) = &mut part.kind {
            con.state = self.0.state(part.id, con);
        }
    }
}

impl Tree {
    /// Changes the state of each container, in one walk. It is the caller's to give a change that makes no second window
    /// of a workspace fullscreen, and that leaves a rectangle to what floats or is in the scratchpad.
    pub fn change_states<C: StateChange>(&mut self, change: &C)
        ensures tree { self.new ≡ record self.old { nodes = mapped (part_restated (C.word change.now)) self.old.nodes } }
        ensures sound { IsSound self.old → IsSound self.new }
    {
        self.nodes.change_each(&Restate(change));
    }
}
