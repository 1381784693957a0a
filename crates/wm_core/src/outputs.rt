//! Outputs that come and go, and the edges that bars reserve of them.
ghost use Rattle.wm_history.specs.Act.{OutputAdd, OutputRemove, Reserve};
ghost use Rattle.std.specs.Prelude.{◌<◌, ◌^◌};
ghost use Rattle.wm_core.specs.Steps.{Takes};

use crate::desk::Desk;
use wm_base::{Edges, NoMemory, OutputPlan, Refusal, Text};
use wm_history::{Answer, output_named};
use wm_layouts::is_fit_rect;
use wm_spaces::{output_added, output_removed};

impl Desk {
    /// Adds an output, where its name is free, its rectangle within the limits, and there is room for it.
    pub(crate) fn add_output(&mut self, who: u32, plan: &OutputPlan) -> Result<Answer, NoMemory>
        requires few { self.old.steps < 2 ^ 48 }
        ensures { Takes self.old self.new result (record { who = who; act = OutputAdd plan.now }) }
    {
        if output_named(&self.tree, &plan.name)?.is_some() {
            return Ok(self.stay(Answer::NameTaken));
        }
        if !is_fit_rect(plan.rect) {
            return Ok(self.stay(Answer::BadRect));
        }
        let mut tree = self.tree.copy()?;
        match output_added(self.alloc, &mut tree, plan) {
            Ok(()) => self.finish(tree),
            Err(Refusal::Full { limit }) => {
                drop(tree);
                Ok(self.stay(Answer::Full(limit)))
            }
            Err(Refusal::NoMemory) => {
                drop(tree);
                Err(NoMemory)
            }
            Err(Refusal::NameTaken) => unreachable!(),
            Err(Refusal::NoTarget(_)) => unreachable!(),
        }
    }

    /// Removes the output of this name, where it is not the only one.
    pub(crate) fn remove_output(&mut self, who: u32, name: &Text) -> Result<Answer, NoMemory>
        requires few { self.old.steps < 2 ^ 48 }
        ensures { Takes self.old self.new result (record { who = who; act = OutputRemove name.now }) }
    {
        let mut tree = self.tree.copy()?;
        match output_removed(&mut tree, name) {
            Ok(()) => self.finish(tree),
            Err(Refusal::NoTarget(_)) => {
                drop(tree);
                Ok(self.stay(Answer::NoTarget))
            }
            Err(Refusal::NoMemory) => {
                drop(tree);
                Err(NoMemory)
            }
            Err(Refusal::NameTaken | Refusal::Full { .. }) => unreachable!(),
        }
    }

    /// Reserves the edges of the output of this name.
    pub(crate) fn reserve(
        &mut self,
        who: u32,
        name: &Text,
        edges: Edges,
    ) -> Result<Answer, NoMemory>
        requires few { self.old.steps < 2 ^ 48 }
        ensures { Takes self.old self.new result (record { who = who; act = Reserve name.now edges }) }
    {
        let Some(output) = output_named(&self.tree, name)? else {
            return Ok(self.stay(Answer::NoTarget));
        };
        let mut tree = self.tree.copy()?;
        tree.set_reserved(output, edges);
        self.finish(tree)
    }
}
