//! Copies of a desk and of its plan.
ghost use Rattle.std.specs.Prelude.{◌≡◌, IfOk};
ghost use Rattle.wm_history.specs.Follows.{AreOwners};

use crate::desk::Desk;
use std::collections::BTreeMap;
use wm_base::{NoMemory, Text};
use wm_ids::IdMap;
use wm_kept::Kept;
use wm_layouts::Plan;
use wm_tree::Tree;
use wm_txn::Txn;

/// The parts of a desk but its tree and its transactions.
#[derive(Drop)]
struct Flat {
    plan: Plan,
    mode: Text,
    events: Kept,
    kills: BTreeMap<u32, u64>,
    owners: IdMap<u32>,
}

impl Desk {
    /// The plan with which the desk was opened.
    pub fn plan(&self) -> Result<Plan, NoMemory>
        ensures { IfOk result (λ plan. plan ≡ self.now.plan) }
    {
        Ok(self.plan.copy(self.alloc)?)
    }

    /// An equal desk, which stands for the same history.
    pub fn copy(&self) -> Result<Desk, NoMemory>
        ensures { IfOk result (λ desk. desk ≡ self.now) }
    {
        let flat = self.copy_flat()?;
        match self.copy_deep() {
            Ok((tree, txn)) => Ok(Desk {
                alloc: self.alloc,
                plan: flat.plan,
                steps: self.steps,
                tree,
                txn,
                mode: flat.mode,
                stopped: self.stopped,
                events: flat.events,
                kills: flat.kills,
                owners: flat.owners,
                windows: self.windows,
            }),
            Err(error) => {
                drop(flat);
                Err(error)
            }
        }
    }

    /// All but its tree and its transactions.
    fn copy_flat(&self) -> Result<Flat, NoMemory>
        ensures plan { IfOk result (λ flat. flat.plan ≡ self.now.plan) }
        ensures mode { IfOk result (λ flat. flat.mode ≡ self.now.mode) }
        ensures events { IfOk result (λ flat. flat.events ≡ self.now.events) }
        ensures kills { IfOk result (λ flat. flat.kills.entries ≡ self.now.kills) }
        ensures owners { IfOk result (λ flat. AreOwners flat.owners self.now.tree) }
    {
        let kills = self.kills.clone()?;
        let owners = self.owners.copy()?;
        let mode = self.mode.clone()?;
        let plan = self.plan.copy(self.alloc)?;
        match self.events.copy(self.alloc) {
            Ok(events) => Ok(Flat {
                plan,
                mode,
                events,
                kills,
                owners,
            }),
            Err(error) => {
                drop(plan);
                Err(error)
            }
        }
    }

    /// Its tree and its transactions.
    fn copy_deep(&self) -> Result<(Tree, Txn), NoMemory>
        ensures tree { IfOk result (λ copy. copy.0 ≡ self.now.tree) }
        ensures txn { IfOk result (λ copy. copy.1 ≡ self.now.txn) }
    {
        let tree = self.tree.copy()?;
        match self.txn.copy() {
            Ok(txn) => Ok((tree, txn)),
            Err(error) => {
                drop(tree);
                Err(error)
            }
        }
    }
}
