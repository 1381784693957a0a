//! The opening of a desk.
ghost use Rattle.std.specs.Prelude.{◌≡◌, [], codes, IfOk};
ghost use Rattle.wm_arrange.specs.Arranged.{arranged};
ghost use Rattle.wm_core.specs.DeskValue.{Stands};
ghost use Rattle.wm_history.specs.History.{first, opening_of};
ghost use Rattle.wm_kept.specs.Log.{kept_of};
ghost use Rattle.wm_layouts.specs.Plan.{IsSound};
ghost use Rattle.wm_tree.specs.Sound as trees;
ghost use Rattle.wm_txn.specs.Machine.{last_prefix};
ghost use Rattle.wm_txn.specs.Stands as transactions;
ghost use Rattle.wm_txn.specs.Windows.{HasNoContent};

use crate::desk::Desk;
use std::alloc::Global;
use std::collections::BTreeMap;
use wm_arrange::arrange;
use wm_base::{NoMemory, Text};
use wm_history::{default_mode, window_count};
use wm_ids::IdMap;
use wm_kept::Kept;
use wm_layouts::Plan;
use wm_tree::Tree;
use wm_txn::Txn;

impl Desk {
    /// A desk at the opening of its plan. Transaction 0 is done.
    pub fn start(alloc: Global, plan: Plan) -> Result<Desk, NoMemory>
        requires { IsSound plan }
        ensures plan { IfOk result (λ desk. desk.plan ≡ plan) }
        ensures stands { IfOk result (λ desk. Stands desk []) }
    {
        match all_at_opening(alloc, &plan) {
            Ok(opened) => {
                let windows = window_count(&opened.tree);
                Ok(Desk {
                    alloc,
                    plan,
                    steps: 0,
                    tree: opened.tree,
                    txn: opened.txn,
                    mode: opened.mode,
                    stopped: false,
                    events: opened.events,
                    kills: BTreeMap::new(alloc),
                    owners: IdMap::new(alloc),
                    windows,
                })
            }
            Err(error) => {
                drop(plan);
                Err(error)
            }
        }
    }
}

/// The mode and the events with which a desk opens.
fn quiet(alloc: Global) -> Result<(Text, Kept), NoMemory>
    ensures mode { IfOk result (λ r. r.0 ≡ codes "default") }
    ensures events { IfOk result (λ r. r.1 ≡ kept_of []) }
{
    let mode = default_mode(alloc)?;
    let events = Kept::new(alloc)?;
    Ok((mode, events))
}

/// With what a desk opens beside its plan.
#[derive(Drop)]
struct Opened {
    tree: Tree,
    txn: Txn,
    mode: Text,
    events: Kept,
}

/// All with which a desk opens.
fn all_at_opening(alloc: Global, plan: &Plan) -> Result<Opened, NoMemory>
    requires { IsSound plan.now }
    ensures tree { IfOk result (λ o. o.tree ≡ (opening_of plan.now).opened) }
    ensures sound { IfOk result (λ o. trees.IsSound o.tree) }
    ensures stands { IfOk result (λ o. transactions.Stands (first (opening_of plan.now)) [] o.txn) }
    ensures prefix { IfOk result (λ o. last_prefix o.txn ≡ 0) }
    ensures mode { IfOk result (λ o. o.mode ≡ (opening_of plan.now).mode) }
    ensures events { IfOk result (λ o. o.events ≡ kept_of []) }
{
    let (mode, events) = quiet(alloc)?;
    match opening(alloc, plan) {
        Ok((tree, txn)) => Ok(Opened {
            tree,
            txn,
            mode,
            events,
        }),
        Err(error) => {
            drop(events);
            Err(error)
        }
    }
}

/// The tree and the transactions at the opening of a plan.
fn opening(alloc: Global, plan: &Plan) -> Result<(Tree, Txn), NoMemory>
    requires { IsSound plan.now }
    ensures tree { IfOk result (λ r. r.0 ≡ (opening_of plan.now).opened) }
    ensures sound { IfOk result (λ r. trees.IsSound r.0) }
    ensures stands { IfOk result (λ r. transactions.Stands (first (opening_of plan.now)) [] r.1) }
    ensures prefix { IfOk result (λ r. last_prefix r.1 ≡ 0) }
{
    let outputs = plan.outputs.items();
    let tree = Tree::start(alloc, outputs, plan.border, plan.inner, plan.outer)?;
    match first_of(alloc, &tree) {
        Ok(txn) => Ok((tree, txn)),
        Err(error) => {
            drop(tree);
            Err(error)
        }
    }
}

/// The transactions that begin with the arrangement of a tree without windows.
fn first_of(alloc: Global, tree: &Tree) -> Result<Txn, NoMemory>
    requires sound { trees.IsSound tree.now }
    requires empty { HasNoContent (arranged tree.now) }
    ensures stands { IfOk result (λ txn. transactions.Stands (record { parts = arranged tree.now; windows = [] }) [] txn) }
    ensures prefix { IfOk result (λ txn. last_prefix txn ≡ 0) }
{
    let first = arrange(alloc, tree)?;
    Txn::start(alloc, first)
}
