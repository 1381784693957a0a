//! The desk: the tree, and the transactions in which its arrangements are committed.
ghost use Rattle.std.specs.Prelude.{◌≡◌, ◌<◌, ◌^◌, IfOk};
ghost use Rattle.wm_history.specs.Act.{act_of};
ghost use Rattle.wm_core.specs.DeskValue.{StandsFrom};
ghost use Rattle.wm_history.specs.Frame.{frame};
ghost use Rattle.wm_history.specs.History.{History, Start};
ghost use Rattle.wm_history.specs.Sizes.{IsFitStep};
ghost use Rattle.wm_core.specs.Steps.{Takes};

use std::alloc::Global;
use std::collections::BTreeMap;
use std::marker::Model;
use wm_base::{List, NoMemory, Text};
use wm_history::{Answer, Step, painted};
use wm_ids::IdMap;
use wm_kept::Kept;
use wm_layouts::Plan;
use wm_paint::Frame;
use wm_tree::Tree;
use wm_txn::Txn;

/// A desk. It stands for the history of the steps that were taken on it, from the opening of its plan.
#[derive(Drop)]
pub struct Desk {
    pub(crate) alloc: Global,
    pub(crate) plan: Plan,
    pub(crate) steps: u64,
    pub(crate) tree: Tree,
    pub(crate) txn: Txn,
    pub(crate) mode: Text,
    pub(crate) stopped: bool,
    pub(crate) events: Kept,
    pub(crate) kills: BTreeMap<u32, u64>,
    /// By the id of each open window, the number of its caller.
    pub(crate) owners: IdMap<u32>,
    /// How many windows the tree has.
    pub(crate) windows: u32,
}

impl Model for Desk {
    ghost use Rattle.std.specs.Prelude.{◌≡◌, ◌≤◌, ◌*◌};
    ghost use Rattle.wm_tree.specs.Sound as trees;
    ghost use Rattle.wm_core.specs.DeskValue.{DeskValue, desk_code};
    ghost use Rattle.wm_history.specs.Follows.{AreOwners};
    ghost use Rattle.wm_history.specs.Windows.{window_count};
    ghost use Rattle.wm_txn.specs.Machine.{last_prefix};

    ghost Value = { DeskValue };

    ghost coded = { desk_code };

    ghost view = { λ d. record { plan = d.plan; steps = d.steps; tree = d.tree; txn = d.txn; mode = d.mode; stopped = d.stopped; events = d.events; kills = d.kills.entries } };

    ghost invariant = { λ d. ((((last_prefix d.txn ≤ d.steps) × (d.events.last ≤ d.steps * 65535)) × (d.windows ≡ window_count d.tree)) × AreOwners d.owners d.tree) × trees.IsSound d.tree };
}

impl Desk {
    /// Takes one step of the caller with this number. After an `Err` the desk is as it was.
    pub fn step(&mut self, who: u32, step: &Step) -> Result<Answer, NoMemory>
        requires few { self.old.steps < 2 ^ 48 }
        requires fit { IsFitStep step.now }
        ensures { Takes self.old self.new result (record { who = who; act = act_of step.now }) }
    {
        match step {
            Step::Run(text) => self.run(who, text),
            Step::Map {
                props,
                buffer,
                then,
            } => self.map(who, props, *buffer, then),
            Step::Close { con } => self.close(who, *con),
            Step::Retitle { con, title } => self.retitle(who, *con, title),
            Step::Urgent { con, on } => self.urgent(who, *con, *on),
            Step::Gone => self.gone(who),
            Step::Client(client) => Ok(self.answer_client(who, client)),
            Step::OutputAdd { plan } => self.add_output(who, plan),
            Step::OutputRemove { name } => self.remove_output(who, name),
            Step::Reserve { name, edges } => self.reserve(who, name, *edges),
            Step::Tick { payload } => self.tick(who, payload),
            Step::Key { chord, choices } => self.key(who, chord, choices.items()),
        }
    }

    /// How many steps were taken.
    pub fn steps(&self) -> u64
        ensures { result ≡ self.now.steps }
    {
        self.steps
    }

    /// The mode after the history: the last one that was set, or `default`.
    pub fn mode(&self) -> &str
        ensures { result.now ≡ self.now.mode }
    {
        self.mode.as_str()
    }

    /// The frame of the history.
    pub fn frame(&self) -> Result<Frame, NoMemory>
        ensures { (start : Start) (history : History) → StandsFrom start self.now history →
            IfOk result (λ f. f ≡ frame start history) }
    {
        let quads = painted(self.alloc, &self.txn)?;
        Ok(Frame {
            number: self.txn.done(),
            prefix: self.txn.prefix(),
            quads: List::of(quads),
        })
    }
}
