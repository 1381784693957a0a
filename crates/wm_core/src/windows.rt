//! The windows of a caller: what they say of themselves, and how they go.
ghost use Rattle.std.specs.Bool.{OnTrue};
ghost use Rattle.wm_history.specs.Act.{Close, Gone, Retitle, Urgent};
ghost use Rattle.wm_history.specs.Windows.{is_window, owned};
ghost use Rattle.wm_forest.specs.Look.{con_kind, has, kind_of};
ghost use Rattle.std.specs.Prelude.{◌≡◌, ◌≢◌, ◌<◌, ◌^◌, true, None, IfOk, filter};
ghost use Rattle.wm_core.specs.Steps.{Takes};

use crate::desk::Desk;
use std::alloc::AllocError;
use wm_base::{ConId, NoMemory, Text};
use wm_history::{Answer, detach_all, is_caller, set_urgent};

impl Desk {
    /// Closes the caller's window.
    pub(crate) fn close(&mut self, who: u32, con: ConId) -> Result<Answer, NoMemory>
        requires few { self.old.steps < 2 ^ 48 }
        ensures { Takes self.old self.new result (record { who = who; act = Close con }) }
    {
        if !self.is_window(who, con) {
            return Ok(self.stay(Answer::NoView));
        }
        let mut tree = self.tree.copy()?;
        detach_all(&mut tree, &[con]);
        self.finish(tree)
    }

    /// Closes all windows of the caller.
    pub(crate) fn gone(&mut self, who: u32) -> Result<Answer, NoMemory>
        requires few { self.old.steps < 2 ^ 48 }
        ensures { Takes self.old self.new result (record { who = who; act = Gone }) }
    {
        let windows = self.owned(who)?;
        let mut tree = self.tree.copy()?;
        detach_all(&mut tree, &windows);
        self.finish(tree)
    }

    /// Gives the caller's window another title.
    pub(crate) fn retitle(&mut self, who: u32, con: ConId, title: &Text) -> Result<Answer, NoMemory>
        requires few { self.old.steps < 2 ^ 48 }
        ensures { Takes self.old self.new result (record { who = who; act = Retitle con title.now }) }
    {
        if !self.is_window(who, con) {
            return Ok(self.stay(Answer::NoView));
        }
        let mut tree = self.tree.copy()?;
        tree.set_title(con, title.clone()?);
        self.finish(tree)
    }

    /// Says whether the caller's window is urgent.
    pub(crate) fn urgent(&mut self, who: u32, con: ConId, on: bool) -> Result<Answer, NoMemory>
        requires few { self.old.steps < 2 ^ 48 }
        ensures { Takes self.old self.new result (record { who = who; act = Urgent con on }) }
    {
        if !self.is_window(who, con) {
            return Ok(self.stay(Answer::NoView));
        }
        let mut tree = self.tree.copy()?;
        set_urgent(&mut tree, con, on)?;
        self.finish(tree)
    }

    /// Whether this is an open window of the caller.
    pub(crate) fn is_window(&self, who: u32, con: ConId) -> bool
        ensures value { result ≡ is_window self.now.tree who con }
        ensures there { OnTrue result ((has con self.now.tree.nodes ≡ true) × (kind_of con_kind con self.now.tree.nodes ≢ None)) }
    {
        is_caller(&self.owners, who, con)
    }

    /// The open windows of the caller, the most recent first.
    pub(crate) fn owned(&self, who: u32) -> Result<Vec<ConId>, AllocError>
        ensures { IfOk result (λ windows. windows.items ≡ owned who self.now.tree) }
    {
        let mut windows = Vec::new(self.alloc);
        let mut rest = self.tree.recent_ids();
        while let Some(con) = rest.next() {
            if self.is_window(who, con) {
                windows.push(con)?;
            }
        }
        Ok(windows)
    }
}
