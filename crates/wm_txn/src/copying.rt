//! Copies of the transactions.
ghost use Rattle.std.specs.Prelude.{◌≡◌, ◌<◌, ◌≤◌, ◌^◌, IfOk, IfSome};

use crate::held::{Held, Pending};
use crate::queue::queue_again;
use crate::txn::Txn;
use std::collections::BTreeMap;
use wm_arrange::Arrangement;
use wm_base::{Buffer, ConId, NoMemory};
use wm_ids::IdMap;

impl Txn {
    /// Equal transactions.
    pub fn copy(&self) -> Result<Txn, NoMemory>
        ensures { IfOk result (λ txn. txn ≡ self.now) }
    {
        let (windows, gone, late) = self.copy_windows()?;
        match self.copy_arrangements() {
            Ok((current, waiting, newest)) => {
                let awaited = queue_again(self.alloc, &windows, &waiting, self.number + 1);
                Ok(Txn {
                    alloc: self.alloc,
                    windows,
                    gone,
                    number: self.number,
                    prefix: self.prefix,
                    current,
                    waiting,
                    newest,
                    left: self.left,
                    awaited,
                    room: Vec::new(self.alloc),
                    late,
                    spent: None,
                    older: None,
                })
            }
            Err(error) => {
                drop(windows);
                Err(error)
            }
        }
    }

    /// What is kept of windows, and what is left of those that are gone.
    fn copy_windows(&self) -> Result<(IdMap<Held>, BTreeMap<u32, Buffer>, Vec<ConId>), NoMemory>
        ensures windows { IfOk result (λ copy. copy.0 ≡ self.now.windows) }
        ensures gone { IfOk result (λ copy. copy.1.entries ≡ self.now.gone) }
    {
        let late = Vec::from_slice(self.alloc, &self.late)?;
        let gone = self.gone.clone()?;
        let windows = self.windows.copy()?;
        Ok((windows, gone, late))
    }

    /// The arrangements: the one that is done, the one that waits, and the one that came since.
    fn copy_arrangements(
        &self,
    ) -> Result<(Arrangement, Option<Pending>, Option<Arrangement>), NoMemory>
        ensures current { IfOk result (λ copy. copy.0 ≡ self.now.current) }
        ensures waiting { IfOk result (λ copy. copy.1 ≡ self.now.waiting) }
        ensures later { IfOk result (λ copy. IfSome copy.1 (λ p. (self.now.number < p.prefix) × (p.prefix ≤ 2 ^ 48))) }
        ensures newest { IfOk result (λ copy. copy.2 ≡ self.now.newest) }
    {
        let waiting = self.copy_waiting()?;
        match self.copy_both() {
            Ok((current, newest)) => Ok((current, waiting, newest)),
            Err(error) => {
                drop(waiting);
                Err(error)
            }
        }
    }

    fn copy_both(&self) -> Result<(Arrangement, Option<Arrangement>), NoMemory>
        ensures current { IfOk result (λ copy. copy.0 ≡ self.now.current) }
        ensures newest { IfOk result (λ copy. copy.1 ≡ self.now.newest) }
    {
        let current = self.current.copy(self.alloc)?;
        match self.copy_newest() {
            Ok(newest) => Ok((current, newest)),
            Err(error) => {
                drop(current);
                Err(error)
            }
        }
    }

    fn copy_waiting(&self) -> Result<Option<Pending>, NoMemory>
        ensures value { IfOk result (λ copy. copy ≡ self.now.waiting) }
        ensures later { IfOk result (λ copy. IfSome copy (λ p. (self.now.number < p.prefix) × (p.prefix ≤ 2 ^ 48))) }
    {
        let Some(pending) = &self.waiting else {
            return Ok(None);
        };
        Ok(Some(Pending {
            prefix: pending.prefix,
            arrangement: pending.arrangement.copy(self.alloc)?,
        }))
    }

    fn copy_newest(&self) -> Result<Option<Arrangement>, NoMemory>
        ensures { IfOk result (λ copy. copy ≡ self.now.newest) }
    {
        match &self.newest {
            Some(newest) => Ok(Some(newest.copy(self.alloc)?)),
            None => Ok(None),
        }
    }
}
