//! What is told to who knows the events up to a number.
ghost use Rattle.std.specs.Prelude.{◌≡◌, ◌≤◌, ◌++◌, List, drop, length, IfOk, OnOk};
ghost use Rattle.wm_json.specs.declared.views.EventBody.{EventBody};
ghost use Rattle.wm_kept.specs.Above.{told_above, told_since};
ghost use Rattle.wm_kept.specs.Log.{kept_of};

use crate::kept::Kept;
use std::alloc::Global;
use wm_base::{List, NoMemory};
use wm_json::EventView;

/// The events above a number.
#[derive(Debug, Drop)]
pub enum Above {
    /// All that came since, the oldest first.
    Events(List<EventView>),

    /// Some that came since are kept no more; `oldest` is the number of the first that is.
    Lagged { oldest: u64 },
}

impl Kept {
    /// The events that are numbered above this one, or that some of them are kept no more. It takes the time of the events
    /// that it gives.
    pub fn above(&self, alloc: Global, above: u64) -> Result<Above, NoMemory>
        ensures value { IfOk result (λ answer. answer ≡ told_above above self.now.events) }
        ensures history { (all : List EventBody) → self.now ≡ kept_of all → IfOk result (λ answer. answer ≡ told_since above all) }
    {
        let kept = self.events.len() as u64;
        let gone = self.last - kept;
        if above < gone {
            return Ok(Above::Lagged { oldest: gone + 1 });
        }
        let start = (above - gone).min(kept) as usize;
        let (front, back) = self.events.as_slices();
        let events = copy_from(alloc, front, back, start)?;
        Ok(Above::Events(events))
    }
}

/// The events of both parts from a place on.
fn copy_from(
    alloc: Global,
    front: &[EventView],
    back: &[EventView],
    start: usize,
) -> Result<List<EventView>, NoMemory>
    requires { start ≤ length (front.now ++ back.now) }
    ensures { IfOk result (λ copies. copies ≡ drop start (front.now ++ back.now)) }
{
    let first = start.min(front.len());
    let (front, back) = (&front[first..], &back[start - first..]);
    let mut copies = Vec::with_capacity(alloc, front.len() + back.len())?;
    copy_onto(alloc, front, &mut copies)?;
    copy_onto(alloc, back, &mut copies)?;
    Ok(List::of(copies))
}

/// Adds copies of the events.
fn copy_onto(
    alloc: Global,
    events: &[EventView],
    copies: &mut Vec<EventView>,
) -> Result<(), NoMemory>
    ensures { OnOk result (copies.new.items ≡ copies.old.items ++ events.now) }
{
    for event in events {
        copies.push(event.copy(alloc)?)?;
    }
    Ok(())
}
