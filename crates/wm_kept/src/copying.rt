//! Copies of the events that are kept.
ghost use Rattle.std.specs.Prelude.{◌≡◌, ◌+◌, ◌≤◌, ◌++◌, length, IfOk, OnOk};
ghost use Rattle.circular_buffer.specs.Buffer.{buffer};

use crate::kept::{Kept, MOST};
use circular_buffer::HeapCircularBuffer;
use std::alloc::Global;
use wm_base::NoMemory;
use wm_json::EventView;

impl Kept {
    /// The same events, and room for as many.
    pub fn copy(&self, alloc: Global) -> Result<Kept, NoMemory>
        ensures { IfOk result (λ copy. copy ≡ self.now) }
    {
        let last = self.last;
        let (front, back) = self.events.as_slices();
        let mut events = HeapCircularBuffer::with_capacity(alloc, MOST)?;
        copy_into(alloc, front, &mut events)?;
        copy_into(alloc, back, &mut events)?;
        Ok(Kept { last, events })
    }
}

/// Adds copies of these events, for which there is room.
fn copy_into(
    alloc: Global,
    events: &[EventView],
    copies: &mut HeapCircularBuffer<EventView>,
) -> Result<(), NoMemory>
    requires { length copies.old.items + length events.now ≤ copies.old.capacity }
    ensures { OnOk result (copies.new ≡ buffer (copies.old.items ++ events.now) copies.old.capacity) }
{
    for event in events {
        let gone = copies.push_back(event.copy(alloc)?);
        drop(gone);
    }
    Ok(())
}
