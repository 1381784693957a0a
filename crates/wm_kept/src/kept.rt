//! The events that are kept, and how more are told.
ghost use Rattle.std.specs.Prelude.{◌≡◌, ◌+◌, ◌<◌, ◌^◌, List, [], ◌∷◌, ◌++◌, length, IfOk};
ghost use Rattle.wm_json.specs.declared.views.EventBody.{EventBody};
ghost use Rattle.wm_kept.specs.Log.{AreLast, kept_of, told};

use circular_buffer::HeapCircularBuffer;
use std::alloc::Global;
use std::marker::Model;
use wm_base::NoMemory;
use wm_json::{EventBody, EventView, kind_of};

/// How many events are kept at most.
pub const MOST: usize = 4096;

/// The last events of all that were ever told, at most 4,096, each with its number, and the number of the last one.
#[derive(Drop)]
pub struct Kept {
    pub(crate) last: u64,
    pub(crate) events: HeapCircularBuffer<EventView>,
}

impl Model for Kept {
    ghost use Rattle.std.specs.Prelude.{◌≡◌};
    ghost use Rattle.wm_kept.specs.Log.{AreLast, Log, log_code};

    ghost Value = { Log };

    ghost coded = { log_code };

    ghost view = { λ k. record { last = k.last; events = k.events.items } };

    ghost invariant = { λ k. (k.events.capacity ≡ 4096) × AreLast k.last k.events.items };
}

impl Kept {
    /// No event was told. The room for all that will be kept is made here.
    pub fn new(alloc: Global) -> Result<Kept, NoMemory>
        ensures { IfOk result (λ kept. kept ≡ kept_of []) }
    {
        let events = HeapCircularBuffer::with_capacity(alloc, MOST)?;
        Ok(Kept { last: 0, events })
    }

    /// The number of the last event ever told, 0 where none was.
    pub fn last(&self) -> u64
        ensures value { result ≡ self.now.last }
        ensures sound { AreLast self.now.last self.now.events }
    {
        self.last
    }

    /// Another event is told. It takes no memory: where 4,096 are kept, the oldest goes.
    pub fn push(&mut self, body: EventBody)
        requires { self.old.last + 1 < 2 ^ 64 }
        ensures value { self.new ≡ told (body ∷ []) self.old }
        ensures history { (all : List EventBody) → self.old ≡ kept_of all → self.new ≡ kept_of (all ++ body ∷ []) }
    {
        let number = self.last + 1;
        let kind = kind_of(&body);
        let gone = self.events.push_back(EventView { number, kind, body });
        drop(gone);
        self.last = number;
    }

    /// More events are told, one after another. It takes no memory.
    pub fn push_all(&mut self, bodies: Vec<EventBody>)
        requires { self.old.last + length bodies.items < 2 ^ 64 }
        ensures value { self.new ≡ told bodies.items self.old }
        ensures history { (all : List EventBody) → self.old ≡ kept_of all → self.new ≡ kept_of (all ++ bodies.items) }
    {
        // Read, so that it is known that no more than 4,096 are kept.
        let _last = self.last;
        for body in bodies {
            self.push(body);
        }
    }
}
