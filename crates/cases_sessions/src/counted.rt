//! A sink whose writings others can count.
ghost use Rattle.std.specs.Prelude.{◌≡◌, ◌<◌, ◌≤◌, Some, length, IfOk, OnErr};
ghost use Rattle.wm_defs.specs.Counts.{Rose};
ghost use Rattle.wm_ports.specs.Told.{Takes};

use std::sync::atomic::{AtomicU64, Ordering};
use wm_ports::{Failed, MemSink, Sink};

/// A sink in memory that counts the writings that began.
#[derive(Drop)]
pub struct CountedSink<'a> {
    sink: MemSink,
    writings: u64,
    count: &'a AtomicU64,
}

impl<'a> CountedSink<'a> {
    /// A sink that counts its writings there.
    pub fn new(sink: MemSink, count: &'a AtomicU64) -> CountedSink<'a> {
        CountedSink {
            sink,
            writings: 0,
            count,
        }
    }

    /// The bytes taken.
    pub fn taken(&self) -> &[u8] {
        self.sink.taken()
    }
}

impl Sink for CountedSink<'_> {
    ghost faults = { λ s. s.sink.faults };

    ghost taken = { λ s. Some s.sink.taken };

    /// Takes bytes as the sink in memory does.
    fn write(&mut self, bytes: &[u8]) -> Result<usize, Failed>
        requires { 0 < length bytes.now }
        ensures some { IfOk result (λ n. 0 < n) }
        ensures within { IfOk result (λ n. n ≤ length bytes.now) }
        ensures bytes { Takes (Some self.old.sink.taken) (Some self.new.sink.taken) result bytes.now }
        ensures failed { OnErr result (Rose self.old.sink.faults self.new.sink.faults) }
        ensures counted { self.old.sink.faults ≤ self.new.sink.faults }
    {
        self.writings = self.writings.saturating_add(1);
        self.count.store(self.writings, Ordering::SeqCst);
        self.sink.write(bytes)
    }
}
