//! What callers do to the transactions.
ghost use Rattle.std.specs.Prelude.{◌≡◌, ◌+◌, ◌<◌, ◌≤◌, ◌^◌, List, ◌∷◌, [], length, IfOk, OnOk, OnErr, is_some};
ghost use Rattle.wm_txn.specs.Accepted.{ack_answer, buffer_answer, accepted};
ghost use Rattle.wm_txn.specs.History.{Opening, Entry, Acked, Arranged, Deadline, Gave};
ghost use Rattle.wm_txn.specs.Machine.{judge_ack, judge_buffer, last_prefix};
ghost use Rattle.wm_txn.specs.Windows.{HasNoContent, find};
ghost use Rattle.wm_txn.specs.Stands.{IsFit, Stands};

use crate::answers::{AckRefusal, BufferRefusal};
use crate::txn::Txn;
use std::alloc::Global;
use std::collections::BTreeMap;
use wm_arrange::Arrangement;
use wm_base::{Buffer, ConId, NoMemory};
use wm_ids::IdMap;

impl Txn {
    /// Transactions that begin with an arrangement without windows, which is done.
    pub fn start(alloc: Global, first: Arrangement) -> Result<Txn, NoMemory>
        requires { HasNoContent first.parts }
        ensures stands { IfOk result (λ txn. Stands (record { parts = first.parts; windows = [] }) [] txn) }
        ensures windows { IfOk result (λ txn. txn.windows ≡ []) }
        ensures prefix { IfOk result (λ txn. last_prefix txn ≡ 0) }
    {
        Ok(Txn {
            alloc,
            windows: IdMap::new(alloc),
            gone: BTreeMap::new(alloc),
            number: 0,
            prefix: 0,
            current: first,
            waiting: None,
            newest: None,
            left: 0,
            awaited: None,
            room: Vec::new(alloc),
            late: Vec::new(alloc),
            spent: None,
            older: None,
        })
    }

    /// Takes the arrangement after an entry, the window that it mapped with its buffer, and the windows that it closed.
    /// After an `Err` nothing has changed.
    pub fn admit(
        &mut self,
        place: u64,
        newest: Arrangement,
        fresh: Option<(ConId, Buffer)>,
        gone: &[ConId],
    ) -> Result<(), NoMemory>
        requires few { place < 2 ^ 48 }
        requires rises { last_prefix self.old ≤ place }
        ensures stands { (o : Opening) → (history : List Entry) → length history ≡ place → Stands o history self.old →
            IsFit o history newest.parts fresh gone.now →
            OnOk result (Stands o (Arranged newest.parts fresh gone.now ∷ history) self.new) }
        ensures prefix { last_prefix self.new ≤ place + 1 }
        ensures err { OnErr result (self.new ≡ self.old) }
    {
        self.open(fresh)?;
        self.arrange(newest, gone);
        self.settle(place + 1);
        self.sweep(gone);
        self.discard();
        Ok(())
    }

    /// The client of a window acknowledges a serial.
    pub fn ack(&mut self, view: ConId, serial: u64) -> Result<(), AckRefusal>
        ensures answer { (o : Opening) → (history : List Entry) → Stands o history self.old →
            result ≡ ack_answer o view serial (accepted o history) }
        ensures there { result ≡ judge_ack self.old.number serial (find view self.old.windows) }
        ensures stands { (o : Opening) → (history : List Entry) → Stands o history self.old →
            Stands o (Acked view serial ∷ history) self.new }
        ensures prefix { last_prefix self.new ≡ last_prefix self.old }
        ensures err { OnErr result (self.new ≡ self.old) }
    {
        self.take_ack(view, serial)
    }

    /// The client of a window gives a buffer.
    pub fn buffer(&mut self, place: u64, view: ConId, b: Buffer) -> Result<(), BufferRefusal>
        requires few { place < 2 ^ 48 }
        requires rises { last_prefix self.old ≤ place }
        ensures answer { (o : Opening) → (history : List Entry) → Stands o history self.old →
            result ≡ buffer_answer o view b (accepted o history) }
        ensures there { result ≡ judge_buffer b (find view self.old.windows) }
        ensures stands { (o : Opening) → (history : List Entry) → length history ≡ place → Stands o history self.old →
            Stands o (Gave view b ∷ history) self.new }
        ensures prefix { last_prefix self.new ≤ place + 1 }
        ensures err { OnErr result (self.new ≡ self.old) }
    {
        self.take_buffer(place + 1, view, b)
    }

    /// The time of the transaction of this number is over.
    pub fn deadline(&mut self, place: u64, number: u64)
        requires few { place < 2 ^ 48 }
        requires rises { last_prefix self.old ≤ place }
        ensures stands { (o : Opening) → (history : List Entry) → length history ≡ place → Stands o history self.old →
            Stands o (Deadline number ∷ history) self.new }
        ensures prefix { last_prefix self.new ≤ place + 1 }
    {
        self.time_out(place, number);
    }
}
