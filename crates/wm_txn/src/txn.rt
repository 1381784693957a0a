//! The machine of transactions: what has ended, what waits, and what came since.
ghost use Rattle.std.specs.Prelude.{◌≡◌, ◌+◌, ◌<◌, ◌≤◌, ◌^◌, true, Some, IfOk, OnOk, OnErr};
ghost use Rattle.wm_txn.specs.Machine.{ack_step, arranged, began, buffer_step, buffered, committed, finished, followed, is_over, judge_ack, judge_buffer, judge_size, last_prefix, opened, settled, timed_out};
ghost use Rattle.wm_txn.specs.Windows.{AreSorted, find};

use crate::answers::{AckRefusal, BufferRefusal};
use crate::held::{Held, Pending};
use crate::queue::{heard, queue, trimmed};
use crate::windows::{close_all, configure_all, one_if};
use std::alloc::Global;
use std::collections::{BTreeMap, VecDeque};
use std::marker::Model;
use std::mem;
use wm_arrange::Arrangement;
use wm_base::{Buffer, ConId, NoMemory, Size};
use wm_ids::IdMap;

/// Layout transactions. The machine stands for a history: the entries that it took, from an opening on. Of a window that
/// is gone only its id and the buffer that it shows are kept.
#[derive(Drop)]
pub struct Txn {
    pub(crate) alloc: Global,
    pub(crate) windows: IdMap<Held>,
    pub(crate) gone: BTreeMap<u32, Buffer>,
    pub(crate) number: u64,
    pub(crate) prefix: u64,
    pub(crate) current: Arrangement,
    pub(crate) waiting: Option<Pending>,
    pub(crate) newest: Option<Arrangement>,
    pub(crate) left: u64,
    /// Whom the waiting transaction awaits, by rising id. Where it is not there, the parts tell.
    pub(crate) awaited: Option<VecDeque<ConId>>,
    /// Room for those whom the next one awaits, so that it begins without memory.
    pub(crate) room: Vec<ConId>,
    /// Closed windows of which the newest buffer was not shown yet.
    pub(crate) late: Vec<ConId>,
    /// The last arrangements that were current: what ends a transaction has no time to drop them, and the next arrangement
    /// that comes does.
    pub(crate) spent: Option<Arrangement>,
    pub(crate) older: Option<Arrangement>,
}

impl Model for Txn {
    ghost use Rattle.std.specs.Prelude.{◌+◌, ◌<◌, ◌≤◌, ◌^◌, IfSome};
    ghost use Rattle.std.specs.Option.{option_map};
    ghost use Rattle.wm_txn.specs.Machine.{TxnValue, txn_code};
    ghost use Rattle.wm_txn.specs.Queue.{IsQueued};

    ghost Value = { TxnValue };

    ghost coded = { txn_code };

    ghost view = { λ d. record { windows = d.windows; gone = d.gone.entries; number = d.number; prefix = d.prefix; current = d.current; waiting = d.waiting; newest = d.newest; left = d.left } };

    ghost invariant = { λ d. (d.number ≤ d.prefix) × (d.prefix ≤ 2 ^ 48) × IfSome d.waiting (λ p. (d.number < p.prefix) × (p.prefix ≤ 2 ^ 48)) × IsQueued (d.number + 1) d.windows d.waiting (option_map (λ q. q.items) d.awaited) };
}

impl Txn {
    /// The transaction that waits ends.
    fn commit(&mut self)
        ensures value { self.new ≡ committed self.old }
        ensures same { last_prefix self.new ≡ last_prefix self.old }
    {
        if let Some(pending) = self.waiting.take() {
            let Pending {
                prefix,
                arrangement,
            } = pending;
            self.number += 1;
            self.awaited = None;
            self.prefix = prefix;
            self.older = self.spent.take();
            self.spent = Some(mem::replace(&mut self.current, arrangement));
        }
    }

    /// A transaction with this arrangement begins.
    fn begin(&mut self, steps: u64, newest: Arrangement)
        requires later { last_prefix self.old < steps }
        requires few { steps ≤ 2 ^ 48 }
        ensures value { self.new ≡ began steps newest self.old }
        ensures prefix { last_prefix self.new ≡ steps }
    {
        let number = self.number + 1;
        let parts = newest.parts.items();
        self.left = configure_all(&mut self.windows, parts, number);
        let room = mem::replace(&mut self.room, Vec::new(self.alloc));
        self.awaited = queue(&self.windows, parts, number, room);
        self.waiting = Some(Pending {
            prefix: steps,
            arrangement: newest,
        });
    }

    /// A transaction that awaits nobody ends.
    fn finish(&mut self)
        ensures value { self.new ≡ finished self.old }
        ensures same { last_prefix self.new ≡ last_prefix self.old }
    {
        if self.left == 0 {
            self.commit();
        }
    }

    /// The next transaction begins where the newest arrangement differs from the last one.
    fn follow(&mut self, steps: u64)
        requires later { last_prefix self.old < steps }
        requires few { steps ≤ 2 ^ 48 }
        ensures value { self.new ≡ followed steps self.old }
        ensures prefix { last_prefix self.new ≤ steps }
    {
        if let Some(newest) = self.newest.take()
            && !newest.same(&self.current)
        {
            self.begin(steps, newest);
            self.finish();
        }
    }

    /// Ends the waiting transaction where all have answered, and begins the next one.
    pub(crate) fn settle(&mut self, steps: u64)
        requires later { last_prefix self.old < steps }
        requires few { steps ≤ 2 ^ 48 }
        ensures value { self.new ≡ settled steps self.old }
        ensures prefix { last_prefix self.new ≤ steps }
    {
        if self.left == 0 {
            self.commit();
            self.follow(steps);
        }
    }

    /// Maps a window.
    pub(crate) fn open(&mut self, fresh: Option<(ConId, Buffer)>) -> Result<(), NoMemory>
        ensures ok { OnOk result (self.new ≡ opened fresh self.old) }
        ensures same { last_prefix self.new ≡ last_prefix self.old }
        ensures sorted { AreSorted self.old.windows → OnOk result (AreSorted self.new.windows) }
        ensures err { OnErr result (self.new ≡ self.old) }
    {
        if let Some((con, buffer)) = fresh {
            self.windows.insert(con.0, Held::mapped(buffer))?;
        }
        Ok(())
    }

    /// Takes an arrangement, and closes the windows that are gone.
    pub(crate) fn arrange(&mut self, newest: Arrangement, gone: &[ConId])
        ensures value { self.new ≡ arranged newest gone.now self.old }
        ensures same { last_prefix self.new ≡ last_prefix self.old }
    {
        let number = self.number + 1;
        let closed = close_all(&mut self.windows, gone, number);
        self.left = self.left.saturating_sub(closed);
        self.awaited = trimmed(self.awaited.take(), &self.windows, number);
        let _ = self.room.reserve(newest.parts.items().len());
        self.newest = Some(newest);
    }

    /// Drops the arrangements that are current no more.
    pub(crate) fn discard(&mut self)
        ensures { self.new ≡ self.old }
    {
        self.spent = None;
        self.older = None;
    }

    /// The window acknowledges the serial, unless that is refused.
    pub(crate) fn take_ack(&mut self, view: ConId, serial: u64) -> Result<(), AckRefusal>
        ensures value { self.new ≡ ack_step view serial self.old }
        ensures answer { result ≡ judge_ack self.old.number serial (find view self.old.windows) }
        ensures same { last_prefix self.new ≡ last_prefix self.old }
    {
        let held = self.windows.get(view.0).copied();
        judge_ack(held, self.number, serial)?;
        if let Some(held) = held {
            self.windows.set(view.0, held.acked_with(serial));
        }
        Ok(())
    }

    /// The window, of which this is kept, gives a buffer.
    fn hold(&mut self, view: ConId, before: &Held, buffer: Buffer)
        requires there { find view self.old.windows ≡ Some before.now }
        ensures value { self.new ≡ buffered view buffer self.old }
        ensures same { last_prefix self.new ≡ last_prefix self.old }
    {
        let next = self.number + 1;
        let after = before.buffered_with(self.number, buffer);
        self.windows.set(view.0, after);
        let awaited = before.is_unanswered(next);
        let awaits = after.is_unanswered(next);
        self.left = self.left.saturating_sub(one_if(awaited && !awaits));
        heard(
            &mut self.awaited,
            view,
            awaited,
            awaits,
            &self.windows,
            next,
        );
    }

    /// The window gives a buffer, unless that is refused, and the transactions that it ends do.
    pub(crate) fn take_buffer(
        &mut self,
        steps: u64,
        view: ConId,
        buffer: Buffer,
    ) -> Result<(), BufferRefusal>
        requires later { last_prefix self.old < steps }
        requires few { steps ≤ 2 ^ 48 }
        ensures value { self.new ≡ buffer_step steps view buffer self.old }
        ensures answer { result ≡ judge_buffer buffer (find view self.old.windows) }
        ensures prefix { last_prefix self.new ≤ steps }
    {
        let held = self.windows.get(view.0).copied();
        judge_buffer(&held, buffer)?;
        if let Some(before) = &held {
            self.hold(view, before, buffer);
            self.settle(steps);
        }
        Ok(())
    }

    /// Whether a deadline at this place names the waiting transaction and comes after its beginning.
    fn is_over(&self, place: u64, number: u64) -> bool
        ensures { result ≡ is_over place number self.now.number self.now.waiting }
    {
        match &self.waiting {
            Some(pending) => number == self.number + 1 && pending.prefix <= place,
            None => false,
        }
    }

    /// The waiting transaction ends where a deadline at this place is its own.
    pub(crate) fn time_out(&mut self, place: u64, number: u64)
        requires later { last_prefix self.old ≤ place }
        requires few { place < 2 ^ 48 }
        ensures value { self.new ≡ timed_out place number self.old }
        ensures prefix { last_prefix self.new ≤ place + 1 }
    {
        if self.is_over(place, number) {
            self.left = 0;
            self.settle(place + 1);
        }
    }
}

/// Why an acknowledgement of the window of which this is kept is refused, if it is, where the transactions up to `done`
/// have ended.
fn judge_ack(held: Option<Held>, done: u64, serial: u64) -> Result<(), AckRefusal>
    ensures { result ≡ judge_ack done serial held }
{
    match held {
        Some(held) if held.live => held.judge_ack(done, serial),
        _ => Err(AckRefusal::NoView),
    }
}

/// Why a buffer of the window of which this is kept is refused, if it is.
fn judge_buffer(held: &Option<Held>, buffer: Buffer) -> Result<(), BufferRefusal>
    ensures { result ≡ judge_buffer buffer held.now }
{
    match held {
        Some(held) if held.live => judge_size(buffer.size),
        _ => Err(BufferRefusal::NoView),
    }
}

/// Whether a buffer of this size is refused.
fn judge_size(size: Size) -> Result<(), BufferRefusal>
    ensures { result ≡ judge_size size }
{
    if size.w == 0 || size.h == 0 {
        Err(BufferRefusal::Empty)
    } else {
        Ok(())
    }
}
