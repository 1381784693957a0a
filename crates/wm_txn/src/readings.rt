//! What the transactions tell: what is done, what each window shows and was configured with, and what waits.
ghost use Rattle.std.specs.Prelude.{◌≡◌, ◌+◌, List, Some};
ghost use Rattle.wm_txn.specs.Commits.{configured, current, done, prefix, shown, waiting};
ghost use Rattle.wm_txn.specs.Accepted.{accepted};
ghost use Rattle.wm_txn.specs.History.{arrangement, Opening, Entry};
ghost use Rattle.wm_txn.specs.Stands.{Stands};
ghost use Rattle.wm_txn.specs.Machine.{configured_of, newest_of, shown_of, waiting_in};
ghost use Rattle.wm_txn.specs.Windows.{find, has_acked, least_left};

use crate::answers::Waiting;
use crate::held::Pending;
use crate::txn::Txn;
use crate::windows::{is_left, least_left};
use wm_arrange::Arrangement;
use wm_base::{Buffer, ConId, Size};

impl Txn {
    /// The buffer that a window shows. `None` exactly where it was never there.
    pub fn shown(&self, view: ConId) -> Option<Buffer>
        ensures value { result ≡ shown_of view self.now }
        ensures history { (o : Opening) → (history : List Entry) → Stands o history self.now → result ≡ shown o view (accepted o history) }
    {
        self.shown_of(view)
    }

    /// The number of the last transaction that has ended.
    pub fn done(&self) -> u64
        ensures value { result ≡ self.now.number }
        ensures history { (o : Opening) → (history : List Entry) → Stands o history self.now → result ≡ done o (accepted o history) }
    {
        self.number
    }

    /// How many entries had come when the last ended transaction began.
    pub fn prefix(&self) -> u64
        ensures value { result ≡ self.now.prefix }
        ensures history { (o : Opening) → (history : List Entry) → Stands o history self.now → result ≡ prefix o (accepted o history) }
    {
        self.prefix
    }

    /// The arrangement of the last ended transaction.
    pub fn current(&self) -> &Arrangement
        ensures value { result.now ≡ self.now.current }
        ensures history { (o : Opening) → (history : List Entry) → Stands o history self.now → result.now.parts ≡ current o (accepted o history) }
    {
        &self.current
    }

    /// The arrangement after the history, which nothing may have begun yet.
    pub fn newest(&self) -> &Arrangement
        ensures value { result.now ≡ newest_of self.now }
        ensures history { (o : Opening) → (history : List Entry) → Stands o history self.now → result.now.parts ≡ arrangement o (accepted o history) }
    {
        self.newest_of()
    }

    /// The serial and the size of the latest configure of a window. `None` exactly where it is not open, or no
    /// transaction has configured it.
    pub fn asked(&self, view: ConId) -> Option<(u64, Size)>
        ensures value { result ≡ configured_of (find view self.now.windows) }
        ensures history { (o : Opening) → (history : List Entry) → Stands o history self.now → result ≡ configured o view (accepted o history) }
    {
        self.configured_of(view)
    }

    /// The transaction that waits.
    pub fn waiting(&self) -> Option<Waiting>
        ensures value { result ≡ waiting_in (self.now.number + 1) self.now.windows self.now.waiting }
        ensures history { (o : Opening) → (history : List Entry) → Stands o history self.now → result ≡ waiting o (accepted o history) }
    {
        self.waiting_of()
    }

    fn shown_of(&self, view: ConId) -> Option<Buffer>
        ensures { result ≡ shown_of view self.now }
    {
        match self.windows.get(view.0) {
            Some(held) => Some(held.shown_by(self.number)),
            None => self.gone.get(&view.0).copied(),
        }
    }

    fn newest_of(&self) -> &Arrangement
        ensures { result.now ≡ newest_of self.now }
    {
        if let Some(newest) = &self.newest {
            return newest;
        }
        match &self.waiting {
            Some(pending) => &pending.arrangement,
            None => &self.current,
        }
    }

    fn configured_of(&self, view: ConId) -> Option<(u64, Size)>
        ensures { result ≡ configured_of (find view self.now.windows) }
    {
        match self.windows.get(view.0) {
            Some(held) if held.live && held.configure_serial != 0 => Some((
                held.configure_serial,
                held.configured_size,
            )),
            _ => None,
        }
    }

    fn waiting_of(&self) -> Option<Waiting>
        ensures { result ≡ waiting_in (self.now.number + 1) self.now.windows self.now.waiting }
    {
        let number = self.number + 1;
        let pending = self.waiting.as_ref()?;
        let least = self.least_left(pending, number)?;
        Some(Waiting {
            number,
            least,
            acked: self.has_acked(least, number),
        })
    }

    /// The least window that the waiting transaction awaits and that has not answered: the first one of the queue, or, where
    /// that is not there, what a look at all parts gives.
    fn least_left(&self, pending: &Pending, number: u64) -> Option<ConId>
        requires waits { self.now.waiting ≡ Some pending.now }
        requires next { number ≡ self.now.number + 1 }
        ensures { result ≡ least_left number self.now.windows pending.now.arrangement.parts }
    {
        if let Some(queue) = &self.awaited
            && let Some(con) = queue.front()
            && is_left(&self.windows, *con, number)
        {
            return Some(*con);
        }
        least_left(&self.windows, pending.arrangement.parts.items(), number)
    }

    fn has_acked(&self, view: ConId, number: u64) -> bool
        ensures { result ≡ has_acked number (find view self.now.windows) }
    {
        match self.windows.get(view.0) {
            Some(held) => held.acked_serial == number,
            None => false,
        }
    }
}
