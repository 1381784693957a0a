//! Windows that are gone: what is left of them.
ghost use Rattle.std.specs.Prelude.{◌≡◌, List};
ghost use Rattle.wm_txn.specs.History.{Opening, Entry};
ghost use Rattle.wm_txn.specs.Machine.{last_prefix};
ghost use Rattle.wm_txn.specs.Stands.{Stands};

use crate::held::Held;
use crate::txn::Txn;
use std::mem;
use wm_base::ConId;

impl Txn {
    /// Where windows have closed, leaves of the closed ones the buffers that they show, as far as there is memory.
    pub(crate) fn sweep(&mut self, gone: &[ConId])
        ensures stands { (o : Opening) → (history : List Entry) → Stands o history self.old → Stands o history self.new }
        ensures same { last_prefix self.new ≡ last_prefix self.old }
    {
        if gone.is_empty() {
            return;
        }
        let late = mem::replace(&mut self.late, Vec::new(self.alloc));
        self.tuck_all(&late);
        self.tuck_all(gone);
    }

    /// Leaves of these windows the buffers that they show.
    fn tuck_all(&mut self, ids: &[ConId])
        ensures stands { (o : Opening) → (history : List Entry) → Stands o history self.old → Stands o history self.new }
        ensures same { last_prefix self.new ≡ last_prefix self.old }
    {
        let mut rest = ids;
        while let [con, after @ ..] = rest {
            self.tuck(*con);
            rest = after;
        }
    }

    /// Leaves of a closed window the buffer that it shows. Where that is not its newest one yet, or there is no memory
    /// for it, this is tried again when the next window closes.
    fn tuck(&mut self, con: ConId)
        ensures stands { (o : Opening) → (history : List Entry) → Stands o history self.old → Stands o history self.new }
        ensures same { last_prefix self.new ≡ last_prefix self.old }
    {
        let Some(held) = self.windows.get(con.0) else {
            return;
        };
        if held.live {
            return;
        }
        let Held {
            buffer,
            buffer_serial,
            ..
        } = *held;
        if self.number < buffer_serial || self.gone.insert(con.0, buffer).is_err() {
            let _ = self.late.push(con);
            return;
        }
        self.windows.remove(con.0);
    }
}
