//! The turnstile: one value behind a ticket lock.
ghost use Rattle.std.specs.Prelude.{◌≡◌, ◌≤◌, ◌<◌, ◌+◌, ◌^◌, true, false, [], ◌∷◌, length, Some, IfOk, IfErr};
ghost use Rattle.std.specs.List.{All, sum_by};
ghost use Rattle.wm_turn.specs.History.{Begins, longer, places, wrote};
ghost use Rattle.wm_turn.specs.Pass.{IsKnown, IsLegal, longest, new_passes};
ghost use Rattle.wm_turn.specs.declared.view.Mark.TheVariants.{Wrote, Read};

use crate::making::{Board, end, gather, lay, seat_all};
use crate::seat::Seat;
use crate::stands::Stands;
use crate::steps::{add, merge, note, pass_on, pass_on_read, wait_for_turn};
use std::alloc::Global;
use std::marker::{Brand, Model};
use std::sync::Wait;
use wm_base::NoMemory;

/// A ticket lock over one value, which stands for one history of what its callers did.
pub struct Turnstile<V: Stands> {
    table: Board<V>,
}

impl<V: Stands> Model for Turnstile<V> {
    ghost use Rattle.std.specs.Prelude.{◌≡◌, ◌≤◌, ◌<◌};
    ghost use Rattle.wm_turn.specs.Pass.{Gate};

    ghost Value = { Gate V.Opening };

    ghost view = { λ t. record { door = t.table.shared.table_id; seats = t.table.shared.key.0; opening = V.opening t.table.shared.key.1.value } };

    ghost invariant = { λ t. (t.table.shared.table_id.words ≡ 3) × (t.table.shared.table_id.slots ≡ 1) × (0 < t.table.shared.key.0) × (t.table.shared.key.0 ≤ 4096) };
}

impl<V: Stands> Turnstile<V> {
    /// A turnstile over the value, with so many seats, one to 4,096, numbered from 0. The value must stand for no
    /// entries. Where there is no memory it comes back.
    pub fn start(
        alloc: Global,
        value: V,
        seats: u32,
    ) -> Result<(Turnstile<V>, Vec<Seat<V>>), (NoMemory, V)>
        requires seats { (1 ≤ seats) × (seats ≤ 4096) }
        requires stands { V.stands value [] }
        ensures gate { IfOk result (λ started. (started.0.seats ≡ seats) × (started.0.opening ≡ V.opening value)) }
        ensures seats { IfOk result (λ started. started.1.items ≡ new_passes started.0.door (V.opening value) 0 seats) }
        ensures err { IfErr result (λ refused. refused.1 ≡ value) }
    {
        let Ok(list) = Vec::with_capacity(alloc, seats as usize) else {
            return Err((NoMemory, value));
        };
        match lay(alloc, value, seats) {
            Ok((table, place)) => {
                let list = seat_all(&table.shared, place, seats, list);
                Ok((Turnstile { table }, list))
            }
            Err(value) => Err((NoMemory, value)),
        }
    }

    /// Waits for the turn and takes the value, which stands for all that the seat has then seen: the whole history. The
    /// seat must have no turn, and has it then.
    pub fn enter<R: Wait>(&self, rt: &R, seat: &mut Seat<V>) -> V
        requires door { seat.old.door ≡ self.now.door }
        requires no_turn { seat.old.turn ≡ false }
        ensures seat { seat.new ≡ record seat.old { turn = true; seen = seat.new.seen } }
        ensures seen { Begins seat.old.seen seat.new.seen }
        ensures own { places seat.old.caller seat.new.seen ≡ places seat.old.caller seat.old.seen }
        ensures opening { seat.new.opening ≡ Some (V.opening result) }
        ensures stands { V.stands result seat.new.seen }
        ensures legal { IsLegal seat.new }
    {
        wait_for_turn(rt, &self.table.shared, &mut seat.place);
        let (value, count) = note(&self.table.shared, &mut seat.place);
        seat.count = count;
        value
    }

    /// Adds the step to the history, under the number of the seat's caller. The seat must have the turn, and fewer than
    /// 2^48 entries stand in the history.
    pub fn log(&self, seat: &mut Seat<V>, step: &V::Step)
        requires door { seat.old.door ≡ self.now.door }
        requires turn { seat.old.turn ≡ true }
        requires few { length seat.old.seen < 2 ^ 48 }
        ensures seat { seat.new ≡ record seat.old { seen = record { who = seat.old.caller; step = V.form step.now } ∷ seat.old.seen; mine = Wrote (length seat.old.seen) ∷ seat.old.mine } }
        ensures legal { IsLegal seat.new }
    {
        add::<V, Brand>(&self.table.shared, &mut seat.place, step);
        seat.count += 1;
    }

    /// Gives the value back and passes the turn on. The seat must have the turn, and the value must stand for what the
    /// seat has seen.
    pub fn leave(&self, seat: &mut Seat<V>, value: V)
        requires door { seat.old.door ≡ self.now.door }
        requires turn { seat.old.turn ≡ true }
        requires opening { seat.old.opening ≡ Some (V.opening value) }
        requires stands { V.stands value seat.old.seen }
        ensures seat { seat.new ≡ record seat.old { turn = false } }
        ensures legal { IsLegal seat.new }
    {
        pass_on::<V, Brand>(&self.table.shared, &mut seat.place, value);
    }

    /// The same after an answered question, of which the seat has a mark then.
    pub fn leave_read(&self, seat: &mut Seat<V>, value: V, question: &V::Question)
        requires door { seat.old.door ≡ self.now.door }
        requires turn { seat.old.turn ≡ true }
        requires opening { seat.old.opening ≡ Some (V.opening value) }
        requires stands { V.stands value seat.old.seen }
        ensures seat { seat.new ≡ record seat.old { turn = false; mine = Read question.now (length seat.old.seen) ∷ seat.old.mine } }
        ensures legal { IsLegal seat.new }
    {
        pass_on_read::<V, Brand>(&self.table.shared, &mut seat.place, value, question);
    }

    /// Joins two seats into one, which has seen the longer of both. The other's entries stay in the history under its
    /// number. Neither must have the turn.
    pub fn join(&self, seat: &mut Seat<V>, other: Seat<V>)
        requires door { (seat.old.door ≡ self.now.door) × (other.door ≡ self.now.door) }
        requires no_turn { (seat.old.turn ≡ false) × (other.turn ≡ false) }
        ensures seat { seat.new ≡ record seat.old { seen = longer other.seen seat.old.seen; parts = seat.old.parts + other.parts } }
        ensures seen { Begins seat.old.seen seat.new.seen × Begins other.seen seat.new.seen }
        ensures calls { places other.caller seat.new.seen ≡ wrote other.mine }
        ensures legal { IsLegal seat.new }
    {
        let (place, count) = other.into_place();
        merge(&self.table.shared, &mut seat.place, place);
        seat.count = seat.count.max(count);
    }

    /// Ends the turnstile and gives the value, which stands for the whole history: the longest that one of the seats has
    /// seen. The seats must be all that were not joined away, which is that their parts add up to the number of seats
    /// that there were, and none of them must have the turn.
    pub fn close(self, seats: Vec<Seat<V>>) -> V
        requires seats { All (λ seat. (seat.door ≡ self.door) × (seat.turn ≡ false)) seats.items }
        requires parts { sum_by (λ seat. seat.parts) seats.items ≡ self.seats }
        ensures opening { V.opening result ≡ self.opening }
        ensures stands { V.stands result (longest [] seats.items) }
        ensures known { All (IsKnown (longest [] seats.items)) seats.items }
        ensures numbers { All (λ entry. entry.who < self.seats) (longest [] seats.items) }
    {
        let Turnstile { table } = self;
        let place = gather(&table.shared, seats);
        end(table, place)
    }
}

impl<V: Stands + Drop> Drop for Turnstile<V> {
    fn drop(self) {
        let Turnstile { table } = self;
        drop(table);
    }
}
