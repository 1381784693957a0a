//! A desk that several callers share, each with a seat of its own.
ghost use Rattle.std.specs.Prelude.{◌≡◌, ◌≤◌, ◌<◌, ◌+◌, false, [], length, IfErr, IfOk};
ghost use Rattle.std.specs.List.{All, sum_by};
ghost use Rattle.wm_turn.specs.History.{Begins, longer, places, wrote};
ghost use Rattle.wm_turn.specs.Pass.{IsKnown, IsLegal, longest, new_passes};

use crate::kept::Kept;
use std::alloc::Global;
use std::marker::Model;
use std::sync::Wait;
use wm_base::NoMemory;
use wm_core::{ActRefusal, Answer, Asked, ClientStep, Door, Exhausted, Query, Step, View};
use wm_paint::Frame;
use wm_turn::{Seat, Turnstile};

/// How many steps a history takes.
const MOST: u64 = 1 << 48;

/// A desk that several callers share, one call after another. It stands for the one history of what they did.
pub struct Book<V: Kept> {
    turnstile: Turnstile<V>,
}

impl<V: Kept> Model for Book<V> {
    ghost use Rattle.wm_turn.specs.Pass.{Gate};
    ghost use Rattle.wm_layouts.specs.declared.plan.Plan.{Plan};
    ghost use Rattle.wm_layouts.specs.contracts.plan.Plan as plan;
    ghost use Rattle.std.specs.Coded.{codes};

    ghost Value = { Gate Plan };

    ghost coded = { Prim.hlevel (codes, plan.the_row.coded) };

    ghost view = { λ book. book.turnstile };
}

impl<V: Kept> Door for Book<V> {
    type Pass = Seat<V>;

    ghost use Rattle.std.specs.Prelude.{◌≡◌};
    ghost use Rattle.wm_book.specs.Carried.{carried, carried_legal};
    ghost use Rattle.wm_turn.specs.Pass.{IsLegal};

    ghost is_of = { λ book seat. (seat.door ≡ book.door) × IsLegal seat };

    ghost carried = { carried };

    fn act<R: Wait>(&self, rt: &R, seat: &mut Seat<V>, step: &Step) -> Result<Answer, ActRefusal> {
        let mut value = self.turnstile.enter(rt, seat);
        let steps = seat.count();
        if steps >= MOST {
            self.turnstile.leave(seat, value);
            return Err(ActRefusal::Exhausted(Exhausted { steps }));
        }
        let Ok(answer) = value.step(seat.caller(), step) else {
            self.turnstile.leave(seat, value);
            return Err(ActRefusal::NoMemory);
        };
        self.turnstile.log(seat, step);
        self.turnstile.leave(seat, value);
        Ok(answer)
    }

    fn act_client<R: Wait>(
        &self,
        rt: &R,
        seat: &mut Seat<V>,
        step: &ClientStep,
    ) -> Result<Answer, Exhausted> {
        let mut value = self.turnstile.enter(rt, seat);
        let steps = seat.count();
        if steps >= MOST {
            self.turnstile.leave(seat, value);
            return Err(Exhausted { steps });
        }
        let answer = value.answer_client(seat.caller(), step);
        let entry = Step::Client(*step);
        self.turnstile.log(seat, &entry);
        drop(entry);
        self.turnstile.leave(seat, value);
        Ok(answer)
    }

    fn look<R: Wait>(&self, rt: &R, seat: &mut Seat<V>, query: &Query) -> Result<View, NoMemory> {
        let value = self.turnstile.enter(rt, seat);
        let Ok(view) = value.look(seat.caller(), query) else {
            self.turnstile.leave(seat, value);
            return Err(NoMemory);
        };
        self.turnstile
            .leave_read(seat, value, &Asked::Query(*query));
        Ok(view)
    }

    fn paint<R: Wait>(&self, rt: &R, seat: &mut Seat<V>) -> Result<Frame, NoMemory> {
        let value = self.turnstile.enter(rt, seat);
        let Ok(frame) = value.frame() else {
            self.turnstile.leave(seat, value);
            return Err(NoMemory);
        };
        self.turnstile.leave_read(seat, value, &Asked::Frame);
        Ok(frame)
    }

    fn stopped<R: Wait>(&self, rt: &R, seat: &mut Seat<V>) -> bool {
        let value = self.turnstile.enter(rt, seat);
        let stopped = value.state().stopped;
        self.turnstile.leave_read(seat, value, &Asked::Stopped);
        stopped
    }

    ghost legal = { λ book seat is. carried_legal seat is.1 };
}

impl<V: Kept> Book<V> {
    /// A book of the value, with so many seats, one to 4,096, numbered from 0. The value must stand for no steps. Where
    /// there is no memory it comes back.
    pub fn start(
        alloc: Global,
        value: V,
        seats: u32,
    ) -> Result<(Book<V>, Vec<Seat<V>>), (NoMemory, V)>
        requires seats { (1 ≤ seats) × (seats ≤ 4096) }
        requires stands { V.stands value [] }
        ensures gate { IfOk result (λ started. (started.0.seats ≡ seats) × (started.0.opening ≡ V.opening value)) }
        ensures seats { IfOk result (λ started. started.1.items ≡ new_passes started.0.door (V.opening value) 0 seats) }
        ensures legal { IfOk result (λ started. All IsLegal started.1.items) }
        ensures err { IfErr result (λ refused. refused.1 ≡ value) }
    {
        let (turnstile, seats) = Turnstile::start(alloc, value, seats)?;
        Ok((Book { turnstile }, seats))
    }

    /// Joins two seats into one, which has seen the longer of both. The other's steps stay in the history under its
    /// number. Neither must be within a call.
    pub fn join(&self, seat: &mut Seat<V>, other: Seat<V>)
        requires door { (seat.old.door ≡ self.now.door) × (other.door ≡ self.now.door) }
        requires no_turn { (seat.old.turn ≡ false) × (other.turn ≡ false) }
        ensures seat { seat.new ≡ record seat.old { seen = longer other.seen seat.old.seen; parts = seat.old.parts + other.parts } }
        ensures seen { Begins seat.old.seen seat.new.seen × Begins other.seen seat.new.seen }
        ensures calls { places other.caller seat.new.seen ≡ wrote other.mine }
        ensures legal { IsLegal seat.new }
    {
        self.turnstile.join(seat, other);
    }

    /// Ends the book, and gives the value and how many steps it stands for. It stands for the whole history: the longest
    /// that one of the seats has seen, which each of them has seen a beginning of. The seats must be all that were not
    /// joined away, which is that their parts add up to the number of seats that there were, and none of them must be
    /// within a call.
    pub fn close(self, seats: Vec<Seat<V>>) -> (V, u64)
        requires seats { All (λ seat. (seat.door ≡ self.door) × (seat.turn ≡ false)) seats.items }
        requires parts { sum_by (λ seat. seat.parts) seats.items ≡ self.seats }
        ensures opening { V.opening result.0 ≡ self.opening }
        ensures stands { V.stands result.0 (longest [] seats.items) }
        ensures known { All (IsKnown (longest [] seats.items)) seats.items }
        ensures numbers { All (λ entry. entry.who < self.seats) (longest [] seats.items) }
        ensures length { result.1 ≡ length (longest [] seats.items) }
    {
        let Book { turnstile } = self;
        let value = turnstile.close(seats);
        let steps = value.state().steps;
        (value, steps)
    }
}

impl<V: Kept + Drop> Drop for Book<V> {
    fn drop(self) {
        let Book { turnstile } = self;
        drop(turnstile);
    }
}
