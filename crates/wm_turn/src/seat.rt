//! The seats at a turnstile.
ghost use Rattle.std.specs.Prelude.{◌≡◌, ◌≤◌, ◌^◌, length};
ghost use Rattle.wm_turn.specs.Pass.{IsLegal, IsSeated, pass_of};

use crate::rule::ViewOf;
use crate::stands::Stands;
use std::marker::Model;

/// A place at the table of a turnstile.
pub(crate) type Place<V> = atomic_table::Seat<Option<V>, ViewOf<V>>;

/// A seat at a turnstile, for one caller at a time. It knows what its caller has seen of the one history, and has a mark
/// for each of its calls; neither takes room.
pub struct Seat<V: Stands> {
    pub(crate) place: Place<V>,
    pub(crate) caller: u32,
    pub(crate) count: u64,
}

impl<V: Stands> Model for Seat<V> {
    ghost use Rattle.wm_turn.specs.Pass.{Pass, IsSeated, pass_of};

    ghost Value = { Pass V.Opening V.Step V.Question };

    ghost view = { λ s. pass_of s.place };

    ghost invariant = { λ s. IsSeated s.caller s.count s.place.me };
}

impl<V: Stands> Seat<V> {
    /// The number of its caller.
    pub fn caller(&self) -> u32
        ensures caller { result ≡ self.now.caller }
        ensures legal { IsLegal self.now }
    {
        self.caller
    }

    /// How many entries its caller has seen, at most 2^48.
    pub fn count(&self) -> u64
        ensures count { result ≡ length self.now.seen }
        ensures few { result ≤ 2 ^ 48 }
        ensures legal { IsLegal self.now }
    {
        self.count
    }

    /// Its place at the table, and how many entries its caller has seen.
    pub(crate) fn into_place(self) -> (Place<V>, u64)
        ensures place { self ≡ pass_of result.0 }
        ensures seated { IsSeated result.0.me.0.caller result.1 result.0.me }
    {
        let Seat {
            place,
            caller: _,
            count,
        } = self;
        (place, count)
    }
}

impl<V: Stands> Drop for Seat<V> {
    fn drop(self) {
        let Seat {
            place,
            caller: _,
            count: _,
        } = self;
        drop(place);
    }
}
