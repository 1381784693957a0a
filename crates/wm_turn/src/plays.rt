//! What each step on the table tells the seat that takes it.
use crate::stands::Stands;
use crate::view::View;
use atomic_table::{Join, Play, Split};
use std::marker::{Brand, PhantomData};

/// Names what a step says, for the proof alone. Each call picks it.
pub(crate) trait Says<X> {
    ghost use Rattle.std.specs.Prelude.{Option};

    ghost said: { Option X };
}

impl<X> Says<X> for Brand {
    ghost use Rattle.std.specs.Prelude.{None};

    ghost said = { None };
}

/// A ticket is drawn.
pub(crate) struct Draw;

impl<W, O, S, Q> Play<Option<W>, View<O, S, Q>> for Draw {
    ghost use Rattle.wm_turn.specs.Told.{draws};

    ghost then = { draws };
}

/// The number that is served is looked at.
pub(crate) struct Watch;

impl<W, O, S, Q> Play<Option<W>, View<O, S, Q>> for Watch {
    ghost use Rattle.wm_turn.specs.Told.{watches};

    ghost then = { watches };
}

/// The count is noted, and the value is taken.
pub(crate) struct Note;

impl<V: Stands> Play<Option<V>, View<V::Opening, V::Step, V::Question>> for Note {
    ghost use Rattle.wm_turn.specs.Told.{notes};

    ghost then = { notes V.opening V.stands };
}

/// The entry that `N` names is added.
pub(crate) struct Log<N> {
    named: PhantomData<N>,
}

impl<W, O, S, Q, N: Says<S>> Play<Option<W>, View<O, S, Q>> for Log<N> {
    ghost use Rattle.wm_turn.specs.Told.{logs};

    ghost then = { logs N.said };
}

/// The value is given back with the turn; the question that `N` names was answered.
pub(crate) struct PassOn<N> {
    named: PhantomData<N>,
}

impl<W, O, S, Q, N: Says<Q>> Play<Option<W>, View<O, S, Q>> for PassOn<N> {
    ghost use Rattle.wm_turn.specs.Told.{passes_on};

    ghost then = { passes_on N.said };
}

/// What the seats that were joined have seen and written is compared with what this one has seen.
pub(crate) struct Agree;

impl<W, O, S, Q> Play<Option<W>, View<O, S, Q>> for Agree {
    ghost use Rattle.wm_turn.specs.Told.{agrees};

    ghost then = { agrees };
}

/// A seat with a number of its own.
pub(crate) struct NewSeat;

impl<O, S, Q> Split<View<O, S, Q>> for NewSeat {
    ghost use Rattle.wm_turn.specs.Rule.{left_by_split, new_by_split};

    ghost left = { left_by_split };

    ghost right = { new_by_split };
}

/// Two seats become one.
pub(crate) struct OneSeat;

impl<O, S, Q> Join<View<O, S, Q>> for OneSeat {
    ghost use Rattle.wm_turn.specs.Rule.{joined, spent};

    ghost both = { joined };

    ghost spent = { spent };
}
