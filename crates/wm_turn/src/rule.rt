//! The rule of a turnstile, over its words, its slot and the views of its seats.
use crate::stands::Stands;
use crate::view::View;
use atomic_table::{Table, TableRule};
use std::alloc::Global;
use std::marker::PhantomData;
use std::snapshot::Snapshot;

/// What the rule is told once: the number of seats, and the first value.
pub(crate) type Key<V> = (u32, Snapshot<V>);

/// The view of a seat of values `V`.
pub(crate) type ViewOf<V> = View<
    <V as Stands>::Opening,
    <V as Stands>::Step,
    <V as Stands>::Question,
>;

/// Each ticket is served once, and the value at home stands for the one history.
pub(crate) struct InTurn<V> {
    value: PhantomData<V>,
}

impl<V: Stands> TableRule<Option<V>, View<V::Opening, V::Step, V::Question>, Key<V>> for InTurn<V> {
    ghost use Rattle.wm_turn.specs.Rule.{IsKept, first_view};

    ghost holds = { λ key. IsKept V.opening V.stands key.0 (V.opening key.1.value) };

    ghost first = { λ key. first_view key.0 (V.opening key.1.value) };
}
