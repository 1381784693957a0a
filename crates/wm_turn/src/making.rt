//! Making a turnstile with its seats, and joining them all again.
ghost use Rattle.std.specs.Prelude.{◌≡◌, ◌≤◌, ◌<◌, ◌-◌, [], ◌∷◌, true, false, Some, IfErr, IfOk, MatchResult};
ghost use Rattle.std.specs.List.{All, sum_by};
ghost use Rattle.std.specs.Vec.{vec_len, vec_capacity};
ghost use Rattle.wm_turn.specs.History.{Begins};
ghost use Rattle.wm_turn.specs.Pass.{IsKnown, longest, new_passes};
ghost use Rattle.wm_turn.specs.Rule.{AreCalls, calls_of, first_view};
ghost use Rattle.wm_turn.specs.Steps.{IsAt, IsLeft, IsSized};
ghost use Rattle.wm_turn.specs.declared.view.Stage.TheVariants.{Idle};

use crate::rule::{InTurn, Key, ViewOf};
use crate::seat::{Place, Seat};
use crate::stands::Stands;
use crate::steps::{Common, merge, split};
use atomic_table::{Refused, Table};
use std::alloc::Global;
use std::snapshot::Snapshot;

/// The table of a turnstile.
pub(crate) type Board<V> = Table<Option<V>, ViewOf<V>, Key<V>, InTurn<V>, Global>;

/// A list of one slot with the value, or the value where there is no memory.
fn slot_with<V>(alloc: Global, value: V) -> Result<Vec<Option<V>>, V>
    ensures { MatchResult result (λ slots. slots.items ≡ Some value ∷ []) (λ back. back ≡ value) }
{
    let Ok(mut slots) = Vec::with_capacity(alloc, 1) else {
        return Err(value);
    };
    slots.push_reserved(Some(value));
    Ok(slots)
}

/// A table with the value in its slot, and its first place, or the value where there is no memory.
pub(crate) fn lay<V: Stands>(alloc: Global, value: V, seats: u32) -> Result<(Board<V>, Place<V>), V>
    requires seats { (1 ≤ seats) × (seats ≤ 4096) }
    requires stands { V.stands value [] }
    ensures board { IfOk result (λ laid. IsSized laid.0.shared.table_id × (laid.0.shared.key.0 ≡ seats) × (V.opening laid.0.shared.key.1.value ≡ V.opening value)) }
    ensures place { IfOk result (λ laid. (laid.1.table_id ≡ laid.0.shared.table_id) × (laid.1.me ≡ (first_view seats (V.opening value), []))) }
    ensures err { IfErr result (λ back. back ≡ value) }
{
    let first = Snapshot::of(&value);
    let slots = match slot_with(alloc, value) {
        Ok(slots) => slots,
        Err(value) => return Err(value),
    };
    match Table::new(alloc, &[0, 0, 0], slots, &(seats, first)) {
        Ok(laid) => Ok(laid),
        Err(Refused { mut slots }) => {
            let last = slots.pop();
            slots.destroy_empty();
            let Some(Some(value)) = last else {
                unreachable!()
            };
            Err(value)
        }
    }
}

/// Splits all seats off the first one, and puts them into the list in the order of their numbers.
pub(crate) fn seat_all<V: Stands>(
    common: &Common<V>,
    mut place: Place<V>,
    seats: u32,
    mut list: Vec<Seat<V>>,
) -> Vec<Seat<V>>
    requires at { IsAt common.now.table_id place }
    requires first { place.me ≡ (first_view seats (V.opening common.now.key.1.value), []) }
    requires seats { (1 ≤ seats) × (seats ≤ 4096) }
    requires room { (list.items ≡ []) × (vec_len list ≡ 0) × (seats ≤ vec_capacity list) }
    ensures { result.items ≡ new_passes common.now.table_id (V.opening common.now.key.1.value) 0 seats }
{
    for caller in 1..seats {
        let other = split(common, &mut place);
        list.push_reserved(Seat {
            place: other,
            caller,
            count: 0,
        });
    }
    let first = Seat {
        place,
        caller: 0,
        count: 0,
    };
    let placed = list.insert(0, first);
    let Ok(()) = placed else { unreachable!() };
    list
}

/// Joins all seats into one place.
pub(crate) fn gather<V: Stands>(common: &Common<V>, mut seats: Vec<Seat<V>>) -> Place<V>
    requires sized { IsSized common.now.table_id }
    requires seats { All (λ seat. (seat.door ≡ common.now.table_id) × (seat.turn ≡ false)) seats.items }
    requires some { 0 < sum_by (λ seat. seat.parts) seats.items }
    ensures at { IsAt common.now.table_id result }
    ensures idle { (result.me.0.stage ≡ Idle) × (0 < result.me.0.parts) × (result.me.1 ≡ []) }
    ensures parts { result.me.0.parts ≡ sum_by (λ seat. seat.parts) seats.items }
    ensures seen { result.me.0.seen ≡ longest [] seats.items }
    ensures known { All (AreCalls result.me.0.seen) (calls_of result.me.0) → All (IsKnown result.me.0.seen) seats.items }
{
    let last = seats.pop();
    let Some(seat) = last else { unreachable!() };
    let (mut place, _) = seat.into_place();
    while let Some(seat) = seats.pop() {
        let (other, _) = seat.into_place();
        merge(common, &mut place, other);
    }
    seats.destroy_empty();
    place
}

/// Ends the table and gives the value, where the place has all parts.
pub(crate) fn end<V: Stands>(table: Board<V>, place: Place<V>) -> V
    requires at { IsAt table.shared.table_id place }
    requires idle { (place.me.0.stage ≡ Idle) × (0 < place.me.0.parts) }
    requires parts { place.me.0.parts ≡ table.shared.key.0 }
    ensures { IsLeft V.opening V.stands table.shared.key.0 (V.opening table.shared.key.1.value) place.me.0 result }
{
    let mut closed = table.close_with(place);
    let slot = closed.take(0);
    closed.free();
    let Some(value) = slot else { unreachable!() };
    value
}
