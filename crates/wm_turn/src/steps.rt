//! The steps of a seat at the table, each on one word.
ghost use Rattle.std.specs.Prelude.{◌≡◌, ◌<◌, ◌≤◌, ℕ, ◌+◌, ◌^◌, [], ◌∷◌, length, None, Some};
ghost use Rattle.std.specs.List.{All};
ghost use Rattle.atomic_table.specs.Table.{rest};
ghost use Rattle.wm_turn.specs.History.{Begins};
ghost use Rattle.wm_turn.specs.Rule.{AreCalls, calls_of, joined, left_by_split, new_by_split};
ghost use Rattle.wm_turn.specs.Steps.{IsAt, IsSamePlace};
ghost use Rattle.wm_turn.specs.Told.{HasNoted, logged, passed_on};
ghost use Rattle.wm_turn.specs.declared.view.Stage.TheVariants.{Idle, Turn, Noted};

use crate::plays::{Agree, Draw, Log, NewSeat, Note, OneSeat, PassOn, Says, Watch};
use crate::rule::{InTurn, Key, ViewOf};
use crate::seat::Place;
use crate::stands::Stands;
use atomic_table::Shared;
use crossbeam_utils::Backoff;
use std::sync::Wait;
use std::thread::Parker;
use std::time::Duration;

/// What the threads share.
pub(crate) type Common<V> = Shared<Option<V>, ViewOf<V>, Key<V>, InTurn<V>>;

/// The word of the next ticket.
const TICKET: usize = 0;

/// The word of the ticket that is served.
const SERVING: usize = 1;

/// The word of the number of entries.
const COUNT: usize = 2;

/// How many waits of a waiter are awake, each twice as long as the one before.
const AWAKE: u32 = 7;

/// Draws a ticket, and waits until it is served.
pub(crate) fn wait_for_turn<V: Stands, R: Wait>(rt: &R, common: &Common<V>, place: &mut Place<V>)
    requires at { IsAt common.now.table_id place.old }
    requires idle { (place.old.me.0.stage ≡ Idle) × (0 < place.old.me.0.parts) }
    ensures same { IsSamePlace place.old place.new }
    ensures turn { (ticket : ℕ) × (place.new.me ≡ (record place.old.me.0 { stage = Turn ticket }, place.old.me.1)) }
{
    let number = common.fetch_add::<Draw>(place, TICKET, 1);
    let backoff = Backoff::new();
    let mut looks = 0;
    for _ in rt.forever() {
        if common.load::<Watch>(place, SERVING) == number {
            return;
        }
        wait(rt, &backoff, looks);
        looks = looks.saturating_add(1);
    }
    unreachable!()
}

/// Waits a little, after so many looks. The first waits are awake, since most turns are short. Later ones leave the processor to
/// whoever has the turn, or is to have it before: a thread that only yields keeps it from running where there are more
/// threads than processors. Nothing is promised of the time.
fn wait<R: Wait>(rt: &R, backoff: &Backoff, looks: u32) {
    if looks < AWAKE {
        backoff.spin();
    } else {
        Parker::new().park_timeout(rt, Duration::from_micros(1));
    }
}

/// Notes the count, and takes the value out of the slot.
pub(crate) fn note<V: Stands>(common: &Common<V>, place: &mut Place<V>) -> (V, u64)
    requires at { IsAt common.now.table_id place.old }
    requires turn { (ticket : ℕ) × (place.old.me.0.stage ≡ Turn ticket) }
    requires live { (0 < place.old.me.0.parts) × (place.old.me.1 ≡ []) }
    ensures same { IsSamePlace place.old place.new }
    ensures noted { HasNoted V.opening V.stands place.old.me.0 result.0 result.1 place.new.me.0 }
    ensures slot { place.new.me.1 ≡ (0, None) ∷ [] }
{
    let count = common.load::<Note>(place, COUNT);
    let value = common.exchange(place, 0, None).unwrap();
    (value, count)
}

/// Adds the entry of the step, which `N` names.
pub(crate) fn add<V: Stands, N: Says<V::Step>>(
    common: &Common<V>,
    place: &mut Place<V>,
    step: &V::Step,
)
    requires at { IsAt common.now.table_id place.old }
    requires noted { (ticket : ℕ) × (place.old.me.0.stage ≡ Noted ticket) }
    requires live { (0 < place.old.me.0.parts) × (length place.old.me.0.seen < 2 ^ 48) }
    requires said { N.said ≡ Some (V.form step.now) }
    ensures same { IsSamePlace place.old place.new }
    ensures logged { place.new.me ≡ (logged (Some (V.form step.now)) place.old.me.0, place.old.me.1) }
{
    let _ = step;
    common.fetch_add::<Log<N>>(place, COUNT, 1);
}

/// Puts the value back into the slot and passes the turn on; the question that `N` names was answered.
pub(crate) fn pass_on<V: Stands, N: Says<V::Question>>(
    common: &Common<V>,
    place: &mut Place<V>,
    value: V,
)
    requires at { IsAt common.now.table_id place.old }
    requires noted { (ticket : ℕ) × (place.old.me.0.stage ≡ Noted ticket) }
    requires live { (0 < place.old.me.0.parts) × (place.old.me.1 ≡ (0, None) ∷ []) }
    requires value { (place.old.me.0.opening ≡ Some (V.opening value)) × V.stands value place.old.me.0.seen }
    ensures same { IsSamePlace place.old place.new }
    ensures passed { place.new.me ≡ (passed_on N.said place.old.me.0, []) }
{
    let empty = common.exchange(place, 0, Some(value));
    let None = empty else { unreachable!() };
    common.fetch_add::<PassOn<N>>(place, SERVING, 1);
}

/// The same, for the question that `N` names.
pub(crate) fn pass_on_read<V: Stands, N: Says<V::Question>>(
    common: &Common<V>,
    place: &mut Place<V>,
    value: V,
    question: &V::Question,
)
    requires at { IsAt common.now.table_id place.old }
    requires noted { (ticket : ℕ) × (place.old.me.0.stage ≡ Noted ticket) }
    requires live { (0 < place.old.me.0.parts) × (place.old.me.1 ≡ (0, None) ∷ []) }
    requires said { N.said ≡ Some question.now }
    requires value { (place.old.me.0.opening ≡ Some (V.opening value)) × V.stands value place.old.me.0.seen }
    ensures same { IsSamePlace place.old place.new }
    ensures passed { place.new.me ≡ (passed_on (Some question.now) place.old.me.0, []) }
{
    let _ = question;
    pass_on::<V, N>(common, place, value);
}

/// Splits off a seat with the next number.
pub(crate) fn split<V: Stands>(common: &Common<V>, place: &mut Place<V>) -> Place<V>
    requires at { IsAt common.now.table_id place.old }
    requires spare { (0 < place.old.me.0.spare) × (0 < place.old.me.0.parts) }
    ensures same { IsSamePlace place.old place.new }
    ensures left { place.new.me ≡ (left_by_split place.old.me.0, place.old.me.1) }
    ensures given { (result.table_id ≡ place.old.table_id) × (result.me ≡ (new_by_split place.old.me.0, [])) }
{
    common.split_seat::<NewSeat>(place)
}

/// Joins another seat, and compares what both have seen and written.
pub(crate) fn merge<V: Stands>(common: &Common<V>, place: &mut Place<V>, other: Place<V>)
    requires at { IsAt common.now.table_id place.old }
    requires other { other.table_id ≡ common.now.table_id }
    requires idle { (place.old.me.0.stage ≡ Idle) × (other.me.0.stage ≡ Idle) × (other.me.1 ≡ []) }
    requires live { (0 < place.old.me.0.parts) × (0 < other.me.0.parts) }
    requires spare { (place.old.me.0.spare ≡ 0) × (other.me.0.spare ≡ 0) }
    ensures same { IsSamePlace place.old place.new }
    ensures joined { place.new.me ≡ (joined place.old.me.0 other.me.0, place.old.me.1) }
    ensures begins { All (λ old. Begins old place.new.me.0.seen) place.new.me.0.old_seen }
    ensures calls { All (AreCalls place.new.me.0.seen) (calls_of place.new.me.0) }
{
    common.join_seat::<OneSeat>(place, other);
    common.load::<Agree>(place, COUNT);
}
