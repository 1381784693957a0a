//! A turnstile with one seat and with several, one that two threads go through a hundred times each, and joining.
ghost use Rattle.std.specs.Prelude.{◌≡◌, true, false, []};
ghost use Rattle.std.specs.List.{All};

use crate::{Seat, Stands, Turnstile};
use std::alloc::Global;
use std::collections::LinkedList;
use std::sync::Wait;
use std::test::*;
use std::thread;
use std::thread::Threads;

/// The steps that were taken, the newest first, each with the number of its caller.
#[derive(Drop)]
struct Ledger {
    opened: u32,
    steps: LinkedList<(u32, u32)>,
}

impl Stands for Ledger {
    type Opening = u32;

    type Step = u32;

    type Question = bool;

    ghost use Rattle.std.specs.Prelude.{◌≡◌, map};

    ghost opening = { λ ledger. ledger.opened };

    ghost form = { λ step. step };

    ghost stands = { λ ledger history. ledger.steps ≡ map (λ entry. (entry.who, entry.step)) history };
}

fn opened_with(alloc: Global, opened: u32) -> Ledger
    ensures { (result.opened ≡ opened) × (result.steps ≡ []) }
{
    Ledger {
        opened,
        steps: LinkedList::new(alloc),
    }
}

/// The value, which may go to another thread.
fn sent<T: Send>(value: T) -> T
    ensures { result ≡ value }
{
    value
}

/// The value, which other threads may use.
fn shared<T: Sync>(value: &T) -> &T
    ensures { result.now ≡ value.now }
{
    value
}

/// A turnstile and its seat may go to other threads where its value may.
fn sent_together<V: Stands + Send>(
    turnstile: Turnstile<V>,
    seat: Seat<V>,
) -> (Turnstile<V>, Seat<V>)
    ensures { result ≡ (turnstile, seat) }
{
    let turnstile = sent(turnstile);
    shared(&turnstile);
    (turnstile, sent(seat))
}

/// Takes one step, and answers whether there was memory for it.
fn take_step<R: Wait>(
    rt: &R,
    turnstile: &Turnstile<Ledger>,
    seat: &mut Seat<Ledger>,
    step: u32,
) -> bool
    requires door { seat.old.door ≡ turnstile.now.door }
    requires no_turn { seat.old.turn ≡ false }
    ensures door { seat.new.door ≡ seat.old.door }
    ensures no_turn { seat.new.turn ≡ false }
    ensures parts { seat.new.parts ≡ seat.old.parts }
{
    let mut value = turnstile.enter(rt, seat);
    let done = seat.count() < 1 << 48 && value.steps.push_front((seat.caller(), step)).is_ok();
    if done {
        turnstile.log(seat, &step);
    }
    turnstile.leave(seat, value);
    done
}

/// Asks whether the number of entries is even.
fn ask_even<R: Wait>(rt: &R, turnstile: &Turnstile<Ledger>, seat: &mut Seat<Ledger>) -> bool
    requires door { seat.old.door ≡ turnstile.now.door }
    requires no_turn { seat.old.turn ≡ false }
    ensures door { seat.new.door ≡ seat.old.door }
    ensures no_turn { seat.new.turn ≡ false }
    ensures parts { seat.new.parts ≡ seat.old.parts }
{
    let value = turnstile.enter(rt, seat);
    let even = value.steps.len() % 2 == 0;
    turnstile.leave_read(seat, value, &even);
    even
}

/// Takes the steps 0 to 99, and answers the seat with how many of them were done.
fn take_hundred<R: Wait>(
    rt: &R,
    turnstile: &Turnstile<Ledger>,
    mut seat: Seat<Ledger>,
) -> (Seat<Ledger>, u32)
    requires door { seat.door ≡ turnstile.now.door }
    requires no_turn { seat.turn ≡ false }
    ensures door { result.0.door ≡ seat.door }
    ensures no_turn { result.0.turn ≡ false }
    ensures parts { result.0.parts ≡ seat.parts }
{
    let mut done = 0;
    for step in 0..100 {
        if take_step(rt, turnstile, &mut seat, step) {
            done += 1;
        }
    }
    (seat, done)
}

/// Whether the caller took the steps 0 to 99 in this order, the newest being first.
fn are_in_order(steps: &LinkedList<(u32, u32)>, caller: u32) -> bool {
    let mut next = 100;
    for step in steps {
        if step.0 == caller {
            if next == 0 || step.1 != next - 1 {
                return false;
            }
            next = step.1;
        }
    }
    next == 0
}

#[test]
fn one_seat_enters_logs_and_leaves(rt: HostRuntime) -> Result<(), Fail> {
    let started = Turnstile::start(rt.alloc(), opened_with(rt.alloc(), 7), 1);
    let (turnstile, mut seats) = started.map_err(|_refused| "no memory")?;
    let seat = seats.pop().ok_or("a seat")?;
    let (turnstile, mut seat) = sent_together(turnstile, seat);
    assert_eq!(rt; (seat.caller(), seat.count()), (0, 0));
    assert!(rt; take_step(&rt, &turnstile, &mut seat, 5));
    assert_eq!(rt; seat.count(), 1);
    assert!(rt; !ask_even(&rt, &turnstile, &mut seat));
    seats.push(seat)?;
    let value = turnstile.close(seats);
    assert_eq!(rt; value.opened, 7);
    assert_eq!(rt; value.steps.front(), Some(&(0, 5)));
    Ok(())
}

#[test]
fn seats_are_numbered_in_order(rt: HostRuntime) -> Result<(), Fail> {
    for count in [1, 2, 5] {
        let started = Turnstile::start(rt.alloc(), opened_with(rt.alloc(), 0), count);
        let (_turnstile, seats) = started.map_err(|_refused| "no memory")?;
        assert_eq!(rt; seats.len(), count as usize);
        for (number, seat) in seats.iter().enumerate() {
            assert_eq!(rt; (seat.caller() as usize, seat.count()), (number, 0));
        }
    }
    Ok(())
}

/// Two threads take a hundred steps each.
fn race<R: Threads + Wait + Sync>(
    rt: &R,
    turnstile: &Turnstile<Ledger>,
    first: Seat<Ledger>,
    second: Seat<Ledger>,
) -> ((Seat<Ledger>, u32), (Seat<Ledger>, u32))
    requires door { (first.door ≡ turnstile.now.door) × (second.door ≡ turnstile.now.door) }
    requires no_turn { (first.turn ≡ false) × (second.turn ≡ false) }
    ensures door { (result.0.0.door ≡ turnstile.now.door) × (result.1.0.door ≡ turnstile.now.door) }
    ensures no_turn { (result.0.0.turn ≡ false) × (result.1.0.turn ≡ false) }
    ensures parts { (result.0.0.parts ≡ first.parts) × (result.1.0.parts ≡ second.parts) }
{
    thread::join(
        rt,
        move ||
            requires { (first.door ≡ turnstile.now.door) × (first.turn ≡ false) }
            ensures { (result.0.door ≡ turnstile.entry.now.door) × (result.0.turn ≡ false) × (result.0.parts ≡ first.parts) }
        { take_hundred(rt, turnstile, first) },
        move ||
            requires { (second.door ≡ turnstile.now.door) × (second.turn ≡ false) }
            ensures { (result.0.door ≡ turnstile.entry.now.door) × (result.0.turn ≡ false) × (result.0.parts ≡ second.parts) }
        { take_hundred(rt, turnstile, second) },
    )
}

#[test]
fn two_threads_take_a_hundred_steps_each(rt: HostRuntime) -> Result<(), Fail> {
    let started = Turnstile::start(rt.alloc(), opened_with(rt.alloc(), 0), 2);
    let (turnstile, mut seats) = started.map_err(|_refused| "no memory")?;
    let second = seats.pop().ok_or("a second seat")?;
    let first = seats.pop().ok_or("a first seat")?;
    let ((first, done), (second, more)) = race(&rt, &turnstile, first, second);
    assert_eq!(rt; (done, more), (100, 100));
    seats.push(first)?;
    seats.push(second)?;
    let value = turnstile.close(seats);
    assert_eq!(rt; value.steps.len(), 200);
    assert!(rt; are_in_order(&value.steps, 0) && are_in_order(&value.steps, 1));
    Ok(())
}

#[test]
fn joining_keeps_the_longer_history(rt: HostRuntime) -> Result<(), Fail> {
    let started = Turnstile::start(rt.alloc(), opened_with(rt.alloc(), 0), 3);
    let (turnstile, mut seats) = started.map_err(|_refused| "no memory")?;
    let mut third = seats.pop().ok_or("a third seat")?;
    let mut second = seats.pop().ok_or("a second seat")?;
    let mut first = seats.pop().ok_or("a first seat")?;
    assert!(rt; take_step(&rt, &turnstile, &mut first, 1));
    assert!(rt; take_step(&rt, &turnstile, &mut second, 2));
    turnstile.join(&mut third, second);
    assert_eq!(rt; (third.caller(), third.count()), (2, 2));
    turnstile.join(&mut third, first);
    assert_eq!(rt; (third.caller(), third.count()), (2, 2));
    assert!(rt; take_step(&rt, &turnstile, &mut third, 3));
    seats.push(third)?;
    let value = turnstile.close(seats);
    assert_eq!(rt; value.steps.front(), Some(&(2, 3)));
    assert_eq!(rt; value.steps.back(), Some(&(0, 1)));
    Ok(())
}
