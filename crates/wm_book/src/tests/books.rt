//! Books that two callers share, and what of them goes to other threads.
ghost use Rattle.std.specs.Prelude.{◌≡◌, [], ◌∷◌, length, IfOk, IfSome};
ghost use Rattle.wm_book.specs.Carried.{IsReady};

use crate::{Book, Kept};
use std::alloc::Global;
use std::test::*;
use wm_turn::Seat;

/// The value, which may go to another thread.
fn sent<T: Send>(value: T) -> T
    ensures { result ≡ value }
{
    value
}

/// The value, which other threads may use.
fn shared<T: Sync>(value: &T) -> &T
    ensures { result.now ≡ value.now }
{
    value
}

/// The value, which may go to another thread, and which other threads may use.
pub(super) fn crossed<T: Send + Sync>(value: T) -> T
    ensures { result ≡ value }
{
    let value = sent(value);
    shared(&value);
    value
}

/// A book and its seats may go to other threads where its value may, and other threads may use the book.
fn sent_together<V: Kept + Send>(
    book: Book<V>,
    first: Seat<V>,
    second: Seat<V>,
) -> (Book<V>, Seat<V>, Seat<V>)
    ensures { result ≡ (book, first, second) }
{
    let book = sent(book);
    shared(&book);
    (book, sent(first), sent(second))
}

/// The two seats of a list of two.
fn both<V: Kept>(mut seats: Vec<Seat<V>>) -> Option<(Seat<V>, Seat<V>)>
    requires { length seats.items ≡ 2 }
    ensures { IfSome result (λ both. seats.items ≡ both.0 ∷ both.1 ∷ []) }
{
    let second = seats.pop()?;
    let first = seats.pop()?;
    Some((first, second))
}

/// A book of the value, and its two seats.
pub(super) fn shared_by_two<V: Kept + Send + Drop>(
    alloc: Global,
    value: V,
) -> Result<(Book<V>, Seat<V>, Seat<V>), Fail>
    requires { V.stands value [] }
    ensures seats { IfOk result (λ made. made.0.seats ≡ 2) }
    ensures first { IfOk result (λ made. IsReady made.0 made.1 × (made.1.parts ≡ 1)) }
    ensures second { IfOk result (λ made. IsReady made.0 made.2 × (made.2.parts ≡ 1)) }
{
    let started = Book::start(alloc, value, 2);
    let (book, seats) = started.map_err(|_refused| "no memory")?;
    let (first, second) = both(seats).ok_or("two seats")?;
    Ok(sent_together(book, first, second))
}

/// Ends the book by its two seats: the value, and how many steps it stands for.
pub(super) fn close_both<V: Kept + Drop>(
    alloc: Global,
    book: Book<V>,
    first: Seat<V>,
    second: Seat<V>,
) -> Result<(V, u64), Fail>
    requires seats { book.seats ≡ 2 }
    requires first { IsReady book first × (first.parts ≡ 1) }
    requires second { IsReady book second × (second.parts ≡ 1) }
{
    let mut seats = Vec::with_capacity(alloc, 2)?;
    seats.push_reserved(first);
    seats.push_reserved(second);
    Ok(book.close(seats))
}

/// Ends the book by the seat that all others were joined into: how many steps its value stands for.
pub(super) fn close_joined<V: Kept + Drop>(
    alloc: Global,
    book: Book<V>,
    seat: Seat<V>,
) -> Result<u64, Fail>
    requires { IsReady book seat × (seat.parts ≡ book.seats) }
{
    let mut seats = Vec::with_capacity(alloc, 1)?;
    seats.push_reserved(seat);
    let (value, steps) = book.close(seats);
    drop(value);
    Ok(steps)
}
