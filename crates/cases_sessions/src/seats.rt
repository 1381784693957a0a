//! The book of a case: a desk at the standard opening, which two callers share.
ghost use Rattle.std.specs.Prelude.{◌≡◌, [], ◌∷◌, length, IfOk, IfSome};
ghost use Rattle.wm_book.specs.Carried.{IsReady};
ghost use Rattle.wm_core.specs.DeskValue.{Stands};

use case_data::Fault;
use std::alloc::Global;
use wm_base::NoMemory;
use wm_book::Book;
use wm_core::Desk;
use wm_layouts::Plan;
use wm_turn::Seat;

fn opened(alloc: Global) -> Result<Desk, NoMemory>
    ensures { IfOk result (λ desk. Stands desk []) }
{
    Desk::start(alloc, Plan::standard(alloc)?)
}

/// The two seats of a list of two.
fn both(mut seats: Vec<Seat<Desk>>) -> Option<(Seat<Desk>, Seat<Desk>)>
    requires { length seats.items ≡ 2 }
    ensures { IfSome result (λ both. seats.items ≡ both.0 ∷ both.1 ∷ []) }
{
    let second = seats.pop()?;
    let first = seats.pop()?;
    Some((first, second))
}

/// A book and its two seats.
pub fn shared_by_two(alloc: Global) -> Result<(Book<Desk>, Seat<Desk>, Seat<Desk>), Fault>
    ensures first { IfOk result (λ made. IsReady made.0 made.1) }
    ensures second { IfOk result (λ made. IsReady made.0 made.2) }
{
    let started = Book::start(alloc, opened(alloc)?, 2);
    let (book, seats) = started.map_err(|_refused| Fault::NoMemory)?;
    let (first, second) = both(seats).ok_or(Fault::NoMemory)?;
    Ok((book, first, second))
}
