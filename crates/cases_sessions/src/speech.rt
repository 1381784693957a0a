//! What the client of a link speaks, and how its session ends.
ghost use Rattle.wm_book.specs.Carried.{IsReady};

use std::alloc::Global;
use std::sync::Wait;
use wm_book::{Book, Kept};
use wm_clients::{ClientEnd, client_session};
use wm_criteria::RegexBuild;
use wm_ports::Link;
use wm_session::{SessionEnd, session};
use wm_turn::Seat;

/// What a client speaks.
#[derive(Clone, Copy)]
pub enum Speech {
    /// Messages of i3-ipc.
    Messages,
    /// Lines.
    Lines,
}

/// How a client's session ended.
#[derive(Clone, Copy)]
pub enum End {
    Session(SessionEnd),
    Client(ClientEnd),
}

/// Serves the client of a link by a seat of the book: how that ended, and the link.
pub fn served<V: Kept + Drop, L: Link, R: Wait>(
    alloc: Global,
    rt: &R,
    book: &Book<V>,
    mut seat: Seat<V>,
    mut link: L,
    speech: Speech,
) -> (End, L)
    requires { IsReady book.now seat }
{
    let end = match speech {
        Speech::Messages => serve_messages(alloc, rt, book, &mut seat, &mut link),
        Speech::Lines => End::Client(client_session(alloc, rt, book, &mut seat, &mut link)),
    };
    (end, link)
}

fn serve_messages<V: Kept + Drop, L: Link, R: Wait>(
    alloc: Global,
    rt: &R,
    book: &Book<V>,
    seat: &mut Seat<V>,
    link: &mut L,
) -> End
    requires { IsReady book.now seat.old }
{
    let mut build = RegexBuild::new();
    End::Session(session(alloc, rt, book, seat, &mut build, link))
}
