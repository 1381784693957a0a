//! A listener that gives one link, and links of two kinds.

use crossbeam_utils::Backoff;
use wm_ports::{Accepted, Link, Listen, Received, SendFault};

/// A listener that gives its link, where it has one, and is quiet from then on. The link that is given back is kept.
#[derive(Drop)]
pub struct GivenLink<L> {
    link: Option<L>,
    back: Option<L>,
}

impl<L> GivenLink<L> {
    /// A listener that gives this link, or none.
    pub fn new(link: Option<L>) -> GivenLink<L> {
        GivenLink { link, back: None }
    }

    /// The link that was given back.
    pub fn back(&self) -> Option<&L> {
        self.back.as_ref()
    }
}

impl<L: Link + Drop> Listen<L> for GivenLink<L> {
    ghost faults = { λ _. 0 };

    /// Gives the link. Where it has been given, others may go on first.
    fn accept(&mut self) -> Accepted<L> {
        match self.link.take() {
            Some(link) => Accepted::Link(link),
            None => {
                Backoff::new().snooze();
                Accepted::Quiet
            }
        }
    }

    /// Keeps the link.
    fn give_back(&mut self, link: L) {
        self.back = Some(link);
    }
}

/// A link of one kind or another.
#[derive(Drop)]
pub enum EitherLink<K, L> {
    One(K),
    Other(L),
}

impl<K: Link, L: Link> Link for EitherLink<K, L> {
    ghost use Rattle.cases_sessions.specs.Either.{told_of, faults_of};

    ghost faults = { faults_of K.faults L.faults };

    ghost told = { told_of K.told L.told };

    fn receive(&mut self, room: &mut [u8]) -> Received {
        match self {
            EitherLink::One(link) => link.receive(room),
            EitherLink::Other(link) => link.receive(room),
        }
    }

    fn send(&mut self, bytes: &[u8]) -> Result<usize, SendFault> {
        match self {
            EitherLink::One(link) => link.send(bytes),
            EitherLink::Other(link) => link.send(bytes),
        }
    }
}
