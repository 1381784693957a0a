//! What gives links, and what gives the time.
ghost use Rattle.std.specs.Prelude.{◌≡◌, ℕ, ◌≤◌, List, Option, None, true, ⊤};
ghost use Rattle.wm_ports.specs.Listening.{IsAccepted, IsGivenBack, IsTallied, IsTold, ListenTold, gives_link};

use crate::links::Link;

/// What an accepting answers.
#[derive(Debug, Drop)]
pub enum Accepted<L> {
    /// A link, which is given back when it is done with.
    Link(L),
    /// No link is there now.
    Quiet,
    /// It failed, and the listener has counted the fault.
    Failed,
}

/// What gives links, and takes each back.
pub trait Listen<L: Link> {
    // How many faults were counted. The count never falls, and stands still at its last value.
    ghost faults: { Self → ℕ };

    // The answers of the acceptings and the links given back, where the listener tells them.
    ghost told: { Self → Option (ListenTold L) } = { λ _. None };

    // The last accepting gave a link, and none was given back since.
    ghost has_out: { Self → Type 0 } = { λ _. ⊤ };

    /// Gives a link, where one is there.
    fn accept(&mut self) -> Accepted<L>
        ensures told { IsAccepted (told self.old) (told self.new) result }
        ensures out { gives_link result ≡ true → has_out self.new }
        ensures counted { IsTallied result (faults self.old) (faults self.new) }
        ensures grown { faults self.old ≤ faults self.new };

    /// Takes back the link that the last accepting gave. It takes no memory.
    fn give_back(&mut self, link: L)
        requires { has_out self.old }
        ensures told { IsGivenBack (told self.old) (told self.new) link }
        ensures grown { faults self.old ≤ faults self.new };
}

/// What gives the time.
pub trait Clock {
    // The numbers that it gave, where it tells them.
    ghost told: { Self → Option (List ℕ) } = { λ _. None };

    /// The time in milliseconds.
    fn now_ms(&mut self) -> u64
        ensures { IsTold (told self.old) (told self.new) result };
}
