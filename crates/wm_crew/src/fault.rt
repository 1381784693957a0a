//! How workers end, and which of their faults counts.
ghost use Rattle.std.specs.Prelude.{◌≡◌, Option};
ghost use Rattle.wm_crew.specs.Faults.{fault_of, rank, worse};

use wm_actors::ActorEnd;

/// Why actors did not all end by being stopped.
#[derive(Clone, Copy, Debug, PartialEq, Eq)]
pub enum Fault {
    /// The listener of this door failed.
    Listen { door: usize },
    /// The sink of the frames failed.
    Write,
    /// The history takes no more steps.
    Exhausted,
    NoMemory,
}

/// The fault of an actor at this door, if it has one.
pub fn fault_of(door: usize, end: ActorEnd) -> Option<Fault>
    ensures { result ≡ fault_of door end }
{
    match end {
        ActorEnd::Stopped => None,
        ActorEnd::ListenFault => Some(Fault::Listen { door }),
        ActorEnd::WriteFault => Some(Fault::Write),
        ActorEnd::Exhausted => Some(Fault::Exhausted),
        ActorEnd::NoMemory => Some(Fault::NoMemory),
    }
}

/// Where the fault stands among all: a lower one counts before a higher one.
fn rank(fault: Option<Fault>) -> u8
    ensures { result ≡ rank fault }
{
    match fault {
        Some(Fault::Listen { door: _ }) => 0,
        Some(Fault::Write) => 1,
        Some(Fault::Exhausted) => 2,
        Some(Fault::NoMemory) => 3,
        None => 4,
    }
}

/// Which of two faults counts: the first one, unless the second stands before it.
pub fn worse(first: Option<Fault>, second: Option<Fault>) -> Option<Fault>
    ensures { result ≡ worse first second }
{
    if rank(second) < rank(first) {
        second
    } else {
        first
    }
}
