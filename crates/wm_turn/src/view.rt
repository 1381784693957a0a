//! What the rule of a turnstile knows of its seats. No value of these types is made.
use std::collections::LinkedList;

/// An entry of a history: the number of its caller, and the entry form of its step.
pub struct Entry<S> {
    pub who: u32,
    pub step: S,
}

/// What a caller has of a call: it wrote the entry at this place, or its question was answered at this length of the
/// history.
pub enum Mark<Q> {
    Wrote(u64),
    Read(Q, u64),
}

/// How far a seat is on its way to the value, with the number of its ticket.
pub(crate) enum Stage {
    /// It has no ticket.
    Idle,
    /// It has a ticket, and waits.
    Waits(u64),
    /// It has the turn.
    Turn(u64),
    /// It has the turn, has noted the count, and holds the slot.
    Noted(u64),
}

/// A caller's number, and the places of its entries, the newest first.
pub(crate) struct Calls {
    pub caller: u32,
    pub places: LinkedList<u64>,
}

/// What the rule knows of a seat. A view without parts is spent: its seat was joined away.
pub(crate) struct View<O, S, Q> {
    pub stage: Stage,
    pub caller: u32,
    /// How many seats are still to be split off.
    pub spare: u32,
    pub parts: u32,
    /// With how many seats the turnstile was started.
    pub seats: u32,
    pub opening: Option<O>,
    pub seen: LinkedList<Entry<S>>,
    pub mine: LinkedList<Mark<Q>>,
    /// What was seen before each joining, by this seat and by the other.
    pub old_seen: LinkedList<LinkedList<Entry<S>>>,
    /// The calls of the seats that were joined into this one.
    pub old_calls: LinkedList<Calls>,
}
