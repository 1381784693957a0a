//! Why a step is not taken.

/// Why a step was not taken.
#[derive(Clone, Copy, Debug, PartialEq, Eq)]
pub enum ActRefusal {
    /// There is no memory for it.
    NoMemory,
    /// The history takes no more steps.
    Exhausted(Exhausted),
}

/// The history takes no more steps. It comes exactly where 2^48 steps stand in the history.
#[derive(Clone, Copy, Debug, PartialEq, Eq)]
pub struct Exhausted {
    /// How many steps stand there.
    pub steps: u64,
}
