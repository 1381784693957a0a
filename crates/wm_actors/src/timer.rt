//! Which deadline is due.
ghost use Rattle.std.specs.Prelude.{◌≡◌, [], ◌∷◌, List};
ghost use Rattle.wm_actors.specs.Due.{HasSeen, Pair, due, run_start};

/// The unbroken run of pairs at the end in which the transaction of this number waits, and the clock's number of its first
/// pair.
#[derive(Clone, Copy, Debug, PartialEq, Eq)]
pub struct Run {
    number: u64,
    since: u64,
}

/// Says which transaction has waited for too long, by pairs of a clock's number and a waiting number or none.
#[derive(Clone, Copy, Debug, PartialEq, Eq)]
pub struct Timer {
    hold_ms: u64,
    run: Option<Run>,
}

impl Timer {
    /// A timer that was handed no pairs, and holds for so many milliseconds.
    pub fn new(hold_ms: u64) -> Timer
        ensures hold { result.hold_ms ≡ hold_ms }
        ensures handed { HasSeen [] result }
    {
        Timer { hold_ms, run: None }
    }

    /// The number of the deadline that is due with one more pair, if any. It takes no memory.
    pub fn decide(&mut self, now_ms: u64, waiting: Option<u64>) -> Option<u64>
        ensures due { (pairs : List Pair) → HasSeen pairs self.old →
            result ≡ due self.old.hold_ms (record { clock = now_ms; waiting = waiting } ∷ pairs) }
        ensures handed { (pairs : List Pair) → HasSeen pairs self.old →
            HasSeen (record { clock = now_ms; waiting = waiting } ∷ pairs) self.new }
        ensures hold { self.new.hold_ms ≡ self.old.hold_ms }
    {
        let Some(number) = waiting else {
            self.run = None;
            return None;
        };
        let since = self.since(number, now_ms);
        self.run = Some(Run { number, since });
        if since <= now_ms && self.hold_ms <= now_ms - since {
            Some(number)
        } else {
            None
        }
    }

    /// The clock's number of the first pair of the unbroken run of this waiting number, this one where there is no such run.
    fn since(&self, number: u64, now_ms: u64) -> u64
        ensures { (pairs : List Pair) → HasSeen pairs self.now → result ≡ run_start number now_ms pairs }
    {
        match self.run {
            Some(run) if run.number == number => run.since,
            _ => now_ms,
        }
    }
}
