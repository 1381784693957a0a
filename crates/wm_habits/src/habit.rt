//! The habits of modelled clients.
ghost use Rattle.std.specs.Prelude.{◌≡◌};
ghost use Rattle.wm_habits.specs.Acting.{late_by};

/// How a modelled client answers the lines from the server.
#[derive(Clone, Copy, Debug, PartialEq, Eq)]
pub enum Habit {
    /// It does what a line asks at once.
    AtOnce,

    /// It does so after so many further lines came.
    Late { lines: u32 },

    /// It says nothing.
    Never,

    /// It answers a configure by a serial and a buffer that nothing asked for, and does not close.
    Wrong,
}

impl Habit {
    /// After how many further lines it answers a line.
    pub fn lines(self) -> u32
        ensures { result ≡ late_by self }
    {
        match self {
            Habit::Late { lines } => lines,
            Habit::AtOnce | Habit::Never | Habit::Wrong => 0,
        }
    }
}
