//! The lines of a script that callers speak: who speaks, and what each does.
use wm_base::{Str, Text};
use wm_core::{Query, Step};

/// A line of a script, and the number of the caller who speaks: 0 where it names none.
#[derive(Drop)]
pub struct Line {
    pub who: u32,
    pub deed: Deed,
}

/// What a line does.
#[derive(Drop)]
pub enum Deed {
    /// Runs a text of commands.
    Run(Str),
    /// Takes a step of another kind.
    Do(Step),
    /// Presses a chord.
    Key(Text),
    /// Paints the frame.
    Paint,
    /// Looks at the desk.
    Look(Query),
}
