//! The names of events that are subscribed, and since when.
ghost use Rattle.std.specs.Prelude.{◌≡◌, ◌<◌, IfSome, IsTrue};
ghost use Rattle.wm_talk.specs.Talking.{NEVER, or_else, since_of, since_when, some_since, subscribed};
ghost use Rattle.wm_talk.specs.Told.{is_due};

use crate::names::Names;
use wm_json::EventView;

/// For each name of events the number of the last event when it was subscribed, none where it is not.
#[derive(Clone, Copy, Debug, PartialEq, Eq)]
pub struct Since {
    pub workspace: Option<u64>,
    pub output: Option<u64>,
    pub mode: Option<u64>,
    pub window: Option<u64>,

    /// `barconfig_update`, of which no event comes.
    pub bars: Option<u64>,
    pub binding: Option<u64>,
    pub shutdown: Option<u64>,
    pub tick: Option<u64>,
}

impl Since {
    /// No name is subscribed.
    pub fn never() -> Since
        ensures { result ≡ NEVER }
    {
        Since {
            workspace: None,
            output: None,
            mode: None,
            window: None,
            bars: None,
            binding: None,
            shutdown: None,
            tick: None,
        }
    }

    /// The names that are asked for are subscribed too, those that were not before since the event of this number.
    pub fn subscribed(&self, names: &Names, last: u64) -> Since
        ensures { result ≡ subscribed self.now names.now last }
    {
        Since {
            workspace: since_when(self.workspace, names.workspace, last),
            output: since_when(self.output, names.output, last),
            mode: since_when(self.mode, names.mode, last),
            window: since_when(self.window, names.window, last),
            bars: since_when(self.bars, names.bars, last),
            binding: since_when(self.binding, names.binding, last),
            shutdown: since_when(self.shutdown, names.shutdown, last),
            tick: since_when(self.tick, names.tick, last),
        }
    }

    /// A number since which some name is subscribed. `None` exactly where none is.
    pub fn some_since(&self) -> Option<u64>
        ensures { result ≡ some_since self.now }
    {
        let later = or_else(self.shutdown, self.tick);
        let later = or_else(self.bars, or_else(self.binding, later));
        let later = or_else(self.mode, or_else(self.window, later));
        or_else(self.workspace, or_else(self.output, later))
    }

    /// The number of the last event when the name of this kind of event was subscribed.
    fn since_of(&self, kind: u32) -> Option<u64>
        ensures value { result ≡ since_of self.now kind }
        ensures few { IfSome result (λ _. kind < 8) }
    {
        match kind {
            0 => self.workspace,
            1 => self.output,
            2 => self.mode,
            3 => self.window,
            4 => self.bars,
            5 => self.binding,
            6 => self.shutdown,
            7 => self.tick,
            _ => None,
        }
    }

    /// Whether the name of an event is subscribed, and the event came after that.
    pub fn is_due(&self, event: &EventView) -> bool
        ensures value { result ≡ is_due self.now event.now }
        ensures few { IsTrue result → event.now.kind < 8 }
    {
        match self.since_of(event.kind) {
            Some(last) => last < event.number,
            None => false,
        }
    }
}

/// A name that is asked for is subscribed since the event of this number, where it was not before.
fn since_when(since: Option<u64>, asked: bool, last: u64) -> Option<u64>
    ensures { result ≡ since_when since asked last }
{
    match since {
        Some(number) => Some(number),
        None if asked => Some(last),
        None => None,
    }
}

/// The first of two numbers that there is.
fn or_else(first: Option<u64>, other: Option<u64>) -> Option<u64>
    ensures { result ≡ or_else first other }
{
    match first {
        Some(number) => Some(number),
        None => other,
    }
}
