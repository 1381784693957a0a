//! How an actor ends.
use wm_base::NoMemory;
use wm_core::Exhausted;
use wm_ports::Failed;

/// How an actor ended.
#[derive(Clone, Copy, Debug, PartialEq, Eq)]
pub enum ActorEnd {
    /// The desk is to stop.
    Stopped,
    /// An accepting failed, and its listener has counted the fault.
    ListenFault,
    /// A writing failed, and its sink has counted the fault.
    WriteFault,
    /// The history takes no more steps.
    Exhausted,
    NoMemory,
}

impl From<NoMemory> for ActorEnd {
    ghost use Rattle.std.specs.Prelude.{◌≡◌};
    ghost use Rattle.wm_actors.specs.declared.ending.ActorEnd.TheVariants as ends;

    ghost from_gives = { λ _ e. e ≡ ends.NoMemory };

    fn from(_error: NoMemory) -> ActorEnd {
        ActorEnd::NoMemory
    }
}

impl From<Exhausted> for ActorEnd {
    ghost use Rattle.std.specs.Prelude.{◌≡◌};
    ghost use Rattle.wm_actors.specs.declared.ending.ActorEnd.TheVariants as ends;

    ghost from_gives = { λ _ e. e ≡ ends.Exhausted };

    fn from(_error: Exhausted) -> ActorEnd {
        ActorEnd::Exhausted
    }
}

impl From<Failed> for ActorEnd {
    ghost use Rattle.std.specs.Prelude.{◌≡◌};
    ghost use Rattle.wm_actors.specs.declared.ending.ActorEnd.TheVariants as ends;

    ghost from_gives = { λ _ e. e ≡ ends.WriteFault };

    fn from(_error: Failed) -> ActorEnd {
        ActorEnd::WriteFault
    }
}
