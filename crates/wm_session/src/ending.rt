//! How a session ends.
use wm_base::NoMemory;
use wm_core::ActRefusal;
use wm_ports::SendFault;

/// How a session ended.
#[derive(Clone, Copy, Debug, PartialEq, Eq)]
pub enum SessionEnd {
    /// The link ended behind the last whole message.
    Closed,
    /// The link ended with so many bytes of a frame that is not whole.
    Truncated { bytes: usize },
    /// The bytes at this place begin no frame.
    Magic { at: u64 },
    /// The frame at this place has a payload above the limit.
    TooLong { at: u64, len: u32 },
    /// A command said that the desk is to stop.
    Stopped,
    /// Events that were asked for are kept no more; the oldest that is kept has this number.
    Lagged { oldest: u64 },
    /// The link failed, and has counted the fault.
    LinkFault,
    /// The history takes no more steps.
    Exhausted,
    NoMemory,
}

impl From<NoMemory> for SessionEnd {
    ghost use Rattle.std.specs.Prelude.{◌≡◌};
    ghost use Rattle.wm_session.specs.declared.ending.SessionEnd.TheVariants as ends;

    ghost from_gives = { λ _ e. e ≡ ends.NoMemory };

    fn from(_error: NoMemory) -> SessionEnd {
        SessionEnd::NoMemory
    }
}

impl From<ActRefusal> for SessionEnd {
    ghost use Rattle.std.specs.Prelude.{◌≡◌};
    ghost use Rattle.wm_session.specs.Endings.{end_of_refusal};

    ghost from_gives = { λ refusal e. e ≡ end_of_refusal refusal };

    fn from(refusal: ActRefusal) -> SessionEnd {
        match refusal {
            ActRefusal::NoMemory => SessionEnd::NoMemory,
            ActRefusal::Exhausted(_) => SessionEnd::Exhausted,
        }
    }
}

impl From<SendFault> for SessionEnd {
    ghost use Rattle.std.specs.Prelude.{◌≡◌};
    ghost use Rattle.wm_session.specs.Endings.{end_of_fault};

    ghost from_gives = { λ fault e. e ≡ end_of_fault fault };

    fn from(fault: SendFault) -> SessionEnd {
        match fault {
            SendFault::Failed => SessionEnd::LinkFault,
            SendFault::NoMemory => SessionEnd::NoMemory,
        }
    }
}
