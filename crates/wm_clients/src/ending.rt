//! How a client's session ends.
use wm_base::NoMemory;
use wm_core::ActRefusal;
use wm_ports::SendFault;

/// How a client's session ended.
#[derive(Clone, Copy, Debug, PartialEq, Eq)]
pub enum ClientEnd {
    /// The link ended behind a line feed, or before any byte.
    Closed,
    /// The link ended behind another byte.
    Truncated,
    /// The line of this number, counted from 1, is outside the grammar, or too long.
    BadLine { line: u64 },
    /// A command said that the desk is to stop.
    Stopped,
    /// The link failed, and has counted the fault.
    LinkFault,
    /// The history takes no more steps.
    Exhausted,
    NoMemory,
}

impl ClientEnd {
    ghost use Rattle.std.specs.Prelude.{◌≡◌};
    ghost use Rattle.wm_clients.specs.Endings.{closes_windows};

    /// Whether the client's windows are closed at this end.
    pub fn closes_windows(self) -> bool
        ensures { result ≡ closes_windows self }
    {
        !matches!(self, ClientEnd::Exhausted | ClientEnd::NoMemory)
    }
}

impl From<NoMemory> for ClientEnd {
    ghost use Rattle.std.specs.Prelude.{◌≡◌};
    ghost use Rattle.wm_clients.specs.declared.ending.ClientEnd.TheVariants as ends;

    ghost from_gives = { λ _ e. e ≡ ends.NoMemory };

    fn from(_error: NoMemory) -> ClientEnd {
        ClientEnd::NoMemory
    }
}

impl From<ActRefusal> for ClientEnd {
    ghost use Rattle.std.specs.Prelude.{◌≡◌};
    ghost use Rattle.wm_clients.specs.Endings.{end_of_refusal};

    ghost from_gives = { λ refusal e. e ≡ end_of_refusal refusal };

    fn from(refusal: ActRefusal) -> ClientEnd {
        match refusal {
            ActRefusal::NoMemory => ClientEnd::NoMemory,
            ActRefusal::Exhausted(_) => ClientEnd::Exhausted,
        }
    }
}

impl From<SendFault> for ClientEnd {
    ghost use Rattle.std.specs.Prelude.{◌≡◌};
    ghost use Rattle.wm_clients.specs.Endings.{end_of_fault};

    ghost from_gives = { λ fault e. e ≡ end_of_fault fault };

    fn from(fault: SendFault) -> ClientEnd {
        match fault {
            SendFault::Failed => ClientEnd::LinkFault,
            SendFault::NoMemory => ClientEnd::NoMemory,
        }
    }
}
