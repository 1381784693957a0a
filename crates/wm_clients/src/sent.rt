//! The greatest numbers that a client was sent of what is asked of its windows.
use wm_core::Want;

/// The greatest serial and the greatest number of a kill that were sent on a link, 0 at first.
#[derive(Clone, Copy, Debug, PartialEq, Eq)]
pub struct Sent {
    pub serial: u64,
    pub kill: u64,
}

impl Sent {
    ghost use Rattle.std.specs.Prelude.{◌≡◌};
    ghost use Rattle.wm_clients.specs.Wanted.{after_want, after_wants, NONE_SENT};

    /// Nothing was sent.
    pub fn nothing() -> Sent
        ensures { result ≡ NONE_SENT }
    {
        Sent { serial: 0, kill: 0 }
    }

    /// The greatest numbers after these were sent too.
    pub fn after(self, wants: &[Want]) -> Sent
        ensures { result ≡ after_wants wants.now self }
    {
        let mut sent = self;
        let mut rest = wants;
        while let [want, later @ ..] = rest {
            sent = sent.with(*want);
            rest = later;
        }
        sent
    }

    /// The greatest numbers after one more.
    fn with(self, want: Want) -> Sent
        ensures { result ≡ after_want want self }
    {
        match want {
            Want::Configure { serial, .. } => Sent {
                serial: self.serial.max(serial),
                kill: self.kill,
            },
            Want::Kill { number, .. } => Sent {
                serial: self.serial,
                kill: self.kill.max(number),
            },
        }
    }
}
