//! Why a text is not read.
ghost use Rattle.std.specs.Prelude.{◌≡◌};

use wm_base::NoMemory as NoRoom;

/// Why there is no batch.
#[derive(Clone, Copy, Debug, PartialEq, Eq, Hash)]
pub enum ReadRefusal {
    /// The text is a spelling of no batch. This many bytes at its front are empty, or read and end with `;`,
    /// and no more: there the first group that does not read begins.
    Bad { at: usize },
    NoMemory,
}

impl From<NoRoom> for ReadRefusal {
    ghost use Rattle.wm_language.specs.declared.refusal.ReadRefusal.TheVariants.{NoMemory};

    ghost from_gives = { λ _ e. e ≡ NoMemory };

    fn from(_error: NoRoom) -> ReadRefusal {
        ReadRefusal::NoMemory
    }
}
