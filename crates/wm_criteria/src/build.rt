//! What builds patterns that are not plain.
ghost use Rattle.std.specs.Prelude.{◌≡◌, IfOk};
ghost use Rattle.wm_criteria.specs.Building.{Grew, IsReadFrom, Log, refused_in};

use regex::Regex;
use std::alloc::{AllocError, AllocFailed, Global};

/// Why a pattern was not built.
#[derive(Clone, Copy, Debug, PartialEq, Eq)]
pub enum BuildFault {
    /// It is refused, and the build has counted the refusal.
    Refused,
    NoMemory,
}

impl From<AllocError> for BuildFault {
    ghost use Rattle.wm_criteria.specs.declared.build.BuildFault.TheVariants.{NoMemory};

    ghost from_gives = { λ _ e. e ≡ NoMemory };

    fn from(_error: AllocError) -> BuildFault {
        BuildFault::NoMemory
    }
}

impl<T: Drop> From<AllocFailed<T>> for BuildFault {
    ghost use Rattle.wm_criteria.specs.declared.build.BuildFault.TheVariants.{NoMemory};

    ghost from_gives = { λ _ e. e ≡ NoMemory };

    fn from(_error: AllocFailed<T>) -> BuildFault {
        BuildFault::NoMemory
    }
}

/// What builds patterns.
pub trait Build {
    // What was refused so far: a count, which stands still at its last value, and the texts where the build tells them.
    ghost log: { Self → Log };

    /// Builds the pattern that is read from the text, or refuses it.
    fn build(&mut self, alloc: Global, pattern: &str) -> Result<Regex, BuildFault>
        ensures read { IfOk result (λ regex. IsReadFrom pattern.now regex) }
        ensures grew { Grew (log self.old) (log self.new) (refused_in result pattern.now) };
}
