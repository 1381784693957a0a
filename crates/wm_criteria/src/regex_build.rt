//! A build over the crate of regular expressions.
ghost use Rattle.std.specs.Prelude.{◌≡◌, IfOk};
ghost use Rattle.wm_criteria.specs.Building.{IsReadFrom};

use crate::build::{Build, BuildFault};
use regex::{Error, Regex};
use std::alloc::Global;
use std::marker::Model;

/// Builds every pattern that the crate reads, and counts the others. It tells no texts, and is seen as its count.
#[derive(Debug, Drop)]
pub struct RegexBuild {
    refusals: u64,
}

impl Model for RegexBuild {
    ghost use Rattle.std.specs.Prelude.{ℕ};

    ghost Value = { ℕ };

    ghost view = { λ build. build.refusals };
}

impl RegexBuild {
    /// A build that has refused nothing yet.
    pub fn new() -> RegexBuild
        ensures { result ≡ 0 }
    {
        RegexBuild { refusals: 0 }
    }
}

impl Build for RegexBuild {
    ghost use Rattle.std.specs.Prelude.{None};

    ghost log = { λ count. record { count = count; texts = None } };

    /// Builds the pattern. It is refused where the crate refuses it for another reason than memory.
    fn build(&mut self, alloc: Global, pattern: &str) -> Result<Regex, BuildFault> {
        let built = compiled(alloc, pattern);
        if let Err(BuildFault::Refused) = built {
            self.refusals = self.refusals.saturating_add(1);
        }
        built
    }
}

/// The regex that is read from the text.
pub fn compiled(alloc: Global, pattern: &str) -> Result<Regex, BuildFault>
    ensures { IfOk result (λ regex. IsReadFrom pattern.now regex) }
{
    match Regex::new(alloc, pattern) {
        Ok(regex) => Ok(regex),
        Err(Error::OutOfMemory) => Err(BuildFault::NoMemory),
        Err(_) => Err(BuildFault::Refused),
    }
}
