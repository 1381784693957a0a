//! Texts of few bytes, made of words.
ghost use Rattle.std.specs.Prelude.{◌≡◌, ◌≤◌, length, IfOk};

use crate::errors::NoMemory;
use crate::text::{Text, TextRefusal};
use std::alloc::Global;

/// The text with these bytes, of which there are few.
pub fn short_text(alloc: Global, s: &str) -> Result<Text, NoMemory>
    requires { length s.now ≤ 1024 }
    ensures { IfOk result (λ text. text ≡ s.now) }
{
    match Text::new(alloc, s) {
        Ok(text) => Ok(text),
        Err(TextRefusal::TooLong { .. }) => unreachable!(),
        Err(TextRefusal::NoMemory) => Err(NoMemory),
    }
}
