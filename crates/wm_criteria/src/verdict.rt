//! The verdict on a text.
ghost use Rattle.std.specs.Prelude.{IfOk};
ghost use Rattle.wm_criteria.specs.Verdict.{IsVerdict, OnRefusal};

use std::alloc::Global;
use wm_base::NoMemory;
use wm_grammar::read;
use wm_language::{Batch, ReadRefusal};

/// What a text is, once it was read and its patterns were built.
#[derive(Debug, Drop)]
pub enum Verdict {
    /// It reads as this batch.
    Ready(Batch),
    /// It reads as none. This many bytes at its front are empty, or read and end with `;`, and no more.
    Bad { at: usize },
    /// It reads, and the pattern of this number was refused, the first one of the text having number 0.
    PatternRefused { pattern: u32 },
}

/// The verdict on a text that was read alone.
pub fn read_verdict(alloc: Global, text: &str) -> Result<Verdict, NoMemory>
    ensures verdict { IfOk result (λ v. IsVerdict text.now v) }
    ensures unbuilt { IfOk result (λ v. OnRefusal v ⊥) }
{
    match read(alloc, text) {
        Ok(batch) => Ok(Verdict::Ready(batch)),
        Err(ReadRefusal::Bad { at }) => Ok(Verdict::Bad { at }),
        Err(ReadRefusal::NoMemory) => Err(NoMemory),
    }
}
