//! Reading a text as a batch, and printing a batch as a text.
ghost use Rattle.std.specs.Prelude.{◌≡◌, string_bytes, IfOk};
ghost use Rattle.wm_grammar.specs.Answer.{IsAnswer, IsScanned};
ghost use Rattle.wm_grammar.specs.Readable.{IsReadable};
ghost use Rattle.wm_grammar.specs.Reading.{Reads, IsReach};
ghost use Rattle.wm_language.specs.Batches.{Spells};
ghost use Rattle.wm_language.specs.Spelling.{spelling};

use crate::groups::groups_of;
use crate::search::farthest;
use std::alloc::Global;
use wm_base::{List, NoMemory};
use wm_language::{Batch, ReadRefusal, spell};

/// The batch of which the text is a spelling. The text is refused exactly where it is a spelling of none, with the
/// greatest number of bytes at its front that are empty, or are a spelling and end with `;`.
#[tactic(auto, using(crate::proofs::Fits::readable))]
pub fn read(alloc: Global, text: &str) -> Result<Batch, ReadRefusal>
    ensures answer { IsAnswer text.now result }
    ensures scanned { IsScanned text.now result }
    ensures readable { IfOk result (λ b. IsReadable b) }
{
    let bytes = text.as_bytes();
    if let Some(groups) = groups_of(alloc, bytes)? {
        return Ok(Batch {
            groups: List::of(groups),
        });
    }
    let at = reach(alloc, bytes)?;
    Err(ReadRefusal::Bad { at })
}

/// The greatest number of bytes at the front that are empty, or read and end with `;`.
fn reach(alloc: Global, text: &[u8]) -> Result<usize, NoMemory>
    ensures { IfOk result (λ n. IsReach text.now n) }
{
    match farthest(alloc, text.len() + 1, true, text)? {
        Some(behind) => Ok(text.len() - behind),
        None => Ok(0),
    }
}

/// A spelling of the batch, with keywords in lower case and quoted arguments. The batch is one that some text is
/// a spelling of.
#[tactic(auto, using(crate::proofs::BatchesAgain::batch_again, crate::proofs::GroupLemmas::printed))]
pub fn print(alloc: Global, batch: &Batch) -> Result<String, NoMemory>
    requires { IsReadable batch.now }
    ensures spelling { IfOk result (λ s. string_bytes s ≡ spelling batch.now) }
    ensures spells { IfOk result (λ s. Spells (string_bytes s) batch.now) }
    ensures reads { IfOk result (λ s. Reads (string_bytes s) batch.now) }
{
    spell(alloc, batch)
}
