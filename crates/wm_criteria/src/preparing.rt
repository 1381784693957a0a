//! Preparing a text: reading it, and building its patterns.
ghost use Rattle.std.specs.Prelude.{◌≡◌, ◌<◌, ◌^◌, length, IfOk, IsTrue};
ghost use Rattle.wm_grammar.specs.Reading.{Reads};
ghost use Rattle.wm_criteria.specs.Building.{Grew};
ghost use Rattle.wm_criteria.specs.Prepared.{IsBare, is_built, refused_by};
ghost use Rattle.wm_criteria.specs.Verdict.{IsVerdict, OnRefusal};

use crate::build::Build;
use crate::forms::{Stop, group_forms};
use crate::patterns::are_plain;
use crate::prepared::Prepared;
use crate::verdict::{Verdict, read_verdict};
use std::alloc::Global;
use wm_base::{NoMemory, Str};
use wm_language::Batch;

/// Reads a text and builds its patterns, in their order until one is refused. Plain ones are not built.
pub fn prepare<B: Build>(alloc: Global, text: &str, build: &mut B) -> Result<Prepared, NoMemory>
    requires { length text.now < 2 ^ 32 }
    ensures text { IfOk result (λ p. p.text ≡ text.now) }
    ensures verdict { IfOk result (λ p. IsVerdict text.now p.verdict) }
    ensures built { IfOk result (λ p. IsTrue (is_built p)) }
    ensures grew { Grew (B.log build.old) (B.log build.new) (refused_by text.now result) }
{
    let verdict = read_verdict(alloc, text)?;
    let text = Str::of(String::from_str(alloc, text)?);
    match verdict {
        Verdict::Ready(batch) => with_forms(alloc, text, batch, build),
        verdict => Ok(Prepared {
            text,
            verdict,
            forms: None,
        }),
    }
}

/// The prepared text of a batch. Its patterns are built where one of them is not plain.
fn with_forms<B: Build>(
    alloc: Global,
    text: Str,
    batch: Batch,
    build: &mut B,
) -> Result<Prepared, NoMemory>
    requires short { length text < 2 ^ 32 }
    requires read { Reads text batch }
    ensures text { IfOk result (λ p. p.text ≡ text) }
    ensures built { IfOk result (λ p. IsTrue (is_built p)) }
    ensures grew { Grew (B.log build.old) (B.log build.new) (refused_by text result) }
{
    let mut forms = None;
    if !are_plain(batch.groups.items()) {
        forms = match group_forms(alloc, batch.groups.items(), build) {
            Ok(forms) => Some(forms),
            Err(Stop::Refused { pattern }) => {
                drop(batch);
                return Ok(Prepared {
                    text,
                    verdict: Verdict::PatternRefused { pattern },
                    forms: None,
                });
            }
            Err(Stop::NoMemory) => {
                drop(batch);
                drop(text);
                return Err(NoMemory);
            }
        };
    }
    Ok(Prepared {
        text,
        verdict: Verdict::Ready(batch),
        forms,
    })
}

/// Reads a text and builds none of its patterns.
pub fn prepare_bare(alloc: Global, text: &str) -> Result<Prepared, NoMemory>
    ensures text { IfOk result (λ p. p.text ≡ text.now) }
    ensures verdict { IfOk result (λ p. IsVerdict text.now p.verdict) }
    ensures read { IfOk result (λ p. OnRefusal p.verdict ⊥) }
    ensures bare { IfOk result IsBare }
{
    let verdict = read_verdict(alloc, text)?;
    let text = Str::of(String::from_str(alloc, text)?);
    Ok(Prepared {
        text,
        verdict,
        forms: None,
    })
}
