//! Texts of commands are prepared, and it is noted which pattern was refused.
ghost use Rattle.std.specs.Prelude.{◌≡◌, ◌<◌, ◌^◌, IfOk, IsTrue, None, Some, length};
ghost use Rattle.wm_history.specs.Act.{text_of};
ghost use Rattle.wm_criteria.specs.Prepared.{is_built};
ghost use Rattle.wm_script.specs.Out.{text_with};
ghost use Rattle.wm_script.specs.Playing.{IsRefusal, pattern_in};

use std::alloc::Global;
use wm_base::NoMemory;
use wm_criteria::{Build, Prepared, Verdict, prepare};

/// Prepares a text, and notes the pattern of it that was refused, if one was.
#[tactic(auto, using(crate::proofs::RefusalLemmas::judged, crate::proofs::RefusalLemmas::was_refused))]
pub fn judge<B: Build>(
    alloc: Global,
    text: &str,
    build: &mut B,
    noted: &mut Option<u32>,
) -> Result<Prepared, NoMemory>
    requires short { length text.now < 2 ^ 32 }
    requires none { noted.old ≡ None }
    ensures text { IfOk result (λ p. text_of p ≡ text_with noted.new text.now) }
    ensures built { IfOk result (λ p. IsTrue (is_built p)) }
    ensures refusal { IsRefusal (Some text.now) noted.new (B.log build.old) (B.log build.new) }
{
    let prepared = prepare(alloc, text, build)?;
    *noted = refused_in(&prepared);
    Ok(prepared)
}

/// The pattern that was refused when the text was prepared, if one was.
fn refused_in(prepared: &Prepared) -> Option<u32>
    ensures { result ≡ pattern_in prepared.now.verdict }
{
    match prepared.verdict {
        Verdict::PatternRefused { pattern } => Some(pattern),
        _ => None,
    }
}
