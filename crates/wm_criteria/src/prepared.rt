//! A text that was read, with the verdict on it and the built forms of its patterns.
ghost use Rattle.std.specs.Prelude.{◌≡◌, IfOk};
ghost use Rattle.wm_criteria.specs.Forms.{Fits};
ghost use Rattle.wm_criteria.specs.Verdict.{IsVerdict, IsVerdict-prop};

use crate::form::Form;
use crate::patterns::are_plain;
use crate::verdict::{Verdict, read_verdict};
use std::alloc::Global;
use wm_base::{List, NoMemory, Str};

/// A text and the verdict on it. Its patterns are built once and matched many times.
#[derive(Debug, Drop)]
pub struct Prepared {
    pub text: Str,
    pub verdict: Verdict,
    pub(crate) forms: Option<List<List<Form>>>,
    pub ghost meant: { IsVerdict text verdict } by { IsVerdict-prop text verdict },
    pub ghost fitting: { Fits verdict forms },
}

impl Prepared {
    ghost use Rattle.wm_criteria.specs.Prepared.{IsBare, is_built};

    /// The same text and verdict, without built patterns.
    pub fn bare(&self, alloc: Global) -> Result<Prepared, NoMemory>
        ensures text { IfOk result (λ p. p.text ≡ self.now.text) }
        ensures verdict { IfOk result (λ p. p.verdict ≡ self.now.verdict) }
        ensures bare { IfOk result IsBare }
    {
        let text = Str::of(String::from_str(alloc, self.text.as_str())?);
        let verdict = match &self.verdict {
            Verdict::Ready(_) => read_verdict(alloc, text.as_str())?,
            Verdict::Bad { at } => Verdict::Bad { at: *at },
            Verdict::PatternRefused { pattern } => Verdict::PatternRefused { pattern: *pattern },
        };
        Ok(Prepared {
            text,
            verdict,
            forms: None,
        })
    }

    /// Whether nothing is to be matched, or each pattern that is not plain has its built form.
    pub fn built(&self) -> bool
        ensures { result ≡ is_built self.now }
    {
        match &self.verdict {
            Verdict::Ready(batch) => self.forms.is_some() || are_plain(batch.groups.items()),
            Verdict::Bad { .. } | Verdict::PatternRefused { .. } => true,
        }
    }
}
