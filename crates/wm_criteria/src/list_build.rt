//! A build that refuses the texts of a list.
ghost use Rattle.std.specs.Prelude.{◌≡◌, [], true, false, map, string_bytes, Err, IfOk};
ghost use Rattle.wm_criteria.specs.Building.{Grew, IsReadFrom, is_listed, list_log, refused_in};
ghost use Rattle.wm_criteria.specs.declared.build.BuildFault.TheVariants.{Refused};

use crate::build::{Build, BuildFault};
use crate::regex_build::compiled;
use regex::Regex;
use std::alloc::Global;
use std::marker::Model;

/// Refuses the texts of its list, hands others on, and tells what was refused.
#[derive(Debug, Drop)]
pub struct ListBuild {
    listed: Vec<String>,
    told: Vec<String>,
    refusals: u64,
}

impl Model for ListBuild {
    ghost use Rattle.std.specs.Prelude.{map, string_bytes};
    ghost use Rattle.wm_criteria.specs.Building.{ListState};

    ghost Value = { ListState };

    ghost view = { λ build. record {
      listed = map string_bytes build.listed.items;
      told = map string_bytes build.told.items;
      refusals = build.refusals;
    } };
}

impl ListBuild {
    /// A build that refuses these texts, and has refused nothing yet.
    pub fn new(refused: Vec<String>) -> ListBuild
        ensures listed { result.listed ≡ map string_bytes refused.items }
        ensures told { result.told ≡ [] }
        ensures refusals { result.refusals ≡ 0 }
    {
        let told = Vec::new(*refused.allocator());
        ListBuild {
            listed: refused,
            told,
            refusals: 0,
        }
    }
}

/// Whether the text is among these.
fn is_among(texts: &[String], text: &str) -> bool
    ensures { result ≡ is_listed (map string_bytes texts.now) text.now }
{
    let mut rest = texts;
    while let [first, after @ ..] = rest {
        if first.as_str() == text {
            return true;
        }
        rest = after;
    }
    false
}

/// The regex that is read from the text, which is refused where it is among these.
fn compiled_unless_among(
    texts: &[String],
    alloc: Global,
    pattern: &str,
) -> Result<Regex, BuildFault>
    ensures read { IfOk result (λ regex. IsReadFrom pattern.now regex) }
    ensures other { IfOk result (λ _. is_listed (map string_bytes texts.now) pattern.now ≡ false) }
    ensures listed { is_listed (map string_bytes texts.now) pattern.now ≡ true → result ≡ Err Refused }
{
    if is_among(texts, pattern) {
        return Err(BuildFault::Refused);
    }
    compiled(alloc, pattern)
}

impl Build for ListBuild {
    ghost log = { list_log };

    /// Builds the pattern, or refuses it where its text is listed, and else as the crate of regular expressions does.
    fn build(&mut self, alloc: Global, pattern: &str) -> Result<Regex, BuildFault>
        ensures read { IfOk result (λ regex. IsReadFrom pattern.now regex) }
        ensures grew { Grew (list_log self.old) (list_log self.new) (refused_in result pattern.now) }
        ensures listed { IfOk result (λ _. is_listed self.old.listed pattern.now ≡ false) }
        ensures same { self.new.listed ≡ self.old.listed }
    {
        let text = String::from_str(alloc, pattern)?;
        self.told.push(text)?;
        let built = compiled_unless_among(self.listed.as_slice(), alloc, pattern);
        match built {
            Err(BuildFault::Refused) => self.refusals = self.refusals.saturating_add(1),
            _ => {
                self.told.pop();
            }
        }
        built
    }
}
