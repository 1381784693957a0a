//! Building the patterns of groups.
ghost use Rattle.std.specs.Prelude.{◌≡◌, ◌+◌, ◌<◌, ◌^◌, map, length, IfOk, IfErr};
ghost use Rattle.std.specs.Option.{option_to_list};
ghost use Rattle.wm_criteria.specs.Building.{Grew};
ghost use Rattle.wm_criteria.specs.Forms.{forms_of};
ghost use Rattle.wm_criteria.specs.Patterns.{key_patterns, pattern_of, patterns_of, to_build};
ghost use Rattle.wm_criteria.specs.Stop.{IsStop, texts_of};

use crate::build::{Build, BuildFault};
use crate::form::Form;
use crate::patterns::{keys_of, pattern_of, to_build};
use std::alloc::{AllocFailed, Global};
use wm_base::List;
use wm_language::{Group, Key};

/// Why building stopped.
#[derive(Clone, Copy)]
pub enum Stop {
    /// The pattern of this number was refused.
    Refused { pattern: u32 },
    NoMemory,
}

impl<T: Drop> From<AllocFailed<T>> for Stop {
    ghost use Rattle.wm_criteria.specs.declared.forms.Stop.TheVariants.{NoMemory};

    ghost from_gives = { λ _ e. e ≡ NoMemory };

    fn from(_error: AllocFailed<T>) -> Stop {
        Stop::NoMemory
    }
}

/// Builds the pattern of a key, which has this number if the key has one.
fn key_form<B: Build>(alloc: Global, key: &Key, number: u32, build: &mut B) -> Result<Form, Stop>
    ensures form { IfOk result (λ f. f ≡ to_build key.now) }
    ensures stop { IfErr result (IsStop number (option_to_list (pattern_of key.now))) }
    ensures grew { Grew (B.log build.old) (B.log build.new) (texts_of number (option_to_list (pattern_of key.now)) result) }
{
    let Some(pattern) = to_build(key) else {
        return Ok(Form::none())
    };
    match build.build(alloc, pattern) {
        Ok(regex) => Ok(Form::of(regex)),
        Err(BuildFault::Refused) => Err(Stop::Refused { pattern: number }),
        Err(BuildFault::NoMemory) => Err(Stop::NoMemory),
    }
}

/// The number of the pattern behind those of a key.
fn number_behind(key: &Key, number: u32) -> u32
    requires { number + length (option_to_list (pattern_of key.now)) < 2 ^ 32 }
    ensures { result ≡ number + length (option_to_list (pattern_of key.now)) }
{
    match pattern_of(key) {
        Some(_) => number + 1,
        None => number,
    }
}

/// Builds the patterns of keys, of which the first has this number, and answers the number that follows the last.
fn key_forms<B: Build>(
    alloc: Global,
    keys: &[Key],
    first: u32,
    build: &mut B,
) -> Result<(List<Form>, u32), Stop>
    requires { first + length (key_patterns keys.now) < 2 ^ 32 }
    ensures forms { IfOk result (λ x. x.0 ≡ map to_build keys.now) }
    ensures number { IfOk result (λ x. x.1 ≡ first + length (key_patterns keys.now)) }
    ensures stop { IfErr result (IsStop first (key_patterns keys.now)) }
    ensures grew { Grew (B.log build.old) (B.log build.new) (texts_of first (key_patterns keys.now) result) }
{
    let mut forms = Vec::new(alloc);
    let mut number = first;
    let mut rest = keys;
    while let [key, after @ ..] = rest {
        forms.push(key_form(alloc, key, number, build)?)?;
        number = number_behind(key, number);
        rest = after;
    }
    Ok((List::of(forms), number))
}

/// Builds the patterns of groups in their order, until one is refused.
pub fn group_forms<B: Build>(
    alloc: Global,
    groups: &[Group],
    build: &mut B,
) -> Result<List<List<Form>>, Stop>
    requires { length (patterns_of groups.now) < 2 ^ 32 }
    ensures forms { IfOk result (λ fs. fs ≡ forms_of groups.now) }
    ensures stop { IfErr result (IsStop 0 (patterns_of groups.now)) }
    ensures grew { Grew (B.log build.old) (B.log build.new) (texts_of 0 (patterns_of groups.now) result) }
{
    let mut all = Vec::new(alloc);
    let mut number = 0;
    let mut rest = groups;
    while let [group, after @ ..] = rest {
        let (forms, next) = key_forms(alloc, keys_of(group), number, build)?;
        all.push(forms)?;
        number = next;
        rest = after;
    }
    Ok(List::of(all))
}
