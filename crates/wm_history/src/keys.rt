//! Keys: the choice of a chord in a mode, and what is told of it.
ghost use Rattle.std.specs.Prelude.{◌≡◌, [], map, MatchOption, None, Some, IfOk, IsTrue};
ghost use Rattle.std.specs.List.{list_all};
ghost use Rattle.wm_history.specs.Act.{choice_of};
ghost use Rattle.wm_history.specs.Keys.{IsPartOf, bound, chord_of, chosen};
ghost use Rattle.wm_history.specs.declared.step.Choice.{Choice};
ghost use Rattle.wm_criteria.specs.Prepared.{is_built};

use crate::step::Choice;
use std::alloc::Global;
use wm_base::{List, NoMemory, Str, Text, short_text};
use wm_json::{EventBody, copy_str};

/// The first choice for the mode.
pub fn choice_for<'a>(choices: &'a [Choice], mode: &str) -> Option<&'a Choice>
    requires { IsTrue (list_all (λ (c : Choice). is_built c.prepared) choices.now) }
    ensures choice { MatchOption result (chosen mode.now (map choice_of choices.now) ≡ None) (λ c. chosen mode.now (map choice_of choices.now) ≡ Some (choice_of c.now)) }
    ensures built { MatchOption result (Unit {0}) (λ c. IsTrue (is_built c.now.prepared)) }
{
    match choices {
        [] => None,
        [first, rest @ ..] => {
            if first.mode.as_str() == mode {
                Some(first)
            } else {
                choice_for(rest, mode)
            }
        }
    }
}

/// What is told of a chord that was bound to a text: the key behind its last `+`, and the parts before as the mask.
pub fn bound(alloc: Global, chord: &Text, text: &Str) -> Result<EventBody, NoMemory>
    ensures { IfOk result (λ event. event ≡ bound chord.now text.now) }
{
    let mut mask = Vec::new(alloc);
    let mut rest = chord.as_str();
    while let Some((part, after)) = first_part(rest) {
        mask.push(short_text(alloc, part)?)?;
        rest = after;
    }
    let symbol = short_text(alloc, rest)?;
    let command = copy_str(alloc, text)?;
    Ok(EventBody::Binding {
        command,
        event_state_mask: List::of(mask),
        symbol,
    })
}

/// What stands before the first `+` of a chord, and behind it.
fn first_part(chord: &str) -> Option<(&str, &str)>
    ensures { MatchOption result (chord_of chord.now ≡ record { mask = []; key = chord.now }) (λ x. IsPartOf chord.now x.0.now x.1.now) }
{
    chord.split_once('+')
}
