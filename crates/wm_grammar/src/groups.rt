//! Reading groups of commands.
ghost use Rattle.std.specs.Prelude.{◌≡◌, length, IfOk, option_map};
ghost use Rattle.wm_grammar.specs.Reading.{commands_at, criteria_part, group_at, groups_of};

use crate::keys::criteria_at;
use crate::reading::command_at;
use std::alloc::Global;
use wm_base::{List, NoMemory};
use wm_language::{Command, Criteria, Group};
use wm_words::{past, skip};

/// Commands separated by `,`, and what follows them: the end of their group.
#[tactic(auto, using(crate::proofs::Loops::commands_steps))]
fn commands_at(alloc: Global, text: &[u8]) -> Result<Option<(Vec<Command>, &[u8])>, NoMemory>
    ensures { IfOk result (λ o. option_map (λ x. (x.0.items, x.1.now)) o ≡ commands_at (length text.now) text.now) }
{
    let mut commands = Vec::with_capacity(alloc, 1)?;
    let mut rest = text;
    let mut left = text.len();
    while left > 0 {
        let Some((command, behind)) = command_at(alloc, skip(rest))? else {
            return Ok(None)
        };
        commands.push(command)?;
        let [b',', more @ ..] = behind else {
            return Ok(Some((commands, behind)))
        };
        rest = more;
        left -= 1;
    }
    Ok(None)
}

/// The criteria at the front, where `[` stands there, and what follows.
#[tactic(auto, unfolding(crate::specs::Reading::criteria_part))]
pub fn criteria_part(
    alloc: Global,
    text: &[u8],
) -> Result<Option<(Option<Criteria>, &[u8])>, NoMemory>
    ensures { IfOk result (λ o. option_map (λ x. (x.0, x.1.now)) o ≡ criteria_part text.now) }
{
    let [b'[', inside @ ..] = text else {
        return Ok(Some((None, text)))
    };
    let Some((keys, rest)) = criteria_at(alloc, inside)? else {
        return Ok(None)
    };
    Ok(Some((
        Some(Criteria {
            keys: List::of(keys),
        }),
        rest,
    )))
}

/// A group that is not blank, at the front of a text that begins with no blank, and what follows.
#[tactic(auto, unfolding(crate::specs::Reading::group_at))]
fn group_at(alloc: Global, text: &[u8]) -> Result<Option<(Group, &[u8])>, NoMemory>
    ensures { IfOk result (λ o. option_map (λ x. (x.0, x.1.now)) o ≡ group_at text.now) }
{
    let Some((criteria, rest)) = criteria_part(alloc, text)? else {
        return Ok(None)
    };
    let Some((commands, rest)) = commands_at(alloc, rest)? else {
        return Ok(None)
    };
    Ok(Some((
        Group {
            criteria,
            commands: List::of(commands),
        },
        rest,
    )))
}

/// The groups of a text.
#[tactic(auto, unfolding(crate::specs::Reading::groups_at, crate::specs::Reading::groups_of))]
pub fn groups_of(alloc: Global, text: &[u8]) -> Result<Option<Vec<Group>>, NoMemory>
    ensures { IfOk result (λ o. option_map (λ v. v.items) o ≡ groups_of text.now) }
{
    let mut groups = Vec::new(alloc);
    let mut rest = text;
    let mut left = text.len();
    loop {
        let [first, more @ ..] = skip(rest) else {
            return Ok(Some(groups))
        };
        if *first == b';' {
            rest = more;
        } else {
            let Some((group, behind)) = group_at(alloc, skip(rest))? else {
                return Ok(None)
            };
            groups.push(group)?;
            rest = past(behind, 1);
        }
        if left == 0 {
            return Ok(None);
        }
        left -= 1;
    }
}
