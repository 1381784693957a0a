//! Writing batches.
ghost use Rattle.std.specs.Prelude.{◌≡◌, ◌++◌, ◌∷◌, string_bytes, IfOk, OnOk};
ghost use Rattle.wm_language.specs.Spelling.{key_text, pattern_text, keys_text, criteria_text, commands_text, group_text, groups_text, spelling};

use crate::batch::{Batch, Criteria, Group, Key};
use crate::command::Command;
use crate::printing::{put_command, put_counted, put_named};
use crate::writing::put;
use std::alloc::Global;
use wm_base::NoMemory;

/// The spelling of the batch, with keywords in lower case and quoted arguments.
pub fn spell(alloc: Global, batch: &Batch) -> Result<String, NoMemory>
    ensures { IfOk result (λ s. string_bytes s ≡ spelling batch.now) }
{
    let mut out = String::new(alloc);
    put_groups(&mut out, batch.groups.items())?;
    Ok(out)
}

/// Writes groups with `;` between them.
#[tactic(auto, using(crate::proofs::Lists::joining), unfolding(crate::specs::Spelling::groups_text, crate::specs::Spelling::more_groups_text))]
fn put_groups(out: &mut String, groups: &[Group]) -> Result<(), NoMemory>
    ensures { OnOk result (string_bytes out.new ≡ string_bytes out.old ++ groups_text groups.now) }
{
    let [first, more @ ..] = groups else {
        return Ok(())
    };
    put_group(out, first)?;
    let mut rest = more;
    while let [group, more @ ..] = rest {
        put(out, "; ")?;
        put_group(out, group)?;
        rest = more;
    }
    Ok(())
}

/// Writes a group.
#[tactic(auto, using(crate::proofs::Lists::joining))]
fn put_group(out: &mut String, group: &Group) -> Result<(), NoMemory>
    ensures { OnOk result (string_bytes out.new ≡ string_bytes out.old ++ group_text group.now) }
{
    put_criteria(out, &group.criteria)?;
    put_commands(out, group.commands.items())
}

/// Writes commands with `,` between them.
#[tactic(auto, using(crate::proofs::Lists::joining), unfolding(crate::specs::Spelling::commands_text, crate::specs::Spelling::more_commands_text))]
fn put_commands(out: &mut String, commands: &[Command]) -> Result<(), NoMemory>
    ensures { OnOk result (string_bytes out.new ≡ string_bytes out.old ++ commands_text commands.now) }
{
    let [first, more @ ..] = commands else {
        return Ok(())
    };
    put_command(out, first)?;
    let mut rest = more;
    while let [command, more @ ..] = rest {
        put(out, ", ")?;
        put_command(out, command)?;
        rest = more;
    }
    Ok(())
}

/// Writes the keys in brackets, where there are criteria.
#[tactic(auto, using(crate::proofs::Lists::joining))]
fn put_criteria(out: &mut String, criteria: &Option<Criteria>) -> Result<(), NoMemory>
    ensures { OnOk result (string_bytes out.new ≡ string_bytes out.old ++ criteria_text criteria.now) }
{
    let Some(criteria) = criteria else {
        return Ok(())
    };
    put(out, "[")?;
    put_keys(out, criteria.keys.items())?;
    put(out, "] ")
}

/// Writes each key and a blank behind it.
#[tactic(auto, using(crate::proofs::Lists::joining), unfolding(crate::specs::Spelling::keys_text))]
fn put_keys(out: &mut String, keys: &[Key]) -> Result<(), NoMemory>
    ensures { OnOk result (string_bytes out.new ≡ string_bytes out.old ++ keys_text keys.now) }
{
    let mut rest = keys;
    while let [key, more @ ..] = rest {
        put_key(out, key)?;
        put(out, " ")?;
        rest = more;
    }
    Ok(())
}

/// Writes a key.
#[tactic(auto, unfolding(crate::specs::Spelling::key_text))]
fn put_key(out: &mut String, key: &Key) -> Result<(), NoMemory>
    ensures { OnOk result (string_bytes out.new ≡ string_bytes out.old ++ key_text key.now) }
{
    match key {
        Key::Id(n) => put_counted(out, "id=", *n),
        Key::Con(None) => put(out, "con_id=__focused__"),
        Key::Con(Some(n)) => put_counted(out, "con_id=", *n),
        Key::Urgent { latest: true } => put(out, "urgent=latest"),
        Key::Urgent { latest: false } => put(out, "urgent=oldest"),
        Key::Floating => put(out, "floating"),
        Key::Tiling => put(out, "tiling"),
        Key::All => put(out, "all"),
        _ => put_pattern(out, key),
    }
}

/// Writes a key that has a text; nothing for any other.
fn put_pattern(out: &mut String, key: &Key) -> Result<(), NoMemory>
    ensures { OnOk result (string_bytes out.new ≡ string_bytes out.old ++ pattern_text key.now) }
{
    match key {
        Key::Class(text) => put_named(out, "class=", text),
        Key::Instance(text) => put_named(out, "instance=", text),
        Key::Role(text) => put_named(out, "window_role=", text),
        Key::Kind(text) => put_named(out, "window_type=", text),
        Key::Machine(text) => put_named(out, "machine=", text),
        Key::Title(text) => put_named(out, "title=", text),
        Key::Mark(text) => put_named(out, "con_mark=", text),
        Key::Workspace(text) => put_named(out, "workspace=", text),
        _ => Ok(()),
    }
}
