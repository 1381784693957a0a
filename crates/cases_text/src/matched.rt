//! Cases of matching: which containers of the small desktop criteria match, all at once and one by one.
ghost use Rattle.std.specs.Prelude.{IfOk, IsTrue};
ghost use Rattle.wm_criteria.specs.Prepared.{is_built};
ghost use Rattle.wm_tree.specs.Sound.{IsSound};

use crate::desk::desk;
use case_data::{Fault, Words, string_of};
use std::alloc::Global;
use wm_base::ConId;
use wm_criteria::{Prepared, RegexBuild, matches, matching, prepare};
use wm_tree::Tree;

/// Which containers the criteria match.
pub fn tell_matches(words: &mut Words<'_>, out: &mut String) -> Result<(), Fault> {
    let prepared = criteria_of(words)?;
    tell_on_desk(words.alloc, &prepared, out)
}

/// The prepared text of a group of these criteria.
fn criteria_of(words: &mut Words<'_>) -> Result<Prepared, Fault>
    ensures { IfOk result (λ prepared. IsTrue (is_built prepared)) }
{
    let text = group_of(words)?;
    if text.len() >= 1 << 32 {
        return Err(Fault::BadLine);
    }
    Ok(prepare(words.alloc, text.as_str(), &mut RegexBuild::new())?)
}

fn group_of(words: &mut Words<'_>) -> Result<String, Fault> {
    let criteria = string_of(words.alloc, words.rest())?;
    Ok(format!(in words.alloc; "[{criteria}] nop")?)
}

fn tell_on_desk(alloc: Global, prepared: &Prepared, out: &mut String) -> Result<(), Fault>
    requires { IsTrue (is_built prepared.now) }
{
    let tree = desk(alloc)?;
    tell_all(alloc, &tree, prepared, out)?;
    tell_each(alloc, &tree, prepared, out)
}

/// The containers that match, found at once.
fn tell_all(alloc: Global, tree: &Tree, prepared: &Prepared, out: &mut String) -> Result<(), Fault>
    requires built { IsTrue (is_built prepared.now) }
    requires sound { IsSound tree.now }
{
    out.push_str("  all:")?;
    for con in matching(alloc, tree, prepared, 0)? {
        write!(out, " {}", con.0)?;
    }
    out.push_str("\n")?;
    Ok(())
}

/// The containers that match, found one by one.
fn tell_each(alloc: Global, tree: &Tree, prepared: &Prepared, out: &mut String) -> Result<(), Fault>
    requires { IsTrue (is_built prepared.now) }
{
    out.push_str("  each:")?;
    for id in 4..9 {
        if matches(alloc, tree, prepared, 0, ConId(id))? {
            write!(out, " {id}")?;
        }
    }
    out.push_str("\n")?;
    Ok(())
}
