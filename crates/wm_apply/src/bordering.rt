//! Another border for many windows at once.
ghost use Rattle.std.specs.Prelude.{◌≡◌, ◌∷◌, None, true, IfOk, OnOk};
ghost use Rattle.std.specs.Option.{option_copied};
ghost use Rattle.wm_apply.specs.Bordering.{begins, bordered, climbs, command_of, first_error, part_at, part_of, refused_before, takers, takes};
ghost use Rattle.wm_apply.specs.Finding.{AreRows};
ghost use Rattle.wm_apply.specs.Subjects.{each_error, each_tree};
ghost use Rattle.wm_apply.specs.declared.rows.How.TheVariants as how;
ghost use Rattle.wm_tree.specs.Sound.{IsSound};

use crate::borders::{BorderChange, Restyle};
use crate::finding::Rows;
use crate::rows::How;
use crate::subjects::run_still;
use std::alloc::Global;
use wm_arrange::id_set;
use wm_base::{ConId, ErrorText, NoMemory};
use wm_language::Command;
use wm_layouts::Env;
use wm_tree::{Cursor, Part, Tree};

/// What the row begins with, where there is one.
fn part_at<'a>(row: Option<&Cursor<'a>>) -> Option<&'a Part>
    ensures { option_copied result ≡ part_at (option_copied row.entry) }
{
    row?.part()
}

/// What a node is, whose row is looked up. `None` exactly where it is not in the tree.
#[tactic(auto, using(crate::proofs::BorderingLemmas::part_found))]
fn part_of<'a>(rows: &Rows<'a>, con: ConId) -> Option<&'a Part>
    requires { AreRows rows.now }
    ensures { option_copied result ≡ part_of con rows.now.tree.now }
{
    part_at(rows.row(con))
}

/// Whether the ids rise, so that none is there twice.
pub fn climb(cons: &[ConId]) -> bool
    ensures { result ≡ climbs cons.now }
{
    let mut rest = cons;
    while let [first, after @ ..] = rest {
        if let [second, ..] = after {
            if first.0 >= second.0 {
                return false;
            }
        }
        rest = after;
    }
    true
}

/// The first that takes the change, with all behind it.
#[tactic(auto, using(crate::proofs::BorderingLemmas::passed_rest))]
fn from_taker<'a>(rows: &Rows<'_>, change: BorderChange, cons: &'a [ConId]) -> &'a [ConId]
    requires { AreRows rows.now }
    ensures { result.now ≡ takers change cons.now rows.now.tree.now }
{
    let mut rest = cons;
    while let [con, after @ ..] = rest {
        if change.takes(part_of(rows, *con)) {
            return rest;
        }
        rest = after;
    }
    rest
}

/// The first error of those that refuse the change before one takes it.
#[tactic(auto, using(crate::proofs::BorderingLemmas::passed_error))]
fn error_before(rows: &Rows<'_>, change: BorderChange, cons: &[ConId]) -> Option<ErrorText>
    requires { AreRows rows.now }
    ensures { result ≡ refused_before change cons.now rows.now.tree.now None }
{
    let mut first = None;
    let mut rest = cons;
    while let [con, after @ ..] = rest {
        let part = part_of(rows, *con);
        if change.takes(part) {
            return first;
        }
        first = first.or(change.part_error(part));
        rest = after;
    }
    first
}

/// The first error of those that refuse the change.
fn first_error(rows: &Rows<'_>, change: BorderChange, cons: &[ConId]) -> Option<ErrorText>
    requires { AreRows rows.now }
    ensures { result ≡ first_error change cons.now rows.now.tree.now }
{
    let mut first = None;
    let mut rest = cons;
    while let [con, after @ ..] = rest {
        first = first.or(change.part_error(part_of(rows, *con)));
        rest = after;
    }
    first
}

/// The first error of those that refuse the change before one takes it, and that one with all behind it, by the rows of
/// a tree, which are found in one walk.
fn refused_first<'a>(
    alloc: Global,
    t: &Tree,
    change: BorderChange,
    cons: &'a [ConId],
) -> Result<(Option<ErrorText>, &'a [ConId]), NoMemory>
    ensures error { IfOk result (λ r. r.0 ≡ refused_before change cons.now t.now None) }
    ensures rest { IfOk result (λ r. r.1.now ≡ takers change cons.now t.now) }
{
    let rows = Rows::new(alloc, t)?;
    let first = error_before(&rows, change, cons);
    Ok((first, from_taker(&rows, change, cons)))
}

/// The first error of those that refuse the change, by the rows of a tree, which are found in one walk.
fn error_in(
    alloc: Global,
    t: &Tree,
    change: BorderChange,
    cons: &[ConId],
) -> Result<Option<ErrorText>, NoMemory>
    ensures { IfOk result (λ e. e ≡ first_error change cons.now t.now) }
{
    let rows = Rows::new(alloc, t)?;
    Ok(first_error(&rows, change, cons))
}

/// Makes the change to each of the subjects that is still there, whose ids rise. Gives the first error. The windows
/// behind the first that takes it are changed in one walk.
pub fn border_each(
    alloc: Global,
    t: &mut Tree,
    env: &Env,
    command: &Command,
    change: BorderChange,
    cons: &[ConId],
) -> Result<Option<ErrorText>, NoMemory>
    requires sound { IsSound t.old }
    requires command { command.now ≡ command_of change }
    requires climbs { climbs cons.now ≡ true }
    ensures tree { OnOk result (t.new ≡ each_tree env.now how.Matched command.now cons.now t.old) }
    ensures error { IfOk result (λ e. e ≡ each_error env.now how.Matched command.now cons.now t.old) }
    ensures sound { IsSound t.new }
{
    let (first, rest) = refused_first(alloc, t, change, cons)?;
    let later = border_on(alloc, t, env, command, change, rest)?;
    Ok(first.or(later))
}

/// Makes the change to the subjects, where there are any: to the first, which takes it, and to each of those behind it
/// that is still there.
fn border_on(
    alloc: Global,
    t: &mut Tree,
    env: &Env,
    command: &Command,
    change: BorderChange,
    cons: &[ConId],
) -> Result<Option<ErrorText>, NoMemory>
    requires sound { IsSound t.old }
    requires command { command.now ≡ command_of change }
    requires climbs { climbs cons.now ≡ true }
    requires taken { begins change cons.now t.old ≡ true }
    ensures tree { OnOk result (t.new ≡ each_tree env.now how.Matched command.now cons.now t.old) }
    ensures error { IfOk result (λ e. e ≡ each_error env.now how.Matched command.now cons.now t.old) }
    ensures sound { IsSound t.new }
{
    match cons {
        [] => Ok(None),
        [con, after @ ..] => border_from(alloc, t, env, command, change, *con, after),
    }
}

/// Makes the change to a subject that takes it, and to each of those behind it that is still there.
fn border_from(
    alloc: Global,
    t: &mut Tree,
    env: &Env,
    command: &Command,
    change: BorderChange,
    con: ConId,
    after: &[ConId],
) -> Result<Option<ErrorText>, NoMemory>
    requires sound { IsSound t.old }
    requires command { command.now ≡ command_of change }
    requires climbs { climbs (con ∷ after.now) ≡ true }
    requires taken { takes change (part_of con t.old) ≡ true }
    ensures tree { OnOk result (t.new ≡ each_tree env.now how.Matched command.now (con ∷ after.now) t.old) }
    ensures error { IfOk result (λ e. e ≡ each_error env.now how.Matched command.now (con ∷ after.now) t.old) }
    ensures sound { IsSound t.new }
{
    let error = run_still(alloc, t, env, How::Matched, command, con)?;
    let later = border_behind(alloc, t, change, after)?;
    Ok(error.or(later))
}

/// Makes the change to each of the windows in one walk, and settles nothing. Gives the first error of what is none.
fn border_behind(
    alloc: Global,
    t: &mut Tree,
    change: BorderChange,
    cons: &[ConId],
) -> Result<Option<ErrorText>, NoMemory>
    requires { IsSound t.old }
    ensures tree { OnOk result (t.new ≡ bordered change cons.now t.old) }
    ensures error { IfOk result (λ e. e ≡ first_error change cons.now t.old) }
    ensures sound { IsSound t.new }
{
    let listed = id_set(alloc, cons)?;
    let first = error_in(alloc, t, change, cons)?;
    t.change_states(&Restyle { change, listed });
    Ok(first)
}
