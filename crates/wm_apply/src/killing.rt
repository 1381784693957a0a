//! `kill` on many containers at once.
ghost use Rattle.std.specs.Prelude.{◌≡◌, ◌∷◌, true, IfOk, OnOk};
ghost use Rattle.wm_apply.specs.Subjects.{each_error, each_tree, one_error, one_tree};
ghost use Rattle.wm_apply.specs.declared.rows.How.{How};
ghost use Rattle.wm_apply.specs.declared.rows.How.TheVariants as how;
ghost use Rattle.wm_language.specs.declared.command.Command.TheVariants as commands;
ghost use Rattle.wm_layouts.specs.declared.plan.Env.{Env};
ghost use Rattle.wm_shared.specs.Subject.{is_container};
ghost use Rattle.wm_tree.specs.Sound.{IsSound};
ghost use Rattle.wm_tree.specs.Words.{settled};

use crate::kills::has_space;
use crate::rows::How;
use crate::subjects::run_still;
use std::alloc::Global;
use wm_base::{ConId, ErrorText, NoMemory};
use wm_language::Command;
use wm_layouts::Env;
use wm_tree::Tree;

/// Does `kill` to each of the subjects that is still there. Gives the first error. It leaves the tree as it is but for
/// settling, so that behind the first container the tree stays the same, and one walk answers for all the others.
pub fn kill_each(
    alloc: Global,
    t: &mut Tree,
    env: &Env,
    cons: &[ConId],
) -> Result<Option<ErrorText>, NoMemory>
    requires { IsSound t.old }
    ensures tree { OnOk result (t.new ≡ each_tree env.now how.Matched commands.Kill cons.now t.old) }
    ensures error { IfOk result (λ e. e ≡ each_error env.now how.Matched commands.Kill cons.now t.old) }
    ensures sound { IsSound t.new }
{
    let mut first = None;
    let mut rest = cons;
    while let [con, after @ ..] = rest {
        if t.container(*con).is_some() {
            let later = kill_on(alloc, t, env, *con, after)?;
            return Ok(first.or(later));
        }
        first = first.or(kill_still(alloc, t, env, *con)?);
        rest = after;
    }
    Ok(first)
}

/// Does `kill` to a container, and to each of the subjects behind it that is still there. Gives the first error.
fn kill_on(
    alloc: Global,
    t: &mut Tree,
    env: &Env,
    con: ConId,
    after: &[ConId],
) -> Result<Option<ErrorText>, NoMemory>
    requires sound { IsSound t.old }
    requires con { is_container t.old con ≡ true }
    ensures tree { OnOk result (t.new ≡ each_tree env.now how.Matched commands.Kill (con ∷ after.now) t.old) }
    ensures error { IfOk result (λ e. e ≡ each_error env.now how.Matched commands.Kill (con ∷ after.now) t.old) }
    ensures sound { IsSound t.new }
{
    let error = kill_still(alloc, t, env, con)?;
    let later = refused_behind(alloc, t, after)?;
    Ok(error.or(later))
}

/// Does `kill` to one subject where it is still there. Behind a container nothing is left to settle.
#[tactic(auto, using(crate::proofs::KillingLemmas::settled_behind))]
fn kill_still(
    alloc: Global,
    t: &mut Tree,
    env: &Env,
    con: ConId,
) -> Result<Option<ErrorText>, NoMemory>
    requires { IsSound t.old }
    ensures tree { OnOk result (t.new ≡ one_tree env.now how.Matched commands.Kill con t.old) }
    ensures error { IfOk result (λ e. e ≡ one_error env.now how.Matched commands.Kill con t.old) }
    ensures settled { OnOk result (is_container t.old con ≡ true → settled t.new ≡ t.new) }
    ensures sound { IsSound t.new }
{
    run_still(alloc, t, env, How::Matched, &Command::Kill, con)
}

/// The first error of `kill` on these subjects of a tree in which nothing is left to settle: that of a workspace, where
/// one of them is one. The tree stays as it is.
#[tactic(auto, using(crate::proofs::KillingLemmas::left_tree, crate::proofs::KillingLemmas::left_error))]
fn refused_behind(alloc: Global, t: &Tree, cons: &[ConId]) -> Result<Option<ErrorText>, NoMemory>
    requires { settled t.now ≡ t.now }
    ensures tree { (env : Env) (how : How) → each_tree env how commands.Kill cons.now t.now ≡ t.now }
    ensures error { (env : Env) (how : How) → IfOk result (λ e. e ≡ each_error env how commands.Kill cons.now t.now) }
{
    if has_space(alloc, t, cons)? {
        return Ok(Some(ErrorText::AtWorkspace));
    }
    Ok(None)
}
