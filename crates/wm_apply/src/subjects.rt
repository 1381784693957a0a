//! One command on its subjects, one after another.
ghost use Rattle.wm_base.specs.declared.errors.Refusal.TheVariants as refusals;
ghost use Rattle.std.specs.Prelude.{◌≡◌, ◌≢◌, ◌∷◌, [], true, IfOk, OnOk};
ghost use Rattle.wm_apply.specs.Subjects.{each_error, each_tree, error_of, full_text, one_error, one_tree, or_error, reply_of};
ghost use Rattle.wm_shared.specs.Subject.{IsSubject};
ghost use Rattle.wm_tree.specs.Sound.{IsSound};

use crate::applied::CommandReply;
use crate::rows::{How, run_row};
use std::alloc::Global;
use wm_base::{ConId, ErrorText, Limit, NoMemory, Refusal};
use wm_language::Command;
use wm_layouts::Env;
use wm_shared::is_subject;
use wm_tree::Tree;

/// The text of a limit that a command would pass.
fn full_text(limit: Limit) -> ErrorText
    ensures { result ≡ full_text limit }
{
    match limit {
        Limit::Containers => ErrorText::FullContainers,
        Limit::Outputs => ErrorText::NoOutput,
        Limit::Workspaces => ErrorText::FullWorkspaces,
        Limit::Children => ErrorText::FullChildren,
        Limit::Depth => ErrorText::FullDepth,
        Limit::Marks => ErrorText::FullMarks,
        Limit::Ids => ErrorText::FullIds,
    }
}

/// The text with which a refusal is answered.
pub fn text_of(refusal: Refusal) -> Result<ErrorText, NoMemory>
    ensures text { IfOk result (λ text. (text ≡ error_of refusal) × (refusal ≢ refusals.NoMemory)) }
{
    match refusal {
        Refusal::NoTarget(text) => Ok(text),
        Refusal::Full { limit } => Ok(full_text(limit)),
        Refusal::NameTaken => Ok(ErrorText::NameTaken),
        Refusal::NoMemory => Err(NoMemory),
    }
}

/// Does a command to one subject that is there, and settles the tree. Gives the error where it is refused.
fn run_there(
    alloc: Global,
    t: &mut Tree,
    env: &Env,
    how: How,
    command: &Command,
    con: ConId,
) -> Result<Option<ErrorText>, NoMemory>
    requires { IsSubject t.old con }
    ensures tree { OnOk result (t.new ≡ one_tree env.now how command.now con t.old) }
    ensures error { IfOk result (λ e. e ≡ one_error env.now how command.now con t.old) }
    ensures sound { IsSound t.new }
{
    match run_row(alloc, t, env, how, command, con) {
        Ok(()) => {
            t.settle();
            Ok(None)
        }
        Err(refusal) => Ok(Some(text_of(refusal)?)),
    }
}

/// The reply to a command with this first error.
pub fn reply_of(first: Option<ErrorText>) -> CommandReply
    ensures { result ≡ reply_of first }
{
    match first {
        None => CommandReply::Done,
        Some(error) => CommandReply::Error(error),
    }
}

/// Does a command to one subject that is there.
#[tactic(auto, using(crate::proofs::ThereLemmas::only_error))]
pub fn run_one(
    alloc: Global,
    t: &mut Tree,
    env: &Env,
    how: How,
    command: &Command,
    con: ConId,
) -> Result<CommandReply, NoMemory>
    requires { IsSubject t.old con }
    ensures tree { OnOk result (t.new ≡ each_tree env.now how command.now (con ∷ []) t.old) }
    ensures reply { IfOk result (λ r. r ≡ reply_of (each_error env.now how command.now (con ∷ []) t.old)) }
    ensures sound { IsSound t.new }
{
    let error = run_there(alloc, t, env, how, command, con)?;
    Ok(reply_of(error))
}

/// Does a command to one subject where it is still there: gives the error where it is refused.
pub fn run_still(
    alloc: Global,
    t: &mut Tree,
    env: &Env,
    how: How,
    command: &Command,
    con: ConId,
) -> Result<Option<ErrorText>, NoMemory>
    requires { IsSound t.old }
    ensures tree { OnOk result (t.new ≡ one_tree env.now how command.now con t.old) }
    ensures error { IfOk result (λ e. e ≡ one_error env.now how command.now con t.old) }
    ensures sound { IsSound t.new }
{
    if !is_subject(t, con) {
        return Ok(None);
    }
    run_there(alloc, t, env, how, command, con)
}

/// Does a command to each of the subjects that is still there. Gives the first error.
pub fn run_each(
    alloc: Global,
    t: &mut Tree,
    env: &Env,
    how: How,
    command: &Command,
    cons: &[ConId],
) -> Result<CommandReply, NoMemory>
    requires { IsSound t.old }
    ensures tree { OnOk result (t.new ≡ each_tree env.now how command.now cons.now t.old) }
    ensures reply { IfOk result (λ r. r ≡ reply_of (each_error env.now how command.now cons.now t.old)) }
    ensures sound { IsSound t.new }
{
    let mut first = None;
    let mut rest = cons;
    while let [con, after @ ..] = rest {
        first = first.or(run_still(alloc, t, env, how, command, *con)?);
        rest = after;
    }
    Ok(reply_of(first))
}
