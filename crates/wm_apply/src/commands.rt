//! One command of a group.
ghost use Rattle.std.specs.Prelude.{◌≡◌, true, ◌++◌, IfOk, OnOk};
ghost use Rattle.wm_apply.specs.Commands.{command_kills, command_reply, command_tree, is_exit, is_whole, course_reply, course_tree, is_mark, many_there, matched_course, runs_once, subject, targets_course, whole};
ghost use Rattle.wm_apply.specs.Subjects.{each_error, each_tree, reply_of};
ghost use Rattle.wm_apply.specs.declared.rows.How.TheVariants as how;
ghost use Rattle.wm_apply.specs.declared.targets.Targets.TheVariants as targets;
ghost use Rattle.wm_shared.specs.Subject.{IsSubject};
ghost use Rattle.wm_tree.specs.Sound.{IsSound};

use crate::applied::CommandReply;
use crate::bordering::{border_each, climb};
use crate::borders::border_change;
use crate::killing::kill_each;
use crate::kills::{FEW, ask, ask_each, is_kill};
use crate::modes::is_unknown_mode;
use crate::rows::{How, run_whole};
use crate::runs::{is_whole, runs_once};
use crate::subjects::{reply_of, run_each, run_one, text_of};
use crate::targets::Targets;
use std::alloc::Global;
use wm_base::{ConId, ErrorText, NoMemory};
use wm_language::Command;
use wm_layouts::Env;
use wm_shared::is_subject;
use wm_tree::Tree;

fn is_mark(command: &Command) -> bool
    ensures { result ≡ is_mark command.now }
{
    matches!(command, Command::Mark { .. })
}

/// Whether the command stops the desk.
pub fn is_exit(command: &Command) -> bool
    ensures { result ≡ is_exit command.now }
{
    matches!(command, Command::Exit)
}

/// Whether more than one of the containers is still there.
fn are_many_there(t: &Tree, cons: &[ConId]) -> bool
    ensures { result ≡ many_there cons.now t.now }
{
    let mut found = false;
    let mut rest = cons;
    while let [con, after @ ..] = rest {
        let there = is_subject(t, *con);
        if found && there {
            return true;
        }
        found = found || there;
        rest = after;
    }
    false
}

/// The subject that was handed in, or the focused container where it is gone.
#[tactic(auto, using(crate::proofs::ThereLemmas::focus_is))]
fn subject(t: &Tree, con: ConId) -> ConId
    ensures value { result ≡ subject con t.now }
    ensures there { IsSound t.now → IsSubject t.now result }
{
    if is_subject(t, con) { con } else { t.focused() }
}

/// Runs one command on what its group acts on.
pub fn run_command(
    alloc: Global,
    t: &mut Tree,
    env: &Env,
    targets: &Targets,
    command: &Command,
) -> Result<CommandReply, NoMemory>
    requires { IsSound t.old }
    ensures tree { OnOk result (t.new ≡ command_tree env.now targets.now command.now t.old) }
    ensures reply { IfOk result (λ r. r ≡ command_reply env.now targets.now command.now t.old) }
    ensures sound { IsSound t.new }
{
    if is_unknown_mode(env, command) {
        return Ok(CommandReply::Error(ErrorText::NoMode));
    }
    if runs_once(command) {
        return Ok(CommandReply::Done);
    }
    if is_whole(command) {
        return run_all(alloc, t, env, command);
    }
    match targets {
        Targets::Matched(cons) => run_matched(alloc, t, env, command, cons.items()),
        Targets::Handed(con) => run_handed(alloc, t, env, command, *con),
        Targets::Focused => run_focused(alloc, t, env, command),
    }
}

/// Runs a command on the tree as a whole, and settles it.
fn run_all(
    alloc: Global,
    t: &mut Tree,
    env: &Env,
    command: &Command,
) -> Result<CommandReply, NoMemory>
    requires sound { IsSound t.old }
    requires whole { is_whole command.now ≡ true }
    ensures tree { OnOk result (t.new ≡ course_tree env.now whole command.now t.old) }
    ensures reply { IfOk result (λ r. r ≡ course_reply env.now whole command.now t.old) }
    ensures sound { IsSound t.new }
{
    match run_whole(alloc, t, env, command) {
        Ok(()) => {
            t.settle();
            Ok(CommandReply::Done)
        }
        Err(refusal) => Ok(CommandReply::Error(text_of(refusal)?)),
    }
}

/// Runs a command on the containers that criteria matched.
fn run_matched(
    alloc: Global,
    t: &mut Tree,
    env: &Env,
    command: &Command,
    cons: &[ConId],
) -> Result<CommandReply, NoMemory>
    requires { IsSound t.old }
    ensures tree { OnOk result (t.new ≡ course_tree env.now (matched_course command.now cons.now t.old) command.now t.old) }
    ensures reply { IfOk result (λ r. r ≡ course_reply env.now (matched_course command.now cons.now t.old) command.now t.old) }
    ensures sound { IsSound t.new }
{
    if cons.is_empty() {
        return Ok(CommandReply::Error(ErrorText::NoMatch));
    }
    if is_mark(command) && are_many_there(t, cons) {
        return Ok(CommandReply::Error(ErrorText::ManyMatch));
    }
    if cons.len() > FEW {
        return run_many(alloc, t, env, command, cons);
    }
    run_each(alloc, t, env, How::Matched, command, cons)
}

/// Runs a command on more than a few containers that criteria matched: `kill` and borders in a few walks, any other on one
/// after another, since it acts on the tree that the one before left.
fn run_many(
    alloc: Global,
    t: &mut Tree,
    env: &Env,
    command: &Command,
    cons: &[ConId],
) -> Result<CommandReply, NoMemory>
    requires { IsSound t.old }
    ensures tree { OnOk result (t.new ≡ each_tree env.now how.Matched command.now cons.now t.old) }
    ensures reply { IfOk result (λ r. r ≡ reply_of (each_error env.now how.Matched command.now cons.now t.old)) }
    ensures sound { IsSound t.new }
{
    if let Command::Kill = command {
        return Ok(reply_of(kill_each(alloc, t, env, cons)?));
    }
    if let (Some(change), true) = (border_change(command), climb(cons)) {
        let first = border_each(alloc, t, env, command, change, cons)?;
        return Ok(reply_of(first));
    }
    run_each(alloc, t, env, How::Matched, command, cons)
}

/// Runs a command on the subject that was handed in.
fn run_handed(
    alloc: Global,
    t: &mut Tree,
    env: &Env,
    command: &Command,
    con: ConId,
) -> Result<CommandReply, NoMemory>
    requires { IsSound t.old }
    ensures tree { OnOk result (t.new ≡ course_tree env.now (targets_course (targets.Handed con) command.now t.old) command.now t.old) }
    ensures reply { IfOk result (λ r. r ≡ course_reply env.now (targets_course (targets.Handed con) command.now t.old) command.now t.old) }
    ensures sound { IsSound t.new }
{
    let con = subject(t, con);
    run_one(alloc, t, env, How::Handed, command, con)
}

/// Runs a command on the focused container.
#[tactic(auto, using(crate::proofs::ThereLemmas::focus_is))]
fn run_focused(
    alloc: Global,
    t: &mut Tree,
    env: &Env,
    command: &Command,
) -> Result<CommandReply, NoMemory>
    requires { IsSound t.old }
    ensures tree { OnOk result (t.new ≡ course_tree env.now (targets_course targets.Focused command.now t.old) command.now t.old) }
    ensures reply { IfOk result (λ r. r ≡ course_reply env.now (targets_course targets.Focused command.now t.old) command.now t.old) }
    ensures sound { IsSound t.new }
{
    let con = t.focused();
    run_one(alloc, t, env, How::Focused, command, con)
}

/// Adds the windows that the command asks to close.
pub fn gather_kills(
    alloc: Global,
    t: &Tree,
    targets: &Targets,
    command: &Command,
    found: &mut Vec<ConId>,
) -> Result<(), NoMemory>
    ensures { OnOk result (found.new.items ≡ found.old.items ++ command_kills targets.now command.now t.now) }
{
    if !is_kill(command) {
        return Ok(());
    }
    match targets {
        Targets::Matched(cons) => ask_each(alloc, t, cons.items(), found),
        Targets::Handed(con) => Ok(ask(t, subject(t, *con), found)?),
        Targets::Focused => Ok(ask(t, t.focused(), found)?),
    }
}
