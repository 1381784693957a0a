//! Running texts that leave the tree alone, without a copy of it.
ghost use Rattle.std.specs.Prelude.{◌≡◌, IsTrue, IfOk, OnOk, Option};
ghost use Rattle.std.specs.List.{list_all};
ghost use Rattle.wm_apply.specs.Commands.{runs_once};
ghost use Rattle.wm_apply.specs.Batches.{command_done, commands_done, groups_done, outcome};
ghost use Rattle.wm_apply.specs.Quiet.{beside, idle_reply, is_quiet};
ghost use Rattle.wm_apply.specs.declared.targets.Targets.{Targets};
ghost use Rattle.wm_base.specs.declared.ids.ConId.{ConId};
ghost use Rattle.wm_criteria.specs.declared.verdict.Verdict.TheVariants.{Ready};
ghost use Rattle.wm_tree.specs.TreeValue.{TreeValue};

use crate::applied::{Applied, CommandReply};
use crate::commands::is_exit;
use crate::modes::{is_unknown_mode, mode_set, renew};
use crate::runs::runs_once;
use std::alloc::Global;
use wm_base::{ErrorText, List, NoMemory, Text};
use wm_language::{Batch, Command, Group};
use wm_layouts::Env;

/// What the commands of a text that leaves the tree alone have done so far.
#[derive(Drop)]
struct Quiet {
    replies: Vec<CommandReply>,
    mode: Option<Text>,
    exit: bool,
}

impl Quiet {
    fn command(&mut self, env: &Env, command: &Command) -> Result<(), NoMemory>
        requires { IsTrue (runs_once command.now) }
        ensures { (found : Targets) (t : TreeValue) → OnOk result (beside t self.new ≡ command_done env.now found command.now (beside t self.old)) }
    {
        self.replies.push(idle_reply(env, command))?;
        renew(&mut self.mode, mode_set(env, command)?);
        self.exit = self.exit || is_exit(command);
        Ok(())
    }

    fn commands(&mut self, env: &Env, commands: &[Command]) -> Result<(), NoMemory>
        requires { IsTrue (list_all runs_once commands.now) }
        ensures { (found : Targets) (t : TreeValue) → OnOk result (beside t self.new ≡ commands_done env.now found commands.now (beside t self.old)) }
    {
        let mut rest = commands;
        while let [command, after @ ..] = rest {
            self.command(env, command)?;
            rest = after;
        }
        Ok(())
    }

    fn groups(&mut self, env: &Env, groups: &[Group]) -> Result<(), NoMemory>
        requires { IsTrue (is_quiet groups.now) }
        ensures { (subject : Option ConId) (t : TreeValue) → OnOk result (beside t self.new ≡ groups_done env.now subject groups.now (beside t self.old)) }
    {
        let mut rest = groups;
        while let [group, after @ ..] = rest {
            self.commands(env, group.commands.items())?;
            rest = after;
        }
        Ok(())
    }
}

/// What a command that leaves the tree alone is answered.
fn idle_reply(env: &Env, command: &Command) -> CommandReply
    ensures { result ≡ idle_reply env.now command.now }
{
    if is_unknown_mode(env, command) {
        return CommandReply::Error(ErrorText::NoMode);
    }
    CommandReply::Done
}

fn are_idle(commands: &[Command]) -> bool
    ensures { result ≡ list_all runs_once commands.now }
{
    let mut rest = commands;
    while let [first, after @ ..] = rest {
        if !runs_once(first) {
            return false;
        }
        rest = after;
    }
    true
}

fn are_quiet(groups: &[Group]) -> bool
    ensures { result ≡ is_quiet groups.now }
{
    let mut rest = groups;
    while let [first, after @ ..] = rest {
        if !are_idle(first.commands.items()) {
            return false;
        }
        rest = after;
    }
    true
}

/// Whether each command of the text leaves the tree alone: it does nothing, sets a mode or stops the desk.
pub fn is_quiet(batch: &Batch) -> bool
    ensures { result ≡ is_quiet batch.now.groups }
{
    are_quiet(batch.groups.items())
}

/// What a text does that leaves the tree alone. It looks at no tree, and asks no window to close.
pub fn run_quiet(alloc: Global, env: &Env, batch: &Batch) -> Result<Applied, NoMemory>
    requires { IsTrue (is_quiet batch.now.groups) }
    ensures { (subject : Option ConId) (t : TreeValue) → IfOk result (λ a. outcome env.now (Ready batch.now) subject t ≡ record { tree = t; replies = a.replies; mode = a.mode; exit = a.exit; kills = a.kills }) }
{
    let mut quiet = Quiet {
        replies: Vec::new(alloc),
        mode: None,
        exit: false,
    };
    quiet.groups(env, batch.groups.items())?;
    Ok(Applied {
        replies: List::of(quiet.replies),
        mode: quiet.mode,
        exit: quiet.exit,
        kills: List::of(Vec::new(alloc)),
    })
}
