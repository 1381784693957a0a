//! The groups of a text, one after another.
ghost use Rattle.std.specs.Prelude.{◌≡◌, IfOk, IsTrue, OnOk, OnErr};
ghost use Rattle.wm_apply.specs.Batches.{Outcome, command_done, commands_done, group_done, groups_done, groups_of, outcome, targets};
ghost use Rattle.wm_criteria.specs.Patterns.{keys_of};
ghost use Rattle.wm_criteria.specs.Prepared.{is_built};
ghost use Rattle.wm_criteria.specs.Searching.{group_keys};
ghost use Rattle.wm_tree.specs.Ids.{IdsRise};
ghost use Rattle.wm_tree.specs.Sound.{IsSound};

use crate::applied::{Applied, CommandReply};
use crate::commands::{gather_kills, is_exit, run_command};
use crate::modes::{mode_set, renew};
use crate::targets::Targets;
use std::alloc::Global;
use std::marker::Model;
use wm_base::{ConId, List, NoMemory, Text};
use wm_criteria::{Prepared, Verdict, matching};
use wm_language::{Command, Group};
use wm_layouts::Env;
use wm_tree::Tree;

/// What the commands of a text have done so far.
#[derive(Drop)]
struct Running {
    tree: Tree,
    replies: Vec<CommandReply>,
    mode: Option<Text>,
    exit: bool,
    kills: Vec<ConId>,
}

impl Model for Running {
    ghost use Rattle.wm_apply.specs.Batches.{Outcome, outcome_code};
    ghost use Rattle.wm_tree.specs.Sound.{IsSound};

    ghost Value = { Outcome };

    ghost coded = { outcome_code };

    ghost view = { λ r. record { tree = r.tree; replies = r.replies.items; mode = r.mode; exit = r.exit; kills = r.kills.items } };
}

impl Running {
    /// Runs one command on what its group acts on.
    fn command(
        &mut self,
        alloc: Global,
        env: &Env,
        targets: &Targets,
        command: &Command,
    ) -> Result<(), NoMemory>
        requires { IsSound self.old.tree }
        ensures done { OnOk result (self.new ≡ command_done env.now targets.now command.now self.old) }
        ensures sound { OnOk result (IsSound self.new.tree) }
    {
        gather_kills(alloc, &self.tree, targets, command, &mut self.kills)?;
        let reply = run_command(alloc, &mut self.tree, env, targets, command)?;
        self.replies.push(reply)?;
        renew(&mut self.mode, mode_set(env, command)?);
        self.exit = self.exit || is_exit(command);
        Ok(())
    }

    /// Runs the commands of a group, one after another.
    fn commands(
        &mut self,
        alloc: Global,
        env: &Env,
        targets: &Targets,
        commands: &[Command],
    ) -> Result<(), NoMemory>
        requires { IsSound self.old.tree }
        ensures done { OnOk result (self.new ≡ commands_done env.now targets.now commands.now self.old) }
        ensures sound { OnOk result (IsSound self.new.tree) }
    {
        let mut rest = commands;
        while let [command, after @ ..] = rest {
            self.command(alloc, env, targets, command)?;
            rest = after;
        }
        Ok(())
    }

    /// On what the commands of a group act. It is found once, before the first of them.
    fn targets(
        &self,
        alloc: Global,
        p: &Prepared,
        number: usize,
        group: &Group,
        subject: Option<ConId>,
    ) -> Result<Targets, NoMemory>
        requires built { IsTrue (is_built p.now) }
        requires keys { group_keys p.now.verdict number ≡ keys_of group.now }
        requires sound { IsSound self.now.tree }
        ensures { IfOk result (λ x. x ≡ targets group.now.criteria subject self.now.tree) }
    {
        match (&group.criteria, subject) {
            (Some(_), _) => {
                let cons = matching(alloc, &self.tree, p, number)?;
                Ok(Targets::Matched(List::of(cons)))
            }
            (None, Some(con)) => Ok(Targets::Handed(con)),
            (None, None) => Ok(Targets::Focused),
        }
    }

    /// Runs the groups of a text, one after another.
    fn groups(
        &mut self,
        alloc: Global,
        env: &Env,
        p: &Prepared,
        groups: &[Group],
        subject: Option<ConId>,
    ) -> Result<(), NoMemory>
        requires built { IsTrue (is_built p.now) }
        requires sound { IsSound self.old.tree }
        requires groups { groups_of p.now.verdict ≡ groups.now }
        ensures done { OnOk result (self.new ≡ groups_done env.now subject groups.now self.old) }
        ensures sound { OnOk result (IsSound self.new.tree) }
    {
        let mut number = 0;
        let mut rest = groups;
        while let [group, after @ ..] = rest {
            let targets = self.targets(alloc, p, number, group, subject)?;
            self.commands(alloc, env, &targets, group.commands.items())?;
            number += 1;
            rest = after;
        }
        Ok(())
    }
}

/// The tree after a text that reads, and what it did beside. Criteria match before the first command of their group;
/// each command that changes something is followed by settling. Where a subject is handed in, it stands for the focused
/// container. A text that does not read does nothing.
#[tactic(auto, using(crate::proofs::IdLemmas::ids_left))]
pub fn run(
    alloc: Global,
    t: &Tree,
    env: &Env,
    p: &Prepared,
    subject: Option<ConId>,
) -> Result<(Tree, Applied), NoMemory>
    requires built { IsTrue (is_built p.now) }
    requires sound { IsSound t.now }
    ensures tree { IfOk result (λ r. r.0 ≡ (outcome env.now p.now.verdict subject t.now).tree) }
    ensures replies { IfOk result (λ r. r.1.replies ≡ (outcome env.now p.now.verdict subject t.now).replies) }
    ensures exit { IfOk result (λ r. r.1.exit ≡ (outcome env.now p.now.verdict subject t.now).exit) }
    ensures kills { IfOk result (λ r. r.1.kills ≡ (outcome env.now p.now.verdict subject t.now).kills) }
    ensures mode { IfOk result (λ r. r.1.mode ≡ (outcome env.now p.now.verdict subject t.now).mode) }
    ensures sound { IfOk result (λ r. IsSound r.0) }
    ensures ids { IfOk result (λ r. IdsRise t.now r.0) }
{
    let ran = run_groups(alloc, t, env, p, subject)?;
    let applied = Applied {
        replies: List::of(ran.replies),
        mode: ran.mode,
        exit: ran.exit,
        kills: List::of(ran.kills),
    };
    Ok((ran.tree, applied))
}

/// Runs the groups of a text on a copy of the tree.
fn run_groups(
    alloc: Global,
    t: &Tree,
    env: &Env,
    p: &Prepared,
    subject: Option<ConId>,
) -> Result<Running, NoMemory>
    requires built { IsTrue (is_built p.now) }
    requires sound { IsSound t.now }
    ensures done { IfOk result (λ ran. ran ≡ outcome env.now p.now.verdict subject t.now) }
    ensures sound { IfOk result (λ ran. IsSound ran.tree) }
{
    let mut ran = Running {
        tree: t.copy()?,
        replies: Vec::new(alloc),
        mode: None,
        exit: false,
        kills: Vec::new(alloc),
    };
    if let Verdict::Ready(batch) = &p.verdict {
        ran.groups(alloc, env, p, batch.groups.items(), subject)?;
    }
    Ok(ran)
}

/// Runs a text that reads on the tree. After want of memory the tree is as it was.
pub fn apply(
    alloc: Global,
    t: &mut Tree,
    env: &Env,
    p: &Prepared,
    subject: Option<ConId>,
) -> Result<Applied, NoMemory>
    requires built { IsTrue (is_built p.now) }
    requires sound { IsSound t.old }
    ensures tree { OnOk result (t.new ≡ (outcome env.now p.now.verdict subject t.old).tree) }
    ensures replies { IfOk result (λ a. a.replies ≡ (outcome env.now p.now.verdict subject t.old).replies) }
    ensures exit { IfOk result (λ a. a.exit ≡ (outcome env.now p.now.verdict subject t.old).exit) }
    ensures kills { IfOk result (λ a. a.kills ≡ (outcome env.now p.now.verdict subject t.old).kills) }
    ensures mode { IfOk result (λ a. a.mode ≡ (outcome env.now p.now.verdict subject t.old).mode) }
    ensures err { OnErr result (t.new ≡ t.old) }
    ensures sound { IsSound t.new }
    ensures ids { OnOk result (IdsRise t.old t.new) }
{
    let (tree, applied) = run(alloc, t, env, p, subject)?;
    *t = tree;
    Ok(applied)
}
