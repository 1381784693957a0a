//! One command on one subject, or on the tree as a whole: a case for each command.
ghost use Rattle.std.specs.Prelude.{◌≡◌, false, true};
ghost use Rattle.wm_layouts.specs.declared.plan.Env.{Env};
ghost use Rattle.wm_apply.specs.Commands.{is_whole};
ghost use Rattle.wm_apply.specs.Rows.{come_refusal, focus_refusal, focus_tree, is_inner, is_placing, row_refusal, row_tree, matched_subject, whole_refusal, whole_tree};
ghost use Rattle.wm_apply.specs.declared.rows.How.{How};
ghost use Rattle.wm_shared.specs.Does.{Does};
ghost use Rattle.wm_shared.specs.Subject.{IsSubject};
ghost use Rattle.wm_tree.specs.Sound.{IsSound};

use crate::floats::{focus_of_kind, set_floating, set_fullscreen, set_sticky};
use crate::kills::kill;
use crate::layouts::append_named;
use crate::outputs::{focus_named, move_space_to_named, send_to_named};
use std::alloc::Global;
use wm_base::{ConId, ErrorText, NoMemory, Refusal};
use wm_floats::{centre, place_at, show_scratchpad, to_scratchpad};
use wm_focus::{
    cycle_layout, focus_child, focus_dir, focus_parent, mark, move_dir, move_to_mark, set_layout,
    split, swap, unmark,
};
use wm_language::Command;
use wm_layouts::Env;
use wm_shared::is_hidden;
use wm_sizes::{cycle_border, resize, resize_set, set_border, set_gaps, title_format};
use wm_spaces::{rename, send_to, show};
use wm_tree::Tree;

/// How a command came to its subject: criteria matched it, it was handed in, or it is the focused one.
#[derive(Clone, Copy, Debug, PartialEq, Eq)]
pub enum How {
    Matched,
    Handed,
    Focused,
}

/// Does a command to one subject. The tree is not settled.
pub fn run_row(
    alloc: Global,
    t: &mut Tree,
    env: &Env,
    how: How,
    command: &Command,
    con: ConId,
) -> Result<(), Refusal>
    requires { IsSubject t.old con }
    ensures { Does t.old t.new result (row_refusal env.now how command.now con)
        (row_tree env.now how command.now con) }
{
    match command {
        Command::Split(arg) => split(t, con, *arg),
        Command::SetLayout(arg) => set_layout(t, con, *arg),
        Command::CycleLayout(cycle) => cycle_layout(t, con, *cycle),
        Command::Focus => focus(t, how, con),
        Command::FocusDir(dir) => focus_dir(t, con, *dir),
        Command::FocusParent => focus_parent(t, con),
        Command::FocusChild => focus_child(t, con),
        Command::MoveDir(dir, px) => move_dir(t, con, *dir, *px),
        Command::MoveToMark(name) => move_to_mark(t, con, name),
        Command::Swap(arg) => swap(t, con, arg),
        Command::Mark { add, toggle, name } => mark(t, con, name, *add, *toggle),
        Command::Unmark(name) => unmark(t, how.matched_subject(con), name.as_ref()),
        _ => run_placing(alloc, t, env, how, command, con),
    }
}

/// Does a command to one subject that is none of layouts, of focus and moves in the tree, or of marks.
fn run_placing(
    alloc: Global,
    t: &mut Tree,
    env: &Env,
    how: How,
    command: &Command,
    con: ConId,
) -> Result<(), Refusal>
    requires subject { IsSubject t.old con }
    requires other { is_inner command.now ≡ false }
    ensures { Does t.old t.new result (row_refusal env.now how command.now con)
        (row_tree env.now how command.now con) }
{
    match command {
        Command::FocusOutput(arg) => focus_named(t, con, arg),
        Command::MoveToOutput(arg) => send_to_named(t, con, arg),
        Command::MoveToWorkspace(target) => send_to(t, con, target, env.homes.items()),
        Command::MoveWorkspace(arg) => move_space_to_named(alloc, t, con, arg),
        Command::FocusKind(kind) => focus_of_kind(t, con, *kind),
        Command::Floating(arg) => set_floating(t, con, *arg),
        Command::Fullscreen(arg) => set_fullscreen(t, con, *arg),
        Command::Sticky(arg) => set_sticky(t, con, *arg),
        Command::MovePosition(x, y) => place_at(t, con, *x, *y),
        Command::MoveCenter => centre(t, con),
        Command::MoveToScratchpad => to_scratchpad(t, con),
        Command::ScratchpadShow => show_scratchpad(t, how.matched_subject(con)),
        _ => run_sizing(t, command, con),
    }
}

/// Does a command to one subject that is none of outputs, workspaces, floating windows or the scratchpad either. Those
/// that have no subject do nothing to one.
fn run_sizing(t: &mut Tree, command: &Command, con: ConId) -> Result<(), Refusal>
    requires subject { IsSubject t.old con }
    requires other { is_inner command.now ≡ false }
    requires unplaced { is_placing command.now ≡ false }
    ensures { (env : Env) (how : How) → Does t.old t.new result (row_refusal env how command.now con)
        (row_tree env how command.now con) }
{
    match command {
        Command::Resize {
            grow,
            side,
            px,
            ppt,
        } => resize(t, con, *grow, *side, *px, *ppt),
        Command::ResizeSet(w, h) => resize_set(t, con, *w, *h),
        Command::SetBorder(border) => set_border(t, con, *border),
        Command::CycleBorder => cycle_border(t, con),
        Command::Gaps { outer, all, op, px } => set_gaps(t, con, *outer, *all, *op, *px),
        Command::TitleFormat(format) => title_format(t, con, format),
        Command::Kill => kill(t, con),
        Command::Workspace(_) | Command::Rename(..) | Command::AppendLayout(_) => Ok(()),
        Command::Mode(_) | Command::Nop | Command::Idle | Command::Exit => Ok(()),
        Command::Split(_) | Command::SetLayout(_) | Command::CycleLayout(_) => unreachable!(),
        Command::Focus | Command::FocusDir(_) | Command::FocusParent => unreachable!(),
        Command::FocusChild | Command::FocusKind(_) | Command::FocusOutput(_) => unreachable!(),
        Command::MoveDir(..) | Command::MoveToWorkspace(_) => unreachable!(),
        Command::MoveToOutput(_) | Command::MoveWorkspace(_) => unreachable!(),
        Command::MoveToMark(_) | Command::MoveToScratchpad => unreachable!(),
        Command::MovePosition(..) | Command::MoveCenter | Command::Swap(_) => unreachable!(),
        Command::Floating(_) | Command::Fullscreen(_) | Command::Sticky(_) => unreachable!(),
        Command::Mark { .. } | Command::Unmark(_) | Command::ScratchpadShow => unreachable!(),
    }
}

/// Does a command to the tree as a whole. The tree is not settled.
pub fn run_whole(alloc: Global, t: &mut Tree, env: &Env, command: &Command) -> Result<(), Refusal>
    requires sound { IsSound t.old }
    requires whole { is_whole command.now ≡ true }
    ensures { Does t.old t.new result (whole_refusal env.now command.now)
        (whole_tree env.now command.now) }
{
    match command {
        Command::Workspace(target) => show(t, target, env.homes.items()),
        Command::Rename(was, name) => rename(t, was.as_ref(), name),
        Command::AppendLayout(name) => append_named(alloc, t, env, name),
        _ => unreachable!(),
    }
}

/// Focuses a container that criteria matched or that was handed in.
fn focus(t: &mut Tree, how: How, con: ConId) -> Result<(), Refusal>
    requires { IsSubject t.old con }
    ensures { Does t.old t.new result (focus_refusal how con) (focus_tree con) }
{
    match how {
        How::Matched | How::Handed => come(t, con),
        How::Focused => Err(Refusal::NoTarget(ErrorText::NoCriteria)),
    }
}

/// Brings a window of the scratchpad, and focuses any other subject where it is.
fn come(t: &mut Tree, con: ConId) -> Result<(), Refusal>
    requires { IsSubject t.old con }
    ensures { Does t.old t.new result (come_refusal con) (focus_tree con) }
{
    if is_hidden(t, con) {
        return show_scratchpad(t, Some(con));
    }
    match wm_shared::focus(t, con) {
        Ok(()) => Ok(()),
        Err(NoMemory) => Err(Refusal::NoMemory),
    }
}

impl How {
    /// The subject where criteria matched it. Without criteria `unmark` is for all containers, and `scratchpad show` for
    /// the window whose turn it is.
    fn matched_subject(self, con: ConId) -> Option<ConId>
        ensures { result ≡ matched_subject self con }
    {
        match self {
            How::Matched => Some(con),
            How::Handed | How::Focused => None,
        }
    }
}
