//! The calls on marks and on urgent windows.
ghost use Rattle.std.specs.Prelude.{◌≡◌, None};
ghost use Rattle.cases_tree.specs.Desk.{Holds};
ghost use Rattle.wm_tree.specs.Marks.{bearer};

use crate::desk::Desk;
use crate::telling::{tell_done, tell_id};
use case_data::{Fault, Words};
use std::alloc::Global;
use wm_base::{ConId, Text};
use wm_tree::{Tree, TreeRefusal};

/// `mark 6 a`: gives a container a mark.
pub fn mark(desk: &mut Desk, words: &mut Words<'_>, out: &mut String) -> Result<(), Fault>
    requires { Holds desk.old }
    ensures { Holds desk.new }
{
    let con = words.con()?;
    let name = words.last_text()?;
    if desk.tree.bearer(None, &name).is_some() {
        return Err(Fault::BadLine);
    }
    let answer = add_mark(desk, con, &name);
    tell_done(out, answer)
}

fn add_mark(desk: &mut Desk, con: ConId, name: &Text) -> Result<(), TreeRefusal>
    requires holds { Holds desk.old }
    requires other { bearer None name.now desk.old.tree.nodes ≡ None }
    ensures { Holds desk.new }
{
    desk.sound = desk.sound && desk.tree.container(con).is_some();
    desk.tree.add_mark(con, name)
}

/// `marks 6 32`: gives a container so many marks, `6 0`, `6 1` and so on, and says the last answer.
pub fn marks(desk: &mut Desk, words: &mut Words<'_>, out: &mut String) -> Result<(), Fault>
    requires { Holds desk.old }
    ensures { Holds desk.new }
{
    let con = words.con()?;
    let count = words.number()?;
    desk.sound = false;
    let answer = add_marks(&mut desk.tree, words.alloc, con, count)?;
    tell_done(out, answer)
}

fn add_marks(
    tree: &mut Tree,
    alloc: Global,
    con: ConId,
    count: u32,
) -> Result<Result<(), TreeRefusal>, Fault> {
    let mut answer = Ok(());
    for number in 0..count {
        let name = numbered(alloc, con, number)?;
        if tree.bearer(None, &name).is_some() {
            return Err(Fault::BadLine);
        }
        answer = tree.add_mark(con, &name);
    }
    Ok(answer)
}

fn numbered(alloc: Global, con: ConId, number: u32) -> Result<Text, Fault> {
    let name = format!(in alloc; "{} {number}", con.0)?;
    Ok(Text::new(alloc, name.as_str())?)
}

/// `workspaces 2 254`: adds so many workspaces to an output, `2 0`, `2 1` and so on, and says the last answer.
pub fn workspaces(desk: &mut Desk, words: &mut Words<'_>, out: &mut String) -> Result<(), Fault>
    requires { Holds desk.old }
    ensures { Holds desk.new }
{
    let output = words.con()?;
    let count = words.number()?;
    desk.sound = false;
    let answer = add_workspaces(&mut desk.tree, words.alloc, output, count)?;
    tell_id(out, answer)
}

fn add_workspaces(
    tree: &mut Tree,
    alloc: Global,
    output: ConId,
    count: u32,
) -> Result<Result<ConId, TreeRefusal>, Fault> {
    let mut answer = Ok(output);
    for number in 0..count {
        let name = numbered(alloc, output, number)?;
        answer = tree.add_workspace(output, &name);
    }
    Ok(answer)
}

/// `unmark 6 a`: takes a mark from a container.
pub fn unmark(desk: &mut Desk, words: &mut Words<'_>) -> Result<(), Fault>
    requires { Holds desk.old }
    ensures { Holds desk.new }
{
    let con = words.con()?;
    let name = words.last_text()?;
    desk.tree.remove_mark(con, &name);
    Ok(())
}

/// `urgent 6`: a window becomes urgent.
pub fn urgent(desk: &mut Desk, words: &mut Words<'_>, out: &mut String) -> Result<(), Fault>
    requires { Holds desk.old }
    ensures { Holds desk.new }
{
    let con = words.con()?;
    if desk.tree.is_urgent(con) {
        return Err(Fault::BadLine);
    }
    let answer = desk.tree.add_urgent(con);
    tell_done(out, answer)
}

/// `calm 6`: a window is urgent no more.
pub fn calm(desk: &mut Desk, words: &mut Words<'_>) -> Result<(), Fault>
    requires { Holds desk.old }
    ensures { Holds desk.new }
{
    let con = words.con()?;
    desk.tree.remove_urgent(con);
    Ok(())
}

/// `raise 6`: a container or workspace becomes the most recent one.
pub fn raise(desk: &mut Desk, words: &mut Words<'_>) -> Result<(), Fault>
    requires { Holds desk.old }
    ensures { Holds desk.new }
{
    let con = words.con()?;
    desk.tree.raise(con);
    Ok(())
}
