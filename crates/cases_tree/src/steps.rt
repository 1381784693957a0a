//! The lines that do what a command does to the tree, which leaves it sound.
ghost use Rattle.cases_tree.specs.Desk.{Holds};

use crate::desk::{Desk, has_output};
use crate::placed::UNKNOWN;
use case_data::{Fault, Words};
use wm_base::Refusal;
use wm_shared::is_space;

/// `focus 6`: a container or workspace is focused.
pub fn focus(desk: &mut Desk, words: &mut Words<'_>, out: &mut String) -> Result<(), Fault>
    requires { Holds desk.old }
    ensures { Holds desk.new }
{
    let con = words.con()?;
    if desk.sound {
        Ok(wm_shared::focus(&mut desk.tree, con)?)
    } else {
        Ok(writeln!(out, "{UNKNOWN}")?)
    }
}

/// `send 6 5`: a container goes to a workspace.
pub fn send(desk: &mut Desk, words: &mut Words<'_>, out: &mut String) -> Result<(), Fault>
    requires { Holds desk.old }
    ensures { Holds desk.new }
{
    let (con, space) = (words.con()?, words.con()?);
    if desk.sound && desk.tree.container(con).is_some() && is_space(&desk.tree, space) {
        let answer = wm_spaces::send(&mut desk.tree, con, space);
        tell_step(out, answer)
    } else {
        Ok(writeln!(out, "{UNKNOWN}")?)
    }
}

/// `bring 5 3`: a workspace goes to an output, which shows it.
pub fn bring(desk: &mut Desk, words: &mut Words<'_>, out: &mut String) -> Result<(), Fault>
    requires { Holds desk.old }
    ensures { Holds desk.new }
{
    let (space, output) = (words.con()?, words.con()?);
    if desk.sound && is_space(&desk.tree, space) && has_output(&desk.tree, output) {
        let answer = wm_spaces::move_workspace(words.alloc, &mut desk.tree, space, output);
        tell_step(out, answer)
    } else {
        Ok(writeln!(out, "{UNKNOWN}")?)
    }
}

/// The line of a command.
fn tell_step(out: &mut String, answer: Result<(), Refusal>) -> Result<(), Fault> {
    match answer {
        Ok(()) => Ok(writeln!(out, "done")?),
        Err(Refusal::NoMemory) => Err(Fault::NoMemory),
        Err(Refusal::Full { limit }) => Ok(writeln!(out, "full {}", limit.word())?),
        Err(Refusal::NoTarget(_) | Refusal::NameTaken) => Ok(writeln!(out, "refused")?),
    }
}
