//! The calls that change one part of the tree alone.
ghost use Rattle.cases_tree.specs.Desk.{Holds};

use crate::desk::{Desk, has_output};
use case_data::{Fault, Words};
use wm_base::Text;
use wm_tree::ConState;

/// Sets what the next word says.
pub fn set(desk: &mut Desk, words: &mut Words<'_>) -> Result<(), Fault>
    requires { Holds desk.old }
    ensures { Holds desk.new }
{
    match words.word() {
        "share" => set_share(desk, words),
        "layout" => set_layout(desk, words),
        "state" => set_state(desk, words),
        "title" => set_title(desk, words),
        "format" => set_format(desk, words),
        word => set_space(word, desk, words),
    }
}

/// The same, of workspaces and outputs.
fn set_space(word: &str, desk: &mut Desk, words: &mut Words<'_>) -> Result<(), Fault>
    requires { Holds desk.old }
    ensures { Holds desk.new }
{
    match word {
        "shown" => set_shown(desk, words),
        "name" => set_name(desk, words),
        "gaps" => set_gaps(desk, words),
        "reserved" => set_reserved(desk, words),
        _ => set_tree(word, desk, words),
    }
}

/// The same, of the whole tree.
fn set_tree(word: &str, desk: &mut Desk, words: &mut Words<'_>) -> Result<(), Fault>
    requires { Holds desk.old }
    ensures { Holds desk.new }
{
    match word {
        "current" => set_current(desk, words),
        "defaults" => set_defaults(desk, words),
        "previous" => set_previous(desk, words),
        _ => Err(Fault::BadLine),
    }
}

fn set_share(desk: &mut Desk, words: &mut Words<'_>) -> Result<(), Fault>
    requires { Holds desk.old }
    ensures { Holds desk.new }
{
    let con = words.con()?;
    let share = words.number()?;
    desk.sound = desk.sound && 1 <= share && share <= 1_048_576 && desk.tree.is_tiled(con);
    desk.tree.set_share(con, share);
    Ok(())
}

fn set_current(desk: &mut Desk, words: &mut Words<'_>) -> Result<(), Fault>
    requires { Holds desk.old }
    ensures { Holds desk.new }
{
    let output = words.con()?;
    desk.sound = desk.sound && has_output(&desk.tree, output);
    desk.tree.set_current(output);
    Ok(())
}

fn set_shown(desk: &mut Desk, words: &mut Words<'_>) -> Result<(), Fault>
    requires { Holds desk.old }
    ensures { Holds desk.new }
{
    let space = words.con()?;
    desk.sound = false;
    desk.tree.set_shown(space);
    Ok(())
}

fn set_layout(desk: &mut Desk, words: &mut Words<'_>) -> Result<(), Fault>
    requires { Holds desk.old }
    ensures { Holds desk.new }
{
    let con = words.con()?;
    let layout = words.layout()?;
    desk.tree.set_layout(con, layout);
    Ok(())
}

/// `6 pixel 2 sticky fullscreen flagged rect 10,20 30x40`, each of the last four where it holds.
fn set_state(desk: &mut Desk, words: &mut Words<'_>) -> Result<(), Fault>
    requires { Holds desk.old }
    ensures { Holds desk.new }
{
    let con = words.con()?;
    let state = state(words)?;
    desk.tree.set_state(con, state);
    Ok(())
}

fn state(words: &mut Words<'_>) -> Result<ConState, Fault> {
    let mut state = ConState {
        border: words.border()?,
        sticky: false,
        fullscreen: false,
        flagged: false,
        rect: None,
    };
    for _ in 0..4 {
        take_part(&mut state, words)?;
    }
    Ok(state)
}

/// Sets what the next word says, and nothing where none is left.
fn take_part(state: &mut ConState, words: &mut Words<'_>) -> Result<(), Fault> {
    match words.word() {
        "" => {}
        "sticky" => state.sticky = true,
        "fullscreen" => state.fullscreen = true,
        "flagged" => state.flagged = true,
        "rect" => state.rect = Some(words.rect()?),
        _ => return Err(Fault::BadLine),
    }
    Ok(())
}

fn set_title(desk: &mut Desk, words: &mut Words<'_>) -> Result<(), Fault>
    requires { Holds desk.old }
    ensures { Holds desk.new }
{
    let con = words.con()?;
    let title = words.last_text()?;
    desk.tree.set_title(con, title);
    Ok(())
}

fn set_format(desk: &mut Desk, words: &mut Words<'_>) -> Result<(), Fault>
    requires { Holds desk.old }
    ensures { Holds desk.new }
{
    let con = words.con()?;
    let format = words.last_text()?;
    desk.tree.set_title_format(con, format);
    Ok(())
}

fn set_name(desk: &mut Desk, words: &mut Words<'_>) -> Result<(), Fault>
    requires { Holds desk.old }
    ensures { Holds desk.new }
{
    let space = words.con()?;
    let name = words.last_text()?;
    desk.tree.set_name(space, name);
    Ok(())
}

fn set_gaps(desk: &mut Desk, words: &mut Words<'_>) -> Result<(), Fault>
    requires { Holds desk.old }
    ensures { Holds desk.new }
{
    let space = words.con()?;
    let (inner, outer) = (words.number()?, words.number()?);
    desk.tree.set_gaps(space, inner, outer);
    Ok(())
}

fn set_defaults(desk: &mut Desk, words: &mut Words<'_>) -> Result<(), Fault>
    requires { Holds desk.old }
    ensures { Holds desk.new }
{
    let border = words.border()?;
    let (inner, outer) = (words.number()?, words.number()?);
    desk.tree.set_defaults(border, inner, outer);
    Ok(())
}

fn set_reserved(desk: &mut Desk, words: &mut Words<'_>) -> Result<(), Fault>
    requires { Holds desk.old }
    ensures { Holds desk.new }
{
    let output = words.con()?;
    let edges = words.edges()?;
    desk.tree.set_reserved(output, edges);
    Ok(())
}

/// The name of the previous workspace, or that there is none where no word is left.
fn set_previous(desk: &mut Desk, words: &mut Words<'_>) -> Result<(), Fault>
    requires { Holds desk.old }
    ensures { Holds desk.new }
{
    let name = previous(words)?;
    desk.tree.set_previous(name);
    Ok(())
}

fn previous(words: &mut Words<'_>) -> Result<Option<Text>, Fault> {
    if words.is_done() {
        return Ok(None);
    }
    Ok(Some(words.last_text()?))
}
