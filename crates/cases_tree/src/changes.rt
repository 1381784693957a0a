//! The calls that add, move and remove nodes.
ghost use Rattle.cases_tree.specs.Desk.{Holds};
ghost use Rattle.std.specs.Prelude.{◌≡◌, true};
ghost use Rattle.wm_forest.specs.Place.{IsPlace};

use crate::desk::{Desk, has_output, is_fit, plan};
use crate::news::{placeholder, props_words, window};
use crate::telling::{tell_done, tell_id};
use case_data::{Fault, Words};
use wm_base::ConId;
use wm_tree::{NewCon, Place, Tree};

/// Adds what the next word says.
pub fn add(desk: &mut Desk, words: &mut Words<'_>, out: &mut String) -> Result<(), Fault>
    requires { Holds desk.old }
    ensures { Holds desk.new }
{
    match words.word() {
        "window" => add_window(desk, words, out),
        "placeholder" => add_placeholder(desk, words, out),
        "split" => add_split(desk, words, out),
        "output" => add_output(desk, words, out),
        "workspace" => add_workspace(desk, words, out),
        _ => Err(Fault::BadLine),
    }
}

fn add_window(desk: &mut Desk, words: &mut Words<'_>, out: &mut String) -> Result<(), Fault>
    requires { Holds desk.old }
    ensures { Holds desk.new }
{
    let at = place(&desk.tree, words)?;
    attach(desk, at, window(words)?, out)
}

fn add_placeholder(desk: &mut Desk, words: &mut Words<'_>, out: &mut String) -> Result<(), Fault>
    requires { Holds desk.old }
    ensures { Holds desk.new }
{
    let at = place(&desk.tree, words)?;
    attach(desk, at, placeholder(words)?, out)
}

fn add_split(desk: &mut Desk, words: &mut Words<'_>, out: &mut String) -> Result<(), Fault>
    requires { Holds desk.old }
    ensures { Holds desk.new }
{
    let layout = words.layout()?;
    let at = place(&desk.tree, words)?;
    attach(desk, at, NewCon::Split { layout }, out)
}

/// A place like `after 6`, `float 4 10,20 300x400` or `new`, where a new window goes.
fn place(tree: &Tree, words: &mut Words<'_>) -> Result<Place, Fault> {
    match words.word() {
        "float" => float_place(words),
        "scratchpad" => Ok(Place::Scratchpad(words.rect()?)),
        "new" => Ok(tree.newcomer_place()),
        word => tiled_place(word, words.con()?),
    }
}

fn float_place(words: &mut Words<'_>) -> Result<Place, Fault> {
    let con = words.con()?;
    Ok(Place::Float(con, words.rect()?))
}

fn tiled_place(word: &str, con: ConId) -> Result<Place, Fault> {
    match word {
        "after" => Ok(Place::After(con)),
        "before" => Ok(Place::Before(con)),
        "first" => Ok(Place::First(con)),
        "last" => Ok(Place::Last(con)),
        _ => Err(Fault::BadLine),
    }
}

/// Whether the place is one where the tree is known to stay sound.
fn is_known(tree: &Tree, at: Place) -> bool
    ensures { result ≡ true → IsPlace at tree.now.nodes }
{
    match at {
        Place::After(con) | Place::Before(con) => tree.is_tiled(con),
        Place::First(con) | Place::Last(con) | Place::Float(con, _) => tree.space(con).is_some(),
        Place::Scratchpad(_) => true,
    }
}

fn attach(desk: &mut Desk, at: Place, new: NewCon, out: &mut String) -> Result<(), Fault>
    requires { Holds desk.old }
    ensures { Holds desk.new }
{
    desk.sound = desk.sound && is_known(&desk.tree, at);
    let answer = desk.tree.attach(at, new);
    tell_id(out, answer)
}

fn add_output(desk: &mut Desk, words: &mut Words<'_>, out: &mut String) -> Result<(), Fault>
    requires { Holds desk.old }
    ensures { Holds desk.new }
{
    let plan = plan(words)?;
    let name = words.last_text()?;
    desk.sound = desk.sound && is_fit(plan.rect);
    let answer = desk.tree.add_output(&plan, &name);
    tell_id(out, answer)
}

fn add_workspace(desk: &mut Desk, words: &mut Words<'_>, out: &mut String) -> Result<(), Fault>
    requires { Holds desk.old }
    ensures { Holds desk.new }
{
    let output = words.con()?;
    let name = words.last_text()?;
    desk.sound = desk.sound && has_output(&desk.tree, output);
    let answer = desk.tree.add_workspace(output, &name);
    tell_id(out, answer)
}

/// `move 6 last 4`: moves a container to a place outside of it.
pub fn move_con(desk: &mut Desk, words: &mut Words<'_>, out: &mut String) -> Result<(), Fault>
    requires { Holds desk.old }
    ensures { Holds desk.new }
{
    let con = words.con()?;
    let at = place(&desk.tree, words)?;
    if desk.tree.is_within(con, at.named()) {
        return Err(Fault::BadLine);
    }
    desk.sound = false;
    let answer = desk.tree.move_to(con, at);
    tell_done(out, answer)
}

/// `detach 6`: takes a container out.
pub fn detach(desk: &mut Desk, words: &mut Words<'_>, out: &mut String) -> Result<(), Fault>
    requires { Holds desk.old }
    ensures { Holds desk.new }
{
    let con = words.con()?;
    desk.sound = desk.sound && desk.tree.container(con).is_some();
    let answer = desk.tree.detach(con);
    tell_done(out, answer)
}

/// `wrap 6 tabbed`: puts a split around a container.
pub fn wrap(desk: &mut Desk, words: &mut Words<'_>, out: &mut String) -> Result<(), Fault>
    requires { Holds desk.old }
    ensures { Holds desk.new }
{
    let con = words.con()?;
    let layout = words.layout()?;
    desk.sound = desk.sound && desk.tree.is_tiled(con);
    let answer = desk.tree.wrap(con, layout);
    tell_id(out, answer)
}

/// `exchange 6 8`: two containers change places.
pub fn exchange(desk: &mut Desk, words: &mut Words<'_>, out: &mut String) -> Result<(), Fault>
    requires { Holds desk.old }
    ensures { Holds desk.new }
{
    let (con, other) = (words.con()?, words.con()?);
    desk.sound = false;
    let answer = desk.tree.exchange(con, other);
    tell_done(out, answer)
}

/// `move-workspace 5 2`: a workspace goes to an output.
pub fn move_space(desk: &mut Desk, words: &mut Words<'_>, out: &mut String) -> Result<(), Fault>
    requires { Holds desk.old }
    ensures { Holds desk.new }
{
    let (space, output) = (words.con()?, words.con()?);
    desk.sound = false;
    let answer = desk.tree.move_workspace(space, output);
    tell_done(out, answer)
}

/// `remove-output 2`: an output goes.
pub fn remove_output(desk: &mut Desk, words: &mut Words<'_>, out: &mut String) -> Result<(), Fault>
    requires { Holds desk.old }
    ensures { Holds desk.new }
{
    let output = words.con()?;
    desk.sound = desk.sound && has_output(&desk.tree, output);
    let answer = desk.tree.remove_output(output);
    tell_done(out, answer)
}

/// `fill 6 9 30x20 term`: a placeholder becomes a window of caller 9.
pub fn fill(desk: &mut Desk, words: &mut Words<'_>, out: &mut String) -> Result<(), Fault>
    requires { Holds desk.old }
    ensures { Holds desk.new }
{
    let con = words.con()?;
    let owner = words.number()?;
    let natural = words.size()?;
    let props = props_words(words)?;
    let answer = desk.tree.fill(con, &props, owner, natural);
    drop(props);
    tell_done(out, answer)
}
