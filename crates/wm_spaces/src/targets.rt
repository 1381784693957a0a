//! The workspace that a command names, and the output on which a new one is made.
ghost use Rattle.std.specs.Prelude.{◌≡◌, ℕ, List, IfOk};
ghost use Rattle.std.specs.Option.{option_copied};
ghost use Rattle.wm_spaces.specs.Targets.{IsGoal, before, best_at, by_name, by_number, focused_key, goal_named, goal_of, home, home_name, neighbour, numbered, past};
ghost use Rattle.wm_language.specs.declared.arguments.Target.TheVariants as targets;
ghost use Rattle.wm_forest.specs.Look.{node_in};
ghost use Rattle.wm_tree.specs.Outputs.{IsOutput};
ghost use Rattle.wm_tree.specs.Sound.{IsSound};

use crate::names::{is_reserved, output_named, space_named};
use crate::order::{Pick, best_in, best_on, num, space_key};
use wm_base::{ConId, ErrorText, NoMemory, Text};
use wm_language::Target;
use wm_shared::Key;
use wm_tree::{Cursor, Tree};

/// A workspace that is there, the name of one that is not, or why there is none.
#[derive(Debug, Drop)]
pub enum Goal {
    There(ConId),
    Absent(Text),
    Refused(ErrorText),
}

/// The output's name that the first home of this name has.
fn home_name<'a>(homes: &'a [(Text, Text)], name: &str) -> Option<&'a Text>
    ensures { option_copied result ≡ home_name name.now homes.now }
{
    let mut rest = homes;
    while let [first, after @ ..] = rest {
        if first.0.as_str() == name {
            return Some(&first.1);
        }
        rest = after;
    }
    None
}

/// The output that the homes give a name, if it is there, else the current one.
pub(crate) fn home(t: &Tree, name: &str, homes: &[(Text, Text)]) -> ConId
    ensures value { result ≡ home name.now homes.now t.now }
    ensures listed { IsSound t.now → IsOutput result t.now.nodes }
{
    home_of(t, name, homes)
}

fn home_of(t: &Tree, name: &str, homes: &[(Text, Text)]) -> ConId
    ensures { result ≡ home name.now homes.now t.now }
{
    match home_name(homes, name) {
        Some(output) => output_named(t, output.as_str()).unwrap_or(t.current()),
        None => t.current(),
    }
}

/// The workspace of a name that is not reserved.
fn goal_named(t: &Tree, name: &Text) -> Result<Goal, NoMemory>
    ensures { IfOk result (λ goal. goal ≡ goal_named name.now t.now) }
{
    if is_reserved(name.as_str()) {
        return Ok(Goal::Refused(ErrorText::NameReserved));
    }
    match space_named(t, name.as_str()) {
        Some(w) => Ok(Goal::There(w)),
        None => Ok(Goal::Absent(name.clone()?)),
    }
}

/// The place of the focused workspace in the order.
fn focused_key(t: &Tree) -> Key
    ensures { result ≡ focused_key t.now }
{
    let id = t.shown();
    match t.space(id) {
        Some(space) => space_key(id, space.name.as_str()),
        None => Key { first: 0, id },
    }
}

/// The row from this node on.
pub(crate) fn node_at(row: Cursor<'_>, id: ConId) -> Cursor<'_>
    ensures { result ≡ node_in id row.entry }
{
    let mut row = row;
    while let Some(part) = row.part() {
        if part.id == id {
            return row;
        }
        row = row.rest();
    }
    row
}

/// The last or first of the current output's workspaces (`here`), or of all.
fn best_at(t: &Tree, here: bool, back: bool, pick: Pick) -> Option<Key>
    ensures { result ≡ best_at here back pick t.now }
{
    let outputs = t.nodes().kids();
    if here {
        best_in(node_at(outputs, t.current()).kids(), pick, back)
    } else {
        best_on(outputs, pick, back)
    }
}

/// Those on the other side of a workspace, going back or on.
fn past(back: bool, key: Key) -> Pick
    ensures { result ≡ past back key }
{
    if back {
        Pick::Ahead(key)
    } else {
        Pick::Behind(key)
    }
}

/// The neighbour of the focused workspace in the order, from the end to the other end.
fn neighbour(t: &Tree, here: bool, back: bool) -> ConId
    ensures { result ≡ neighbour here back t.now }
{
    let beside = past(back, focused_key(t));
    match best_at(t, here, back, beside) {
        Some(key) => key.id,
        None => match best_at(t, here, back, Pick::All) {
            Some(key) => key.id,
            None => t.shown(),
        },
    }
}

/// The first workspace of the number with which the text begins, else the one that has the text as its name.
fn numbered(t: &Tree, name: &Text) -> Result<Goal, NoMemory>
    ensures { IfOk result (λ goal. goal ≡ goal_of (targets.Number name.now) t.now) }
{
    let Some(number) = num(name.as_str()) else {
        return goal_named(t, name);
    };
    match best_on(t.nodes().kids(), Pick::Numbered(number), false) {
        Some(key) => Ok(Goal::There(key.id)),
        None => goal_named(t, name),
    }
}

/// The workspace that was focused before.
fn before(t: &Tree) -> Result<Goal, NoMemory>
    ensures { IfOk result (λ goal. goal ≡ before t.now.previous t.now) }
{
    match t.previous() {
        Some(name) => goal_named(t, name),
        None => Ok(Goal::Refused(ErrorText::NoPrevious)),
    }
}

/// The workspace that a command names.
pub(crate) fn find_goal(t: &Tree, target: &Target) -> Result<Goal, NoMemory>
    ensures value { IfOk result (λ goal. goal ≡ goal_of target.now t.now) }
    ensures there { IsSound t.now → IfOk result (λ goal. IsGoal goal t.now) }
{
    goal_for(t, target)
}

fn goal_for(t: &Tree, target: &Target) -> Result<Goal, NoMemory>
    ensures { IfOk result (λ goal. goal ≡ goal_of target.now t.now) }
{
    match target {
        Target::Next => Ok(Goal::There(neighbour(t, false, false))),
        Target::Prev => Ok(Goal::There(neighbour(t, false, true))),
        Target::NextOnOutput => Ok(Goal::There(neighbour(t, true, false))),
        Target::PrevOnOutput => Ok(Goal::There(neighbour(t, true, true))),
        Target::BackAndForth => before(t),
        Target::Number(name) => numbered(t, name),
        Target::Named(name) => goal_named(t, name),
        Target::Current => Ok(Goal::There(t.shown())),
    }
}
