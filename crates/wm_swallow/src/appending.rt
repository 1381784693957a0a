//! Appending a saved layout to a workspace.
ghost use Rattle.std.specs.Prelude.{◌≡◌, IfOk, OnOk, OnErr, IfErr, IsTrue, None, true, false};
ghost use Rattle.wm_forest.specs.Look.{has};
ghost use Rattle.wm_forest.specs.RootId.{id};
ghost use Rattle.wm_swallow.specs.Appending.{appended, come, come_marked, given_marks, state_with};
ghost use Rattle.wm_swallow.specs.Limits.{HasFitMarks, IsAppendCause, IsSpaceThere, passed_by_append};
ghost use Rattle.wm_swallow.specs.SavedRows.{newcomer, row_below, rows, titled_only};
ghost use Rattle.wm_swallow.specs.Steps.{IsFree, IsRoomFor, IsRoomIn};
ghost use Rattle.wm_tree.specs.Sound.{IsSound};
ghost use Rattle.wm_tree.specs.Words.{attached};
ghost use Rattle.wm_focus.specs.Marks.{given_mark, mark_refusal};
ghost use Rattle.wm_shared.specs.Subject.{is_container};
ghost use Rattle.wm_forest.specs.declared.place.Place.TheVariants.{Last};
ghost use Rattle.wm_saved.specs.Limits.{is_fit};

use crate::limits::check;
use std::alloc::Global;
use wm_base::{Border, ConId, NoMemory, Props, Refusal, Text, short_text};
use wm_focus::mark;
use wm_saved::{SavedKind, SavedLayout, SavedNode};
use wm_tree::{ConState, NewCon, Place, Tree, TreeRefusal};

/// Puts the saved containers last in a workspace or split, one after the other, and what is below each before the next.
#[cycle(nodes)]
fn attach_all(
    alloc: Global,
    tree: &mut Tree,
    parent: ConId,
    nodes: &[SavedNode],
) -> Result<(), NoMemory>
    requires sound { IsSound tree.old }
    requires free { IsFree parent (rows nodes.now) tree.old }
    ensures tree { OnOk result (tree.new ≡ appended parent (rows nodes.now) tree.old) }
    ensures sound { IsSound tree.new }
{
    let mut rest = nodes;
    while let [node, after @ ..] = rest {
        let con = attach_one(alloc, tree, parent, node)?;
        attach_below(alloc, tree, con, &node.kind)?;
        rest = after;
    }
    Ok(())
}

/// Puts what is below a saved container into the one that came for it.
#[cycle(nodes)]
fn attach_below(
    alloc: Global,
    tree: &mut Tree,
    con: ConId,
    kind: &SavedKind,
) -> Result<(), NoMemory>
    requires sound { IsSound tree.old }
    requires free { IsFree con (row_below kind.now) tree.old }
    ensures tree { OnOk result (tree.new ≡ appended con (row_below kind.now) tree.old) }
    ensures sound { IsSound tree.new }
{
    match kind {
        SavedKind::Split { nodes, .. } => attach_all(alloc, tree, con, nodes.items()),
        SavedKind::Placeholder { .. } => Ok(()),
    }
}

/// Puts a saved container last in a workspace or split, with its border and its marks and with nothing below it yet.
fn attach_one(
    alloc: Global,
    tree: &mut Tree,
    parent: ConId,
    node: &SavedNode,
) -> Result<ConId, NoMemory>
    requires sound { IsSound tree.old }
    requires room { IsRoomIn parent tree.old }
    requires marks { IsRoomFor (id tree.old.next_id) node.now.marks (come parent node.now.border (newcomer node.now.kind) tree.old) }
    ensures id { IfOk result (λ con. con ≡ id tree.old.next_id) }
    ensures tree { OnOk result (tree.new ≡ come_marked parent node.now.border node.now.marks (newcomer node.now.kind) tree.old) }
    ensures sound { IsSound tree.new }
{
    let new = newcomer(alloc, &node.kind)?;
    let con = attach_new(tree, parent, new)?;
    tree.set_state(con, state_with(node.border));
    give_marks(tree, con, node.marks.items())?;
    Ok(con)
}

/// Puts a new container last in a workspace or split in which there is room for it.
fn attach_new(tree: &mut Tree, parent: ConId, new: NewCon) -> Result<ConId, NoMemory>
    requires sound { IsSound tree.old }
    requires room { IsRoomIn parent tree.old }
    ensures id { IfOk result (λ con. con ≡ id tree.old.next_id) }
    ensures tree { OnOk result (tree.new ≡ attached (Last parent) new tree.old) }
    ensures sound { IsSound tree.new }
{
    match tree.attach(Place::Last(parent), new) {
        Ok(con) => Ok(con),
        Err(TreeRefusal::NoMemory) => Err(NoMemory),
        Err(TreeRefusal::Missing(_) | TreeRefusal::Full { .. }) => unreachable!(),
    }
}

/// Gives the marks to the container, each taken off any other. There is room for them.
fn give_marks(tree: &mut Tree, con: ConId, marks: &[Text]) -> Result<(), NoMemory>
    requires sound { IsSound tree.old }
    requires room { IsRoomFor con marks.now tree.old }
    ensures tree { OnOk result (tree.new ≡ given_marks con marks.now tree.old) }
    ensures sound { IsSound tree.new }
{
    let mut rest = marks;
    while let [name, after @ ..] = rest {
        give_mark(tree, con, name)?;
        rest = after;
    }
    Ok(())
}

/// Gives the mark to the container, and takes it off any other.
fn give_mark(tree: &mut Tree, con: ConId, name: &Text) -> Result<(), NoMemory>
    requires sound { IsSound tree.old }
    requires kind { is_container tree.old con ≡ true }
    requires room { mark_refusal con name.now true false tree.old ≡ None }
    ensures tree { OnOk result (tree.new ≡ given_mark con name.now true tree.old) }
    ensures sound { IsSound tree.new }
{
    match mark(tree, con, name, true, false) {
        Ok(()) => Ok(()),
        Err(Refusal::NoMemory) => Err(NoMemory),
        Err(Refusal::NoTarget(_) | Refusal::Full { .. } | Refusal::NameTaken) => unreachable!(),
    }
}

/// The state of a new container with this border.
fn state_with(border: Border) -> ConState
    ensures { result ≡ state_with border }
{
    ConState {
        border,
        sticky: false,
        fullscreen: false,
        flagged: false,
        rect: None,
    }
}

/// What comes for a saved container: a split without children, or a placeholder whose title is its name.
fn newcomer(alloc: Global, kind: &SavedKind) -> Result<NewCon, NoMemory>
    ensures { IfOk result (λ new. new ≡ newcomer kind.now) }
{
    match kind {
        SavedKind::Split { layout, .. } => Ok(NewCon::Split { layout: *layout }),
        SavedKind::Placeholder { .. } => placeholder(alloc, kind.copy(alloc)?),
    }
}

/// The placeholder for a saved one: its title is its name, and it has no other properties.
fn placeholder(alloc: Global, kind: SavedKind) -> Result<NewCon, NoMemory>
    ensures { IfOk result (λ new. new ≡ newcomer kind) }
{
    let (name, swallows) = match kind {
        SavedKind::Placeholder { name, swallows } => (name, swallows),
        SavedKind::Split { layout, .. } => return Ok(NewCon::Split { layout }),
    };
    match titled_only(alloc, name) {
        Ok(props) => Ok(NewCon::Placeholder { props, swallows }),
        Err(error) => {
            drop(swallows);
            Err(error)
        }
    }
}

/// The properties with this title and nothing else.
fn titled_only(alloc: Global, title: Text) -> Result<Props, NoMemory>
    ensures { IfOk result (λ props. props ≡ titled_only title) }
{
    let empty = short_text(alloc, "")?;
    Ok(Props {
        class: empty.clone()?,
        instance: empty.clone()?,
        role: empty.clone()?,
        kind: empty.clone()?,
        machine: empty,
        title,
    })
}

/// Appends the layout's trees to the workspace, last in order. The ids are given depth first, a split's before those of its
/// children. Each container has its saved border and marks; a mark held elsewhere moves. A placeholder's title is its name.
/// Refused where the workspace is not there, and where the whole would pass a limit, the first in the order of the limits:
/// the tree is then as it was. The layout's borders and marks are within their limits.
pub fn append(
    alloc: Global,
    tree: &mut Tree,
    workspace: ConId,
    layout: &SavedLayout,
) -> Result<(), TreeRefusal>
    requires sound { IsSound tree.old }
    requires space { IsSpaceThere workspace tree.old.nodes }
    requires fit { IsTrue (is_fit layout.now) }
    ensures tree { OnOk result (tree.new ≡ appended workspace (rows layout.now.trees) tree.old) }
    ensures fine { OnOk result ((has workspace tree.old.nodes ≡ true) × (passed_by_append workspace (rows layout.now.trees) tree.old ≡ None)) }
    ensures err { OnErr result (tree.new ≡ tree.old) }
    ensures cause { IfErr result (IsAppendCause tree.old workspace (rows layout.now.trees)) }
    ensures sound { IsSound tree.new }
{
    let trees = layout.trees.items();
    check(tree, workspace, trees)?;
    *tree = with_all(alloc, tree, workspace, trees)?;
    Ok(())
}

/// A copy of the tree in which the saved containers stand last in the workspace.
fn with_all(
    alloc: Global,
    tree: &Tree,
    workspace: ConId,
    nodes: &[SavedNode],
) -> Result<Tree, NoMemory>
    requires sound { IsSound tree.now }
    requires free { IsFree workspace (rows nodes.now) tree.now }
    ensures tree { IfOk result (λ new. new ≡ appended workspace (rows nodes.now) tree.now) }
    ensures sound { IfOk result (λ new. IsSound new) }
{
    let mut copy = tree.copy()?;
    attach_all(alloc, &mut copy, workspace, nodes)?;
    Ok(copy)
}
