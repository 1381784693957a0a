//! The small desktop that criteria are tried on.
ghost use Rattle.std.specs.Prelude.{IfOk};
ghost use Rattle.wm_forest.specs.Place.{IsPlace};
ghost use Rattle.wm_tree.specs.Sound.{IsSound};

use case_data::Fault;
use std::alloc::Global;
use wm_base::{Border, ConId, Edges, Layout, OutputPlan, Props, Rect, Size, Text};
use wm_tree::{NewCon, Place, Tree, TreeRefusal};

const SCREEN: Rect = Rect {
    x: 0,
    y: 0,
    w: 1000,
    h: 800,
};

/// No widths along any side.
pub const NO_EDGES: Edges = Edges {
    top: 0,
    right: 0,
    bottom: 0,
    left: 0,
};

/// The one workspace.
const SPACE: ConId = ConId(3);

/// Workspace 3 with the windows 4 and 5, the split 6 that holds 5, the floating window 7, and 8 in the scratchpad.
/// Window 4 is the focused one; 7, 5 and 8 are urgent, in this order.
pub fn desk(alloc: Global) -> Result<Tree, Fault>
    ensures { IfOk result IsSound }
{
    let mut tree = one_space(alloc)?;
    match furnish(alloc, &mut tree) {
        Ok(()) => Ok(tree),
        Err(fault) => {
            drop(tree);
            Err(fault)
        }
    }
}

fn furnish(alloc: Global, tree: &mut Tree) -> Result<(), Fault>
    requires { IsSound tree.old }
    ensures { IsSound tree.new }
{
    open_windows(alloc, tree)?;
    mark_some(alloc, tree)?;
    make_urgent(tree, ConId(7))?;
    make_urgent(tree, ConId(5))?;
    make_urgent(tree, ConId(8))?;
    tree.raise(ConId(4));
    Ok(())
}

fn make_urgent(tree: &mut Tree, con: ConId) -> Result<(), Fault>
    requires { IsSound tree.old }
    ensures { IsSound tree.new }
{
    if tree.is_urgent(con) {
        return Err(Fault::BadLine);
    }
    done(tree.add_urgent(con).err())
}

fn one_space(alloc: Global) -> Result<Tree, Fault>
    ensures { IfOk result IsSound }
{
    let plans = [OutputPlan {
        name: Text::new(alloc, "A")?,
        rect: SCREEN,
        reserved: NO_EDGES,
    }];
    Ok(Tree::start(alloc, &plans, Border::Bare, 0, 0)?)
}

/// The desktop is made only where no change is refused.
fn done(refusal: Option<TreeRefusal>) -> Result<(), Fault> {
    match refusal {
        None => Ok(()),
        Some(TreeRefusal::NoMemory) => Err(Fault::NoMemory),
        Some(_) => Err(Fault::BadLine),
    }
}

fn open_windows(alloc: Global, tree: &mut Tree) -> Result<(), Fault>
    requires { IsSound tree.old }
    ensures { IsSound tree.new }
{
    open_tiled(alloc, tree, "term")?;
    open_tiled(alloc, tree, "web")?;
    wrap(tree, ConId(5))?;
    open_floating(alloc, tree)?;
    open(alloc, tree, Place::Scratchpad(SCREEN), "web", "dialog")
}

/// Opens a window last in the workspace.
#[tactic(auto, using(crate::proofs::PlaceLemmas::space_takes))]
fn open_tiled(alloc: Global, tree: &mut Tree, class: &str) -> Result<(), Fault>
    requires { IsSound tree.old }
    ensures { IsSound tree.new }
{
    if tree.space(SPACE).is_none() {
        return Err(Fault::BadLine);
    }
    open(alloc, tree, Place::Last(SPACE), class, "normal")
}

/// Opens a floating window in the workspace.
fn open_floating(alloc: Global, tree: &mut Tree) -> Result<(), Fault>
    requires { IsSound tree.old }
    ensures { IsSound tree.new }
{
    if tree.space(SPACE).is_none() {
        return Err(Fault::BadLine);
    }
    open(alloc, tree, Place::Float(SPACE, SCREEN), "term", "dialog")
}

/// Puts a split around the window.
#[tactic(auto, using(crate::proofs::PlaceLemmas::tiled_is))]
fn wrap(tree: &mut Tree, con: ConId) -> Result<(), Fault>
    requires { IsSound tree.old }
    ensures { IsSound tree.new }
{
    if !tree.is_tiled(con) {
        return Err(Fault::BadLine);
    }
    done(tree.wrap(con, Layout::Tabbed).err())
}

/// Opens a window at a place.
fn open(alloc: Global, tree: &mut Tree, place: Place, class: &str, kind: &str) -> Result<(), Fault>
    requires place { IsPlace place tree.old.nodes }
    requires sound { IsSound tree.old }
    ensures { IsSound tree.new }
{
    let new = NewCon::Window {
        props: props(alloc, class, kind)?,
        owner: 9,
        natural: Size { w: 30, h: 20 },
    };
    done(tree.attach(place, new).err())
}

/// The properties of a window: each but class and kind is the class with an ending of its own.
fn props(alloc: Global, class: &str, kind: &str) -> Result<Props, Fault> {
    let (instance, role) = ended_pair(alloc, class, "-i", "-r")?;
    let (machine, title) = ended_pair(alloc, class, "-m", "-t")?;
    let (class, kind) = pair(alloc, class, kind)?;
    Ok(Props {
        class,
        instance,
        role,
        kind,
        machine,
        title,
    })
}

fn pair(alloc: Global, first: &str, second: &str) -> Result<(Text, Text), Fault> {
    let first = Text::new(alloc, first)?;
    Ok((first, Text::new(alloc, second)?))
}

fn ended_pair(
    alloc: Global,
    class: &str,
    first: &str,
    second: &str,
) -> Result<(Text, Text), Fault> {
    let first = ended(alloc, class, first)?;
    Ok((first, ended(alloc, class, second)?))
}

fn ended(alloc: Global, class: &str, end: &str) -> Result<Text, Fault> {
    let whole = format!(in alloc; "{class}{end}")?;
    Ok(Text::new(alloc, whole.as_str())?)
}

fn mark_some(alloc: Global, tree: &mut Tree) -> Result<(), Fault>
    requires { IsSound tree.old }
    ensures { IsSound tree.new }
{
    mark(alloc, tree, ConId(6), "__focused__")?;
    mark(alloc, tree, ConId(4), "a")?;
    mark(alloc, tree, ConId(4), "b")
}

/// Gives the container a mark that nothing has.
fn mark(alloc: Global, tree: &mut Tree, con: ConId, name: &str) -> Result<(), Fault>
    requires { IsSound tree.old }
    ensures { IsSound tree.new }
{
    let name = Text::new(alloc, name)?;
    if tree.bearer(None, &name).is_some() || tree.container(con).is_none() {
        return Err(Fault::BadLine);
    }
    done(tree.add_mark(con, &name).err())
}
