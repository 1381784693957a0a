//! 100,000 calls of one kind on a tree of 400 or of 4,000 containers nested 10 deep.
use crate::fault::Fault;
use crate::texts::{props, text};
use std::alloc::Global;
use wm_base::{Border, ConId, Edges, Layout, OutputPlan, Rect, Size};
use wm_tree::{NewCon, Place, Tree};

/// How many calls are made.
const CALLS: u32 = 100_000;

/// The first id of a container.
const FIRST: u32 = 4;

/// What is called.
#[derive(Clone, Copy)]
enum Call {
    Look,
    Raise,
    Move,
}

/// Makes the calls on a tree of so many containers.
pub fn bench(alloc: Global, count: &str, call: &str) -> Result<(), Fault> {
    let chains = match count {
        "400" => 4,
        "4000" => 40,
        _ => return Err(Fault::BadWords),
    };
    let call = named(call)?;
    let mut tree = opened(alloc)?;
    let done = run(alloc, &mut tree, chains, call);
    drop(tree);
    done
}

fn named(word: &str) -> Result<Call, Fault> {
    match word {
        "look" => Ok(Call::Look),
        "raise" => Ok(Call::Raise),
        "move" => Ok(Call::Move),
        _ => Err(Fault::BadWords),
    }
}

/// Builds the tree's chains, and makes the calls.
fn run(alloc: Global, tree: &mut Tree, chains: u8, call: Call) -> Result<(), Fault> {
    for _ in 0..chains {
        add_chain(alloc, tree)?;
    }
    let containers = u32::from(chains).max(1) * 100;
    for number in 0..CALLS {
        let con = ConId(FIRST + (number % 1000) * 37 % containers);
        make(tree, call, con)?;
    }
    Ok(())
}

fn make(tree: &mut Tree, call: Call, con: ConId) -> Result<(), Fault> {
    match call {
        Call::Look => {
            let _part = tree.container(con);
            let _parent = tree.parent(con);
            let _space = tree.workspace_of(con);
        }
        Call::Raise => tree.raise(con),
        Call::Move => {
            if let Some(parent) = tree.parent(con)
                && !tree.is_within(con, parent)
            {
                tree.move_to(con, Place::Last(parent))?;
            }
        }
    }
    Ok(())
}

/// A tree of one output.
fn opened(alloc: Global) -> Result<Tree, Fault> {
    let plans = [plan(alloc)?];
    match Tree::start(alloc, &plans, Border::Bare, 0, 0) {
        Ok(tree) => Ok(tree),
        Err(_) => Err(Fault::Refused),
    }
}

/// Adds a chain of nine splits, one in another, with 91 windows in the last.
fn add_chain(alloc: Global, tree: &mut Tree) -> Result<(), Fault> {
    let mut under = ConId(3);
    for _ in 0..9 {
        let layout = Layout::SplitV;
        under = tree.attach(Place::Last(under), NewCon::Split { layout })?;
    }
    for _ in 0..91 {
        add_window(alloc, tree, under)?;
    }
    Ok(())
}

fn add_window(alloc: Global, tree: &mut Tree, under: ConId) -> Result<(), Fault> {
    let window = window(alloc)?;
    let _id = tree.attach(Place::Last(under), window)?;
    Ok(())
}

fn plan(alloc: Global) -> Result<OutputPlan, Fault> {
    Ok(OutputPlan {
        name: text(alloc)?,
        rect: Rect {
            x: 0,
            y: 0,
            w: 1000,
            h: 800,
        },
        reserved: Edges {
            top: 0,
            right: 0,
            bottom: 0,
            left: 0,
        },
    })
}

fn window(alloc: Global) -> Result<NewCon, Fault> {
    let natural = Size { w: 30, h: 20 };
    Ok(NewCon::Window {
        props: props(alloc)?,
        owner: 0,
        natural,
    })
}
