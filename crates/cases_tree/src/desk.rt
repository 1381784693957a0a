//! What the lines of a case act on: a tree, a tree that was kept, and an arrangement that was kept.
ghost use Rattle.std.specs.Prelude.{◌≡◌, true, IfOk};
ghost use Rattle.wm_tree.specs.Outputs.{IsOutput};
ghost use Rattle.wm_tree.specs.Sound.{FitPlans, IsSound};
ghost use Rattle.wm_forest.specs.Look.{in_row};
ghost use Rattle.wm_forest.specs.SoundRow.{IsOutputRect};
ghost use Rattle.cases_tree.specs.Desk.{Holds};

use case_data::{Fault, Words};
use std::alloc::Global;
use std::mem;
use wm_arrange::Arrangement;
use wm_base::{Border, ConId, Edges, NoMemory, OutputPlan, Rect, Text};
use wm_tree::{Cursor, Tree};

/// A tree and one that was kept, whether each change until then was one that is known to keep it sound, and the
/// arrangement that was kept.
#[derive(Drop)]
pub struct Desk {
    pub tree: Tree,
    pub sound: bool,
    pub kept: Option<Tree>,
    pub kept_sound: bool,
    pub held: Option<Arrangement>,
}

impl Desk {
    /// The tree without outputs with which a file begins.
    pub fn empty(alloc: Global) -> Result<Desk, NoMemory>
        ensures { IfOk result Holds }
    {
        Ok(Desk {
            tree: Tree::start(alloc, &[], Border::Bare, 0, 0)?,
            sound: false,
            kept: None,
            kept_sound: false,
            held: None,
        })
    }
}

/// Begins with the opening tree of the border, the inner and the outer gap, and the outputs that the line names. What
/// was kept of trees stays.
pub fn start(desk: &mut Desk, words: &mut Words<'_>) -> Result<(), Fault>
    requires { Holds desk.old }
    ensures { Holds desk.new }
{
    let mut opened = opened(words)?;
    mem::swap(&mut opened.kept, &mut desk.kept);
    opened.kept_sound = desk.kept_sound;
    drop(mem::replace(desk, opened));
    Ok(())
}

fn opened(words: &mut Words<'_>) -> Result<Desk, Fault>
    ensures { IfOk result Holds }
{
    let border = words.border()?;
    let (inner, outer) = (words.number()?, words.number()?);
    let plans = plans(words)?;
    Ok(Desk {
        tree: tree_of(words.alloc, &plans, border, inner, outer)?,
        sound: are_fit(&plans),
        kept: None,
        kept_sound: false,
        held: None,
    })
}

/// The opening tree of one to eight outputs.
fn tree_of(
    alloc: Global,
    plans: &[OutputPlan],
    border: Border,
    inner: u32,
    outer: u32,
) -> Result<Tree, Fault>
    ensures { FitPlans plans.now → IfOk result (λ tree. IsSound tree) }
{
    if plans.is_empty() || plans.len() > 8 {
        return Err(Fault::BadLine);
    }
    Ok(Tree::start(alloc, plans, border, inner, outer)?)
}

/// The outputs that a line names, up to nine.
fn plans(words: &mut Words<'_>) -> Result<Vec<OutputPlan>, Fault> {
    let mut plans = Vec::new(words.alloc);
    for _ in 0..9 {
        if words.is_done() {
            break;
        }
        plans.push(plan(words)?)?;
    }
    Ok(plans)
}

/// An output like `A 0,0 1000x800`, with nothing reserved.
pub fn plan(words: &mut Words<'_>) -> Result<OutputPlan, Fault> {
    let reserved = Edges {
        top: 0,
        right: 0,
        bottom: 0,
        left: 0,
    };
    let name = words.text()?;
    Ok(OutputPlan {
        name,
        rect: words.rect()?,
        reserved,
    })
}

/// Whether the rectangles of the outputs are within the limits.
fn are_fit(plans: &[OutputPlan]) -> bool
    ensures { result ≡ true → FitPlans plans.now }
{
    match plans {
        [] => true,
        [plan, rest @ ..] => is_fit(plan.rect) && are_fit(rest),
    }
}

/// Whether the rectangle of an output is within the limits.
pub fn is_fit(rect: Rect) -> bool
    ensures { result ≡ true → IsOutputRect rect }
{
    -131_072 <= rect.x
        && rect.x <= 131_071
        && -131_072 <= rect.y
        && rect.y <= 131_071
        && rect.w <= 16_384
        && rect.h <= 16_384
}

/// Whether the tree has this output.
pub fn has_output(tree: &Tree, output: ConId) -> bool
    ensures { result ≡ true → IsOutput output tree.now.nodes }
{
    is_in(output, tree.nodes().kids())
}

/// Whether the node is in the row.
fn is_in(con: ConId, mut row: Cursor<'_>) -> bool
    ensures { result ≡ in_row con row.entry }
{
    while let Some(part) = row.part() {
        if part.id == con {
            return true;
        }
        row = row.rest();
    }
    false
}
