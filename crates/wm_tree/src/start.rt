//! The opening tree of a plan's outputs.
ghost use Rattle.std.specs.Prelude.{◌≡◌, ◌≤◌, ◌<◌, ◌+◌, ◌*◌, ◌∷◌, [], IfOk, OnOk, length, vec_len};
ghost use Rattle.wm_forest.specs.Forest.{end, con};
ghost use Rattle.wm_tree.specs.Sound.{FitPlans, IsSound};
ghost use Rattle.wm_forest.specs.Row.{row_of};
ghost use Rattle.wm_tree.specs.TreeValue.{digit, ids_from, opened, opening, opening_nodes, opening_outputs, output_part, space_part};
ghost use Rattle.wm_forest.specs.RootId.{id};

use crate::tree::Tree;
use std::alloc::{AllocError, Global};
use wm_base::{Border, ConId, Layout, List, NoMemory, OutputPlan, Text, short_text};
use wm_forest::{Cell, NodeKind, OutputPart, Part, ROOT, Row, SpacePart};

impl Tree {
    /// The opening tree of these outputs: root 1, then an id for each output, then one for each workspace. Output k
    /// shows an empty workspace named by the number k, and the first output is current. Containers and workspaces
    /// get this border and these gaps.
    pub fn start(
        alloc: Global,
        outputs: &[OutputPlan],
        border: Border,
        inner: u32,
        outer: u32,
    ) -> Result<Tree, NoMemory>
        requires { length outputs.now ≤ 8 }
        ensures tree { IfOk result (λ tree. tree ≡ opening outputs.now border inner outer) }
        ensures sound { 1 ≤ length outputs.now → FitPlans outputs.now → IfOk result (λ tree. IsSound tree) }
    {
        let count = outputs.len() as u32;
        let mut tree = Tree::bare(alloc, 2 + 2 * count, border, inner, outer)?;
        tree.open(outputs)?;
        Ok(tree)
    }

    /// Gives this tree the outputs of these plans.
    fn open(&mut self, outputs: &[OutputPlan]) -> Result<(), NoMemory>
        requires { length outputs.now ≤ 8 }
        ensures { OnOk result (self.new ≡ opened outputs.now self.old) }
    {
        let count = outputs.len() as u32;
        self.recency = ids_from(self.alloc, 2 + count, outputs)?;
        self.nodes = opening_nodes(self.alloc, self.inner, self.outer, outputs)?;
        Ok(())
    }
}

/// The root over the outputs of these plans.
fn opening_nodes(
    alloc: Global,
    inner: u32,
    outer: u32,
    plans: &[OutputPlan],
) -> Result<Row, NoMemory>
    requires { length plans.now ≤ 8 }
    ensures { IfOk result (λ row. row ≡ opening_nodes inner outer plans.now) }
{
    let count = plans.len() as u32;
    let kids = opening_outputs(alloc, 1, 1 + count, inner, outer, plans)?;
    let root = Part {
        id: ROOT,
        kind: NodeKind::Root { current: ConId(2) },
        marks: List::of(Vec::new(alloc)),
    };
    Ok(row_over(alloc, root, kids)?)
}

/// A row of one node over these children.
fn row_over(alloc: Global, part: Part, kids: Row) -> Result<Row, AllocError>
    ensures { IfOk result (λ row. row ≡ con part kids end end) }
{
    let cell = Cell {
        part,
        kids,
        floats: Row::new(),
        rest: Row::new(),
    };
    let cell = Box::new(alloc, cell)?;
    Ok(Row { first: Some(cell) })
}

/// Outputs of these plans, numbered from k: output k has the id k + 1, and its workspace the id `last` + k.
fn opening_outputs(
    alloc: Global,
    k: u32,
    last: u32,
    inner: u32,
    outer: u32,
    plans: &[OutputPlan],
) -> Result<Row, NoMemory>
    requires few { k + length plans.now ≤ 9 }
    requires low { last ≤ 9 }
    requires some { 1 ≤ k }
    ensures { IfOk result (λ row. row ≡ opening_outputs k last inner outer plans.now) }
{
    let [plan, rest @ ..] = plans else {
        return Ok(Row::new());
    };
    let shown = ConId(last + k);
    let output = output_part(alloc, ConId(k + 1), plan, shown)?;
    let mut cell = opening_output(alloc, output, shown, k, inner, outer)?;
    cell.rest = opening_outputs(alloc, k + 1, last, inner, outer, rest)?;
    Ok(Row { first: Some(cell) })
}

/// An output with one empty workspace, which is named by the number k.
fn opening_output(
    alloc: Global,
    output: Part,
    shown: ConId,
    k: u32,
    inner: u32,
    outer: u32,
) -> Result<Box<Cell>, NoMemory>
    requires few { k ≤ 8 }
    requires some { 1 ≤ k }
    ensures { IfOk result (λ cell. row_of cell.value ≡ con output (con (space_part shown (digit k) inner outer) end end end) end end) }
{
    let mut cell = Cell::of(alloc, output)?;
    cell.kids = opening_space(alloc, shown, k, inner, outer)?;
    Ok(cell)
}

/// A row of one empty workspace named by the number k.
fn opening_space(alloc: Global, id: ConId, k: u32, inner: u32, outer: u32) -> Result<Row, NoMemory>
    requires few { k ≤ 8 }
    requires some { 1 ≤ k }
    ensures { IfOk result (λ row. row ≡ con (space_part id (digit k) inner outer) end end end) }
{
    Ok(Row::of(alloc, space_part(alloc, id, k, inner, outer)?)?)
}

/// An output of this plan.
pub(crate) fn output_part(
    alloc: Global,
    id: ConId,
    plan: &OutputPlan,
    shown: ConId,
) -> Result<Part, AllocError>
    ensures { IfOk result (λ part. part ≡ output_part id plan.now shown) }
{
    let output = OutputPart {
        name: plan.name.clone()?,
        rect: plan.rect,
        reserved: plan.reserved,
        shown,
    };
    Ok(Part {
        id,
        kind: NodeKind::Output(output),
        marks: List::of(Vec::new(alloc)),
    })
}

/// An empty workspace named by the number k.
fn space_part(alloc: Global, id: ConId, k: u32, inner: u32, outer: u32) -> Result<Part, NoMemory>
    requires few { k ≤ 8 }
    requires some { 1 ≤ k }
    ensures { IfOk result (λ part. part ≡ space_part id (digit k) inner outer) }
{
    let name = short_text(alloc, digit(k))?;
    Ok(named_space(alloc, id, name, inner, outer))
}

/// An empty workspace of this name.
pub(crate) fn named_space(alloc: Global, id: ConId, name: Text, inner: u32, outer: u32) -> Part
    ensures { result ≡ space_part id name inner outer }
{
    let space = SpacePart {
        name,
        layout: Layout::SplitH,
        last_split: Layout::SplitH,
        inner,
        outer,
    };
    Part {
        id,
        kind: NodeKind::Space(space),
        marks: List::of(Vec::new(alloc)),
    }
}

/// The digit of a number from 1 to 8.
fn digit(k: u32) -> &'static str
    requires few { k ≤ 8 }
    requires some { 1 ≤ k }
    ensures { result.now ≡ digit k }
{
    match k {
        1 => "1",
        2 => "2",
        3 => "3",
        4 => "4",
        5 => "5",
        6 => "6",
        7 => "7",
        _ => "8",
    }
}

/// As many ids as there are plans, from n on.
fn ids_from(alloc: Global, n: u32, plans: &[OutputPlan]) -> Result<Vec<ConId>, AllocError>
    requires few { length plans.now ≤ 8 }
    requires low { n ≤ 10 }
    ensures { IfOk result (λ ids. ids.items ≡ ids_from n plans.now) }
{
    let mut ids = Vec::with_capacity(alloc, plans.len())?;
    let mut next = n;
    let mut rest = plans;
    while let [_, after @ ..] = rest {
        ids.push(ConId(next))?;
        next += 1;
        rest = after;
    }
    Ok(ids)
}
