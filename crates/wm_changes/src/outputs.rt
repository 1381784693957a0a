//! Whether the outputs of two trees differ.
ghost use Rattle.std.specs.Prelude.{◌≡◌, not};
ghost use Rattle.wm_changes.specs.OutputChanges.{are_kept, has_output, is_kept, is_output, outputs_differ, same_edges};
ghost use Rattle.wm_arrange.specs.Same.{same_rect};
ghost use Rattle.wm_forest.specs.Look.{first_kids, output_kind};

use wm_base::{ConId, Edges, Rect};
use wm_tree::{Cursor, NodeKind, OutputPart, Tree};

/// Whether an output is new, gone, or has another rectangle or other reserved edges.
pub fn outputs_differ(before: &Tree, after: &Tree) -> bool
    ensures { result ≡ outputs_differ before.now after.now }
{
    let old = before.nodes();
    let new = after.nodes();
    !(are_kept(old.kids(), &new) && are_kept(new.kids(), &old))
}

/// Whether each output of a row stands among the children of the other one's first node as it is.
fn are_kept(outputs: Cursor<'_>, root: &Cursor<'_>) -> bool
    ensures { result ≡ are_kept outputs.entry (first_kids root.now) }
{
    let mut left = outputs;
    while let Some(part) = left.part() {
        if !is_kept(part.id, &part.kind, root.kids()) {
            return false;
        }
        left = left.rest();
    }
    true
}

/// Whether the node is no output, or the row has it as it is.
fn is_kept(id: ConId, kind: &NodeKind, row: Cursor<'_>) -> bool
    ensures { result ≡ is_kept id (output_kind kind.now) row.entry }
{
    match kind {
        NodeKind::Output(output) => has_output(id, output, row),
        NodeKind::Root { .. } | NodeKind::Space(_) | NodeKind::Con(_) => true,
    }
}

/// Whether the row has this output with the same rectangle and the same reserved edges.
fn has_output(id: ConId, output: &OutputPart, row: Cursor<'_>) -> bool
    ensures { result ≡ has_output id output.now row.entry }
{
    let mut left = row;
    while let Some(part) = left.part() {
        if is_output(id, output, part.id, &part.kind) {
            return true;
        }
        left = left.rest();
    }
    false
}

/// Whether a node is this output with the same rectangle and the same reserved edges.
fn is_output(id: ConId, output: &OutputPart, other: ConId, kind: &NodeKind) -> bool
    ensures { result ≡ is_output id output.now other (output_kind kind.now) }
{
    match kind {
        NodeKind::Output(part) => {
            other == id
                && same_rect(part.rect, output.rect)
                && same_edges(part.reserved, output.reserved)
        }
        NodeKind::Root { .. } | NodeKind::Space(_) | NodeKind::Con(_) => false,
    }
}

fn same_rect(a: Rect, b: Rect) -> bool
    ensures { result ≡ same_rect a b }
{
    a == b
}

fn same_edges(a: Edges, b: Edges) -> bool
    ensures { result ≡ same_edges a b }
{
    a == b
}
