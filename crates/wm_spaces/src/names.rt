//! Outputs and workspaces by their names.
ghost use Rattle.std.specs.Prelude.{◌≡◌};
ghost use Rattle.wm_spaces.specs.Names.{is_reserved, other_has, other_in_row, other_on, output_called, output_in_row, output_named, space_called, space_in_row, space_named, space_on};
ghost use Rattle.wm_forest.specs.Look.{output_kind, space_kind};

use wm_base::ConId;
use wm_tree::{Cursor, NodeKind, Tree};

fn is_output_called(kind: &NodeKind, name: &str) -> bool
    ensures { result ≡ output_called name.now (output_kind kind.now) }
{
    match kind {
        NodeKind::Output(output) => output.name.as_str() == name,
        NodeKind::Root { .. } | NodeKind::Space(_) | NodeKind::Con(_) => false,
    }
}

/// The first output of a row that has the name.
fn output_in_row(row: Cursor<'_>, name: &str) -> Option<ConId>
    ensures { result ≡ output_in_row name.now row.entry }
{
    let mut row = row;
    while let Some(part) = row.part() {
        if is_output_called(&part.kind, name) {
            return Some(part.id);
        }
        row = row.rest();
    }
    None
}

/// The output of this name.
pub(crate) fn output_named(t: &Tree, name: &str) -> Option<ConId>
    ensures { result ≡ output_named name.now t.now }
{
    output_in_row(t.nodes().kids(), name)
}

fn is_space_called(kind: &NodeKind, name: &str) -> bool
    ensures { result ≡ space_called name.now (space_kind kind.now) }
{
    match kind {
        NodeKind::Space(space) => space.name.as_str() == name,
        NodeKind::Root { .. } | NodeKind::Output(_) | NodeKind::Con(_) => false,
    }
}

/// The first workspace of a row that has the name.
fn space_in_row(row: Cursor<'_>, name: &str) -> Option<ConId>
    ensures { result ≡ space_in_row name.now row.entry }
{
    let mut row = row;
    while let Some(part) = row.part() {
        if is_space_called(&part.kind, name) {
            return Some(part.id);
        }
        row = row.rest();
    }
    None
}

/// The first workspace on a row of outputs that has the name.
fn space_on(row: Cursor<'_>, name: &str) -> Option<ConId>
    ensures { result ≡ space_on name.now row.entry }
{
    let mut row = row;
    'outputs: while row.part().is_some() {
        if let Some(found) = space_in_row(row.kids(), name) {
            return Some(found);
        }
        row = row.rest();
    }
    None
}

/// The workspace of this name.
pub(crate) fn space_named(t: &Tree, name: &str) -> Option<ConId>
    ensures { result ≡ space_named name.now t.now }
{
    space_on(t.nodes().kids(), name)
}

/// Whether a workspace of the row other than this one has the name.
fn other_in_row(row: Cursor<'_>, w: ConId, name: &str) -> bool
    ensures { result ≡ other_in_row w name.now row.entry }
{
    let mut row = row;
    while let Some(part) = row.part() {
        if part.id != w && is_space_called(&part.kind, name) {
            return true;
        }
        row = row.rest();
    }
    false
}

/// Whether a workspace on the row of outputs other than this one has the name.
fn other_on(row: Cursor<'_>, w: ConId, name: &str) -> bool
    ensures { result ≡ other_on w name.now row.entry }
{
    let mut row = row;
    'outputs: while row.part().is_some() {
        if other_in_row(row.kids(), w, name) {
            return true;
        }
        row = row.rest();
    }
    false
}

/// Whether another workspace has the name.
pub(crate) fn other_has(t: &Tree, w: ConId, name: &str) -> bool
    ensures { result ≡ other_has w name.now t.now }
{
    other_on(t.nodes().kids(), w, name)
}

/// Whether the name is kept for the scratchpad's workspace: it begins with `__`.
pub(crate) fn is_reserved(name: &str) -> bool
    ensures { result ≡ is_reserved name.now }
{
    match name.as_bytes() {
        [first, second, ..] => *first == b'_' && *second == b'_',
        _ => false,
    }
}
