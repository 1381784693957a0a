//! The workspaces of a tree, each as it stands there, by rising id.
ghost use Rattle.std.specs.Prelude.{◌≡◌, IfOk, OnOk, [], ◌++◌};
ghost use Rattle.wm_changes.specs.Facts.{SpaceFact, put_spaces, space_here, spaces, spaces_in, spaces_of, spaces_on};
ghost use Rattle.wm_forest.specs.Look.{first_floats, first_kids, output_kind, space_kind};

use std::alloc::Global;
use std::collections::BTreeMap;
use std::marker::Model;
use wm_base::{ConId, NoMemory};
use wm_tree::{Cursor, NodeKind, OutputPart, Part, SpacePart, Tree};

/// A workspace as it stands in a tree, with the output that has it and the rows below it.
#[derive(Drop)]
pub struct Site<'a> {
    pub part: &'a Part,
    pub state: &'a SpacePart,
    pub output_id: ConId,
    pub output: &'a OutputPart,
    pub kids: Cursor<'a>,
    pub floats: Cursor<'a>,
}

impl<'a> Model for Site<'a> {
    ghost use Rattle.wm_changes.specs.Facts.{SpaceFact};
    ghost use Rattle.wm_changes.specs.FactCode.{space_code};

    ghost Value = { SpaceFact };

    ghost coded = { space_code };

    ghost view = { λ s. record { part = s.part.now; state = s.state.now; output_id = s.output_id; output = s.output.now; kids = s.kids; floats = s.floats } };
}

/// The workspaces of a tree under their ids.
pub fn spaces(alloc: Global, tree: &Tree) -> Result<BTreeMap<u32, Site<'_>>, NoMemory>
    ensures { IfOk result (λ map. map.entries ≡ spaces tree.now) }
{
    let mut map = BTreeMap::new(alloc);
    gather_outputs(&mut map, tree.nodes().kids())?;
    Ok(map)
}

/// Puts in the workspaces on a row of outputs, in the order in which they stand.
#[tactic(auto, using(crate::proofs::FactLemmas::spaces_both))]
fn gather_outputs<'a>(map: &mut BTreeMap<u32, Site<'a>>, row: Cursor<'a>) -> Result<(), NoMemory>
    ensures { OnOk result (map.new.entries ≡ put_spaces (spaces_in row.entry) map.old.entries) }
{
    let mut left = row;
    while let Some(part) = left.part() {
        gather_output(map, part, left.kids())?;
        left = left.rest();
    }
    Ok(())
}

/// Puts in the workspaces of a node, where it is an output.
fn gather_output<'a>(
    map: &mut BTreeMap<u32, Site<'a>>,
    part: &'a Part,
    row: Cursor<'a>,
) -> Result<(), NoMemory>
    ensures { OnOk result (map.new.entries ≡ put_spaces (spaces_of part.now.id (output_kind part.now.kind) row.entry) map.old.entries) }
{
    match &part.kind {
        NodeKind::Output(output) => gather(map, part.id, output, row),
        NodeKind::Root { .. } | NodeKind::Space(_) | NodeKind::Con(_) => Ok(()),
    }
}

/// Puts in the workspaces of an output.
#[tactic(auto, using(crate::proofs::FactLemmas::spaces_both))]
fn gather<'a>(
    map: &mut BTreeMap<u32, Site<'a>>,
    id: ConId,
    output: &'a OutputPart,
    row: Cursor<'a>,
) -> Result<(), NoMemory>
    ensures { OnOk result (map.new.entries ≡ put_spaces (spaces_on id output.now row.entry) map.old.entries) }
{
    let mut left = row;
    while let Some(part) = left.part() {
        put(map, id, output, part, &left)?;
        left = left.rest();
    }
    Ok(())
}

/// Puts the first node of a row in, where it is a workspace.
fn put<'a>(
    map: &mut BTreeMap<u32, Site<'a>>,
    id: ConId,
    output: &'a OutputPart,
    part: &'a Part,
    row: &Cursor<'a>,
) -> Result<(), NoMemory>
    ensures { OnOk result (map.new.entries ≡ put_spaces (space_here id output.now part.now (space_kind part.now.kind) (first_kids row.now) (first_floats row.now)) map.old.entries) }
{
    let NodeKind::Space(state) = &part.kind else {
        return Ok(());
    };
    let site = Site {
        part,
        state,
        output_id: id,
        output,
        kids: row.kids(),
        floats: row.floats(),
    };
    map.insert(part.id.0, site)?;
    Ok(())
}
