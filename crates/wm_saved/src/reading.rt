//! Layouts are read: the nodes of JSON values, with those below them.
ghost use Rattle.std.specs.Prelude.{◌≡◌, IfOk, IsTrue};
ghost use Rattle.serde_json.specs.View.{items_view, members_view, view};
ghost use Rattle.wm_saved.specs.Answers.{IsAnswer};
ghost use Rattle.wm_saved.specs.Limits.{is_fit, layout_at};
ghost use Rattle.wm_saved.specs.Reading.{finished, head_of, node_at, nodes_from, nodes_in, tail_of, trees_at, with_head};

use crate::fields::{border_of, layout_of, marks_of, name_of, type_of};
use crate::limits::passed;
use crate::refusal::{LayoutRefusal, bad, below, item_below};
use crate::saved::{SavedKind, SavedLayout, SavedNode};
use crate::swallows::swallows_of;
use serde_json::{Map, Value};
use std::alloc::Global;
use wm_base::{Border, Layout, List, Text};
use wm_forest::Swallow;

/// What a node says of itself before its nodes.
#[derive(Drop)]
struct Head {
    border: Border,
    layout: Layout,
    marks: List<Text>,
    name: Text,
}

/// What the node at this path says of itself before its nodes.
fn head_of(alloc: Global, path: &str, node: &Value) -> Result<Head, LayoutRefusal>
    ensures { IsAnswer (head_of path.now (view node.now)) result }
{
    let border = border_of(alloc, path, node)?;
    let layout = layout_of(alloc, path, node)?;
    let marks = marks_of(alloc, path, node)?;
    match name_of(alloc, path, node) {
        Ok(name) => Ok(Head {
            border,
            layout,
            marks,
            name,
        }),
        Err(error) => {
            drop(marks);
            Err(error)
        }
    }
}

impl Head {
    /// The node that says this of itself, with these nodes below it; without any, a placeholder.
    fn node(self, nodes: List<SavedNode>, swallows: List<Swallow>) -> SavedNode
        ensures { result ≡ with_head self nodes swallows }
    {
        let Head {
            border,
            layout,
            marks,
            name,
        } = self;
        let kind = if nodes.items().is_empty() {
            SavedKind::Placeholder { name, swallows }
        } else {
            SavedKind::Split { layout, nodes }
        };
        SavedNode {
            border,
            marks,
            kind,
        }
    }
}

/// What the node at this path says after its nodes: what it swallows, and its type.
fn tail_of(alloc: Global, path: &str, node: &Value) -> Result<List<Swallow>, LayoutRefusal>
    ensures { IsAnswer (tail_of path.now (view node.now)) result }
{
    let swallows = swallows_of(alloc, path, node)?;
    match type_of(alloc, path, node) {
        Ok(()) => Ok(swallows),
        Err(error) => {
            drop(swallows);
            Err(error)
        }
    }
}

/// The node at this path, with these nodes below it.
fn finished(
    alloc: Global,
    path: &str,
    node: &Value,
    head: Head,
    nodes: List<SavedNode>,
) -> Result<SavedNode, LayoutRefusal>
    ensures { IsAnswer (finished path.now (view node.now) head nodes) result }
{
    match tail_of(alloc, path, node) {
        Ok(swallows) => Ok(head.node(nodes, swallows)),
        Err(error) => {
            drop(head);
            drop(nodes);
            Err(error)
        }
    }
}

/// The node at this path.
#[cycle(reading)]
fn node_at(alloc: Global, path: &str, node: &Value) -> Result<SavedNode, LayoutRefusal>
    ensures { IsAnswer (node_at path.now (view node.now)) result }
{
    let Value::Object(members) = node else {
        return Err(bad(alloc, path));
    };
    let head = head_of(alloc, path, node)?;
    match nodes_in(alloc, path, members) {
        Ok(nodes) => finished(alloc, path, node, head, nodes),
        Err(error) => {
            drop(head);
            Err(error)
        }
    }
}

/// The nodes of the object at this path.
#[cycle(reading)]
fn nodes_in(
    alloc: Global,
    path: &str,
    members: &Map<String, Value>,
) -> Result<List<SavedNode>, LayoutRefusal>
    ensures { IsAnswer (nodes_in path.now (members_view members.now.entries)) result }
{
    for (key, member) in members.iter() {
        if key.as_str() == "nodes" {
            let path = below(alloc, path, "nodes")?;
            return trees_at(alloc, path.as_str(), member);
        }
    }
    Ok(List::of(Vec::new(alloc)))
}

/// The nodes of the array at this path.
#[cycle(reading)]
pub(crate) fn trees_at(
    alloc: Global,
    path: &str,
    value: &Value,
) -> Result<List<SavedNode>, LayoutRefusal>
    ensures { IsAnswer (trees_at path.now (view value.now)) result }
{
    match value {
        Value::Array(values) => nodes_from(alloc, path, values),
        _ => Err(bad(alloc, path)),
    }
}

/// The nodes that the items of the array at this path are.
#[cycle(reading)]
fn nodes_from(alloc: Global, path: &str, values: &[Value]) -> Result<List<SavedNode>, LayoutRefusal>
    ensures { IsAnswer (nodes_from path.now 0 (items_view values.now)) result }
{
    let mut nodes = Vec::with_capacity(alloc, values.len())?;
    for (place, value) in values.iter().enumerate() {
        let path = item_below(alloc, path, place)?;
        nodes.push(node_at(alloc, path.as_str(), value)?)?;
    }
    Ok(List::of(nodes))
}

/// The layout that a layout file's value describes. The fields of an object are looked at in the byte order of their
/// keys, and an object's nodes in their order. The first fault is `BadField` with its path, or `PatternRefused` where
/// a text is no plain pattern; without a fault, `Full` tells the first limit that the layout alone passes.
pub fn read_layout(alloc: Global, value: &Value) -> Result<SavedLayout, LayoutRefusal>
    ensures answer { IsAnswer (layout_at (view value.now)) result }
    ensures fit { IfOk result (λ layout. IsTrue (is_fit layout)) }
{
    let trees = trees_at(alloc, "", value)?;
    match passed(alloc, trees.items()) {
        Ok(None) => Ok(SavedLayout { trees }),
        Ok(Some(limit)) => Err(LayoutRefusal::Full { limit }),
        Err(_) => Err(LayoutRefusal::NoMemory),
    }
}
