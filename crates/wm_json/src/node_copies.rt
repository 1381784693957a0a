//! Copies of nodes with their subtrees.
ghost use Rattle.std.specs.Prelude.{◌≡◌, IfOk};
ghost use Rattle.wm_json.specs.Copies.{with_names, with_rows, with_said, with_window, with_words};
ghost use Rattle.wm_json.specs.declared.views.NodeView.TheViews.{out-NodeView, roll-NodeView};

use crate::copies::{copy_props_if, copy_str, copy_text_if, copy_texts};
use crate::views::NodeView;
use std::alloc::{AllocError, Global};
use wm_base::{List, NoMemory, Props, Str, Text};

/// The words of a node.
#[derive(Drop)]
struct Words {
    border: Str,
    layout: Str,
    orientation: Str,
    kind: Str,
}

fn copy_words(alloc: Global, n: &NodeView) -> Result<Words, AllocError>
    ensures border { IfOk result (λ words. words.border ≡ (out-NodeView n.now).border) }
    ensures layout { IfOk result (λ words. words.layout ≡ (out-NodeView n.now).layout) }
    ensures orientation { IfOk result (λ words. words.orientation ≡ (out-NodeView n.now).orientation) }
    ensures kind { IfOk result (λ words. words.kind ≡ (out-NodeView n.now).kind) }
{
    Ok(Words {
        border: copy_str(alloc, &n.border)?,
        layout: copy_str(alloc, &n.layout)?,
        orientation: copy_str(alloc, &n.orientation)?,
        kind: copy_str(alloc, &n.kind)?,
    })
}

/// The names of a node.
#[derive(Drop)]
struct Names {
    name: Text,
    output: Option<Text>,
    current_workspace: Option<Text>,
}

fn copy_names(n: &NodeView) -> Result<Names, AllocError>
    ensures name { IfOk result (λ names. names.name ≡ (out-NodeView n.now).name) }
    ensures output { IfOk result (λ names. names.output ≡ (out-NodeView n.now).output) }
    ensures current { IfOk result (λ names. names.current_workspace ≡ (out-NodeView n.now).current_workspace) }
{
    Ok(Names {
        name: n.name.clone()?,
        output: copy_text_if(&n.output)?,
        current_workspace: copy_text_if(&n.current_workspace)?,
    })
}

/// The properties and the kind of a window.
#[derive(Drop)]
struct Window {
    properties: Option<Props>,
    kind: Option<Text>,
}

fn copy_window(n: &NodeView) -> Result<Window, AllocError>
    ensures properties { IfOk result (λ window. window.properties ≡ (out-NodeView n.now).window_properties) }
    ensures kind { IfOk result (λ window. window.kind ≡ (out-NodeView n.now).window_type) }
{
    Ok(Window {
        properties: copy_props_if(&n.window_properties)?,
        kind: copy_text_if(&n.window_type)?,
    })
}

/// The recent ids and the marks of a node.
#[derive(Drop)]
struct Lists {
    focus: List<u32>,
    marks: List<Text>,
}

fn copy_lists(alloc: Global, n: &NodeView) -> Result<Lists, AllocError>
    ensures focus { IfOk result (λ lists. lists.focus ≡ (out-NodeView n.now).focus) }
    ensures marks { IfOk result (λ lists. lists.marks ≡ (out-NodeView n.now).marks) }
{
    Ok(Lists {
        focus: List::of(Vec::from_slice(alloc, n.focus.items())?),
        marks: copy_texts(alloc, n.marks.items())?,
    })
}

/// The nodes below a node.
#[derive(Drop)]
struct Rows {
    nodes: List<NodeView>,
    floating: List<NodeView>,
}

/// What a node says of itself.
#[derive(Drop)]
struct Said {
    names: Names,
    words: Words,
    lists: Lists,
}

/// The node of these, else as this one is.
fn joined(n: &NodeView, said: Said, window: Window, rows: Rows) -> NodeView
    ensures { result ≡ roll-NodeView (with_window window (with_said said (with_rows rows (out-NodeView n.now)))) }
{
    let Said {
        names,
        words,
        lists,
    } = said;
    NodeView {
        border: words.border,
        current_border_width: n.current_border_width,
        deco_rect: n.deco_rect,
        floating_nodes: rows.floating,
        focus: lists.focus,
        focused: n.focused,
        fullscreen_mode: n.fullscreen_mode,
        geometry: n.geometry,
        id: n.id,
        layout: words.layout,
        marks: lists.marks,
        name: names.name,
        nodes: rows.nodes,
        orientation: words.orientation,
        rect: n.rect,
        share: n.share,
        share_sum: n.share_sum,
        sticky: n.sticky,
        kind: words.kind,
        urgent: n.urgent,
        window: n.window,
        window_properties: window.properties,
        window_rect: n.window_rect,
        window_type: window.kind,
        num: n.num,
        output: names.output,
        visible: n.visible,
        active: n.active,
        current_workspace: names.current_workspace,
        primary: n.primary,
    }
}

/// The node with these nodes below it, else an equal one.
fn copy_above(alloc: Global, n: &NodeView, rows: Rows) -> Result<NodeView, AllocError>
    ensures { IfOk result (λ copy. copy ≡ roll-NodeView (with_rows rows (out-NodeView n.now))) }
{
    match copy_names(n) {
        Ok(names) => copy_named(alloc, n, names, rows),
        Err(error) => {
            drop(rows);
            Err(error)
        }
    }
}

/// The node with these names and with these nodes below it, else an equal one.
fn copy_named(alloc: Global, n: &NodeView, names: Names, rows: Rows) -> Result<NodeView, AllocError>
    ensures { IfOk result (λ copy. copy ≡ roll-NodeView (with_names names (with_rows rows (out-NodeView n.now)))) }
{
    match copy_words(alloc, n) {
        Ok(words) => copy_worded(alloc, n, names, words, rows),
        Err(error) => {
            drop(names);
            drop(rows);
            Err(error)
        }
    }
}

/// The node with these names and words and with these nodes below it, else an equal one.
fn copy_worded(
    alloc: Global,
    n: &NodeView,
    names: Names,
    words: Words,
    rows: Rows,
) -> Result<NodeView, AllocError>
    ensures { IfOk result (λ copy. copy ≡ roll-NodeView (with_words words (with_names names (with_rows rows (out-NodeView n.now))))) }
{
    match copy_lists(alloc, n) {
        Ok(lists) => copy_said(
            n,
            Said {
                names,
                words,
                lists,
            },
            rows,
        ),
        Err(error) => {
            drop(names);
            drop(words);
            drop(rows);
            Err(error)
        }
    }
}

/// The node that says this of itself, with these nodes below it, else an equal one.
fn copy_said(n: &NodeView, said: Said, rows: Rows) -> Result<NodeView, AllocError>
    ensures { IfOk result (λ copy. copy ≡ roll-NodeView (with_said said (with_rows rows (out-NodeView n.now)))) }
{
    match copy_window(n) {
        Ok(window) => Ok(joined(n, said, window, rows)),
        Err(error) => {
            drop(said);
            drop(rows);
            Err(error)
        }
    }
}

/// An equal node, with its subtree.
#[cycle(copies)]
fn copy_node(alloc: Global, n: &NodeView) -> Result<NodeView, NoMemory>
    ensures { IfOk result (λ copy. copy ≡ n.now) }
{
    let nodes = copy_nodes(alloc, n.nodes.items())?;
    match copy_nodes(alloc, n.floating_nodes.items()) {
        Ok(floating) => Ok(copy_above(alloc, n, Rows { nodes, floating })?),
        Err(error) => {
            drop(nodes);
            Err(error)
        }
    }
}

/// Equal nodes, with their subtrees.
#[cycle(copies)]
fn copy_nodes(alloc: Global, nodes: &[NodeView]) -> Result<List<NodeView>, NoMemory>
    ensures { IfOk result (λ copy. copy ≡ nodes.now) }
{
    let mut copy = Vec::with_capacity(alloc, nodes.len())?;
    for node in nodes {
        copy.push(copy_node(alloc, node)?)?;
    }
    Ok(List::of(copy))
}

impl NodeView {
    /// An equal node, with its subtree.
    pub fn copy(&self, alloc: Global) -> Result<NodeView, NoMemory>
        ensures { IfOk result (λ copy. copy ≡ self.now) }
    {
        copy_node(alloc, self)
    }
}
