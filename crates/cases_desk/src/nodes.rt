//! Nodes of the tree, a line each, those below one further to the right.
use std::alloc::AllocError;
use wm_json::NodeView;

/// Writes a node, and those below it, each so many steps to the right of its parent.
#[cycle(put)]
pub fn push_node(node: &NodeView, depth: usize, out: &mut String) -> Result<(), AllocError> {
    push_indent(depth, out)?;
    push_own(node, out)?;
    push_nodes(node.nodes.items(), depth.saturating_add(1), out)?;
    push_nodes(node.floating_nodes.items(), depth.saturating_add(1), out)
}

#[cycle(put)]
fn push_nodes(nodes: &[NodeView], depth: usize, out: &mut String) -> Result<(), AllocError> {
    for node in nodes {
        push_node(node, depth, out)?;
    }
    Ok(())
}

fn push_indent(depth: usize, out: &mut String) -> Result<(), AllocError> {
    for _ in 0..depth {
        out.push_str("  ")?;
    }
    Ok(())
}

/// Writes what a node is: its kind, id, layout, name, place among its siblings, border, marks, and what else holds.
fn push_own(node: &NodeView, out: &mut String) -> Result<(), AllocError> {
    let (kind, layout) = (node.kind.as_str(), node.layout.as_str());
    let name = node.name.as_str();
    write!(out, "{kind} {} {layout} {name:?}", node.id)?;
    if node.share_sum > 0 {
        write!(out, " {} of {}", node.share, node.share_sum)?;
    }
    for mark in node.marks.items() {
        write!(out, " [{}]", mark.as_str())?;
    }
    push_window(node, out)?;
    out.push_str("\n")
}

/// Writes whether it is a window, its border, and what else holds of it.
fn push_window(node: &NodeView, out: &mut String) -> Result<(), AllocError> {
    if node.window.is_some() {
        let border = node.border.as_str();
        write!(out, " window {border} {}", node.current_border_width)?;
    }
    push_if(node.fullscreen_mode == 1, " fullscreen", out)?;
    push_if(node.focused, " focused", out)?;
    push_if(node.visible == Some(true), " visible", out)
}

fn push_if(holds: bool, text: &str, out: &mut String) -> Result<(), AllocError> {
    if holds {
        out.push_str(text)?;
    }
    Ok(())
}
