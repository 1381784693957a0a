//! A whole tree as lines, a line for each node and for each list.
use crate::kinds::push_kind;
use crate::telling::{layout_word, push_border, push_rect, push_text};
use std::alloc::{AllocError, Global};
use wm_base::{Edges, Text};
use wm_tree::{ConPart, ConState, Cursor, NodeKind, OutputPart, Part, SpacePart, Tree};

/// A row of nodes that is still to be shown: how deep it stands, and the word that stands before each node.
#[derive(Drop)]
struct Rung<'a> {
    row: Cursor<'a>,
    depth: u32,
    word: &'static str,
}

/// Appends all nodes, the order of recency, the urgent windows, and what else the tree says.
pub fn push_tree(alloc: Global, out: &mut String, tree: &Tree) -> Result<(), AllocError> {
    push_nodes(alloc, out, tree)?;
    push_recent(out, tree)?;
    push_urgent(out, tree)?;
    push_rest(out, tree)
}

fn push_nodes(alloc: Global, out: &mut String, tree: &Tree) -> Result<(), AllocError> {
    let mut rungs = vec![in alloc;
        Rung {
            row: tree.nodes(),
            depth: 0,
            word: ""
        },
    ]?;
    for _ in 0..u32::MAX {
        let Some(rung) = rungs.pop() else {
            break;
        };
        push_rung(out, &mut rungs, &rung)?;
    }
    Ok(())
}

/// Shows the first node of a row, and leaves the rest of the row and what is below the node to be shown.
fn push_rung<'a>(
    out: &mut String,
    rungs: &mut Vec<Rung<'a>>,
    rung: &Rung<'a>,
) -> Result<(), AllocError> {
    let Some(part) = rung.row.part() else {
        return Ok(());
    };
    push_start(out, rung)?;
    push_part(out, part)?;
    push_below(rungs, rung, part)
}

fn push_start(out: &mut String, rung: &Rung<'_>) -> Result<(), AllocError> {
    for _ in 0..rung.depth {
        out.push_str("  ")?;
    }
    out.push_str(rung.word)
}

/// Leaves the rest of a row and what is below its first node to be shown.
fn push_below<'a>(
    rungs: &mut Vec<Rung<'a>>,
    rung: &Rung<'a>,
    part: &Part,
) -> Result<(), AllocError> {
    let depth = rung.depth.saturating_add(1);
    rungs.push(Rung {
        row: rung.row.rest(),
        depth: rung.depth,
        word: rung.word,
    })?;
    rungs.push(Rung {
        row: rung.row.floats(),
        depth,
        word: floats_word(part),
    })?;
    Ok(rungs.push(Rung {
        row: rung.row.kids(),
        depth,
        word: "",
    })?)
}

/// The word before a node that is not tiled.
fn floats_word(part: &Part) -> &'static str {
    match part.kind {
        NodeKind::Root { .. } => "scratchpad ",
        NodeKind::Output(_) | NodeKind::Space(_) | NodeKind::Con(_) => "float ",
    }
}

fn push_part(out: &mut String, part: &Part) -> Result<(), AllocError> {
    write!(out, "{} ", part.id.0)?;
    push_node(out, &part.kind)?;
    push_marks(out, part.marks.items())?;
    out.push('\n')
}

fn push_node(out: &mut String, kind: &NodeKind) -> Result<(), AllocError> {
    match kind {
        NodeKind::Root { current } => write!(out, "root, current {}", current.0),
        NodeKind::Output(output) => push_output(out, output),
        NodeKind::Space(space) => push_space(out, space),
        NodeKind::Con(con) => push_container(out, con),
    }
}

fn push_marks(out: &mut String, marks: &[Text]) -> Result<(), AllocError> {
    for mark in marks {
        write!(out, ", mark \"{}\"", mark.as_str())?;
    }
    Ok(())
}

fn push_output(out: &mut String, output: &OutputPart) -> Result<(), AllocError> {
    write!(out, "output \"{}\" ", output.name.as_str())?;
    push_rect(out, output.rect)?;
    write!(out, ", shows {}", output.shown.0)?;
    push_reserved(out, output.reserved)
}

fn push_reserved(out: &mut String, edges: Edges) -> Result<(), AllocError> {
    let Edges {
        top,
        right,
        bottom,
        left,
    } = edges;
    if top == 0 && right == 0 && bottom == 0 && left == 0 {
        return Ok(());
    }
    write!(out, ", reserved {top} {right} {bottom} {left}")
}

fn push_space(out: &mut String, space: &SpacePart) -> Result<(), AllocError> {
    let (inner, outer) = (space.inner, space.outer);
    let (layout, last) = (layout_word(space.layout), layout_word(space.last_split));
    let name = space.name.as_str();
    write!(
        out,
        "workspace \"{name}\" {layout} last {last}, gaps {inner} {outer}"
    )
}

fn push_container(out: &mut String, con: &ConPart) -> Result<(), AllocError> {
    push_kind(out, &con.kind)?;
    write!(out, ", share {}, ", con.share)?;
    push_state(out, con.state)?;
    match con.title_format.as_str() {
        "%title" => Ok(()),
        format => write!(out, ", format \"{format}\""),
    }
}

fn push_state(out: &mut String, state: ConState) -> Result<(), AllocError> {
    push_border(out, state.border)?;
    for (holds, word) in [
        (state.sticky, ", sticky"),
        (state.fullscreen, ", fullscreen"),
        (state.flagged, ", flagged"),
    ] {
        if holds {
            out.push_str(word)?;
        }
    }
    if let Some(rect) = state.rect {
        out.push_str(", rect ")?;
        push_rect(out, rect)?;
    }
    Ok(())
}

fn push_recent(out: &mut String, tree: &Tree) -> Result<(), AllocError> {
    out.push_str("recent")?;
    for number in 0..u32::MAX {
        match tree.recent(number) {
            Some(con) => write!(out, " {}", con.0)?,
            None => break,
        }
    }
    out.push('\n')
}

fn push_urgent(out: &mut String, tree: &Tree) -> Result<(), AllocError> {
    out.push_str("urgent")?;
    for number in 0..u32::MAX {
        match tree.urgent(number) {
            Some(con) => write!(out, " {}", con.0)?,
            None => break,
        }
    }
    out.push('\n')
}

/// The focused node, the name of the previous workspace, the next id, and what new nodes get.
fn push_rest(out: &mut String, tree: &Tree) -> Result<(), AllocError> {
    write!(out, "focused {}, previous ", tree.focused().0)?;
    push_text(out, tree.previous())?;
    push_defaults(out, tree)
}

fn push_defaults(out: &mut String, tree: &Tree) -> Result<(), AllocError> {
    let (border, inner, outer) = tree.defaults();
    write!(out, ", next {}, defaults ", tree.next_id())?;
    push_border(out, border)?;
    writeln!(out, " gaps {inner} {outer}")
}
