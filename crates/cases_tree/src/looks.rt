//! The readings of a tree.
use crate::telling::{push_border, push_con, push_text};
use case_data::{Fault, Words};
use std::alloc::AllocError;
use wm_base::{ConId, Text};
use wm_tree::{Place, Tree};

/// Says what the reading gives that the next word names.
pub fn read(tree: &Tree, words: &mut Words<'_>, out: &mut String) -> Result<(), Fault> {
    read_part(tree, words, out)?;
    Ok(out.push('\n')?)
}

fn read_part(tree: &Tree, words: &mut Words<'_>, out: &mut String) -> Result<(), Fault> {
    match words.word() {
        "of" => read_of(tree, words, out),
        "at" => read_at(tree, words, out),
        "tree" => read_tree(tree, words.word(), out),
        word => read_more(tree, word, words, out),
    }
}

/// The reading of a mark or a name, of whether a node is tiled, or of where a new window goes.
fn read_more(
    tree: &Tree,
    word: &str,
    words: &mut Words<'_>,
    out: &mut String,
) -> Result<(), Fault> {
    match word {
        "mark" => read_mark(tree, words, out),
        "tiled" => read_tiled(tree, words, out),
        "name" => read_name(tree, words, out),
        "newcomer" => Ok(push_place(out, tree.newcomer_place())?),
        _ => Err(Fault::BadLine),
    }
}

/// The reading of one node: `parent 6` and the like.
fn read_of(tree: &Tree, words: &mut Words<'_>, out: &mut String) -> Result<(), Fault> {
    let word = words.word();
    let answer = near(tree, word, words.con()?)?;
    Ok(push_con(out, answer)?)
}

fn near(tree: &Tree, word: &str, con: ConId) -> Result<Option<ConId>, Fault> {
    match word {
        "parent" => Ok(tree.parent(con)),
        "workspace" => Ok(tree.workspace_of(con)),
        "focused" => Ok(tree.focused_child(con)),
        "leaf" => Ok(tree.leaf(con)),
        _ => Err(Fault::BadLine),
    }
}

/// The reading of a list at a place: `child 4 0`, `recent 0` and the like.
fn read_at(tree: &Tree, words: &mut Words<'_>, out: &mut String) -> Result<(), Fault> {
    let answer = found_at(tree, words)?;
    Ok(push_con(out, answer)?)
}

fn found_at(tree: &Tree, words: &mut Words<'_>) -> Result<Option<ConId>, Fault> {
    match words.word() {
        "child" => child_at(tree, words),
        "floating" => floating_at(tree, words),
        word => listed_at(tree, word, words.number()?),
    }
}

fn child_at(tree: &Tree, words: &mut Words<'_>) -> Result<Option<ConId>, Fault> {
    let con = words.con()?;
    Ok(tree.child(con, words.number()?))
}

fn floating_at(tree: &Tree, words: &mut Words<'_>) -> Result<Option<ConId>, Fault> {
    let con = words.con()?;
    Ok(tree.floating(con, words.number()?))
}

/// What stands at a place in a list of the whole tree.
fn listed_at(tree: &Tree, word: &str, number: u32) -> Result<Option<ConId>, Fault> {
    match word {
        "scratchpad" => Ok(tree.scratchpad(number)),
        "recent" => Ok(tree.recent(number)),
        "urgent" => Ok(tree.urgent(number)),
        _ => Err(Fault::BadLine),
    }
}

fn read_mark(tree: &Tree, words: &mut Words<'_>, out: &mut String) -> Result<(), Fault> {
    let con = words.con()?;
    let mark = tree.mark(con, words.number()?);
    Ok(push_text(out, mark)?)
}

fn read_tiled(tree: &Tree, words: &mut Words<'_>, out: &mut String) -> Result<(), Fault> {
    let is_tiled = tree.is_tiled(words.con()?);
    Ok(write!(out, "{is_tiled}")?)
}

fn read_name(tree: &Tree, words: &mut Words<'_>, out: &mut String) -> Result<(), Fault> {
    let name = name(tree, words.con()?);
    Ok(push_text(out, name)?)
}

/// The reading of the tree itself.
fn read_tree(tree: &Tree, word: &str, out: &mut String) -> Result<(), Fault> {
    match word {
        "previous" => Ok(push_text(out, tree.previous())?),
        "defaults" => Ok(push_defaults(out, tree)?),
        _ => {
            let id = id_of(tree, word)?;
            Ok(write!(out, "{id}")?)
        }
    }
}

fn id_of(tree: &Tree, word: &str) -> Result<u32, Fault> {
    match word {
        "current" => Ok(tree.current().0),
        "shown" => Ok(tree.shown().0),
        "focused" => Ok(tree.focused().0),
        "next" => Ok(tree.next_id()),
        _ => Err(Fault::BadLine),
    }
}

fn push_defaults(out: &mut String, tree: &Tree) -> Result<(), AllocError> {
    let (border, inner, outer) = tree.defaults();
    push_border(out, border)?;
    write!(out, " {inner} {outer}")
}

/// The name of an output or a workspace, or the format of a container's title.
fn name(tree: &Tree, con: ConId) -> Option<&Text> {
    if let Some(output) = tree.output(con) {
        return Some(&output.name);
    }
    if let Some(space) = tree.space(con) {
        return Some(&space.name);
    }
    match tree.container(con) {
        Some(part) => Some(&part.title_format),
        None => None,
    }
}

fn push_place(out: &mut String, at: Place) -> Result<(), AllocError> {
    match at {
        Place::After(con) => write!(out, "after {}", con.0),
        Place::Before(con) => write!(out, "before {}", con.0),
        Place::First(con) => write!(out, "first {}", con.0),
        Place::Last(con) => write!(out, "last {}", con.0),
        Place::Float(con, _) => write!(out, "float {}", con.0),
        Place::Scratchpad(_) => out.push_str("scratchpad"),
    }
}
