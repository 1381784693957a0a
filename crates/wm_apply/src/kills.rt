//! The windows that a command asks to close.
ghost use Rattle.std.specs.Prelude.{◌≡◌, ◌++◌, None, OnOk, OnErr, IfErr, IfOk, is_some};
ghost use Rattle.std.specs.List.{list_any};
ghost use Rattle.std.specs.Option.{option_copied};
ghost use Rattle.wm_apply.specs.Kills.{asked_each, asked_from, asked_of, begins_space, con_windows, is_kill, is_window_node, kill_refusal, node_window, row_at, windows_in};
ghost use Rattle.wm_apply.specs.Finding.{AreRows};
ghost use Rattle.wm_forest.specs.Look.{kind_by, space_kind};
ghost use Rattle.wm_shared.specs.Refusing.{IsCause};
ghost use Rattle.wm_shared.specs.Subject.{is_space};

use crate::finding::Rows;
use std::alloc::{AllocError, Global};
use wm_base::{ConId, ErrorText, NoMemory, Refusal};
use wm_language::Command;
use wm_shared::is_space;
use wm_tree::{Cursor, NodeKind, Part, Tree};

/// For how many containers, or fewer, a walk is made for each.
pub const FEW: usize = 4;

/// Whether the command asks windows to close.
pub fn is_kill(command: &Command) -> bool
    ensures { result ≡ is_kill command.now }
{
    matches!(command, Command::Kill)
}

/// Refuses a workspace. The tree stays as it is.
pub fn kill(t: &Tree, con: ConId) -> Result<(), Refusal>
    ensures fine { OnOk result (kill_refusal con t.now ≡ None) }
    ensures cause { IfErr result (IsCause (kill_refusal con t.now)) }
{
    if is_space(t, con) {
        return Err(Refusal::NoTarget(ErrorText::AtWorkspace));
    }
    Ok(())
}

/// Whether the node is a window.
pub fn is_window_node(kind: &NodeKind) -> bool
    ensures { result ≡ is_window_node kind.now }
{
    match kind {
        NodeKind::Con(con) => con.kind.is_window(),
        NodeKind::Root { .. } | NodeKind::Output(_) | NodeKind::Space(_) => false,
    }
}

/// Adds a node that is a window.
fn add(part: &Part, found: &mut Vec<ConId>) -> Result<(), AllocError>
    ensures { OnOk result (found.new.items ≡ found.old.items ++ node_window part.now.id part.now.kind) }
{
    if is_window_node(&part.kind) {
        found.push(part.id)?;
    }
    Ok(())
}

/// Adds the windows of the row and below it.
fn gather(mut row: Cursor<'_>, found: &mut Vec<ConId>) -> Result<(), AllocError>
    ensures { OnOk result (found.new.items ≡ found.old.items ++ windows_in row.entry) }
{
    while let Some(part) = row.part() {
        add(part, found)?;
        gather(row.kids(), found)?;
        gather(row.floats(), found)?;
        row = row.rest();
    }
    Ok(())
}

/// Adds the windows of the row's first node and below it, where there is a row and that is a container.
fn ask_row(row: Option<&Cursor<'_>>, found: &mut Vec<ConId>) -> Result<(), AllocError>
    ensures { OnOk result (found.new.items ≡ found.old.items ++ asked_from (option_copied row.entry)) }
{
    match row {
        Some(row) => gather_first(row, found),
        None => Ok(()),
    }
}

/// Adds the windows of the row's first node and below it, where that is a container.
#[tactic(auto, using(crate::proofs::KillLemmas::con_is))]
fn gather_first(row: &Cursor<'_>, found: &mut Vec<ConId>) -> Result<(), AllocError>
    ensures { OnOk result (found.new.items ≡ found.old.items ++ con_windows row.now) }
{
    let Some(part) = row.part() else {
        return Ok(());
    };
    if !part.kind.is_con() {
        return Ok(());
    }
    add(part, found)?;
    gather(row.kids(), found)?;
    gather(row.floats(), found)?;
    Ok(())
}

/// The row from a node on. `None` exactly where it is not here.
fn row_at(mut row: Cursor<'_>, con: ConId) -> Option<Cursor<'_>>
    ensures { result ≡ row_at con row.entry }
{
    while let Some(part) = row.part() {
        if part.id == con {
            return Some(row);
        }
        if let Some(found) = row_at(row.kids(), con) {
            return Some(found);
        }
        if let Some(found) = row_at(row.floats(), con) {
            return Some(found);
        }
        row = row.rest();
    }
    None
}

/// Adds the windows of a container that is there, and below it.
#[tactic(auto, using(crate::proofs::KillLemmas::asked_at))]
pub fn ask(t: &Tree, con: ConId, found: &mut Vec<ConId>) -> Result<(), AllocError>
    ensures { OnOk result (found.new.items ≡ found.old.items ++ asked_of con t.now) }
{
    let row = row_at(t.nodes(), con);
    ask_row(row.as_ref(), found)
}

/// Adds the windows of each of the containers that is there, and below it. The rows of more than a few are found in one
/// walk.
pub fn ask_each(
    alloc: Global,
    t: &Tree,
    cons: &[ConId],
    found: &mut Vec<ConId>,
) -> Result<(), NoMemory>
    ensures { OnOk result (found.new.items ≡ found.old.items ++ asked_each cons.now t.now) }
{
    if cons.len() <= FEW {
        return Ok(ask_few(t, cons, found)?);
    }
    let rows = Rows::new(alloc, t)?;
    Ok(ask_rows(&rows, cons, found)?)
}

/// Adds the windows of each of the containers that is there, and below it, a walk for each.
fn ask_few(t: &Tree, cons: &[ConId], found: &mut Vec<ConId>) -> Result<(), AllocError>
    ensures { OnOk result (found.new.items ≡ found.old.items ++ asked_each cons.now t.now) }
{
    let mut rest = cons;
    while let [con, after @ ..] = rest {
        ask(t, *con, found)?;
        rest = after;
    }
    Ok(())
}

/// Adds the windows of a container that is there, and below it, whose row is looked up.
#[tactic(auto, using(crate::proofs::KillLemmas::asked_at))]
fn ask_found(rows: &Rows<'_>, con: ConId, found: &mut Vec<ConId>) -> Result<(), AllocError>
    requires { AreRows rows.now }
    ensures { OnOk result (found.new.items ≡ found.old.items ++ asked_of con rows.now.tree.now) }
{
    ask_row(rows.row(con), found)
}

/// Adds the windows of each of the containers that is there, and below it, whose rows are looked up.
fn ask_rows(rows: &Rows<'_>, cons: &[ConId], found: &mut Vec<ConId>) -> Result<(), AllocError>
    requires { AreRows rows.now }
    ensures { OnOk result (found.new.items ≡ found.old.items ++ asked_each cons.now rows.now.tree.now) }
{
    let mut rest = cons;
    while let [con, after @ ..] = rest {
        ask_found(rows, *con, found)?;
        rest = after;
    }
    Ok(())
}

/// Whether one of them is a workspace. The rows of all are found in one walk.
pub fn has_space(alloc: Global, t: &Tree, cons: &[ConId]) -> Result<bool, NoMemory>
    ensures { IfOk result (λ has. has ≡ list_any (is_space t.now) cons.now) }
{
    if cons.is_empty() {
        return Ok(false);
    }
    let rows = Rows::new(alloc, t)?;
    Ok(has_space_row(&rows, cons))
}

/// Whether this is a workspace, whose row is looked up.
#[tactic(auto, using(crate::proofs::KillLemmas::space_at))]
fn is_space_found(rows: &Rows<'_>, con: ConId) -> bool
    requires { AreRows rows.now }
    ensures { result ≡ is_space rows.now.tree.now con }
{
    begins_space(rows.row(con))
}

/// Whether one of them, whose rows are looked up, is a workspace.
fn has_space_row(rows: &Rows<'_>, cons: &[ConId]) -> bool
    requires { AreRows rows.now }
    ensures { result ≡ list_any (is_space rows.now.tree.now) cons.now }
{
    let mut rest = cons;
    while let [con, after @ ..] = rest {
        if is_space_found(rows, *con) {
            return true;
        }
        rest = after;
    }
    false
}

/// Whether there is a row whose first node is a workspace.
fn begins_space(row: Option<&Cursor<'_>>) -> bool
    ensures { result ≡ begins_space (option_copied row.entry) }
{
    match row {
        Some(row) => is_space_part(row.part()),
        None => false,
    }
}

/// Whether the part is that of a workspace.
fn is_space_part(part: Option<&Part>) -> bool
    ensures { result ≡ is_some (kind_by space_kind (option_copied part.entry)) }
{
    match part {
        Some(part) => matches!(part.kind, NodeKind::Space(_)),
        None => false,
    }
}
