//! The events of two trees.
ghost use Rattle.std.specs.Prelude.{◌≡◌, ◌++◌, IfOk, OnOk};
ghost use Rattle.wm_changes.specs.Changes.{changes, gone_events, here_events, output_events};
ghost use Rattle.wm_changes.specs.Differing.{IsDiffering};
ghost use Rattle.wm_changes.specs.Scene.{IsScene};
ghost use Rattle.wm_tree.specs.Sound.{IsSound};

use crate::differing::{Differing, differing_windows};
use crate::focusing::tell_focus;
use crate::lines::{tell_closed, tell_emptied, tell_spaces, tell_windows};
use crate::outputs::outputs_differ;
use crate::scene::Scene;
use crate::viewer::Viewer;
use std::alloc::Global;
use wm_arrange::Arrangement;
use wm_base::NoMemory;
use wm_json::EventBody;
use wm_tree::Tree;

/// The events that compare a tree with the one after it, in the order in which they are told.
pub fn changes(
    alloc: Global,
    before: &Tree,
    a: &Arrangement,
    after: &Tree,
    b: &Arrangement,
) -> Result<Vec<EventBody>, NoMemory>
    requires before { IsSound before.now }
    requires after { IsSound after.now }
    ensures { IfOk result (λ events. events.items ≡ changes before.now a.now.parts after.now b.now.parts) }
{
    match Scene::new(alloc, before) {
        Ok(old) => changes_from(alloc, &old, a, after, b),
        Err(error) => Err(error),
    }
}

/// The events that compare a tree with the one after it.
fn changes_from(
    alloc: Global,
    old: &Scene<'_>,
    a: &Arrangement,
    after: &Tree,
    b: &Arrangement,
) -> Result<Vec<EventBody>, NoMemory>
    requires old { IsScene old.now }
    requires after { IsSound after.now }
    ensures { IfOk result (λ events. events.items ≡ changes old.now.tree.now a.now.parts after.now b.now.parts) }
{
    match Scene::new(alloc, after) {
        Ok(new) => changes_between(alloc, old, a, &new, b),
        Err(error) => Err(error),
    }
}

fn changes_between(
    alloc: Global,
    old: &Scene<'_>,
    a: &Arrangement,
    new: &Scene<'_>,
    b: &Arrangement,
) -> Result<Vec<EventBody>, NoMemory>
    requires old { IsScene old.now }
    requires new { IsScene new.now }
    ensures { IfOk result (λ events. events.items ≡ changes old.now.tree.now a.now.parts new.now.tree.now b.now.parts) }
{
    let mut before = Viewer::new(old.tree, a);
    changes_by(alloc, &mut before, old, new, b)
}

fn changes_by(
    alloc: Global,
    before: &mut Viewer<'_>,
    old: &Scene<'_>,
    new: &Scene<'_>,
    b: &Arrangement,
) -> Result<Vec<EventBody>, NoMemory>
    requires old { IsScene old.now }
    requires new { IsScene new.now }
    requires tree { before.old.tree ≡ old.now.tree.now }
    ensures { IfOk result (λ events. events.items ≡ changes old.now.tree.now before.old.parts new.now.tree.now b.now.parts) }
{
    let mut after = Viewer::new(new.tree, b);
    gathered(alloc, before, &mut after, old, new)
}

/// The list of all that is told.
fn gathered(
    alloc: Global,
    before: &mut Viewer<'_>,
    after: &mut Viewer<'_>,
    old: &Scene<'_>,
    new: &Scene<'_>,
) -> Result<Vec<EventBody>, NoMemory>
    requires old { IsScene old.now }
    requires new { IsScene new.now }
    requires old_tree { before.old.tree ≡ old.now.tree.now }
    requires new_tree { after.old.tree ≡ new.now.tree.now }
    ensures { IfOk result (λ events. events.items ≡ changes old.now.tree.now before.old.parts new.now.tree.now after.old.parts) }
{
    let mut events = Vec::new(alloc);
    match tell_changes(&mut events, alloc, before, after, old, new) {
        Ok(()) => Ok(events),
        Err(error) => {
            drop(events);
            Err(error)
        }
    }
}

/// Tells of all that changed.
fn tell_changes(
    events: &mut Vec<EventBody>,
    alloc: Global,
    before: &mut Viewer<'_>,
    after: &mut Viewer<'_>,
    old: &Scene<'_>,
    new: &Scene<'_>,
) -> Result<(), NoMemory>
    requires old { IsScene old.now }
    requires new { IsScene new.now }
    requires old_tree { before.old.tree ≡ old.now.tree.now }
    requires new_tree { after.old.tree ≡ new.now.tree.now }
    ensures { OnOk result (events.new.items ≡ events.old.items ++ changes old.now.tree.now before.old.parts new.now.tree.now after.old.parts) }
{
    let found = differing_windows(alloc, old, new)?;
    tell_here(events, alloc, after, old, new, &found)?;
    tell_gone(events, alloc, before, old, new, &found)?;
    tell_focus(events, alloc, before, after, old, new)
}

/// Tells of outputs, workspaces and windows that are new or differ.
fn tell_here(
    events: &mut Vec<EventBody>,
    alloc: Global,
    viewer: &mut Viewer<'_>,
    old: &Scene<'_>,
    new: &Scene<'_>,
    found: &Differing<'_, '_>,
) -> Result<(), NoMemory>
    requires old { IsScene old.now }
    requires new { IsScene new.now }
    requires found { IsDiffering old.now.tree.now new.now.tree.now found.now }
    requires tree { viewer.old.tree ≡ new.now.tree.now }
    ensures events { OnOk result (events.new.items ≡ events.old.items ++ here_events old.now.tree.now new.now.tree.now viewer.old.parts) }
    ensures viewer { viewer.new ≡ viewer.old }
{
    tell_outputs(events, old.tree, new.tree)?;
    tell_spaces(events, alloc, viewer, old, new)?;
    tell_windows(events, alloc, viewer, old, new, found)
}

/// Tells of windows and of workspaces that are gone.
fn tell_gone(
    events: &mut Vec<EventBody>,
    alloc: Global,
    viewer: &mut Viewer<'_>,
    old: &Scene<'_>,
    new: &Scene<'_>,
    found: &Differing<'_, '_>,
) -> Result<(), NoMemory>
    requires old { IsScene old.now }
    requires new { IsScene new.now }
    requires found { IsDiffering old.now.tree.now new.now.tree.now found.now }
    requires tree { viewer.old.tree ≡ old.now.tree.now }
    ensures events { OnOk result (events.new.items ≡ events.old.items ++ gone_events old.now.tree.now viewer.old.parts new.now.tree.now) }
    ensures viewer { viewer.new ≡ viewer.old }
{
    tell_closed(events, alloc, viewer, old.tree, new.tree, found)?;
    tell_emptied(events, alloc, viewer, old, new)
}

/// Tells that outputs differ, where they do.
fn tell_outputs(events: &mut Vec<EventBody>, before: &Tree, after: &Tree) -> Result<(), NoMemory>
    ensures { OnOk result (events.new.items ≡ events.old.items ++ output_events before.now after.now) }
{
    if outputs_differ(before, after) {
        events.push(EventBody::Output)?;
    }
    Ok(())
}
