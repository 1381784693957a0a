//! The events of what is focused.
ghost use Rattle.std.specs.Prelude.{◌≡◌, ◌++◌, Some, IfOk, OnOk};
ghost use Rattle.std.specs.Option.{option_copied, option_map};
ghost use Rattle.wm_changes.specs.Changes.{focus_event, focus_events, space_focus, space_view, window_focus};
ghost use Rattle.wm_changes.specs.Scene.{IsScene};
ghost use Rattle.wm_tree.specs.Sound.{IsSound};

use crate::scene::Scene;
use crate::spaces::Site;
use crate::telling::tell_window;
use crate::viewer::Viewer;
use crate::windows::window_at;
use crate::words::Change;
use std::alloc::Global;
use wm_base::NoMemory;
use wm_json::{EventBody, NodeView};
use wm_tree::Tree;

/// Tells of what is focused.
pub fn tell_focus(
    events: &mut Vec<EventBody>,
    alloc: Global,
    old: &mut Viewer<'_>,
    new: &mut Viewer<'_>,
    before: &Scene<'_>,
    after: &Scene<'_>,
) -> Result<(), NoMemory>
    requires before { IsScene before.now }
    requires after { IsScene after.now }
    requires old_tree { old.old.tree ≡ before.now.tree.now }
    requires new_tree { new.old.tree ≡ after.now.tree.now }
    ensures { OnOk result (events.new.items ≡ events.old.items ++ focus_events before.now.tree.now old.old.parts after.now.tree.now new.old.parts) }
{
    tell_space_focus(events, alloc, old, new, before, after)?;
    tell_window_focus(events, alloc, new, before.tree, after.tree)
}

/// Tells of the focused workspace, where it is another one, with the one that was focused as it was.
fn tell_space_focus(
    events: &mut Vec<EventBody>,
    alloc: Global,
    old: &mut Viewer<'_>,
    new: &mut Viewer<'_>,
    before: &Scene<'_>,
    after: &Scene<'_>,
) -> Result<(), NoMemory>
    requires before { IsScene before.now }
    requires after { IsScene after.now }
    requires old_tree { old.old.tree ≡ before.now.tree.now }
    requires new_tree { new.old.tree ≡ after.now.tree.now }
    ensures events { OnOk result (events.new.items ≡ events.old.items ++ space_focus before.now.tree.now old.old.parts after.now.tree.now new.old.parts) }
    ensures viewer { new.new ≡ new.old }
{
    let left = before.tree.shown();
    let shown = after.tree.shown();
    if left == shown {
        return Ok(());
    }
    match after.spaces.get(&shown.0) {
        None => Ok(()),
        Some(site) => tell_focused(events, alloc, old, new, before.spaces.get(&left.0), site),
    }
}

/// Tells that a workspace is focused now, with the one that was.
fn tell_focused(
    events: &mut Vec<EventBody>,
    alloc: Global,
    old: &mut Viewer<'_>,
    new: &mut Viewer<'_>,
    left: Option<&Site<'_>>,
    site: &Site<'_>,
) -> Result<(), NoMemory>
    ensures events { OnOk result (events.new.items ≡ events.old.items ++ focus_event (option_map (space_view old.old.tree old.old.parts) (option_copied left.entry)) (Some (space_view new.old.tree new.old.parts site.now))) }
    ensures viewer { new.new ≡ new.old }
{
    match view_of(alloc, old, left) {
        Ok(before) => push_focus(events, alloc, new, site, before),
        Err(error) => Err(error),
    }
}

/// A workspace as events show it, where there is one.
fn view_of(
    alloc: Global,
    viewer: &mut Viewer<'_>,
    site: Option<&Site<'_>>,
) -> Result<Option<NodeView>, NoMemory>
    ensures { IfOk result (λ view. view ≡ option_map (space_view viewer.old.tree viewer.old.parts) (option_copied site.entry)) }
{
    let Some(site) = site else {
        return Ok(None);
    };
    match viewer.space(alloc, site) {
        Ok(view) => Ok(Some(view)),
        Err(error) => Err(error),
    }
}

/// Tells that this workspace is focused now, with the one that was.
fn push_focus(
    events: &mut Vec<EventBody>,
    alloc: Global,
    viewer: &mut Viewer<'_>,
    site: &Site<'_>,
    before: Option<NodeView>,
) -> Result<(), NoMemory>
    ensures events { OnOk result (events.new.items ≡ events.old.items ++ focus_event before (Some (space_view viewer.old.tree viewer.old.parts site.now))) }
    ensures viewer { viewer.new ≡ viewer.old }
{
    match viewer.space(alloc, site) {
        Ok(current) => push_views(events, alloc, current, before),
        Err(error) => {
            drop(before);
            Err(error)
        }
    }
}

fn push_views(
    events: &mut Vec<EventBody>,
    alloc: Global,
    current: NodeView,
    before: Option<NodeView>,
) -> Result<(), NoMemory>
    ensures { OnOk result (events.new.items ≡ events.old.items ++ focus_event before (Some current)) }
{
    match Change::Focus.word(alloc) {
        Ok(change) => {
            events.push(EventBody::Workspace {
                change,
                current,
                before,
            })?;
            Ok(())
        }
        Err(error) => {
            drop(current);
            drop(before);
            Err(error)
        }
    }
}

/// Tells of the focused container, where it is another one, and a window.
fn tell_window_focus(
    events: &mut Vec<EventBody>,
    alloc: Global,
    viewer: &mut Viewer<'_>,
    before: &Tree,
    after: &Tree,
) -> Result<(), NoMemory>
    requires after { IsSound after.now }
    requires tree { viewer.old.tree ≡ after.now }
    ensures { OnOk result (events.new.items ≡ events.old.items ++ window_focus before.now after.now viewer.old.parts) }
{
    let focused = after.focused();
    if before.focused() == focused {
        return Ok(());
    }
    match window_at(after, focused) {
        None => Ok(()),
        Some(window) => tell_window(events, alloc, viewer, &window, &[(true, Change::Focus)]),
    }
}
