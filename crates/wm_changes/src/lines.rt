//! The lines of events: workspaces and windows that are there now, and those that are gone.
ghost use Rattle.std.specs.Prelude.{◌≡◌, ◌++◌, OnOk, flat_map};
ghost use Rattle.std.specs.BTreeMap.{values};
ghost use Rattle.std.specs.Map.{values_of};
ghost use Rattle.wm_changes.specs.Changes.{close_line, empty_line, space_line, told, window_event, window_line, window_view};
ghost use Rattle.wm_changes.specs.Differences.{differences};
ghost use Rattle.wm_changes.specs.Differing.{IsDiffering, here_line, lost_line};
ghost use Rattle.wm_changes.specs.Facts.{spaces, windows};
ghost use Rattle.wm_changes.specs.Scene.{IsScene};

use crate::comparing::{is_filled, is_floated, is_marked, is_moved, is_retitled};
use crate::differing::{Differing, is_urged};
use crate::scene::Scene;
use crate::spaces::Site;
use crate::telling::{tell_space, tell_window};
use crate::viewer::Viewer;
use crate::windows::Found;
use crate::words::Change;
use std::alloc::Global;
use wm_base::NoMemory;
use wm_json::EventBody;
use wm_tree::Tree;

/// Tells of the workspaces that are new, or have another name or output.
#[tactic(auto, using(crate::proofs::ToldLemmas::lines_more))]
pub fn tell_spaces(
    events: &mut Vec<EventBody>,
    alloc: Global,
    viewer: &mut Viewer<'_>,
    before: &Scene<'_>,
    after: &Scene<'_>,
) -> Result<(), NoMemory>
    requires before { IsScene before.now }
    requires after { IsScene after.now }
    ensures events { OnOk result (events.new.items ≡ events.old.items ++ flat_map (space_line before.now.tree.now viewer.old.tree viewer.old.parts) (values_of (spaces after.now.tree.now))) }
    ensures viewer { viewer.new ≡ viewer.old }
{
    for site in after.spaces.values() {
        tell_site(events, alloc, viewer, before, site)?;
    }
    Ok(())
}

/// Tells of a workspace, where it is new, or has another name or output.
#[tactic(auto, using(crate::proofs::ToldLemmas::two_told))]
fn tell_site(
    events: &mut Vec<EventBody>,
    alloc: Global,
    viewer: &mut Viewer<'_>,
    before: &Scene<'_>,
    site: &Site<'_>,
) -> Result<(), NoMemory>
    requires { IsScene before.now }
    ensures events { OnOk result (events.new.items ≡ events.old.items ++ space_line before.now.tree.now viewer.old.tree viewer.old.parts site.now) }
    ensures viewer { viewer.new ≡ viewer.old }
{
    match before.spaces.get(&site.part.id.0) {
        None => tell_space(events, alloc, viewer, site, true, Change::Init),
        Some(old) => {
            let renamed = old.state.name.as_str() != site.state.name.as_str();
            let moved = old.output_id != site.output_id;
            tell_space(events, alloc, viewer, site, renamed, Change::Rename)?;
            tell_space(events, alloc, viewer, site, moved, Change::Move)
        }
    }
}

/// Tells of the windows that are new, or differ from what they were.
#[tactic(auto, using(crate::proofs::DifferingLemmas::here_lines))]
pub fn tell_windows(
    events: &mut Vec<EventBody>,
    alloc: Global,
    viewer: &mut Viewer<'_>,
    before: &Scene<'_>,
    after: &Scene<'_>,
    found: &Differing<'_, '_>,
) -> Result<(), NoMemory>
    requires before { IsScene before.now }
    requires after { IsScene after.now }
    requires found { IsDiffering before.now.tree.now after.now.tree.now found.now }
    requires tree { viewer.old.tree ≡ after.now.tree.now }
    ensures events { OnOk result (events.new.items ≡ events.old.items ++ flat_map (window_line before.now.tree.now after.now.tree.now viewer.old.parts) (values_of (windows after.now.tree.now))) }
    ensures viewer { viewer.new ≡ viewer.old }
{
    tell_differing(events, alloc, viewer, before, after, found)
}

/// Tells of the windows that may differ, each where it is new, or differs from what it was.
#[tactic(auto, using(crate::proofs::ToldLemmas::lines_more))]
fn tell_differing(
    events: &mut Vec<EventBody>,
    alloc: Global,
    viewer: &mut Viewer<'_>,
    before: &Scene<'_>,
    after: &Scene<'_>,
    found: &Differing<'_, '_>,
) -> Result<(), NoMemory>
    requires before { IsScene before.now }
    requires after { IsScene after.now }
    requires tree { viewer.old.tree ≡ after.now.tree.now }
    ensures events { OnOk result (events.new.items ≡ events.old.items ++ flat_map (here_line before.now.tree.now after.now.tree.now viewer.old.parts found.now.before.entries) (values_of found.now.after.entries)) }
    ensures viewer { viewer.new ≡ viewer.old }
{
    for window in found.after.values() {
        tell_found(events, alloc, viewer, before, after, found, window)?;
    }
    Ok(())
}

/// Tells of a window, where it is new, or differs from what it was.
fn tell_found(
    events: &mut Vec<EventBody>,
    alloc: Global,
    viewer: &mut Viewer<'_>,
    before: &Scene<'_>,
    after: &Scene<'_>,
    found: &Differing<'_, '_>,
    window: &Found<'_>,
) -> Result<(), NoMemory>
    requires before { IsScene before.now }
    requires after { IsScene after.now }
    requires tree { viewer.old.tree ≡ after.now.tree.now }
    ensures events { OnOk result (events.new.items ≡ events.old.items ++ here_line before.now.tree.now after.now.tree.now viewer.old.parts found.now.before.entries window.now) }
    ensures viewer { viewer.new ≡ viewer.old }
{
    match found.before.get(&window.part.id.0) {
        None => tell_window(events, alloc, viewer, window, &[(true, Change::New)]),
        Some(old) => tell_differences(events, alloc, viewer, before, after, old, window),
    }
}

/// Tells what differs in a window.
fn tell_differences(
    events: &mut Vec<EventBody>,
    alloc: Global,
    viewer: &mut Viewer<'_>,
    before: &Scene<'_>,
    after: &Scene<'_>,
    old: &Found<'_>,
    window: &Found<'_>,
) -> Result<(), NoMemory>
    requires before { IsScene before.now }
    requires after { IsScene after.now }
    requires tree { viewer.old.tree ≡ after.now.tree.now }
    ensures events { OnOk result (events.new.items ≡ events.old.items ++ told (window_event (window_view after.now.tree.now viewer.old.parts window.now)) (differences before.now.tree.now after.now.tree.now old.now window.now)) }
    ensures viewer { viewer.new ≡ viewer.old }
{
    let words = [
        (is_retitled(old, window), Change::Title),
        (is_moved(old, window), Change::Move),
        (is_floated(old, window), Change::Floating),
        (is_filled(old, window), Change::FullscreenMode),
        (is_urged(before, after, window.part.id), Change::Urgent),
        (is_marked(old, window), Change::Mark),
    ];
    tell_window(events, alloc, viewer, window, &words)
}

/// Tells of the windows that are gone.
#[tactic(auto, using(crate::proofs::DifferingLemmas::gone_lines))]
pub fn tell_closed(
    events: &mut Vec<EventBody>,
    alloc: Global,
    viewer: &mut Viewer<'_>,
    before: &Tree,
    after: &Tree,
    found: &Differing<'_, '_>,
) -> Result<(), NoMemory>
    requires found { IsDiffering before.now after.now found.now }
    requires tree { viewer.old.tree ≡ before.now }
    ensures events { OnOk result (events.new.items ≡ events.old.items ++ flat_map (close_line before.now viewer.old.parts after.now) (values_of (windows before.now))) }
    ensures viewer { viewer.new ≡ viewer.old }
{
    tell_lost(events, alloc, viewer, found)
}

/// Tells of the windows that may differ, each where it is gone.
#[tactic(auto, using(crate::proofs::ToldLemmas::lines_more))]
fn tell_lost(
    events: &mut Vec<EventBody>,
    alloc: Global,
    viewer: &mut Viewer<'_>,
    found: &Differing<'_, '_>,
) -> Result<(), NoMemory>
    ensures events { OnOk result (events.new.items ≡ events.old.items ++ flat_map (lost_line viewer.old.tree viewer.old.parts found.now.after.entries) (values_of found.now.before.entries)) }
    ensures viewer { viewer.new ≡ viewer.old }
{
    for window in found.before.values() {
        let gone = found.after.get(&window.part.id.0).is_none();
        tell_window(events, alloc, viewer, window, &[(gone, Change::Close)])?;
    }
    Ok(())
}

/// Tells of the workspaces that are gone.
#[tactic(auto, using(crate::proofs::ToldLemmas::lines_more))]
pub fn tell_emptied(
    events: &mut Vec<EventBody>,
    alloc: Global,
    viewer: &mut Viewer<'_>,
    before: &Scene<'_>,
    after: &Scene<'_>,
) -> Result<(), NoMemory>
    requires before { IsScene before.now }
    requires after { IsScene after.now }
    ensures events { OnOk result (events.new.items ≡ events.old.items ++ flat_map (empty_line viewer.old.tree viewer.old.parts after.now.tree.now) (values_of (spaces before.now.tree.now))) }
    ensures viewer { viewer.new ≡ viewer.old }
{
    for site in before.spaces.values() {
        let gone = after.spaces.get(&site.part.id.0).is_none();
        tell_space(events, alloc, viewer, site, gone, Change::Empty)?;
    }
    Ok(())
}
