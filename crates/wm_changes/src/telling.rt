//! The events of one window and of one workspace.
ghost use Rattle.std.specs.Prelude.{◌≡◌, ◌∷◌, ◌++◌, [], OnOk};
ghost use Rattle.wm_changes.specs.Changes.{space_event, space_view, told, window_event, window_view};

use crate::spaces::Site;
use crate::viewer::Viewer;
use crate::windows::Found;
use crate::words::Change;
use std::alloc::Global;
use wm_base::NoMemory;
use wm_json::EventBody;

/// Tells the words that hold of a window.
#[tactic(auto, using(crate::proofs::ToldLemmas::told_more))]
pub fn tell_window(
    events: &mut Vec<EventBody>,
    alloc: Global,
    viewer: &mut Viewer<'_>,
    window: &Found<'_>,
    words: &[(bool, Change)],
) -> Result<(), NoMemory>
    ensures events { OnOk result (events.new.items ≡ events.old.items ++ told (window_event (window_view viewer.old.tree viewer.old.parts window.now)) words.now) }
    ensures viewer { viewer.new ≡ viewer.old }
{
    let mut rest = words;
    while let [(holds, change), after @ ..] = rest {
        if *holds {
            push_window(events, alloc, viewer, window, *change)?;
        }
        rest = after;
    }
    Ok(())
}

fn push_window(
    events: &mut Vec<EventBody>,
    alloc: Global,
    viewer: &mut Viewer<'_>,
    window: &Found<'_>,
    change: Change,
) -> Result<(), NoMemory>
    ensures events { OnOk result (events.new.items ≡ events.old.items ++ window_event (window_view viewer.old.tree viewer.old.parts window.now) change ∷ []) }
    ensures viewer { viewer.new ≡ viewer.old }
{
    let word = change.word(alloc)?;
    match viewer.window(alloc, window) {
        Ok(container) => {
            events.push(EventBody::Window {
                change: word,
                container,
            })?;
            Ok(())
        }
        Err(error) => Err(error),
    }
}

/// Tells a word of a workspace, where it holds.
pub fn tell_space(
    events: &mut Vec<EventBody>,
    alloc: Global,
    viewer: &mut Viewer<'_>,
    site: &Site<'_>,
    holds: bool,
    change: Change,
) -> Result<(), NoMemory>
    ensures events { OnOk result (events.new.items ≡ events.old.items ++ told (space_event (space_view viewer.old.tree viewer.old.parts site.now)) ((holds, change) ∷ [])) }
    ensures viewer { viewer.new ≡ viewer.old }
{
    if holds {
        return push_space(events, alloc, viewer, site, change);
    }
    Ok(())
}

fn push_space(
    events: &mut Vec<EventBody>,
    alloc: Global,
    viewer: &mut Viewer<'_>,
    site: &Site<'_>,
    change: Change,
) -> Result<(), NoMemory>
    ensures events { OnOk result (events.new.items ≡ events.old.items ++ space_event (space_view viewer.old.tree viewer.old.parts site.now) change ∷ []) }
    ensures viewer { viewer.new ≡ viewer.old }
{
    let word = change.word(alloc)?;
    match viewer.space(alloc, site) {
        Ok(current) => {
            events.push(EventBody::Workspace {
                change: word,
                current,
                before: None,
            })?;
            Ok(())
        }
        Err(error) => Err(error),
    }
}
