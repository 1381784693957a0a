//! What a step tells beside the trees.
ghost use Rattle.std.specs.Prelude.{◌≡◌, ◌≤◌, ◌++◌, length, IfOk, OnOk};
ghost use Rattle.wm_history.specs.Effect.{mode_after};
ghost use Rattle.wm_history.specs.Events.{later_events, mode_events, own_events, stop_events};

use std::alloc::{AllocError, Global};
use wm_base::{NoMemory, Text};
use wm_json::EventBody;

/// The events of a step beside those of the trees, in this mode, of a desk that is stopped or not: the mode changed, a
/// tick came or a key was bound, or the desk became stopped. They are three at most.
#[tactic(auto, using(crate::proofs::EventLemmas::few_later))]
pub fn later_events(
    alloc: Global,
    mode: &Text,
    stopped: bool,
    set: &Option<Text>,
    stops: bool,
    event: Option<EventBody>,
) -> Result<Vec<EventBody>, NoMemory>
    ensures { IfOk result (λ events. events.items ≡ later_events mode.now stopped set.now stops event) }
{
    let mut events = Vec::new(alloc);
    if let Err(AllocError) = push_mode(&mut events, mode, set) {
        drop(event);
        return Err(NoMemory);
    }
    push_own(&mut events, event)?;
    push_stop(&mut events, stopped, stops)?;
    Ok(events)
}

/// Adds the event of the mode, where it changes.
fn push_mode(events: &mut Vec<EventBody>, mode: &Text, set: &Option<Text>) -> Result<(), AllocError>
    ensures { OnOk result (events.new.items ≡ events.old.items ++ mode_events mode.now (mode_after set.now mode.now)) }
{
    if let Some(set) = set
        && set.as_str() != mode.as_str()
    {
        events.push(EventBody::Mode {
            change: set.clone()?,
        })?;
    }
    Ok(())
}

/// Adds the event of the step itself, if any.
fn push_own(events: &mut Vec<EventBody>, event: Option<EventBody>) -> Result<(), AllocError>
    ensures { OnOk result (events.new.items ≡ events.old.items ++ own_events event) }
{
    if let Some(event) = event {
        events.push(event)?;
    }
    Ok(())
}

/// Adds the event of the end, where the desk becomes stopped.
fn push_stop(events: &mut Vec<EventBody>, stopped: bool, stops: bool) -> Result<(), AllocError>
    ensures { OnOk result (events.new.items ≡ events.old.items ++ stop_events stopped stops) }
{
    if !stopped && stops {
        events.push(EventBody::Shutdown)?;
    }
    Ok(())
}
