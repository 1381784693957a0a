//! Copies of events, and the kinds of events.
ghost use Rattle.std.specs.Prelude.{◌≡◌, IfOk};
ghost use Rattle.wm_json.specs.Kinds.{kind_of};
ghost use Rattle.wm_json.specs.declared.views.EventBody.TheVariants.{Binding, Workspace, Window};

use crate::copies::{copy_str, copy_texts};
use crate::views::{EventBody, EventView, NodeView};
use std::alloc::Global;
use wm_base::{List, NoMemory, Str, Text};

/// The number of the type of an event that tells this, without the highest bit.
pub fn kind_of(body: &EventBody) -> u32
    ensures { result ≡ kind_of body.now }
{
    match body {
        EventBody::Workspace { .. } => 0,
        EventBody::Output => 1,
        EventBody::Mode { .. } => 2,
        EventBody::Window { .. } => 3,
        EventBody::Binding { .. } => 5,
        EventBody::Shutdown => 6,
        EventBody::Tick { .. } => 7,
    }
}

/// An equal node, where there is one.
fn copy_node_if(alloc: Global, node: &Option<NodeView>) -> Result<Option<NodeView>, NoMemory>
    ensures { IfOk result (λ copy. copy ≡ node.now) }
{
    match node {
        Some(node) => Ok(Some(node.copy(alloc)?)),
        None => Ok(None),
    }
}

/// The change of a workspace, told again.
fn copy_space(
    alloc: Global,
    change: &Str,
    current: &NodeView,
    before: &Option<NodeView>,
) -> Result<EventBody, NoMemory>
    ensures { IfOk result (λ copy. copy ≡ Workspace change.now current.now before.now) }
{
    let current = current.copy(alloc)?;
    match copy_left(alloc, change, before) {
        Ok((change, before)) => Ok(EventBody::Workspace {
            change,
            current,
            before,
        }),
        Err(error) => {
            drop(current);
            Err(error)
        }
    }
}

/// What changed and the workspace that was left.
fn copy_left(
    alloc: Global,
    change: &Str,
    before: &Option<NodeView>,
) -> Result<(Str, Option<NodeView>), NoMemory>
    ensures { IfOk result (λ copy. (copy.0 ≡ change.now) × (copy.1 ≡ before.now)) }
{
    let change = copy_str(alloc, change)?;
    let before = copy_node_if(alloc, before)?;
    Ok((change, before))
}

/// The change of a window, told again.
fn copy_window(alloc: Global, change: &Str, container: &NodeView) -> Result<EventBody, NoMemory>
    ensures { IfOk result (λ copy. copy ≡ Window change.now container.now) }
{
    let change = copy_str(alloc, change)?;
    let container = container.copy(alloc)?;
    Ok(EventBody::Window { change, container })
}

/// A binding that ran, told again.
fn copy_binding(
    alloc: Global,
    command: &Str,
    mask: &List<Text>,
    symbol: &Text,
) -> Result<EventBody, NoMemory>
    ensures { IfOk result (λ copy. copy ≡ Binding command.now mask.now symbol.now) }
{
    let command = copy_str(alloc, command)?;
    let event_state_mask = copy_texts(alloc, mask.items())?;
    let symbol = symbol.clone()?;
    Ok(EventBody::Binding {
        command,
        event_state_mask,
        symbol,
    })
}

impl EventBody {
    /// The same, told again.
    pub fn copy(&self, alloc: Global) -> Result<EventBody, NoMemory>
        ensures { IfOk result (λ copy. copy ≡ self.now) }
    {
        match self {
            EventBody::Output => Ok(EventBody::Output),
            EventBody::Workspace {
                change,
                current,
                before,
            } => copy_space(alloc, change, current, before),
            EventBody::Window { change, container } => copy_window(alloc, change, container),
            EventBody::Mode { change } => Ok(EventBody::Mode {
                change: change.clone()?,
            }),
            EventBody::Binding {
                command,
                event_state_mask,
                symbol,
            } => copy_binding(alloc, command, event_state_mask, symbol),
            EventBody::Tick { first, payload } => Ok(EventBody::Tick {
                first: *first,
                payload: copy_str(alloc, payload)?,
            }),
            EventBody::Shutdown => Ok(EventBody::Shutdown),
        }
    }
}

impl EventView {
    /// An equal event, its number too.
    pub fn copy(&self, alloc: Global) -> Result<EventView, NoMemory>
        ensures { IfOk result (λ copy. copy ≡ self.now) }
    {
        let body = self.body.copy(alloc)?;
        Ok(EventView {
            number: self.number,
            kind: self.kind,
            body,
        })
    }
}
