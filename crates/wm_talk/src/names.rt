//! The names of events that a client asks to be told of.
ghost use Rattle.std.specs.Prelude.{◌≡◌, None, IfOk, OnOk};
ghost use Rattle.std.specs.Option.{option_map};
ghost use Rattle.serde_json.specs.Errors.{IsMemory};
ghost use Rattle.serde_json.specs.Read.{read};
ghost use Rattle.serde_json.specs.View.{items_view, view};
ghost use Rattle.wm_talk.specs.Names.{asks, has_name, is_named, names_in, value_of};

use crate::texts::text_of;
use serde_json::Value;
use std::alloc::Global;
use wm_base::NoMemory;

/// For each name of events, whether it is asked for.
#[derive(Clone, Copy, Debug, PartialEq, Eq)]
pub struct Names {
    pub workspace: bool,
    pub output: bool,
    pub mode: bool,
    pub window: bool,

    /// `barconfig_update`, of which no event comes.
    pub bars: bool,
    pub binding: bool,
    pub shutdown: bool,
    pub tick: bool,
}

/// The names of events that a payload asks for. `None` exactly where it is no JSON.
pub fn names_of(alloc: Global, payload: &[u8]) -> Result<Option<Names>, NoMemory>
    ensures { IfOk result (λ names. names ≡ option_map names_in (value_of payload.now)) }
{
    match text_of(payload) {
        Some(text) => names_of_text(alloc, text),
        None => Ok(None),
    }
}

/// The names of events that a text asks for. `None` exactly where it is no JSON.
fn names_of_text(alloc: Global, text: &str) -> Result<Option<Names>, NoMemory>
    ensures { IfOk result (λ names. names ≡ option_map names_in (read text.now)) }
{
    match Value::from_str(alloc, text) {
        Ok(value) => Ok(Some(names_in(&value))),
        Err(error) => no_json(&error),
    }
}

/// No names are asked for by a text that was refused, but for want of memory nothing is known of it.
fn no_json(error: &serde_json::Error) -> Result<Option<Names>, NoMemory>
    ensures none { IfOk result (λ names. names ≡ None) }
    ensures refused { OnOk result (¬ IsMemory error.now) }
{
    if error.is_memory() {
        return Err(NoMemory);
    }
    Ok(None)
}

/// The names of events that a value asks for.
fn names_in(value: &Value) -> Names
    ensures { result ≡ names_in (view value.now) }
{
    Names {
        workspace: asks(value, "workspace"),
        output: asks(value, "output"),
        mode: asks(value, "mode"),
        window: asks(value, "window"),
        bars: asks(value, "barconfig_update"),
        binding: asks(value, "binding"),
        shutdown: asks(value, "shutdown"),
        tick: asks(value, "tick"),
    }
}

/// Whether a value is an array with the text of this name in it.
fn asks(value: &Value, name: &str) -> bool
    ensures { result ≡ asks name.now (view value.now) }
{
    match value {
        Value::Array(items) => has_name(items.as_slice(), name),
        _ => false,
    }
}

/// Whether one of the items is the text of this name.
fn has_name(items: &[Value], name: &str) -> bool
    ensures { result ≡ has_name name.now (items_view items.now) }
{
    let mut rest = items;
    while let [value, after @ ..] = rest {
        if is_named(value, name) {
            return true;
        }
        rest = after;
    }
    false
}

/// Whether a value is the text of this name.
fn is_named(value: &Value, name: &str) -> bool
    ensures { result ≡ is_named name.now (view value.now) }
{
    match value {
        Value::String(text) => text.as_str() == name,
        _ => false,
    }
}
