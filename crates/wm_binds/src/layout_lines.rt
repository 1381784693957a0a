//! Lines of saved layouts.
ghost use Rattle.std.specs.Prelude.{◌≡◌, IfOk, IfSome, None, OnOk};
ghost use Rattle.serde_json.specs.Errors.{IsMemory};
ghost use Rattle.serde_json.specs.View.{view};
ghost use Rattle.wm_binds.specs.Lines.{if_read, layout_at, layout_in, layout_of};
ghost use Rattle.wm_binds.specs.Fit.{IsFitLayout};
ghost use Rattle.wm_saved.specs.Limits as saved;

use crate::entry::Entry;
use crate::words::{gap, name, text_of};
use serde_json::{Error, Value};
use std::alloc::Global;
use wm_base::{NoMemory, Text};
use wm_saved::{LayoutRefusal, SavedLayout, read_layout};

/// `NAME JSON`, to the end of the line.
pub fn layout_line(alloc: Global, text: &[u8]) -> Result<Option<Entry>, NoMemory>
    ensures { IfOk result (λ entry. entry ≡ layout_at text.now) }
{
    match name(alloc, text)? {
        Some((name, rest)) => layout_in(alloc, name, rest),
        None => Ok(None),
    }
}

/// The layout of this name, whose JSON stands behind blanks, to the end of the line.
fn layout_in(alloc: Global, name: Text, text: &[u8]) -> Result<Option<Entry>, NoMemory>
    ensures { IfOk result (λ entry. entry ≡ layout_in name text.now) }
{
    let Some(rest) = gap(text) else {
        return Ok(None);
    };
    match layout_of(alloc, rest) {
        Ok(Some(layout)) => Ok(Some(Entry::Layout { name, layout })),
        Ok(None) => Ok(None),
        Err(error) => {
            drop(name);
            Err(error)
        }
    }
}

/// The layout that a JSON text describes. `None` exactly where it is no JSON, or describes none.
pub fn layout_of(alloc: Global, text: &[u8]) -> Result<Option<SavedLayout>, NoMemory>
    ensures value { IfOk result (λ layout. layout ≡ layout_of text.now) }
    ensures fit { IfOk result (λ layout. IfSome layout IsFitLayout) }
{
    let Some(text) = text_of(text) else {
        return Ok(None);
    };
    match Value::from_str(alloc, text) {
        Ok(value) => layout_from(alloc, &value),
        Err(error) => no_json(&error),
    }
}

/// No layout is described by a text that was refused, but for want of memory nothing is known of it.
fn no_json(error: &Error) -> Result<Option<SavedLayout>, NoMemory>
    ensures none { IfOk result (λ layout. layout ≡ None) }
    ensures refused { OnOk result (¬ IsMemory error.now) }
{
    if error.is_memory() {
        return Err(NoMemory);
    }
    Ok(None)
}

/// The layout that a JSON value describes.
fn layout_from(alloc: Global, value: &Value) -> Result<Option<SavedLayout>, NoMemory>
    ensures value { IfOk result (λ layout. layout ≡ if_read (saved.layout_at (view value.now))) }
    ensures fit { IfOk result (λ layout. IfSome layout IsFitLayout) }
{
    match read_layout(alloc, value) {
        Ok(layout) => Ok(Some(layout)),
        Err(LayoutRefusal::NoMemory) => Err(NoMemory),
        Err(_) => Ok(None),
    }
}
