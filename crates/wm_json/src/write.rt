//! Writing values.
ghost use Rattle.std.specs.Prelude.{◌≡◌, ◌≤◌, false, Some, IfOk};
ghost use Rattle.serde_json.specs.Data.{depth};
ghost use Rattle.serde_json.specs.Read.{read, max_depth};
ghost use Rattle.serde_json.specs.View.{view};
ghost use Rattle.serde_json.specs.Written.{has_float, compact_text};
ghost use Rattle.wm_json.specs.Arrays.{texts_text};
ghost use Rattle.wm_json.specs.Replies.{replies_text};

use crate::replies::{Reply, replies_value};
use crate::values::texts_value;
use serde_json::Value;
use std::alloc::Global;
use wm_base::{NoMemory, Text};

/// The text of a value with no space, its objects' keys in byte order. It reads as the value.
pub fn compact(alloc: Global, v: &Value) -> Result<Vec<u8>, NoMemory>
    ensures text { IfOk result (λ bytes. has_float (view v.now) ≡ false → bytes.items ≡ compact_text (view v.now)) }
    ensures reads_back { IfOk result (λ bytes. depth (view v.now) ≤ max_depth → read bytes.items ≡ Some (view v.now)) }
{
    Ok(v.to_vec(alloc)?)
}

/// The text of the array of the replies.
pub fn replies_json(alloc: Global, r: &[Reply]) -> Result<Vec<u8>, NoMemory>
    ensures { IfOk result (λ bytes. bytes.items ≡ replies_text r.now) }
{
    let value = replies_value(alloc, r)?;
    compact(alloc, &value)
}

/// The text of the array of these texts.
pub fn texts_json(alloc: Global, texts: &[Text]) -> Result<Vec<u8>, NoMemory>
    ensures { IfOk result (λ bytes. bytes.items ≡ texts_text texts.now) }
{
    let value = texts_value(alloc, texts)?;
    compact(alloc, &value)
}
