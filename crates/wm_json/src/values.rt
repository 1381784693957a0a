//! The values of single replies.
ghost use Rattle.std.specs.Prelude.{◌≡◌, [], false, IfOk, OnOk};
ghost use Rattle.serde_json.specs.Data.{object};
ghost use Rattle.serde_json.specs.View.{members_view, view};
ghost use Rattle.serde_json.specs.Written.{has_float, compact_text};
ghost use Rattle.wm_json.specs.Arrays.{texts_data, texts_text};
ghost use Rattle.wm_json.specs.Replies.{success_data, success_text, error_data, parse_error_data, version_data, VERSION_TEXT};

use crate::fields::{put_number, put_text};
use serde_json::{Map, Value, json};
use std::alloc::{AllocError, Global};
use wm_base::{NoMemory, Text};

/// The program's name and version.
pub const VERSION: &str = "i3replay 1.0.0";

/// The object that says whether something was done, `{"success":true}` or `{"success":false}`.
pub fn success_value(alloc: Global, b: bool) -> Result<Value, NoMemory>
    ensures value { IfOk result (λ v. view v ≡ success_data b) }
    ensures text { IfOk result (λ v. compact_text (view v) ≡ success_text b) }
    ensures whole { IfOk result (λ v. has_float (view v) ≡ false) }
{
    Ok(json!(in alloc; {"success": b})?)
}

/// The object of a failed command.
pub fn error_value(alloc: Global, text: &str) -> Result<Value, AllocError>
    ensures { IfOk result (λ v. view v ≡ error_data text.now) }
{
    json!(in alloc; {"error": text, "success": false})
}

/// The object of a command text that does not read.
pub fn parse_error_value(alloc: Global, text: &str) -> Result<Value, AllocError>
    ensures { IfOk result (λ v. view v ≡ parse_error_data text.now) }
{
    json!(in alloc; {"error": text, "parse_error": true, "success": false})
}

/// The object that names this program's version.
pub fn version_value(alloc: Global) -> Result<Value, NoMemory>
    ensures value { IfOk result (λ v. view v ≡ version_data) }
    ensures text { IfOk result (λ v. compact_text (view v) ≡ VERSION_TEXT) }
    ensures whole { IfOk result (λ v. has_float (view v) ≡ false) }
{
    let mut members = Map::new(alloc);
    put_version(alloc, &mut members)?;
    Ok(Value::Object(members))
}

/// Adds what names this program's version to no members.
fn put_version(alloc: Global, members: &mut Map<String, Value>) -> Result<(), AllocError>
    requires { members.old.entries ≡ [] }
    ensures { OnOk result (object (members_view members.new.entries) ≡ version_data) }
{
    put_text(alloc, members, "human_readable", VERSION)?;
    put_text(alloc, members, "loaded_config_file_name", "")?;
    put_number(alloc, members, "major", 1)?;
    put_number(alloc, members, "minor", 0)?;
    put_number(alloc, members, "patch", 0)
}

/// The array of these texts.
pub fn texts_value(alloc: Global, texts: &[Text]) -> Result<Value, NoMemory>
    ensures value { IfOk result (λ v. view v ≡ texts_data texts.now) }
    ensures text { IfOk result (λ v. compact_text (view v) ≡ texts_text texts.now) }
    ensures whole { IfOk result (λ v. has_float (view v) ≡ false) }
{
    let mut values = Vec::with_capacity(alloc, texts.len())?;
    for text in texts {
        values.push(Value::String(String::from_str(alloc, text.as_str())?))?;
    }
    Ok(Value::Array(values))
}
