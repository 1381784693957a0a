//! Adding fields to the members of an object.
ghost use Rattle.std.specs.Prelude.{◌≡◌, [], option_map, IfOk, OnOk};
ghost use Rattle.serde_json.specs.Data.{boolean, object, put as with_member, string};
ghost use Rattle.serde_json.specs.View.{members_view, view};
ghost use Rattle.wm_json.specs.Objects.{integer, or_null, put_if, rect_data, whole_number};

use serde_json::{Map, Value, put};
use std::alloc::{AllocError, Global};
use wm_base::{Rect, Text};

/// Adds a field that is a text.
pub(crate) fn put_text(
    alloc: Global,
    members: &mut Map<String, Value>,
    key: &str,
    text: &str,
) -> Result<(), AllocError>
    ensures { OnOk result (members_view members.new.entries
        ≡ with_member key.now (string text.now) (members_view members.old.entries)) }
{
    put(members, alloc, key, Value::try_from_str(alloc, text)?)
}

/// Adds a field that is a text, where there is one.
pub(crate) fn put_text_if(
    alloc: Global,
    members: &mut Map<String, Value>,
    key: &str,
    text: &Option<Text>,
) -> Result<(), AllocError>
    ensures { OnOk result (members_view members.new.entries
        ≡ put_if key.now (option_map string text.now) (members_view members.old.entries)) }
{
    match text {
        Some(text) => put_text(alloc, members, key, text.as_str()),
        None => Ok(()),
    }
}

/// Adds a field that is a text, or null where there is none.
pub(crate) fn put_text_or_null(
    alloc: Global,
    members: &mut Map<String, Value>,
    key: &str,
    text: &Option<Text>,
) -> Result<(), AllocError>
    ensures { OnOk result (members_view members.new.entries
        ≡ with_member key.now (or_null string text.now) (members_view members.old.entries)) }
{
    match text {
        Some(text) => put_text(alloc, members, key, text.as_str()),
        None => put(members, alloc, key, Value::Null),
    }
}

/// Adds a field that is a whole number.
pub(crate) fn put_number(
    alloc: Global,
    members: &mut Map<String, Value>,
    key: &str,
    value: u64,
) -> Result<(), AllocError>
    ensures { OnOk result (members_view members.new.entries
        ≡ with_member key.now (whole_number value) (members_view members.old.entries)) }
{
    put(members, alloc, key, Value::from(value))
}

/// Adds a field that is a number, or null where there is none.
pub(crate) fn put_number_or_null(
    alloc: Global,
    members: &mut Map<String, Value>,
    key: &str,
    value: Option<u32>,
) -> Result<(), AllocError>
    ensures { OnOk result (members_view members.new.entries
        ≡ with_member key.now (or_null whole_number value) (members_view members.old.entries)) }
{
    match value {
        Some(value) => put(members, alloc, key, Value::from(value)),
        None => put(members, alloc, key, Value::Null),
    }
}

/// Adds a field that is an integer.
pub(crate) fn put_integer(
    alloc: Global,
    members: &mut Map<String, Value>,
    key: &str,
    value: i32,
) -> Result<(), AllocError>
    ensures { OnOk result (members_view members.new.entries
        ≡ with_member key.now (integer value) (members_view members.old.entries)) }
{
    put(members, alloc, key, Value::from(value))
}

/// Adds a field that is an integer, where there is one.
pub(crate) fn put_integer_if(
    alloc: Global,
    members: &mut Map<String, Value>,
    key: &str,
    value: Option<i32>,
) -> Result<(), AllocError>
    ensures { OnOk result (members_view members.new.entries
        ≡ put_if key.now (option_map integer value) (members_view members.old.entries)) }
{
    match value {
        Some(value) => put_integer(alloc, members, key, value),
        None => Ok(()),
    }
}

/// Adds a field that is true or false.
pub(crate) fn put_flag(
    alloc: Global,
    members: &mut Map<String, Value>,
    key: &str,
    flag: bool,
) -> Result<(), AllocError>
    ensures { OnOk result (members_view members.new.entries
        ≡ with_member key.now (boolean flag) (members_view members.old.entries)) }
{
    put(members, alloc, key, Value::from(flag))
}

/// Adds a field that is true or false, where there is one.
pub(crate) fn put_flag_if(
    alloc: Global,
    members: &mut Map<String, Value>,
    key: &str,
    flag: Option<bool>,
) -> Result<(), AllocError>
    ensures { OnOk result (members_view members.new.entries
        ≡ put_if key.now (option_map boolean flag) (members_view members.old.entries)) }
{
    match flag {
        Some(flag) => put_flag(alloc, members, key, flag),
        None => Ok(()),
    }
}

/// Adds the fields of a rectangle to no members.
fn put_sides(alloc: Global, members: &mut Map<String, Value>, r: &Rect) -> Result<(), AllocError>
    requires { members.old.entries ≡ [] }
    ensures { OnOk result (object (members_view members.new.entries) ≡ rect_data r.now) }
{
    put_number(alloc, members, "height", r.h.into())?;
    put_number(alloc, members, "width", r.w.into())?;
    put_integer(alloc, members, "x", r.x)?;
    put_integer(alloc, members, "y", r.y)
}

/// The object of a rectangle.
fn rect_value(alloc: Global, r: &Rect) -> Result<Value, AllocError>
    ensures { IfOk result (λ v. view v ≡ rect_data r.now) }
{
    let mut members = Map::new(alloc);
    put_sides(alloc, &mut members, r)?;
    Ok(Value::Object(members))
}

/// Adds a field that is a rectangle.
pub(crate) fn put_rect(
    alloc: Global,
    members: &mut Map<String, Value>,
    key: &str,
    r: &Rect,
) -> Result<(), AllocError>
    ensures { OnOk result (members_view members.new.entries
        ≡ with_member key.now (rect_data r.now) (members_view members.old.entries)) }
{
    put(members, alloc, key, rect_value(alloc, r)?)
}
