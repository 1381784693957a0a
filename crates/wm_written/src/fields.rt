//! Fields of objects: a name and what stands there.
ghost use Rattle.std.specs.Prelude.{Some, option_map, OnOk};
ghost use Rattle.serde_json.specs.Data.{boolean, null, string};
ghost use Rattle.wm_json.specs.Arrays.{texts_data};
ghost use Rattle.wm_json.specs.Objects.{array_with, integer, or_null, rect_data, rect_fields, whole_number};
ghost use Rattle.wm_written.specs.Sent.{Sends, sent_fields, sent_if};

use crate::tokens::{
    close_array, close_object, flag, integer, name, nothing, open_array, open_object, text, whole,
};
use json::Writer;
use std::alloc::AllocError;
use wm_base::{Rect, Text};

/// Writes a field that is a text.
pub(crate) fn put_text(out: &mut Writer, field: &str, value: &str) -> Result<(), AllocError>
    ensures { OnOk result (Sends out.old out.new (sent_if field.now (Some (string value.now)))) }
{
    name(out, field)?;
    text(out, value)
}

/// Writes a field that is a text, where there is one.
pub(crate) fn put_text_if(
    out: &mut Writer,
    field: &str,
    value: &Option<Text>,
) -> Result<(), AllocError>
    ensures { OnOk result (Sends out.old out.new (sent_if field.now (option_map string value.now))) }
{
    match value {
        Some(value) => put_text(out, field, value.as_str()),
        None => Ok(()),
    }
}

/// Writes a field that is a text, or null where there is none.
pub(crate) fn put_text_or_null(
    out: &mut Writer,
    field: &str,
    value: &Option<Text>,
) -> Result<(), AllocError>
    ensures { OnOk result (Sends out.old out.new (sent_if field.now (Some (or_null string value.now)))) }
{
    match value {
        Some(value) => put_text(out, field, value.as_str()),
        None => put_null(out, field),
    }
}

/// Writes a field that is null.
pub(crate) fn put_null(out: &mut Writer, field: &str) -> Result<(), AllocError>
    ensures { OnOk result (Sends out.old out.new (sent_if field.now (Some null))) }
{
    name(out, field)?;
    nothing(out)
}

/// Writes a field that is a whole number.
pub(crate) fn put_number(out: &mut Writer, field: &str, value: u32) -> Result<(), AllocError>
    ensures { OnOk result (Sends out.old out.new (sent_if field.now (Some (whole_number value)))) }
{
    name(out, field)?;
    whole(out, value)
}

/// Writes a field that is a whole number, or null where there is none.
pub(crate) fn put_number_or_null(
    out: &mut Writer,
    field: &str,
    value: Option<u32>,
) -> Result<(), AllocError>
    ensures { OnOk result (Sends out.old out.new (sent_if field.now (Some (or_null whole_number value)))) }
{
    match value {
        Some(value) => put_number(out, field, value),
        None => put_null(out, field),
    }
}

/// Writes a field that is a number.
pub(crate) fn put_integer(out: &mut Writer, field: &str, value: &i32) -> Result<(), AllocError>
    ensures { OnOk result (Sends out.old out.new (sent_if field.now (Some (integer value.now)))) }
{
    name(out, field)?;
    integer(out, value)
}

/// Writes a field that is a number, where there is one.
pub(crate) fn put_integer_if(
    out: &mut Writer,
    field: &str,
    value: &Option<i32>,
) -> Result<(), AllocError>
    ensures { OnOk result (Sends out.old out.new (sent_if field.now (option_map integer value.now))) }
{
    match value {
        Some(value) => put_integer(out, field, value),
        None => Ok(()),
    }
}

/// Writes a field that is true or false.
pub(crate) fn put_flag(out: &mut Writer, field: &str, value: bool) -> Result<(), AllocError>
    ensures { OnOk result (Sends out.old out.new (sent_if field.now (Some (boolean value)))) }
{
    name(out, field)?;
    flag(out, value)
}

/// Writes a field that is true or false, where there is one.
pub(crate) fn put_flag_if(
    out: &mut Writer,
    field: &str,
    value: Option<bool>,
) -> Result<(), AllocError>
    ensures { OnOk result (Sends out.old out.new (sent_if field.now (option_map boolean value))) }
{
    match value {
        Some(value) => put_flag(out, field, value),
        None => Ok(()),
    }
}

/// Writes the fields of a rectangle.
fn put_sides(out: &mut Writer, r: &Rect) -> Result<(), AllocError>
    ensures { OnOk result (Sends out.old out.new (sent_fields (rect_fields r.now))) }
{
    put_number(out, "height", r.h)?;
    put_number(out, "width", r.w)?;
    put_integer(out, "x", &r.x)?;
    put_integer(out, "y", &r.y)
}

/// Writes a field that is a rectangle.
pub(crate) fn put_rect(out: &mut Writer, field: &str, r: &Rect) -> Result<(), AllocError>
    ensures { OnOk result (Sends out.old out.new (sent_if field.now (Some (rect_data r.now)))) }
{
    name(out, field)?;
    open_object(out)?;
    put_sides(out, r)?;
    close_object(out)
}

/// Writes a field that is an array of whole numbers.
pub(crate) fn put_numbers(out: &mut Writer, field: &str, values: &[u32]) -> Result<(), AllocError>
    ensures { OnOk result (Sends out.old out.new (sent_if field.now (Some (array_with whole_number values.now)))) }
{
    name(out, field)?;
    open_array(out)?;
    for value in values {
        whole(out, *value)?;
    }
    close_array(out)
}

/// Writes a field that is an array of texts.
pub(crate) fn put_texts(out: &mut Writer, field: &str, values: &[Text]) -> Result<(), AllocError>
    ensures { OnOk result (Sends out.old out.new (sent_if field.now (Some (texts_data values.now)))) }
{
    name(out, field)?;
    open_array(out)?;
    for value in values {
        text(out, value.as_str())?;
    }
    close_array(out)
}
