//! Single tokens.
ghost use Rattle.std.specs.Prelude.{[], ◌∷◌, OnOk, decimal};
ghost use Rattle.std.specs.Fmt.{signed_decimal};
ghost use Rattle.json.specs.Token.{begin_array, begin_object, boolean, end_array, end_object, key, null, number, string};
ghost use Rattle.wm_written.specs.Sent.{Sends};

use json::{Token, Writer};
use std::alloc::AllocError;

/// Writes a name.
#[inline(always)]
pub(crate) fn name(out: &mut Writer, name: &str) -> Result<(), AllocError>
    ensures { OnOk result (Sends out.old out.new (key name.now ∷ [])) }
{
    out.key(name)
}

/// Writes a text.
#[inline(always)]
pub(crate) fn text(out: &mut Writer, text: &str) -> Result<(), AllocError>
    ensures { OnOk result (Sends out.old out.new (string text.now ∷ [])) }
{
    out.string(text)
}

/// Writes a number that is 0 or above.
#[inline(always)]
pub(crate) fn whole(out: &mut Writer, value: u32) -> Result<(), AllocError>
    ensures { OnOk result (Sends out.old out.new (number (decimal value) ∷ [])) }
{
    out.u64(value.into())
}

/// Writes a number.
#[inline(always)]
pub(crate) fn integer(out: &mut Writer, value: &i32) -> Result<(), AllocError>
    ensures { OnOk result (Sends out.old out.new (number (signed_decimal value.now) ∷ [])) }
{
    out.i64((*value).into())
}

/// Writes true or false.
#[inline(always)]
pub(crate) fn flag(out: &mut Writer, value: bool) -> Result<(), AllocError>
    ensures { OnOk result (Sends out.old out.new (boolean value ∷ [])) }
{
    out.token(Token::Bool(value))
}

/// Writes null.
#[inline(always)]
pub(crate) fn nothing(out: &mut Writer) -> Result<(), AllocError>
    ensures { OnOk result (Sends out.old out.new (null ∷ [])) }
{
    out.token(Token::Null)
}

/// Begins an object.
#[inline(always)]
pub(crate) fn open_object(out: &mut Writer) -> Result<(), AllocError>
    ensures { OnOk result (Sends out.old out.new (begin_object ∷ [])) }
{
    out.begin_object()
}

/// Ends an object.
#[inline(always)]
pub(crate) fn close_object(out: &mut Writer) -> Result<(), AllocError>
    ensures { OnOk result (Sends out.old out.new (end_object ∷ [])) }
{
    out.end_object()
}

/// Begins an array.
#[inline(always)]
pub(crate) fn open_array(out: &mut Writer) -> Result<(), AllocError>
    ensures { OnOk result (Sends out.old out.new (begin_array ∷ [])) }
{
    out.begin_array()
}

/// Ends an array.
#[inline(always)]
pub(crate) fn close_array(out: &mut Writer) -> Result<(), AllocError>
    ensures { OnOk result (Sends out.old out.new (end_array ∷ [])) }
{
    out.end_array()
}
