//! Names in a line: what stands in their place, and lines that set one.
ghost use Rattle.std.specs.Prelude.{◌≡◌, ◌++◌, ◌≤◌, length, IfErr, IfOk, IfSome, OnOk};
ghost use Rattle.std.specs.Option.{option_copied};
ghost use Rattle.wm_binds.specs.Letters.{found};
ghost use Rattle.wm_binds.specs.LettersReading.{IsTooLong, IsValueTooLong};
ghost use Rattle.wm_binds.specs.Naming.{name_length, put_in, replaced, set_at, set_line, value_of};

use crate::draft::LineRefusal;
use crate::names::Names;
use crate::words::{gap, past_blanks, word, word_then};
use std::alloc::{AllocError, Global};
use wm_base::{List, Text};
use wm_fields::behind;

/// A name without its `$`, and what stands in its place.
#[derive(Drop)]
pub(crate) struct Name {
    pub name: Text,
    pub value: List<u8>,
}

/// What follows the word `set` at the front of a line.
pub fn set_line(text: &[u8]) -> Option<&[u8]>
    ensures { option_copied result ≡ set_line text.now }
{
    word_then(past_blanks(text), b"set")
}

/// The text with the values of its names, where that has so many bytes at most. What is put in is not read again.
pub fn replaced(
    alloc: Global,
    names: &Names,
    room: usize,
    text: &[u8],
) -> Result<Vec<u8>, LineRefusal>
    ensures value { IfOk result (λ bytes. bytes.items ≡ replaced (found names.now) text.now) }
    ensures room { IfOk result (λ bytes. length bytes.items ≤ room) }
    ensures cause { IfErr result (IsTooLong room (replaced (found names.now) text.now)) }
{
    let mut bytes = Vec::new(alloc);
    let mut skipped = 0usize;
    let mut rest = text;
    while let [c, after @ ..] = rest {
        if skipped > 0 {
            skipped -= 1;
        } else if *c == b'$' {
            skipped = put_in(names, after, &mut bytes)?;
        } else {
            bytes.push(*c)?;
        }
        if bytes.len() > room {
            return Err(LineRefusal::Outside);
        }
        rest = after;
    }
    Ok(bytes)
}

/// Adds what stands in the place of a `$` with this text behind it, and says how many bytes the name has.
fn put_in(names: &Names, text: &[u8], said: &mut Vec<u8>) -> Result<usize, AllocError>
    ensures said { OnOk result (said.new.items ≡ said.old.items ++ put_in (found names.now text.now)) }
    ensures length { IfOk result (λ length. length ≡ name_length (found names.now text.now)) }
{
    match names.longest(text) {
        Some((length, value)) => {
            said.extend_from_slice(value)?;
            Ok(length)
        }
        None => {
            said.push(b'$')?;
            Ok(0)
        }
    }
}

/// `$NAME VALUE`, to the end of the line. The value has its names replaced, and so many bytes at most.
pub fn name_set(
    alloc: Global,
    names: &Names,
    room: usize,
    text: &[u8],
) -> Result<Option<Name>, LineRefusal>
    ensures name { IfOk result (λ name. name ≡ set_at (found names.now) text.now) }
    ensures room { IfOk result (λ name. IfSome name (λ n. length n.value ≤ room)) }
    ensures cause { IfErr result (IsValueTooLong room (set_at (found names.now) text.now)) }
{
    let Some(text) = behind(text, b"$") else {
        return Ok(None);
    };
    let Some((name, rest)) = word(alloc, text)? else {
        return Ok(None);
    };
    match gap(rest) {
        Some(rest) => with_value(alloc, names, room, name, rest),
        None => Ok(None),
    }
}

/// The name with its value, which is all to the end of the line, and has so many bytes at most.
fn with_value(
    alloc: Global,
    names: &Names,
    room: usize,
    name: Text,
    text: &[u8],
) -> Result<Option<Name>, LineRefusal>
    ensures set { IfOk result (λ set. set ≡ value_of (found names.now) name text.now) }
    ensures room { IfOk result (λ set. IfSome set (λ n. length n.value ≤ room)) }
    ensures cause { IfErr result (IsValueTooLong room (value_of (found names.now) name text.now)) }
{
    if name.as_str().is_empty() || text.is_empty() {
        return Ok(None);
    }
    match replaced(alloc, names, room, text) {
        Ok(value) => Ok(Some(Name {
            name,
            value: List::of(value),
        })),
        Err(refusal) => {
            drop(name);
            Err(refusal)
        }
    }
}
