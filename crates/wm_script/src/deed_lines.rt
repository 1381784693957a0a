//! Lines by which callers do something: they run texts, press chords, paint, look, and take steps.
ghost use Rattle.std.specs.Prelude.{◌≡◌, ◌≤◌, IfOk, IfSome, length};
ghost use Rattle.wm_script.specs.Lines.{deed_of, key_at, look_line_of, other_deed_of, run_at, wants_at, IsFitDeed};

use crate::line::Deed;
use std::alloc::Global;
use wm_base::{NoMemory, Str};
use wm_binds::text_of;
use wm_core::Query;
use wm_fields::{at_end, behind, gap, name, serial, word_then};
use wm_lines::step_line;

/// What a line does. `None` exactly where it is none of these lines.
pub fn deed_line(alloc: Global, text: &[u8]) -> Result<Option<Deed>, NoMemory>
    requires { length text.now ≤ 16777216 }
    ensures value { IfOk result (λ deed. deed ≡ deed_of text.now) }
    ensures fit { IfOk result (λ deed. IfSome deed IsFitDeed) }
{
    if let Some(rest) = word_then(text, b"run") {
        return run_line(alloc, rest);
    }
    if let Some(rest) = word_then(text, b"key") {
        return key_line(alloc, rest);
    }
    if let Some(rest) = behind(text, b"paint") {
        return Ok(at_end(rest, Deed::Paint));
    }
    match look_line(text) {
        Some(deed) => Ok(Some(deed)),
        None => other_line(alloc, text),
    }
}

/// What a line does that takes a step of another kind.
fn other_line(alloc: Global, text: &[u8]) -> Result<Option<Deed>, NoMemory>
    ensures value { IfOk result (λ deed. deed ≡ other_deed_of text.now) }
    ensures fit { IfOk result (λ deed. IfSome deed IsFitDeed) }
{
    match step_line(alloc, text)? {
        Some(step) => Ok(Some(Deed::Do(step))),
        None => Ok(None),
    }
}

/// A text of commands, to the end of the line.
fn run_line(alloc: Global, text: &[u8]) -> Result<Option<Deed>, NoMemory>
    requires { length text.now ≤ 16777216 }
    ensures value { IfOk result (λ deed. deed ≡ run_at text.now) }
    ensures fit { IfOk result (λ deed. IfSome deed IsFitDeed) }
{
    match text_of(text) {
        Some(text) => Ok(Some(Deed::Run(Str::of(String::from_str(alloc, text)?)))),
        None => Ok(None),
    }
}

/// `CHORD`, to the end of the line.
fn key_line(alloc: Global, text: &[u8]) -> Result<Option<Deed>, NoMemory>
    ensures value { IfOk result (λ deed. deed ≡ key_at text.now) }
    ensures fit { IfOk result (λ deed. IfSome deed IsFitDeed) }
{
    match name(alloc, text)? {
        Some((chord, rest)) => Ok(at_end(rest, Deed::Key(chord))),
        None => Ok(None),
    }
}

/// What a line looks at.
fn look_line(text: &[u8]) -> Option<Deed>
    ensures value { result ≡ look_line_of text.now }
    ensures fit { IfSome result IsFitDeed }
{
    if let Some(rest) = behind(text, b"tree") {
        return at_end(rest, Deed::Look(Query::Tree));
    }
    if let Some(rest) = behind(text, b"workspaces") {
        return at_end(rest, Deed::Look(Query::Workspaces));
    }
    if let Some(rest) = behind(text, b"outputs") {
        return at_end(rest, Deed::Look(Query::Outputs));
    }
    if let Some(rest) = behind(text, b"marks") {
        return at_end(rest, Deed::Look(Query::Marks));
    }
    wants_line(word_then(text, b"wants")?)
}

/// `SERIAL KILL`, to the end of the line.
fn wants_line(text: &[u8]) -> Option<Deed>
    ensures value { result ≡ wants_at text.now }
    ensures fit { IfSome result IsFitDeed }
{
    let (serial_above, rest) = serial(text)?;
    let (kill, rest) = serial(gap(rest)?)?;
    let query = Query::Wants {
        serial: serial_above,
        kill,
    };
    at_end(rest, Deed::Look(query))
}
