//! Lines of bindings and of modes.
ghost use Rattle.std.specs.Prelude.{◌≡◌, IfOk};
ghost use Rattle.wm_binds.specs.Lines.{bind_at, command_of, mode_at, opened_at};

use crate::entry::Entry;
use crate::words::{gap, name, passed_word, text_of};
use std::alloc::Global;
use wm_base::{NoMemory, Str, Text};
use wm_fields::{at_end, behind, quoted_text};

/// The chord runs the text, which is all to the end of the line.
fn command_line(alloc: Global, chord: Text, text: &[u8]) -> Result<Option<Entry>, NoMemory>
    ensures { IfOk result (λ entry. entry ≡ command_of chord text.now) }
{
    match text_of(text) {
        Some(text) if !text.is_empty() => {
            let text = String::from_str(alloc, text)?;
            Ok(Some(Entry::Key {
                chord,
                text: Str::of(text),
            }))
        }
        _ => Ok(None),
    }
}

/// `CHORD COMMAND`, to the end of the line. `--release` before either is passed over.
pub fn bind_line(alloc: Global, text: &[u8]) -> Result<Option<Entry>, NoMemory>
    ensures { IfOk result (λ entry. entry ≡ bind_at text.now) }
{
    let text = passed_word(text, b"--release");
    let Some((chord, rest)) = name(alloc, text)? else {
        return Ok(None);
    };
    match gap(rest) {
        Some(rest) => command_line(alloc, chord, passed_word(rest, b"--release")),
        None => Ok(None),
    }
}

/// `"NAME" {`, to the end of the line. `--pango_markup` before it is passed over.
pub fn mode_line(alloc: Global, text: &[u8]) -> Result<Option<Entry>, NoMemory>
    ensures { IfOk result (λ entry. entry ≡ mode_at text.now) }
{
    let text = passed_word(text, b"--pango_markup");
    match quoted_text(alloc, text)? {
        Some((name, rest)) => Ok(opened(name, rest)),
        None => Ok(None),
    }
}

/// The block of the mode begins, where ` {` is all that is left of the line.
fn opened(name: Text, text: &[u8]) -> Option<Entry>
    ensures { result ≡ opened_at name text.now }
{
    let rest = gap(text)?;
    let rest = behind(rest, b"{")?;
    at_end(rest, Entry::Mode(name))
}
