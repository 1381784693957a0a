//! What a line from the server asks of a window.
ghost use Rattle.std.specs.Prelude.{◌≡◌};
ghost use Rattle.std.specs.Option.{option_map};
ghost use Rattle.wm_habits.specs.Asking.{asked_of, configure_at, kill_at};
ghost use Rattle.wm_fields.specs.Fields.{size_at};

use wm_base::{ConId, Size};
use wm_fields::{at_end, behind, number, serial};

/// The greatest side in pixels.
const MAX_SIDE: u32 = 16384;

/// What a line from the server asks of a window.
#[derive(Clone, Copy, Debug, PartialEq, Eq)]
pub enum Asked {
    /// That it has another size, under this serial.
    Configure { con: ConId, serial: u64, size: Size },

    /// That it closes.
    Kill { con: ConId },
}

/// What a line asks. There is nothing exactly where it is neither `configure ID SERIAL WxH` nor `kill ID NUMBER`.
pub fn asked_in(line: &[u8]) -> Option<Asked>
    ensures { result ≡ asked_of line.now }
{
    if let Some(rest) = behind(line, b"configure ") {
        return configure(rest);
    }
    let rest = behind(line, b"kill ")?;
    kill(rest)
}

/// `ID SERIAL WxH`, to the end of the line.
fn configure(text: &[u8]) -> Option<Asked>
    ensures { result ≡ configure_at text.now }
{
    let (id, rest) = number(text, u32::MAX)?;
    let rest = behind(rest, b" ")?;
    let (serial, rest) = serial(rest)?;
    let rest = behind(rest, b" ")?;
    let (size, rest) = size(rest)?;
    let con = ConId(id);
    at_end(rest, Asked::Configure { con, serial, size })
}

/// `ID NUMBER`, to the end of the line.
fn kill(text: &[u8]) -> Option<Asked>
    ensures { result ≡ kill_at text.now }
{
    let (id, rest) = number(text, u32::MAX)?;
    let rest = behind(rest, b" ")?;
    let (_, rest) = serial(rest)?;
    at_end(rest, Asked::Kill { con: ConId(id) })
}

/// A width and a height in pixels, and what follows them.
fn size(text: &[u8]) -> Option<(Size, &[u8])>
    ensures { option_map (λ found. (found.0, found.1.now)) result ≡ size_at text.now }
{
    let (w, rest) = number(text, MAX_SIDE)?;
    let rest = behind(rest, b"x")?;
    let (h, rest) = number(rest, MAX_SIDE)?;
    Some((Size { w, h }, rest))
}
