//! The lines that a modelled client says, and their bytes.
ghost use Rattle.std.specs.Prelude.{◌≡◌, ◌∷◌, ◌++◌, [], IfOk, OnOk, map, string_bytes};
ghost use Rattle.wm_habits.specs.Saying.{ack_text, buffer_text, line_bytes, mistaking, obeying, said_to};

use crate::asking::Asked;
use crate::habit::Habit;
use std::alloc::Global;
use wm_base::{ConId, NoMemory, Size};

/// The lines that a client of this habit says to a line that asks so.
pub fn said_to(alloc: Global, habit: Habit, asked: Option<Asked>) -> Result<Vec<String>, NoMemory>
    ensures { IfOk result (λ lines. map string_bytes lines.items ≡ said_to habit asked) }
{
    let Some(asked) = asked else {
        return Ok(Vec::new(alloc));
    };
    match habit {
        Habit::AtOnce | Habit::Late { .. } => obeying(alloc, asked),
        Habit::Never => Ok(Vec::new(alloc)),
        Habit::Wrong => mistaking(alloc, asked),
    }
}

/// The lines of a client that does what it is asked.
fn obeying(alloc: Global, asked: Asked) -> Result<Vec<String>, NoMemory>
    ensures { IfOk result (λ lines. map string_bytes lines.items ≡ obeying asked) }
{
    match asked {
        Asked::Configure { con, serial, size } => answer(alloc, con, serial, size),
        Asked::Kill { con } => {
            let close = format!(in alloc; "close {}", con.0)?;
            Ok(vec![in alloc; close]?)
        }
    }
}

/// The lines of a client that answers a configure by a serial and a buffer that nothing asked for.
fn mistaking(alloc: Global, asked: Asked) -> Result<Vec<String>, NoMemory>
    ensures { IfOk result (λ lines. map string_bytes lines.items ≡ mistaking asked) }
{
    match asked {
        Asked::Configure { con, .. } => answer(alloc, con, 0, Size { w: 0, h: 0 }),
        Asked::Kill { .. } => Ok(Vec::new(alloc)),
    }
}

/// The lines that acknowledge a serial and give a buffer of a size.
fn answer(alloc: Global, con: ConId, serial: u64, size: Size) -> Result<Vec<String>, NoMemory>
    ensures { IfOk result (λ lines. map string_bytes lines.items ≡ ack_text con serial ∷ buffer_text con size ∷ []) }
{
    let ack = format!(in alloc; "ack {} {serial}", con.0)?;
    let buffer = format!(in alloc; "buffer {} 0000ff {}x{}", con.0, size.w, size.h)?;
    Ok(vec![in alloc; ack, buffer]?)
}

/// The bytes of the lines, each with a line feed behind it.
pub fn bytes_of(alloc: Global, lines: &[String]) -> Result<Vec<u8>, NoMemory>
    ensures { IfOk result (λ bytes. bytes.items ≡ line_bytes (map string_bytes lines.now)) }
{
    let mut bytes = Vec::new(alloc);
    let mut rest = lines;
    while let [line, after @ ..] = rest {
        push_line(&mut bytes, line.as_str())?;
        rest = after;
    }
    Ok(bytes)
}

/// Adds a line and a line feed.
pub fn push_line(bytes: &mut Vec<u8>, line: &str) -> Result<(), NoMemory>
    ensures { OnOk result (bytes.new.items ≡ bytes.old.items ++ (line.now ++ (10 ∷ []))) }
{
    bytes.extend_from_slice(line.as_bytes())?;
    bytes.push(b'\n')?;
    Ok(())
}
