//! What the programs of cases share: the words of a line, the bytes that a text of data stands for, the line that shows
//! bytes, and why a line is not done.
#![tactic(auto)]

mod fault;
mod words;

pub use fault::Fault;
use std::alloc::{AllocError, Global};
pub use words::{Words, number_of};

/// What the byte that follows is a part of.
#[derive(Clone, Copy, Debug)]
enum Part {
    /// The text itself.
    Plain,
    /// What stands behind a backslash.
    Escape,
    /// The first digit of a byte.
    High,
    /// The second digit of a byte, behind this first one.
    Low(u8),
    /// How often the byte before is there, so far.
    Times(usize),
}

/// The bytes that a text stands for. `\n`, `\t`, `\\` and `\"` are what they are elsewhere, `\xNN` is the byte of two
/// hexadecimal digits, and `\{N}` behind a byte says that the byte is there N times in all. Any other backslash
/// stands for itself.
pub fn bytes_of(alloc: Global, text: &str) -> Result<Vec<u8>, AllocError> {
    let mut bytes = Vec::new(alloc);
    let mut part = Part::Plain;
    for byte in text.as_bytes() {
        part = take(part, *byte, &mut bytes)?;
    }
    if matches!(part, Part::Escape) {
        bytes.push(b'\\')?;
    }
    Ok(bytes)
}

/// The text that a text of data stands for.
pub fn string_of(alloc: Global, data: &str) -> Result<String, Fault> {
    let bytes = bytes_of(alloc, data)?;
    match String::from_utf8(bytes) {
        Ok(string) => Ok(string),
        Err(_) => Err(Fault::BadLine),
    }
}

/// Takes one byte of the text, and says what the next one is a part of.
fn take(part: Part, byte: u8, bytes: &mut Vec<u8>) -> Result<Part, AllocError> {
    match part {
        Part::Plain => take_plain(byte, bytes),
        Part::Escape => take_escape(byte, bytes),
        Part::High => Ok(Part::Low(digit(byte))),
        Part::Low(high) => {
            bytes.push((high % 16) * 16 + digit(byte) % 16)?;
            Ok(Part::Plain)
        }
        Part::Times(count) => take_count(count, byte, bytes),
    }
}

fn take_plain(byte: u8, bytes: &mut Vec<u8>) -> Result<Part, AllocError> {
    if byte == b'\\' {
        return Ok(Part::Escape);
    }
    bytes.push(byte)?;
    Ok(Part::Plain)
}

fn take_escape(byte: u8, bytes: &mut Vec<u8>) -> Result<Part, AllocError> {
    match byte {
        b'x' => return Ok(Part::High),
        b'{' => return Ok(Part::Times(0)),
        b'n' => bytes.push(b'\n')?,
        b't' => bytes.push(b'\t')?,
        b'"' | b'\\' => bytes.push(byte)?,
        _ => bytes.extend_from_slice(&[b'\\', byte])?,
    }
    Ok(Part::Plain)
}

/// Takes a digit of a count, or its end, at which the last byte is there that often.
fn take_count(count: usize, byte: u8, bytes: &mut Vec<u8>) -> Result<Part, AllocError> {
    if byte != b'}' {
        let more = (count % 100_000_000) * 10 + digit(byte) as usize;
        return Ok(Part::Times(more));
    }
    if let Some(last) = bytes.last().copied() {
        for _ in 1..count {
            bytes.push(last)?;
        }
    }
    Ok(Part::Plain)
}

/// The value of a decimal or hexadecimal digit, 0 for any other byte.
fn digit(byte: u8) -> u8 {
    match byte {
        b'0'..=b'9' => byte - b'0',
        b'a'..=b'f' => byte - b'a' + 10,
        b'A'..=b'F' => byte - b'A' + 10,
        _ => 0,
    }
}

/// Appends bytes as one line shows them: printable ASCII as it is but for `\\`, a line feed as `\n`, any other byte as
/// `\xNN`, and nine or more equal bytes as one of them and `\{N}`. `bytes_of` reads it back.
pub fn push_shown(out: &mut String, bytes: &[u8]) -> Result<(), AllocError> {
    let mut last = 0;
    let mut count: u64 = 0;
    for byte in bytes {
        if *byte == last && count < u64::MAX {
            count += 1;
        } else {
            push_run(out, last, count)?;
            last = *byte;
            count = 1;
        }
    }
    push_run(out, last, count)
}

/// Appends a byte that is there this often.
fn push_run(out: &mut String, byte: u8, count: u64) -> Result<(), AllocError> {
    if count < 9 {
        for _ in 0..count {
            push_byte(out, byte)?;
        }
        return Ok(());
    }
    push_byte(out, byte)?;
    write!(out, "\\{{{count}}}")
}

fn push_byte(out: &mut String, byte: u8) -> Result<(), AllocError> {
    match byte {
        b'\\' => out.push_str("\\\\"),
        b'\n' => out.push_str("\\n"),
        b' '..=b'~' => out.push(char::from(byte)),
        _ => write!(out, "\\x{byte:02x}"),
    }
}
