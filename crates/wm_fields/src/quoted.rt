//! Texts of a line: quoted ones, and names.
ghost use Rattle.std.specs.Prelude.{◌≡◌, ◌++◌, ◌==◌, IfOk, OnOk, false, length, not, take_while, ◌≤◌, IfSome};
ghost use Rattle.std.specs.Option.{option_map};
ghost use Rattle.wm_fields.specs.Quoted.{closes, escapes, name_at, onto_text, quoted_at, quoted_within, short_text, stands_for, text_within, unquoted, word_at};

use crate::fields::behind;
use std::alloc::{AllocError, Global};
use std::str;
use wm_base::{NoMemory, Str, Text, TextRefusal};

/// How long the text is at most that all are told, in bytes.
const MOST_TOLD: usize = 4096;

/// A quoted text of at most 1,024 bytes, and what follows it. `\"`, `\\` and `\n` stand for a quotation mark, a
/// backslash and a line feed.
pub fn quoted_text(alloc: Global, text: &[u8]) -> Result<Option<(Text, &[u8])>, NoMemory>
    ensures value { IfOk result (λ said. option_map (λ found. (found.0, found.1.now)) said ≡ quoted_at text.now) }
    ensures shorter { IfOk result (λ said. IfSome said (λ found. length found.1.now ≤ length text.now)) }
{
    let Some(inside) = behind(text, b"\"") else {
        return Ok(None);
    };
    let mut bytes = Vec::new(alloc);
    let Some(rest) = unquote(inside, &mut bytes)? else {
        return Ok(None);
    };
    match short_text(alloc, &bytes)? {
        Some(said) => Ok(Some((said, rest))),
        None => Ok(None),
    }
}

/// A quoted text of at most 4,096 bytes, and what follows it.
pub fn long_quoted(alloc: Global, text: &[u8]) -> Result<Option<(Str, &[u8])>, NoMemory>
    ensures value { IfOk result (λ said. option_map (λ found. (found.0, found.1.now)) said ≡ quoted_within 4096 text.now) }
    ensures within { IfOk result (λ said. IfSome said (λ found. length found.0 ≤ 4096)) }
{
    let Some(inside) = behind(text, b"\"") else {
        return Ok(None);
    };
    let mut bytes = Vec::new(alloc);
    let Some(rest) = unquote(inside, &mut bytes)? else {
        return Ok(None);
    };
    match long_text(alloc, &bytes)? {
        Some(said) => Ok(Some((said, rest))),
        None => Ok(None),
    }
}

/// A name, and what follows it: a quoted text, or a word, which is all up to the first space. It has at most 1,024
/// bytes.
pub fn name(alloc: Global, text: &[u8]) -> Result<Option<(Text, &[u8])>, NoMemory>
    ensures value { IfOk result (λ said. option_map (λ found. (found.0, found.1.now)) said ≡ name_at text.now) }
    ensures shorter { IfOk result (λ said. IfSome said (λ found. length found.1.now ≤ length text.now)) }
{
    if text.starts_with(b"\"") {
        quoted_text(alloc, text)
    } else {
        word(alloc, text)
    }
}

/// A word of at most 1,024 bytes, and what follows it.
fn word(alloc: Global, text: &[u8]) -> Result<Option<(Text, &[u8])>, NoMemory>
    ensures value { IfOk result (λ said. option_map (λ found. (found.0, found.1.now)) said ≡ word_at text.now) }
    ensures shorter { IfOk result (λ said. IfSome said (λ found. length found.1.now ≤ length text.now)) }
{
    let count = word_length(text);
    if count == 0 {
        return Ok(None);
    }
    let (word, rest) = text.split_at(count);
    match short_text(alloc, word)? {
        Some(said) => Ok(Some((said, rest))),
        None => Ok(None),
    }
}

/// How many bytes stand before the first space.
fn word_length(text: &[u8]) -> usize
    ensures { result ≡ length (take_while (λ c. not (c == 32)) text.now) }
{
    text.iter().take_while(|c| **c != b' ').count()
}

/// Adds what is said up to the closing quotation mark, and gives what follows that. `None` where there is none.
fn unquote<'a>(text: &'a [u8], said: &mut Vec<u8>) -> Result<Option<&'a [u8]>, AllocError>
    ensures value { IfOk result (λ rest. option_map (λ r. (said.new.items, r.now)) rest ≡ onto_text said.old.items (unquoted false text.now)) }
    ensures shorter { IfOk result (λ rest. IfSome rest (λ r. length r.now ≤ length text.now)) }
{
    let mut rest = text;
    let mut escaped = false;
    while let [c, after @ ..] = rest {
        if closes(escaped, *c) {
            return Ok(Some(after));
        }
        push_meant(escaped, *c, said)?;
        escaped = escapes(escaped, *c);
        rest = after;
    }
    Ok(None)
}

/// Whether this is the closing quotation mark.
fn closes(escaped: bool, c: u8) -> bool
    ensures { result ≡ closes escaped c }
{
    !escaped && c == b'"'
}

/// Whether this is a backslash that says what the next character means.
fn escapes(escaped: bool, c: u8) -> bool
    ensures { result ≡ escapes escaped c }
{
    !escaped && c == b'\\'
}

/// Adds what the character stands for.
fn push_meant(escaped: bool, c: u8, said: &mut Vec<u8>) -> Result<(), AllocError>
    ensures { OnOk result (said.new.items ≡ said.old.items ++ stands_for escaped c) }
{
    match (escaped, c) {
        (false, b'\\') => {}
        (true, b'n') => said.push(b'\n')?,
        (false, _) | (true, b'"' | b'\\') => said.push(c)?,
        (true, _) => said.extend_from_slice(&[b'\\', c])?,
    }
    Ok(())
}

/// The text of these bytes. `None` exactly where they are no UTF-8, or more than 4,096.
#[tactic(auto, using(crate::proofs::TextLemmas::is_within, crate::proofs::TextLemmas::is_none_within))]
fn long_text(alloc: Global, bytes: &[u8]) -> Result<Option<Str>, NoMemory>
    ensures value { IfOk result (λ said. said ≡ text_within 4096 bytes.now) }
    ensures within { IfOk result (λ said. IfSome said (λ text. length text ≤ 4096)) }
{
    match str::from_utf8(bytes) {
        Ok(text) if text.len() <= MOST_TOLD => {
            let text = String::from_str(alloc, text)?;
            Ok(Some(Str::of(text)))
        }
        _ => Ok(None),
    }
}

/// The text of these bytes. `None` exactly where they are no UTF-8, or more than 1,024.
#[tactic(auto, using(crate::proofs::TextLemmas::is_short, crate::proofs::TextLemmas::is_no_text))]
pub fn short_text(alloc: Global, bytes: &[u8]) -> Result<Option<Text>, NoMemory>
    ensures { IfOk result (λ said. said ≡ short_text bytes.now) }
{
    let Ok(text) = str::from_utf8(bytes) else {
        return Ok(None);
    };
    match Text::new(alloc, text) {
        Ok(said) => Ok(Some(said)),
        Err(TextRefusal::TooLong { len: _ }) => Ok(None),
        Err(TextRefusal::NoMemory) => Err(NoMemory),
    }
}
