//! The words of a line: blanks between them, and names.
ghost use Rattle.std.specs.Prelude.{◌≡◌, ◌≤◌, IfOk, length, not, take, take_while};
ghost use Rattle.std.specs.Option.{option_copied, option_map};
ghost use Rattle.std.specs.Str.{bytes_eq};
ghost use Rattle.wm_binds.specs.Words.{command_word_at, gap_at, is_blank, is_in_command_word, name_at, passed_word, past_blanks, run_of, text_of, word_at, word_then};

use std::alloc::Global;
use std::str;
use wm_base::{NoMemory, Text};
use wm_fields::{behind, quoted_text, short_text};

/// Whether the texts are the same.
pub fn are_same(text: &[u8], other: &[u8]) -> bool
    ensures { result ≡ bytes_eq text.now other.now }
{
    text == other
}

/// A text without the blanks at its front.
pub fn past_blanks(text: &[u8]) -> &[u8]
    ensures { result.now ≡ past_blanks text.now }
{
    text.split_at(blank_count(text)).1
}

/// How many blanks stand at the front.
fn blank_count(text: &[u8]) -> usize
    ensures { result ≡ length (take_while is_blank text.now) }
{
    text.iter()
        .take_while(|c| **c == b' ' || **c == b'\t')
        .count()
}

/// What follows one or more blanks.
pub fn gap(text: &[u8]) -> Option<&[u8]>
    ensures { option_copied result ≡ gap_at text.now }
{
    match text {
        [b' ' | b'\t', after @ ..] => Some(past_blanks(after)),
        _ => None,
    }
}

/// What follows this word and the blanks behind it.
pub fn word_then<'a>(text: &'a [u8], word: &[u8]) -> Option<&'a [u8]>
    ensures { option_copied result ≡ word_then word.now text.now }
{
    gap(behind(text, word)?)
}

/// What follows this word where it is there, which counts for nothing.
pub fn passed_word<'a>(text: &'a [u8], word: &[u8]) -> &'a [u8]
    ensures { result.now ≡ passed_word word.now text.now }
{
    match word_then(text, word) {
        Some(rest) => rest,
        None => text,
    }
}

/// All up to the first blank.
pub fn first_word(text: &[u8]) -> &[u8]
    ensures { result.now ≡ take_while (λ c. not (is_blank c)) text.now }
{
    text.split_at(word_length(text)).0
}

/// How many bytes stand before the first blank.
fn word_length(text: &[u8]) -> usize
    ensures { result ≡ length (take_while (λ c. not (is_blank c)) text.now) }
{
    text.iter()
        .take_while(|c| !(**c == b' ' || **c == b'\t'))
        .count()
}

/// How many bytes stand before the first blank, `,`, `;` or `"`.
fn command_word_length(text: &[u8]) -> usize
    ensures { result ≡ length (take_while is_in_command_word text.now) }
{
    text.iter()
        .take_while(|c| {
            !(**c == b' ' || **c == b'\t') && !(**c == b',') && !(**c == b';') && !(**c == b'"')
        })
        .count()
}

/// The first bytes, where there is one: a text of at most 1,024 bytes, and what follows it.
fn run(alloc: Global, text: &[u8], count: usize) -> Result<Option<(Text, &[u8])>, NoMemory>
    requires { count ≤ length text.now }
    ensures { IfOk result (λ said. option_map (λ found. (found.0, found.1.now)) said ≡ run_of (take count text.now) text.now) }
{
    if count == 0 {
        return Ok(None);
    }
    let (word, rest) = text.split_at(count);
    match short_text(alloc, word)? {
        Some(said) => Ok(Some((said, rest))),
        None => Ok(None),
    }
}

/// A word of at most 1,024 bytes, and what follows it.
pub fn word(alloc: Global, text: &[u8]) -> Result<Option<(Text, &[u8])>, NoMemory>
    ensures { IfOk result (λ said. option_map (λ found. (found.0, found.1.now)) said ≡ word_at text.now) }
{
    run(alloc, text, word_length(text))
}

/// A name, and what follows it: a quoted text, or a word. It has at most 1,024 bytes.
pub fn name(alloc: Global, text: &[u8]) -> Result<Option<(Text, &[u8])>, NoMemory>
    ensures { IfOk result (λ said. option_map (λ found. (found.0, found.1.now)) said ≡ name_at text.now) }
{
    if text.starts_with(b"\"") {
        quoted_text(alloc, text)
    } else {
        word(alloc, text)
    }
}

/// A word as commands have them, and what follows it: a quoted text, or all up to the first blank, `,`, `;` or `"`. It
/// has at most 1,024 bytes.
pub fn command_word(alloc: Global, text: &[u8]) -> Result<Option<(Text, &[u8])>, NoMemory>
    ensures { IfOk result (λ said. option_map (λ found. (found.0, found.1.now)) said ≡ command_word_at text.now) }
{
    if text.starts_with(b"\"") {
        quoted_text(alloc, text)
    } else {
        run(alloc, text, command_word_length(text))
    }
}

/// The text of these bytes. `None` exactly where they are no UTF-8.
#[tactic(auto, using(crate::proofs::TextLemmas::is_text, crate::proofs::TextLemmas::is_no_text))]
pub fn text_of(bytes: &[u8]) -> Option<&str>
    ensures { option_map (λ text. text.now) result ≡ text_of bytes.now }
{
    match str::from_utf8(bytes) {
        Ok(text) => Some(text),
        Err(_) => None,
    }
}
