//! The pieces of a text on slices of its bytes: blanks, words and quoted arguments.
ghost use Rattle.std.specs.Prelude.{◌≡◌, ◌∷◌, ◌≤◌, length, drop, IfOk, option_map, option_copied};
ghost use Rattle.wm_words.specs.Pieces.{ends, is_text, starts, is_word, until, from, has, skip, trim_end, word, after, single, says, lower, argument, unquote, with_byte};
ghost use Rattle.wm_words.specs.Words.{stops};

use std::alloc::Global;
use wm_base::{NoMemory, Text, TextRefusal};

/// At which bytes a piece stops.
#[derive(Clone, Copy)]
pub enum Stop {
    /// At a space or a tab.
    Blank,
    /// At `,` or `;`.
    End,
    /// At a blank, `,` or `;`.
    Gap,
    /// At `;`.
    Group,
    /// At a blank, `=` or `]`.
    Name,
    /// At a blank, `]` or `"`.
    Value,
    /// At a blank or `"`.
    Break,
}

impl Stop {
    /// Whether a piece stops at this byte.
    pub fn at(self, c: u8) -> bool
        ensures { result ≡ stops self c }
    {
        let blank = c == b' ' || c == b'\t';
        match self {
            Stop::Blank => blank,
            Stop::End => c == b',' || c == b';',
            Stop::Gap => blank || c == b',' || c == b';',
            Stop::Group => c == b';',
            Stop::Name => blank || c == b'=' || c == b']',
            Stop::Value => blank || c == b']' || c == b'"',
            Stop::Break => blank || c == b'"',
        }
    }
}

/// The text before the first byte at which a piece stops, and the text from it on.
pub fn cut(text: &[u8], stop: Stop) -> (&[u8], &[u8])
    ensures front { result.0.now ≡ until (stops stop) text.now }
    ensures back { result.1.now ≡ from (stops stop) text.now }
{
    for (i, c) in text.iter().enumerate() {
        if stop.at(*c) {
            return text.split_at(i);
        }
    }
    (text, &[])
}

/// Whether a piece would stop somewhere in the text.
#[tactic(auto, unfolding(crate::specs::Pieces::has))]
pub fn stops_in(text: &[u8], stop: Stop) -> bool
    ensures { result ≡ has (stops stop) text.now }
{
    let mut rest = text;
    while let [c, more @ ..] = rest {
        if stop.at(*c) {
            return true;
        }
        rest = more;
    }
    false
}

/// The text without the blanks at its beginning.
#[tactic(auto, unfolding(crate::specs::Pieces::skip))]
pub fn skip(text: &[u8]) -> &[u8]
    ensures { result.now ≡ skip text.now }
{
    let mut rest = text;
    while let [c, more @ ..] = rest {
        if !Stop::Blank.at(*c) {
            return rest;
        }
        rest = more;
    }
    rest
}

/// The text without the blanks at its end.
#[tactic(auto, unfolding(crate::specs::Pieces::trim_end))]
pub fn trim_end(text: &[u8]) -> &[u8]
    ensures { result.now ≡ trim_end text.now }
{
    let mut rest = text;
    while let [front @ .., c] = rest {
        if !Stop::Blank.at(*c) {
            return rest;
        }
        rest = front;
    }
    rest
}

/// The first word, and what comes after it and the blanks behind it.
pub fn split_word(text: &[u8]) -> (&[u8], &[u8])
    ensures first { result.0.now ≡ word text.now }
    ensures rest { result.1.now ≡ after text.now }
{
    let (first, rest) = cut(text, Stop::Blank);
    (first, skip(rest))
}

/// A letter from A to Z as the one from a to z.
fn lower(c: u8) -> u8
    ensures { result ≡ lower c }
{
    if c >= b'A' && c <= b'Z' { c + 32 } else { c }
}

/// Whether the word is this name, in any case.
#[tactic(auto, unfolding(crate::specs::Pieces::is_word))]
pub fn is_word(word: &[u8], name: &[u8]) -> bool
    ensures { result ≡ is_word word.now name.now }
{
    let mut left = word;
    let mut other = name;
    while let [x, xs @ ..] = left {
        let [y, ys @ ..] = other else { return false };
        if lower(*x) != *y {
            return false;
        }
        left = xs;
        other = ys;
    }
    other.is_empty()
}

/// Whether the text is this one.
#[tactic(auto, unfolding(crate::specs::Pieces::is_text))]
pub fn is_text(text: &[u8], other: &[u8]) -> bool
    ensures { result ≡ is_text text.now other.now }
{
    let mut left = text;
    let mut right = other;
    while let [x, xs @ ..] = left {
        let [y, ys @ ..] = right else { return false };
        if *x != *y {
            return false;
        }
        left = xs;
        right = ys;
    }
    right.is_empty()
}

/// Whether the text begins with this byte.
pub fn starts(text: &[u8], c: u8) -> bool
    ensures { result ≡ starts c text.now }
{
    match text {
        [] => false,
        [first, ..] => *first == c,
    }
}

/// The text without its first bytes, of which there are this many.
pub fn past(text: &[u8], count: usize) -> &[u8]
    ensures { result.now ≡ drop count text.now }
{
    if count < text.len() {
        &text[count..]
    } else {
        &[]
    }
}

/// Whether a command ends here: at `,` or `;` or the end of the text.
pub fn ends(text: &[u8]) -> bool
    ensures { result ≡ ends text.now }
{
    match text {
        [] => true,
        [c, ..] => Stop::End.at(*c),
    }
}

/// The word of a text that has no other.
#[tactic(auto, unfolding(crate::specs::Pieces::single))]
pub fn single(text: &[u8]) -> Option<&[u8]>
    ensures { option_copied result ≡ single text.now }
{
    let (first, rest) = split_word(text);
    if rest.is_empty() { Some(first) } else { None }
}

/// Whether the first word is this name, in any case.
pub fn says(text: &[u8], name: &[u8]) -> bool
    ensures { result ≡ says text.now name.now }
{
    is_word(cut(text, Stop::Blank).0, name)
}

/// What comes after the first word and the blanks behind it.
pub fn after(text: &[u8]) -> &[u8]
    ensures { result.now ≡ after text.now }
{
    split_word(text).1
}

/// The bytes as an argument; none where they are no text in UTF-8 or more than 1,024.
#[tactic(auto, unfolding(crate::specs::Pieces::argument))]
pub fn argument(alloc: Global, bytes: &[u8]) -> Result<Option<Text>, NoMemory>
    ensures { IfOk result (λ text. text ≡ argument bytes.now) }
{
    let Ok(text) = str::from_utf8(bytes) else {
        return Ok(None)
    };
    match Text::new(alloc, text) {
        Ok(text) => Ok(Some(text)),
        Err(TextRefusal::TooLong { .. }) => Ok(None),
        Err(TextRefusal::NoMemory) => Err(NoMemory),
    }
}

/// The text before the closing quote and what follows it, of what stands behind the opening one.
#[tactic(auto, unfolding(crate::specs::Pieces::unquote))]
pub fn unquote(alloc: Global, text: &[u8]) -> Result<Option<(Vec<u8>, &[u8])>, NoMemory>
    ensures { IfOk result (λ o. option_map (λ x. (x.0.items, x.1.now)) o ≡ unquote text.now) }
{
    let mut bytes = Vec::new(alloc);
    let mut rest = text;
    while let [c, more @ ..] = rest {
        if *c == b'"' {
            return Ok(Some((bytes, more)));
        }
        let (byte, behind) = unescape(*c, more);
        bytes.push(byte)?;
        rest = behind;
    }
    Ok(None)
}

/// The byte that stands behind a `\`, where that is `"` or `\`, else the first byte, and what follows.
#[tactic(auto, unfolding(crate::specs::Pieces::unquote))]
fn unescape(c: u8, more: &[u8]) -> (u8, &[u8])
    ensures unquoted { (c ≡ 34 → ⊥) → with_byte result.0 (unquote result.1.now) ≡ unquote (c ∷ more.now) }
    ensures shorter { length result.1.now ≤ length more.now }
{
    match more {
        [d, behind @ ..] if c == b'\\' && (*d == b'"' || *d == b'\\') => (*d, behind),
        _ => (c, more),
    }
}
