//! Cases of texts at their limit, and of lists, which may hold themselves.
use crate::fields::push_bytes;
use case_data::{Fault, Words, number_of, string_of};
use std::alloc::Global;
use wm_base::{ConId, List, Str, Text, TextRefusal};

/// A container with the containers inside it.
#[derive(Debug, Drop)]
struct Nest {
    id: ConId,
    inside: List<Nest>,
}

/// A text and its clone, or why it is refused.
pub fn tell_text(words: &mut Words<'_>, out: &mut String) -> Result<(), Fault> {
    let string = string_of(words.alloc, words.rest())?;
    tell_made(Text::new(words.alloc, string.as_str()), out)
}

fn tell_made(made: Result<Text, TextRefusal>, out: &mut String) -> Result<(), Fault> {
    match made {
        Ok(text) => push_with_clone(&text, out),
        Err(TextRefusal::TooLong { len }) => Ok(write!(out, "  too long: {len} bytes\n")?),
        Err(TextRefusal::NoMemory) => Err(Fault::NoMemory),
    }
}

fn push_with_clone(text: &Text, out: &mut String) -> Result<(), Fault> {
    write!(out, "  {} bytes\n", text.as_str().len())?;
    push_bytes(out, text.as_str().as_bytes())?;
    let copy = text.clone()?;
    push_bytes(out, copy.as_str().as_bytes())
}

/// A list of strings with ` | ` between them, seen in the list and taken out of it.
pub fn tell_list(words: &mut Words<'_>, out: &mut String) -> Result<(), Fault> {
    let list = List::of(strings_of(words)?);
    push_strings(list.items(), out)?;
    push_strings(&list.into_vec(), out)
}

fn strings_of(words: &mut Words<'_>) -> Result<Vec<Str>, Fault> {
    let mut strings = Vec::new(words.alloc);
    for part in words.rest().split(" | ") {
        push_string(&mut strings, words.alloc, part)?;
    }
    Ok(strings)
}

fn push_string(strings: &mut Vec<Str>, alloc: Global, part: &str) -> Result<(), Fault> {
    let string = String::from_str(alloc, part)?;
    Ok(strings.push(Str::of(string))?)
}

fn push_strings(strings: &[Str], out: &mut String) -> Result<(), Fault> {
    write!(out, "  {} strings\n", strings.len())?;
    for string in strings {
        push_bytes(out, string.as_str().as_bytes())?;
    }
    Ok(())
}

/// A container of the first number that holds containers of the others.
pub fn tell_nested(words: &mut Words<'_>, out: &mut String) -> Result<(), Fault> {
    let root = nest_of(words)?;
    Ok(write!(out, "  {root:?}\n")?)
}

fn nest_of(words: &mut Words<'_>) -> Result<Nest, Fault> {
    let id = words.con()?;
    let inside = List::of(nests(words)?);
    Ok(Nest { id, inside })
}

fn nests(words: &mut Words<'_>) -> Result<Vec<Nest>, Fault> {
    let mut nests = Vec::new(words.alloc);
    for word in words.rest().split_whitespace() {
        push_nest(&mut nests, words.alloc, word)?;
    }
    Ok(nests)
}

fn push_nest(nests: &mut Vec<Nest>, alloc: Global, word: &str) -> Result<(), Fault> {
    let id = ConId(number_of(word)?);
    Ok(nests.push(empty_nest(alloc, id))?)
}

fn empty_nest(alloc: Global, id: ConId) -> Nest {
    Nest {
        id,
        inside: List::of(Vec::new(alloc)),
    }
}
