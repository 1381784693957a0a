//! Cases of reading: the batch of a text, and that its printed text reads as the same batch.
ghost use Rattle.wm_grammar.specs.Readable.{IsReadable};

use crate::form::form_of;
use case_data::{Fault, Words, push_shown, string_of};
use std::alloc::Global;
use wm_grammar::{print, read};
use wm_language::{Batch, ReadRefusal};

/// How many bytes of a printed text are shown.
const SHOWN: usize = 4096;

/// The place at which a text stops reading; want of memory ends the program.
fn place_of(refusal: ReadRefusal) -> Result<usize, Fault> {
    match refusal {
        ReadRefusal::Bad { at } => Ok(at),
        ReadRefusal::NoMemory => Err(Fault::NoMemory),
    }
}

/// What one text reads as.
pub fn tell_one(words: &mut Words<'_>, out: &mut String) -> Result<(), Fault> {
    let text = string_of(words.alloc, words.rest())?;
    tell_text(words.alloc, text.as_str(), out)
}

/// What two texts read as, with ` || ` between them: told once where it is the same.
pub fn tell_both(words: &mut Words<'_>, out: &mut String) -> Result<(), Fault> {
    let Some((first, second)) = words.rest().split_once(" || ") else {
        return Err(Fault::BadLine);
    };
    let one = told(words.alloc, first)?;
    let other = told(words.alloc, second)?;
    push_both(one.as_str(), other.as_str(), out)
}

fn told(alloc: Global, data: &str) -> Result<String, Fault> {
    let mut out = String::new(alloc);
    tell_one(&mut Words::of(alloc, data), &mut out)?;
    Ok(out)
}

fn push_both(one: &str, other: &str, out: &mut String) -> Result<(), Fault> {
    out.push_str(one)?;
    if one != other {
        out.push_str("  and the second is\n")?;
        out.push_str(other)?;
    }
    Ok(())
}

/// What a long text reads as: from `N A|B|C|D` it has A this often, B, C this often, and D.
pub fn tell_long(words: &mut Words<'_>, out: &mut String) -> Result<(), Fault> {
    let text = long_text(words)?;
    tell_text(words.alloc, text.as_str(), out)
}

/// The long text that a line stands for.
pub fn long_text(words: &mut Words<'_>) -> Result<String, Fault> {
    let count = words.number()?;
    let mut text = String::new(words.alloc);
    for (at, part) in words.rest().split("|").enumerate() {
        let times = if at % 2 == 0 && at < 3 { count } else { 1 };
        push_times(words.alloc, part, times, &mut text)?;
    }
    Ok(text)
}

fn push_times(alloc: Global, data: &str, times: u32, text: &mut String) -> Result<(), Fault> {
    let part = string_of(alloc, data)?;
    for _ in 0..times {
        text.push_str(part.as_str())?;
    }
    Ok(())
}

/// What a text reads as, or where it stops reading.
fn tell_text(alloc: Global, text: &str, out: &mut String) -> Result<(), Fault> {
    match read(alloc, text) {
        Ok(batch) => tell_batch(alloc, &batch, out),
        Err(refusal) => {
            let at = place_of(refusal)?;
            Ok(write!(out, "  bad at {at}\n")?)
        }
    }
}

/// The plain form of a batch, its printed text, and whether that reads as the same batch.
fn tell_batch(alloc: Global, batch: &Batch, out: &mut String) -> Result<(), Fault>
    requires { IsReadable batch.now }
{
    let form = form_of(alloc, batch)?;
    out.push_str(form.as_str())?;
    let printed = print(alloc, batch)?;
    tell_printed(alloc, printed.as_str(), form.as_str(), out)
}

/// A printed text, and whether it reads as a batch of this plain form.
fn tell_printed(alloc: Global, printed: &str, form: &str, out: &mut String) -> Result<(), Fault> {
    push_printed(out, printed)?;
    let again = form_again(alloc, printed)?;
    Ok(out.push_str(if again.as_str() == form {
        ", the same again\n"
    } else {
        ", and that reads otherwise\n"
    })?)
}

/// The plain form of what a printed text reads as, empty where it does not read.
fn form_again(alloc: Global, printed: &str) -> Result<String, Fault> {
    match read(alloc, printed) {
        Ok(batch) => Ok(form_of(alloc, &batch)?),
        Err(refusal) => {
            let at = place_of(refusal)?;
            Ok(format!(in alloc; "bad at {at}")?)
        }
    }
}

/// Shows a printed text, or says how long it is.
fn push_printed(out: &mut String, printed: &str) -> Result<(), Fault> {
    if printed.len() > SHOWN {
        return Ok(write!(out, "  printed in {} bytes", printed.len())?);
    }
    out.push_str("  printed <")?;
    push_shown(out, printed.as_bytes())?;
    out.push_str(">")?;
    Ok(())
}
