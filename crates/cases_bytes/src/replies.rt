//! Cases of replies: the bytes of their JSON.
use crate::fields::{push_bytes, text_of};
use crate::limits::ERRORS;
use case_data::{Fault, Words, number_of};
use serde_json::Value;
use std::alloc::Global;
use wm_base::Text;
use wm_json::{Reply, compact, replies_json, success_value, texts_json, version_value};

/// Replies with `, ` between them: `ok`, `error TEXT`, `parse N` or `pattern N`.
pub fn tell_replies(words: &mut Words<'_>, out: &mut String) -> Result<(), Fault> {
    let replies = replies_of(words)?;
    let bytes = replies_json(words.alloc, &replies)?;
    push_bytes(out, &bytes)
}

fn replies_of(words: &mut Words<'_>) -> Result<Vec<Reply>, Fault> {
    let mut replies = Vec::new(words.alloc);
    for _ in 0..u64::MAX {
        if words.is_done() {
            break;
        }
        replies.push(reply_of(words.until(", "))?)?;
    }
    Ok(replies)
}

fn reply_of(part: &str) -> Result<Reply, Fault> {
    let (word, rest) = part.split_once(" ").unwrap_or((part, ""));
    match word {
        "ok" => Ok(Reply::Ok),
        "error" => error_of(rest),
        "parse" => parse_of(rest),
        "pattern" => Ok(Reply::Pattern(number_of(rest)?)),
        _ => Err(Fault::BadLine),
    }
}

fn parse_of(text: &str) -> Result<Reply, Fault> {
    match text.parse::<usize>() {
        Ok(place) => Ok(Reply::Parse(place)),
        Err(_) => Err(Fault::BadLine),
    }
}

/// The reply whose error has this text.
fn error_of(text: &str) -> Result<Reply, Fault> {
    for error in ERRORS {
        if error.text() == text {
            return Ok(Reply::Error(error));
        }
    }
    Err(Fault::BadLine)
}

/// Whether something was done: `true` or `false`.
pub fn tell_success(words: &mut Words<'_>, out: &mut String) -> Result<(), Fault> {
    let value = success_value(words.alloc, words.word() == "true")?;
    push_value(words.alloc, &value, out)
}

/// The version.
pub fn tell_version(words: &mut Words<'_>, out: &mut String) -> Result<(), Fault> {
    let value = version_value(words.alloc)?;
    push_value(words.alloc, &value, out)
}

/// Writes a line with the bytes of a value.
pub fn push_value(alloc: Global, value: &Value, out: &mut String) -> Result<(), Fault> {
    let bytes = compact(alloc, value)?;
    push_bytes(out, &bytes)
}

/// The array of texts with ` | ` between them.
pub fn tell_texts(words: &mut Words<'_>, out: &mut String) -> Result<(), Fault> {
    let texts = texts_of(words)?;
    let bytes = texts_json(words.alloc, &texts)?;
    push_bytes(out, &bytes)
}

fn texts_of(words: &mut Words<'_>) -> Result<Vec<Text>, Fault> {
    let mut texts = Vec::new(words.alloc);
    if words.is_done() {
        return Ok(texts);
    }
    for part in words.rest().split(" | ") {
        push_text(&mut texts, words.alloc, part)?;
    }
    Ok(texts)
}

fn push_text(texts: &mut Vec<Text>, alloc: Global, data: &str) -> Result<(), Fault> {
    let text = text_of(alloc, data)?;
    Ok(texts.push(text)?)
}
