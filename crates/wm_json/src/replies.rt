//! The replies to the commands of one text.
ghost use Rattle.std.specs.Prelude.{◌≡◌, false, IfOk};
ghost use Rattle.serde_json.specs.View.{view};
ghost use Rattle.serde_json.specs.Written.{has_float, compact_text};
ghost use Rattle.wm_json.specs.Replies.{reply_data, replies_data, replies_text};
ghost use Rattle.wm_json.specs.declared.replies.Reply.TheVariants as replies;

use crate::values::{error_value, parse_error_value, success_value};
use serde_json::Value;
use std::alloc::Global;
use wm_base::{ErrorText, NoMemory};

/// The reply to one command, or to a text that does not read.
#[derive(Clone, Copy, Debug, PartialEq, Eq)]
pub enum Reply {
    /// It was done.
    Ok,

    /// It was refused, with this text.
    Error(ErrorText),

    /// The text does not read; its first group that does not begins at this byte.
    Parse(usize),

    /// The pattern with this number, counted from 0, was refused.
    Pattern(u32),
}

/// The object of a reply.
fn reply_value(alloc: Global, reply: &Reply) -> Result<Value, NoMemory>
    ensures { IfOk result (λ v. view v ≡ reply_data reply.now) }
{
    match reply {
        Reply::Ok => success_value(alloc, true),
        Reply::Error(error) => Ok(error_value(alloc, error.text())?),
        Reply::Parse(at) => parse_value(alloc, *at),
        Reply::Pattern(pattern) => pattern_value(alloc, *pattern),
    }
}

/// The object of a reply to a text that does not read.
fn parse_value(alloc: Global, at: usize) -> Result<Value, NoMemory>
    ensures { IfOk result (λ v. view v ≡ reply_data (replies.Parse at)) }
{
    let text = format!(in alloc; "parse error at byte {at}")?;
    Ok(parse_error_value(alloc, text.as_str())?)
}

/// The object of a reply to a command whose pattern was refused.
fn pattern_value(alloc: Global, pattern: u32) -> Result<Value, NoMemory>
    ensures { IfOk result (λ v. view v ≡ reply_data (replies.Pattern pattern)) }
{
    let text = format!(in alloc; "pattern {pattern} is refused")?;
    Ok(error_value(alloc, text.as_str())?)
}

/// The array of the replies, an object each.
pub fn replies_value(alloc: Global, r: &[Reply]) -> Result<Value, NoMemory>
    ensures value { IfOk result (λ v. view v ≡ replies_data r.now) }
    ensures text { IfOk result (λ v. compact_text (view v) ≡ replies_text r.now) }
    ensures whole { IfOk result (λ v. has_float (view v) ≡ false) }
{
    let mut values = Vec::with_capacity(alloc, r.len())?;
    for reply in r {
        values.push(reply_value(alloc, reply)?)?;
    }
    Ok(Value::Array(values))
}
