//! What a case tells: how its session ended, and the messages that were sent.
use crate::speech::{End, Speech};
use case_data::{Fault, push_shown};
use std::alloc::{AllocError, Global};
use std::str;
use wm_clients::ClientEnd;
use wm_frames::{Decoder, Message};
use wm_session::SessionEnd;

/// Writes how a session ended.
pub fn push_end(end: End, out: &mut String) -> Result<(), AllocError> {
    match end {
        End::Session(end) => push_session_end(end, out),
        End::Client(end) => push_client_end(end, out),
    }
}

fn push_session_end(end: SessionEnd, out: &mut String) -> Result<(), AllocError> {
    match end {
        SessionEnd::Closed => out.push_str("  Closed\n"),
        SessionEnd::Truncated { bytes } => write!(out, "  Truncated {bytes}\n"),
        SessionEnd::Magic { at } => write!(out, "  Magic {at}\n"),
        SessionEnd::TooLong { at, len } => write!(out, "  TooLong {at} {len}\n"),
        SessionEnd::Stopped => out.push_str("  Stopped\n"),
        SessionEnd::Lagged { oldest } => write!(out, "  Lagged {oldest}\n"),
        SessionEnd::LinkFault => out.push_str("  LinkFault\n"),
        SessionEnd::Exhausted => out.push_str("  Exhausted\n"),
        SessionEnd::NoMemory => out.push_str("  NoMemory\n"),
    }
}

fn push_client_end(end: ClientEnd, out: &mut String) -> Result<(), AllocError> {
    match end {
        ClientEnd::Closed => out.push_str("  Closed\n"),
        ClientEnd::Truncated => out.push_str("  Truncated\n"),
        ClientEnd::BadLine { line } => write!(out, "  BadLine {line}\n"),
        ClientEnd::Stopped => out.push_str("  Stopped\n"),
        ClientEnd::LinkFault => out.push_str("  LinkFault\n"),
        ClientEnd::Exhausted => out.push_str("  Exhausted\n"),
        ClientEnd::NoMemory => out.push_str("  NoMemory\n"),
    }
}

/// Writes how many messages were sent and the last one, or each line that was.
pub fn push_told(
    alloc: Global,
    sent: &[u8],
    speech: Speech,
    out: &mut String,
) -> Result<(), Fault> {
    match speech {
        Speech::Messages => push_counted(alloc, sent, out),
        Speech::Lines => push_lines(sent, out),
    }
}

/// Writes each line of these bytes.
pub fn push_lines(sent: &[u8], out: &mut String) -> Result<(), Fault> {
    let Ok(text) = str::from_utf8(sent) else {
        return Ok(out.push_str("  no text\n")?);
    };
    for line in text.lines() {
        write!(out, "  {line}\n")?;
    }
    Ok(())
}

/// Writes the messages of these bytes, and how many bytes follow the last whole one, where there are some.
pub fn push_sent(alloc: Global, sent: &[u8], out: &mut String) -> Result<(), Fault> {
    let mut decoder = Decoder::new(alloc);
    if decoder.feed(sent).is_err() {
        return Ok(out.push_str("  no frames\n")?);
    }
    push_messages(&mut decoder, out)?;
    match decoder.rest() {
        0 => Ok(()),
        bytes => Ok(write!(out, "  and {bytes} bytes\n")?),
    }
}

fn push_messages(decoder: &mut Decoder, out: &mut String) -> Result<(), Fault> {
    for _ in 0..u64::MAX {
        let Some(message) = decoder.next() else {
            return Ok(());
        };
        push_message(&message, out)?;
    }
    Ok(())
}

/// Writes how many messages these bytes are, and the last one.
pub fn push_counted(alloc: Global, sent: &[u8], out: &mut String) -> Result<(), Fault> {
    let (count, last) = last_of(alloc, sent)?;
    write!(out, "  {count} messages\n")?;
    match last {
        Some(message) => push_message(&message, out),
        None => Ok(()),
    }
}

/// How many messages these bytes are, and the last one.
pub fn last_of(alloc: Global, sent: &[u8]) -> Result<(u64, Option<Message>), Fault> {
    let mut decoder = Decoder::new(alloc);
    match decoder.feed(sent) {
        Ok(()) => Ok(last_message(&mut decoder)),
        Err(_) => Err(Fault::BadLine),
    }
}

/// How many messages are queued, and the last one.
fn last_message(decoder: &mut Decoder) -> (u64, Option<Message>) {
    let mut last = None;
    for count in 0..u64::MAX {
        let Some(message) = decoder.next() else {
            return (count, last);
        };
        last = Some(message);
    }
    (u64::MAX, last)
}

fn push_message(message: &Message, out: &mut String) -> Result<(), Fault> {
    push_kind(message.kind, out)?;
    push_shown(out, message.payload.items())?;
    Ok(out.push_str("\n")?)
}

/// Writes the type of a message, in hexadecimal where it is an event's.
fn push_kind(kind: u32, out: &mut String) -> Result<(), AllocError> {
    if kind < 0x8000_0000 {
        write!(out, "  {kind} ")
    } else {
        write!(out, "  {kind:x} ")
    }
}
