//! Cases of frames: bytes in pieces, and the messages, the rest and the faults that come of them.
use crate::fields::push_bytes;
use case_data::{Fault, Words, bytes_of, number_of, push_shown};
use std::alloc::Global;
use wm_base::List;
use wm_frames::{Decoder, Message, encode};

/// A decoder, which may go to another thread.
fn decoder(alloc: Global) -> Decoder {
    sent(Decoder::new(alloc))
}

fn sent<T: Send>(value: T) -> T {
    value
}

/// Feeds a decoder one piece, and writes what is there then.
fn feed(decoder: &mut Decoder, piece: &[u8], out: &mut String) -> Result<(), Fault> {
    push_fed(decoder, piece, out)?;
    push_messages(decoder, out)?;
    Ok(write!(out, ", rest {}\n", decoder.rest())?)
}

fn push_fed(decoder: &mut Decoder, piece: &[u8], out: &mut String) -> Result<(), Fault> {
    write!(out, "  {} bytes", piece.len())?;
    match decoder.feed(piece) {
        Ok(()) => Ok(()),
        Err(fault) => Ok(write!(out, ", {fault}")?),
    }
}

/// Takes all messages that are queued, and writes them.
fn push_messages(decoder: &mut Decoder, out: &mut String) -> Result<(), Fault> {
    for _ in 0..u64::MAX {
        let Some(message) = decoder.next() else {
            return Ok(());
        };
        push_message(&message, out)?;
    }
    Ok(())
}

fn push_message(message: &Message, out: &mut String) -> Result<(), Fault> {
    write!(out, ", message {} <", message.kind)?;
    push_shown(out, message.payload.items())?;
    Ok(out.push_str(">")?)
}

/// Pieces with ` | ` between them, fed one after another.
pub fn tell_feeds(words: &mut Words<'_>, out: &mut String) -> Result<(), Fault> {
    let mut decoder = decoder(words.alloc);
    let answer = feed_all(words, &mut decoder, out);
    drop(decoder);
    answer
}

fn feed_all(words: &mut Words<'_>, decoder: &mut Decoder, out: &mut String) -> Result<(), Fault> {
    for piece in words.rest().split(" | ") {
        feed_data(words.alloc, decoder, piece, out)?;
    }
    Ok(())
}

fn feed_data(
    alloc: Global,
    decoder: &mut Decoder,
    piece: &str,
    out: &mut String,
) -> Result<(), Fault> {
    let bytes = bytes_of(alloc, piece)?;
    feed(decoder, &bytes, out)
}

/// Bytes that are fed one at a time.
pub fn tell_single(words: &mut Words<'_>, out: &mut String) -> Result<(), Fault> {
    let bytes = bytes_of(words.alloc, words.rest())?;
    feed_each(&mut decoder(words.alloc), &bytes, out)
}

fn feed_each(decoder: &mut Decoder, bytes: &[u8], out: &mut String) -> Result<(), Fault> {
    for byte in bytes {
        feed(decoder, &[*byte], out)?;
    }
    Ok(())
}

/// Bytes that are cut in two, at each place in turn.
pub fn tell_cuts(words: &mut Words<'_>, out: &mut String) -> Result<(), Fault> {
    let bytes = bytes_of(words.alloc, words.rest())?;
    for at in 0..=bytes.len() {
        let (front, after) = bytes.split_at(at);
        feed_both(&mut decoder(words.alloc), front, after, out)?;
    }
    Ok(())
}

fn feed_both(
    decoder: &mut Decoder,
    front: &[u8],
    after: &[u8],
    out: &mut String,
) -> Result<(), Fault> {
    feed(decoder, front, out)?;
    feed(decoder, after, out)
}

/// Messages `KIND PAYLOAD` with ` | ` between them, their frames one behind another, and what those read as.
pub fn tell_encoded(words: &mut Words<'_>, out: &mut String) -> Result<(), Fault> {
    let bytes = frames_of(words)?;
    push_bytes(out, &bytes)?;
    feed(&mut decoder(words.alloc), &bytes, out)
}

fn frames_of(words: &mut Words<'_>) -> Result<Vec<u8>, Fault> {
    let mut bytes = Vec::new(words.alloc);
    for part in words.rest().split(" | ") {
        push_frame(&mut Words::of(words.alloc, part), &mut bytes)?;
    }
    Ok(bytes)
}

/// Appends the frame of a message.
fn push_frame(words: &mut Words<'_>, bytes: &mut Vec<u8>) -> Result<(), Fault> {
    let kind = number_of(words.word())?;
    let payload = bytes_of(words.alloc, words.rest())?;
    if payload.len() >= 1 << 32 {
        return Err(Fault::BadLine);
    }
    let payload = List::of(payload);
    Ok(encode(&Message { kind, payload }, bytes)?)
}
