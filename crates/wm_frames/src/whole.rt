//! Reading the whole frames at the front of some bytes.
ghost use Rattle.std.specs.Prelude.{◌≡◌, ◌+◌, ◌<◌, ◌≤◌, length, IfOk, IfSome, IfNone};
ghost use Rattle.wm_frames.specs.Reading.{message_at, with_first, unread, reading, messages, tail};

use crate::front::{Front, number_at, read_front};
use crate::message::{HEAD, Message};
use std::alloc::{AllocError, Global};
use std::collections::VecDeque;
use wm_base::List;

/// The message of the frame at the front, whose payload has this many bytes.
fn message_of(alloc: Global, bytes: &[u8], len: usize) -> Result<Message, AllocError>
    requires { 14 + len ≤ length bytes.now }
    ensures { IfOk result (λ m. m ≡ message_at len bytes.now) }
{
    let kind = number_at(bytes, 10);
    let payload = Vec::from_slice(alloc, &bytes[HEAD..HEAD + len])?;
    Ok(Message {
        kind,
        payload: List::of(payload),
    })
}

/// The first message, where its frame is whole, and the bytes after it.
fn first_frame(alloc: Global, bytes: &[u8]) -> Result<Option<(Message, &[u8])>, AllocError>
    ensures some { IfOk result (λ found. IfSome found
        (λ first. reading bytes.now ≡ with_first first.0 (reading first.1.now))) }
    ensures shorter { IfOk result (λ found. IfSome found (λ first. length first.1.now < length bytes.now)) }
    ensures none { IfOk result (λ found. IfNone found (reading bytes.now ≡ unread bytes.now)) }
{
    match read_front(bytes) {
        Front::Whole(len) => {
            let len = len as usize;
            let message = message_of(alloc, bytes, len)?;
            Ok(Some((message, &bytes[HEAD + len..])))
        }
        _ => Ok(None),
    }
}

/// The messages whose frames stand one after another at the front, and the bytes after the last one.
pub fn read_frames(alloc: Global, bytes: &[u8]) -> Result<(VecDeque<Message>, &[u8]), AllocError>
    ensures messages { IfOk result (λ found. found.0.items ≡ messages bytes.now) }
    ensures tail { IfOk result (λ found. found.1.now ≡ tail bytes.now) }
{
    let mut found = VecDeque::new(alloc);
    let mut after = bytes;
    while let Some((message, more)) = first_frame(alloc, after)? {
        found.push_back(message)?;
        after = more;
    }
    Ok((found, after))
}
