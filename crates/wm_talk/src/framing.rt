//! The frames of messages.
ghost use Rattle.std.specs.Prelude.{◌≡◌, ◌++◌, OnOk};
ghost use Rattle.wm_frames.specs.Frame.{frame};
ghost use Rattle.wm_talk.specs.Frames.{frames};

use wm_base::NoMemory;
use wm_frames::{Message, encode};

/// Adds the frames of the messages. A payload whose length does not fit 32 bits is want of memory.
pub fn push_frames(messages: &[Message], bytes: &mut Vec<u8>) -> Result<(), NoMemory>
    ensures { OnOk result (bytes.new.items ≡ bytes.old.items ++ frames messages.now) }
{
    let mut rest = messages;
    while let [message, after @ ..] = rest {
        push_frame(message, bytes)?;
        rest = after;
    }
    Ok(())
}

/// Adds the frame of a message. A payload whose length does not fit 32 bits is want of memory.
fn push_frame(message: &Message, bytes: &mut Vec<u8>) -> Result<(), NoMemory>
    ensures { OnOk result (bytes.new.items ≡ bytes.old.items ++ frame message.now) }
{
    if message.payload.items().len() > u32::MAX as usize {
        return Err(NoMemory);
    }
    encode(message, bytes)
}
