//! The replies to commands, as they are answered.
ghost use Rattle.std.specs.Prelude.{◌≡◌, map, IfOk};
ghost use Rattle.wm_history.specs.Effect.{reply_to};

use std::alloc::{AllocError, Global};
use wm_apply::CommandReply;
use wm_json::Reply;

fn reply_to(reply: CommandReply) -> Reply
    ensures { result ≡ reply_to reply }
{
    match reply {
        CommandReply::Done => Reply::Ok,
        CommandReply::Error(text) => Reply::Error(text),
    }
}

/// The replies in their order.
pub fn replies_to(alloc: Global, replies: &[CommandReply]) -> Result<Vec<Reply>, AllocError>
    ensures { IfOk result (λ all. all.items ≡ map reply_to replies.now) }
{
    let mut all = Vec::with_capacity(alloc, replies.len())?;
    for reply in replies {
        all.push(reply_to(*reply))?;
    }
    Ok(all)
}
