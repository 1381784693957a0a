//! What a client of i3-ipc is told: the frames of replies, and of the events that are read after each message.
ghost use Rattle.std.specs.Prelude.{◌≡◌, ◌++◌, IfOk, OnOk};
ghost use Rattle.wm_core.specs.DeskValue.{Stands};
ghost use Rattle.wm_history.specs.History.{History, opening_of};
ghost use Rattle.wm_history.specs.Look.{look};
ghost use Rattle.wm_history.specs.declared.look.Query.TheVariants as queries;
ghost use Rattle.wm_talk.specs.Talking.{after_reply};
ghost use Rattle.wm_talk.specs.Told.{replied, told};
ghost use Rattle.wm_talk.specs.Frames.{frames};
ghost use Rattle.wm_tool.specs.Ipc.{after_reading, reading, talk_on, told_of, where_on};

use std::alloc::Global;
use wm_base::NoMemory;
use wm_core::{Desk, Query, View};
use wm_frames::Message;
use wm_talk::{Got, Talk, push_frames};

/// Adds the frames of the reply to a message, by what its call gave.
pub fn push_reply(
    alloc: Global,
    message: &Message,
    got: &Got,
    talk: &mut Talk,
    piece: &mut Vec<u8>,
) -> Result<(), NoMemory>
    ensures told { OnOk result (piece.new.items ≡ piece.old.items ++ frames (replied talk.old message.now got.now)) }
    ensures talk { OnOk result (talk.new ≡ after_reply message.now got.now talk.old) }
{
    let messages = talk.reply(alloc, message, got)?;
    push_frames(&messages, piece)
}

/// Reads events, where something is subscribed, and adds the frames of those that the client is to be told. `false` exactly
/// where some that are asked for are kept no more.
pub fn push_events(
    alloc: Global,
    desk: &Desk,
    talk: &mut Talk,
    piece: &mut Vec<u8>,
) -> Result<bool, NoMemory>
    ensures told { (history : History) → Stands desk.now history →
        OnOk result (piece.new.items ≡ piece.old.items ++ frames (told_of talk.old (reading (opening_of desk.now.plan) history talk.old))) }
    ensures talk { (history : History) → Stands desk.now history →
        IfOk result (λ goes_on. where_on goes_on talk.new ≡ after_reading talk.old (reading (opening_of desk.now.plan) history talk.old)) }
{
    match talk.above() {
        Some(above) => read_events(alloc, desk, above, talk, piece),
        None => Ok(true),
    }
}

/// Reads the events above a number, and adds the frames of those that the client is to be told. `false` exactly where
/// some that are asked for are kept no more.
fn read_events(
    alloc: Global,
    desk: &Desk,
    above: u64,
    talk: &mut Talk,
    piece: &mut Vec<u8>,
) -> Result<bool, NoMemory>
    ensures told { (history : History) → Stands desk.now history →
        OnOk result (piece.new.items ≡ piece.old.items ++ frames (told talk.old (look (opening_of desk.now.plan) history 0 (queries.Events above)))) }
    ensures talk { (history : History) → Stands desk.now history →
        IfOk result (λ goes_on. where_on goes_on talk.new ≡ talk_on talk.old (look (opening_of desk.now.plan) history 0 (queries.Events above))) }
{
    let view = desk.look(0, &Query::Events { above })?;
    let goes_on = push_told(alloc, &view, talk, piece);
    drop(view);
    goes_on
}

/// Adds the frames of the events of a reading that the client is to be told. `false` exactly where some that were asked
/// for are kept no more.
fn push_told(
    alloc: Global,
    view: &View,
    talk: &mut Talk,
    piece: &mut Vec<u8>,
) -> Result<bool, NoMemory>
    ensures told { OnOk result (piece.new.items ≡ piece.old.items ++ frames (told talk.old view.now)) }
    ensures talk { IfOk result (λ goes_on. where_on goes_on talk.new ≡ talk_on talk.old view.now) }
{
    match view {
        View::Lagged { .. } => Ok(false),
        _ => {
            let messages = talk.events(alloc, view)?;
            push_frames(&messages, piece)?;
            Ok(true)
        }
    }
}
