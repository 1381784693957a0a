//! The messages of i3-ipc are answered one after another, and each reply is written, with the events after it, as it is made.
ghost use Rattle.std.specs.Prelude.{◌≡◌, ℕ, List, Option, ◌+◌, ◌<◌, ◌≤◌, ◌^◌, [], ◌++◌, None, Some, IfErr, IfOk, OnErr, OnOk, length};
ghost use Rattle.std.specs.List.{AllByRecursion};
ghost use Rattle.wm_frames.specs.Frame.{IsShort};
ghost use Rattle.wm_core.specs.DeskValue.{Stands};
ghost use Rattle.wm_history.specs.History.{History, opening_of};
ghost use Rattle.wm_criteria.specs.Building.{Log};
ghost use Rattle.wm_talk.specs.Frames.{frames};
ghost use Rattle.wm_talk.specs.Talking.{after_reply, NEW};
ghost use Rattle.wm_talk.specs.Told.{replied};
ghost use Rattle.wm_tool.specs.Ending.{HasStopped};
ghost use Rattle.wm_tool.specs.Ipc.{after_call, after_message, call_step, got_of, IsFitCall, message_step, message_texts, replies_from, said, talk_after, where_on};
ghost use Rattle.wm_tool.specs.Planning.{IsPlain};
ghost use Rattle.wm_script.specs.Refusals.{refusal_at};
ghost use Rattle.wm_tool.specs.Running.{Finishes, Leads, Notes, Plays, Stops};
ghost use Rattle.wm_script.specs.declared.refused.Refused as lists;

use crate::asked::make_call;
use crate::planning::standard_desk;
use crate::replay::Stop;
use crate::telling::{push_events, push_reply};
use std::alloc::Global;
use wm_base::NoMemory;
use wm_core::Desk;
use wm_criteria::Build;
use wm_frames::{Decoder, Message};
use wm_ports::{Sink, write_all};
use wm_script::Refused;
use wm_talk::{Call, Talk, call_of};

/// Answers the queued messages on the desk of the standard plan, for caller 0, to whom nothing is subscribed yet. Patterns
/// that are refused are listed.
pub fn answer_all<B: Build, W: Sink>(
    alloc: Global,
    decoder: &mut Decoder,
    build: &mut B,
    refused: &mut Vec<Refused>,
    sink: &mut W,
) -> Result<(), Stop>
    requires few { length decoder.old.queue ≤ 16777216 }
    requires short { AllByRecursion IsShort decoder.old.queue }
    requires none { refused.old.items ≡ [] }
    ensures ok { OnOk result (Finishes (W.taken sink.old) (W.taken sink.new) (λ rs. replies_from (Some NEW) decoder.old.queue rs []) refused.new.items (λ rs. message_texts decoder.old.queue) (B.log build.old) (B.log build.new)) }
    ensures part { OnErr result (Stops (W.taken sink.old) (W.taken sink.new) (λ rs. replies_from (Some NEW) decoder.old.queue rs []) (λ rs. message_texts decoder.old.queue) (B.log build.old) (B.log build.new)) }
    ensures err { IfErr result (HasStopped (W.faults sink.old) (W.faults sink.new)) }
    ensures counted { W.faults sink.old ≤ W.faults sink.new }
{
    let mut desk = standard_desk(alloc)?;
    let mut talk = Talk::new();
    let mut piece = Vec::new(alloc);
    let end = answer_queue(
        alloc, decoder, &mut desk, build, refused, &mut talk, &mut piece, sink,
    );
    drop(desk);
    end
}

/// Answers the queued messages on the desk. Each reply is written, with the events after it, before the next message is
/// looked at. It ends early where events that are asked for are kept no more.
fn answer_queue<B: Build, W: Sink>(
    alloc: Global,
    decoder: &mut Decoder,
    desk: &mut Desk,
    build: &mut B,
    refused: &mut Vec<Refused>,
    talk: &mut Talk,
    piece: &mut Vec<u8>,
    sink: &mut W,
) -> Result<(), Stop>
    requires few { desk.old.steps + length decoder.old.queue ≤ 16777216 }
    requires short { AllByRecursion IsShort decoder.old.queue }
    requires plan { IsPlain desk.old.plan }
    requires empty { piece.old.items ≡ [] }
    ensures ok { (old : Option (List ℕ)) → (whole : List lists.Refused → List ℕ) → (texts : List lists.Refused → List (Option (List ℕ))) → (first : Log) →
        Plays old (W.taken sink.old) desk.old refused.old.items [] (replies_from (Some talk.old) decoder.old.queue) whole (λ rs h. message_texts decoder.old.queue) texts first (B.log build.old) →
        OnOk result (Finishes old (W.taken sink.new) whole refused.new.items texts first (B.log build.new)) }
    ensures part { (old : Option (List ℕ)) → (whole : List lists.Refused → List ℕ) → (texts : List lists.Refused → List (Option (List ℕ))) → (first : Log) →
        Plays old (W.taken sink.old) desk.old refused.old.items [] (replies_from (Some talk.old) decoder.old.queue) whole (λ rs h. message_texts decoder.old.queue) texts first (B.log build.old) →
        OnErr result (Stops old (W.taken sink.new) whole texts first (B.log build.new)) }
    ensures err { IfErr result (HasStopped (W.faults sink.old) (W.faults sink.new)) }
    ensures counted { W.faults sink.old ≤ W.faults sink.new }
{
    while let Some(message) = decoder.next() {
        let answered = answer_message(alloc, desk, &message, build, refused, talk, piece);
        drop(message);
        let goes_on = answered?;
        write_all(sink, piece)?;
        if !goes_on {
            return Ok(());
        }
        piece.clear();
    }
    Ok(())
}

/// Answers one message on the desk, and adds the frames of its reply, and those of the events of the reading after it.
/// `false` exactly where events that are asked for are kept no more.
fn answer_message<B: Build>(
    alloc: Global,
    desk: &mut Desk,
    message: &Message,
    build: &mut B,
    refused: &mut Vec<Refused>,
    talk: &mut Talk,
    piece: &mut Vec<u8>,
) -> Result<bool, NoMemory>
    requires few { desk.old.steps < 2 ^ 48 }
    requires short { IsShort message.now }
    ensures ok { refusal_at desk.old.steps refused.old.items ≡ None →
        OnOk result (Leads desk.old desk.new (after_message message.now refused.new.items) (said (opening_of desk.old.plan) message.now talk.old refused.new.items) piece.old.items piece.new.items) }
    ensures talk { refusal_at desk.old.steps refused.old.items ≡ None → (history : History) → Stands desk.old history →
        IfOk result (λ goes_on. where_on goes_on talk.new ≡ talk_after (opening_of desk.old.plan) message.now talk.old refused.new.items history) }
    ensures steps { OnOk result (desk.new.steps ≡ desk.old.steps + length (message_step message.now)) }
    ensures plan { OnOk result (desk.new.plan ≡ desk.old.plan) }
    ensures notes { Notes desk.old.steps (message_step message.now) refused.old.items refused.new.items (B.log build.old) (B.log build.new) }
{
    let call = call_of(alloc, message)?;
    answer_call(alloc, desk, message, call, build, refused, talk, piece)?;
    push_events(alloc, desk, talk, piece)
}

/// Makes the call of a message on the desk, and adds the frames of its reply.
fn answer_call<B: Build>(
    alloc: Global,
    desk: &mut Desk,
    message: &Message,
    call: Call,
    build: &mut B,
    refused: &mut Vec<Refused>,
    talk: &mut Talk,
    piece: &mut Vec<u8>,
) -> Result<(), NoMemory>
    requires few { desk.old.steps < 2 ^ 48 }
    requires fit { IsFitCall call }
    ensures told { refusal_at desk.old.steps refused.old.items ≡ None → (history : History) → Stands desk.old history →
        OnOk result (piece.new.items ≡ piece.old.items ++ frames (replied talk.old message.now (got_of (opening_of desk.old.plan) call refused.new.items history))) }
    ensures talk { refusal_at desk.old.steps refused.old.items ≡ None → (history : History) → Stands desk.old history →
        OnOk result (talk.new ≡ after_reply message.now (got_of (opening_of desk.old.plan) call refused.new.items history) talk.old) }
    ensures stands { refusal_at desk.old.steps refused.old.items ≡ None → (history : History) → Stands desk.old history →
        OnOk result (Stands desk.new (after_call call refused.new.items history)) }
    ensures steps { OnOk result (desk.new.steps ≡ desk.old.steps + length (call_step call)) }
    ensures plan { OnOk result (desk.new.plan ≡ desk.old.plan) }
    ensures notes { Notes desk.old.steps (call_step call) refused.old.items refused.new.items (B.log build.old) (B.log build.new) }
{
    let got = make_call(alloc, desk, call, build, refused)?;
    let told = push_reply(alloc, message, &got, talk, piece);
    drop(got);
    told
}
