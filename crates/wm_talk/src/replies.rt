//! The payloads of replies.
ghost use Rattle.std.specs.Prelude.{◌≡◌, ◌∷◌, [], Some, IfOk};
ghost use Rattle.std.specs.Option.{option_map};
ghost use Rattle.std.specs.Str.Lossy.{utf8_valid_len};
ghost use Rattle.wm_json.specs.Replies.{replies_text, success_text, VERSION_TEXT};
ghost use Rattle.wm_talk.specs.Calls.{query_of};
ghost use Rattle.wm_talk.specs.Told.{bar_text, payload_by, replies_of, replies_to, seen_json, seen_payload};

use crate::calls::query_of;
use crate::got::Got;
use crate::kinds::{GET_BAR_CONFIG, GET_VERSION, RUN_COMMAND, SEND_TICK, SYNC};
use crate::texts::tick_of;
use crate::views::view_json;
use std::alloc::Global;
use std::str;
use wm_base::NoMemory;
use wm_core::Answer;
use wm_frames::Message;
use wm_json::{Reply, compact, replies_json, success_value, version_value};

/// The payload of the reply to a message that subscribes nothing, by what its call gave. `None` where it has no reply.
pub fn payload(alloc: Global, m: &Message, got: &Got) -> Result<Option<Vec<u8>>, NoMemory>
    requires other { (m.now.kind ≡ 2) → ⊥ }
    ensures { IfOk result (λ reply. option_map (λ bytes. bytes.items) reply ≡ payload_by m.now.kind m.now.payload got.now) }
{
    let bytes = m.payload.items();
    match m.kind {
        RUN_COMMAND => run_payload(alloc, bytes, got),
        GET_BAR_CONFIG => bar_payload(alloc, bytes),
        GET_VERSION => version_payload(alloc),
        SEND_TICK => success_payload(alloc, tick_of(bytes).is_some()),
        SYNC => success_payload(alloc, false),
        kind => seen_payload(alloc, kind, got),
    }
}

/// The replies to a payload that is to be run, by what the call gave.
fn run_payload(alloc: Global, payload: &[u8], got: &Got) -> Result<Option<Vec<u8>>, NoMemory>
    ensures { IfOk result (λ reply. option_map (λ bytes. bytes.items) reply ≡ Some (replies_text (replies_to payload.now got.now))) }
{
    Ok(Some(run_json(alloc, payload, got)?))
}

/// The JSON of the replies to a payload that is to be run, by what the call gave.
#[tactic(auto, using(crate::proofs::TextLemmas::is_run, crate::proofs::TextLemmas::is_not_run))]
fn run_json(alloc: Global, payload: &[u8], got: &Got) -> Result<Vec<u8>, NoMemory>
    ensures { IfOk result (λ bytes. bytes.items ≡ replies_text (replies_to payload.now got.now)) }
{
    match str::from_utf8(payload) {
        Ok(_) => answered_json(alloc, got),
        Err(error) => replies_json(alloc, &[Reply::Parse(error.valid_up_to())]),
    }
}

/// The JSON of the replies that a call gave.
fn answered_json(alloc: Global, got: &Got) -> Result<Vec<u8>, NoMemory>
    ensures { IfOk result (λ bytes. bytes.items ≡ replies_text (replies_of got.now)) }
{
    match got {
        Got::Answer(Answer::Replies(replies)) => replies_json(alloc, replies.items()),
        _ => replies_json(alloc, &[]),
    }
}

/// What was seen, where a message of this type asks to see something.
fn seen_payload(alloc: Global, kind: u32, got: &Got) -> Result<Option<Vec<u8>>, NoMemory>
    ensures { IfOk result (λ reply. option_map (λ bytes. bytes.items) reply ≡ seen_payload (query_of kind) got.now) }
{
    match query_of(kind) {
        Some(_) => Ok(Some(seen_json(alloc, got)?)),
        None => Ok(None),
    }
}

/// The JSON of what was seen.
fn seen_json(alloc: Global, got: &Got) -> Result<Vec<u8>, NoMemory>
    ensures { IfOk result (λ bytes. bytes.items ≡ seen_json got.now) }
{
    match got {
        Got::Answer(_) => Ok(Vec::new(alloc)),
        Got::View(view) => view_json(alloc, view),
    }
}

/// The reply to a message that asks for a bar, or for the names of bars where it names none.
fn bar_payload(alloc: Global, payload: &[u8]) -> Result<Option<Vec<u8>>, NoMemory>
    ensures { IfOk result (λ reply. option_map (λ bytes. bytes.items) reply ≡ Some (bar_text payload.now)) }
{
    let text = if payload.is_empty() {
        "[]"
    } else {
        "{\"id\":null}"
    };
    let mut bytes = Vec::new(alloc);
    bytes.extend_from_slice(text.as_bytes())?;
    Ok(Some(bytes))
}

/// The object that names this program's version.
fn version_payload(alloc: Global) -> Result<Option<Vec<u8>>, NoMemory>
    ensures { IfOk result (λ reply. option_map (λ bytes. bytes.items) reply ≡ Some VERSION_TEXT) }
{
    let value = version_value(alloc)?;
    Ok(Some(compact(alloc, &value)?))
}

/// The object that says whether something was done.
pub fn success_payload(alloc: Global, done: bool) -> Result<Option<Vec<u8>>, NoMemory>
    ensures { IfOk result (λ reply. option_map (λ bytes. bytes.items) reply ≡ Some (success_text done)) }
{
    let value = success_value(alloc, done)?;
    Ok(Some(compact(alloc, &value)?))
}
