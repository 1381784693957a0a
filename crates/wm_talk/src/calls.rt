//! The one call that a message asks for.
ghost use Rattle.std.specs.Prelude.{◌≡◌, IfOk};
ghost use Rattle.wm_talk.specs.Calls.{call_of, query_of, run_call, tick_call, text_of, tick_of};

use crate::kinds::{
    GET_BINDING_MODES, GET_BINDING_STATE, GET_CONFIG, GET_MARKS, GET_OUTPUTS, GET_TREE,
    GET_WORKSPACES, RUN_COMMAND, SEND_TICK,
};
use crate::texts::{text_of, tick_of};
use std::alloc::Global;
use wm_base::{NoMemory, Str};
use wm_core::Query;
use wm_frames::Message;

/// What is asked of a desk.
#[derive(Debug, Drop)]
pub enum Call {
    /// To run this text.
    Run(Str),
    /// To tell this text to all, at most 4,096 bytes.
    Tick(Str),
    /// To show this.
    Look(Query),
}

/// The one call of a message: a text is run or told to all, and all other messages look at the desk, at how far it is
/// where they ask to see nothing else.
pub fn call_of(alloc: Global, m: &Message) -> Result<Call, NoMemory>
    ensures { IfOk result (λ call. call ≡ call_of m.now) }
{
    match m.kind {
        RUN_COMMAND => run_call(alloc, m.payload.items()),
        SEND_TICK => tick_call(alloc, m.payload.items()),
        kind => Ok(Call::Look(query_of(kind).unwrap_or(Query::State))),
    }
}

/// To run the text of a payload, where it is one.
fn run_call(alloc: Global, payload: &[u8]) -> Result<Call, NoMemory>
    ensures { IfOk result (λ call. call ≡ run_call (text_of payload.now)) }
{
    match text_of(payload) {
        Some(text) => Ok(Call::Run(Str::of(String::from_str(alloc, text)?))),
        None => Ok(Call::Look(Query::State)),
    }
}

/// To tell the text of a payload to all, where it is one of at most 4,096 bytes.
fn tick_call(alloc: Global, payload: &[u8]) -> Result<Call, NoMemory>
    ensures { IfOk result (λ call. call ≡ tick_call (tick_of payload.now)) }
{
    match tick_of(payload) {
        Some(text) => Ok(Call::Tick(Str::of(String::from_str(alloc, text)?))),
        None => Ok(Call::Look(Query::State)),
    }
}

/// What a message of this type asks to see, where it asks to see something.
pub(crate) fn query_of(kind: u32) -> Option<Query>
    ensures { result ≡ query_of kind }
{
    match kind {
        GET_WORKSPACES => Some(Query::Workspaces),
        GET_OUTPUTS => Some(Query::Outputs),
        GET_TREE => Some(Query::Tree),
        GET_MARKS => Some(Query::Marks),
        GET_BINDING_MODES => Some(Query::Modes),
        GET_CONFIG => Some(Query::Config),
        GET_BINDING_STATE => Some(Query::Mode),
        _ => None,
    }
}
