//! Lines of clients and of the timer: acknowledgements, buffers and deadlines.
ghost use Rattle.std.specs.Prelude.{◌≡◌, IfSome};
ghost use Rattle.wm_lines.specs.Lines.{ack_at, client_line_of, deadline_at, given_at, of_con, IsFitLine};

use crate::window_lines::con_then;
use wm_core::{ClientStep, Step};
use wm_fields::{at_end, buffer, serial, word_then};

/// What a line says for a client or the timer.
pub fn client_line(text: &[u8]) -> Option<Step>
    ensures value { result ≡ client_line_of text.now }
    ensures fit { IfSome result IsFitLine }
{
    if let Some(rest) = word_then(text, b"ack") {
        return ack_line(rest);
    }
    if let Some(rest) = word_then(text, b"buffer") {
        return given_line(rest);
    }
    deadline_line(word_then(text, b"deadline")?)
}

/// `ID SERIAL`, to the end of the line.
fn ack_line(text: &[u8]) -> Option<Step>
    ensures value { result ≡ of_con text.now ack_at }
    ensures fit { IfSome result IsFitLine }
{
    let (con, rest) = con_then(text)?;
    let (serial, rest) = serial(rest)?;
    at_end(rest, Step::Client(ClientStep::Ack { con, serial }))
}

/// `ID INK WxH`, to the end of the line.
fn given_line(text: &[u8]) -> Option<Step>
    ensures value { result ≡ of_con text.now given_at }
    ensures fit { IfSome result IsFitLine }
{
    let (con, rest) = con_then(text)?;
    let (buffer, rest) = buffer(rest)?;
    at_end(rest, Step::Client(ClientStep::Buffer { con, buffer }))
}

/// `NUMBER`, to the end of the line.
fn deadline_line(text: &[u8]) -> Option<Step>
    ensures value { result ≡ deadline_at text.now }
    ensures fit { IfSome result IsFitLine }
{
    let (number, rest) = serial(text)?;
    at_end(rest, Step::Client(ClientStep::Deadline { number }))
}
