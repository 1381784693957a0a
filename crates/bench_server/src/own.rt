//! Replies that can be told apart, over several connections at once.
ghost use Rattle.std.specs.Prelude.{◌≤◌};

use crate::fault::Fault;
use crate::wire::Wire;
use std::alloc::Global;
use std::net::Net;
use std::str;
use std::thread::{self, Threads};

const RUN_COMMAND: u32 = 0;

const GET_MARKS: u32 = 5;

/// How many texts of a connection differ.
const TEXTS: u32 = 32;

/// One connection: how it is numbered, and whether its mark `cNUMBER` is set.
#[derive(Drop)]
struct Teller {
    alloc: Global,
    wire: Wire,
    number: u8,
    is_marked: bool,
}

/// Sends so many messages on each of so many connections, and sees that each reply is the message's own. Each connection sets
/// and takes off a mark of its own, so a container must have the focus.
pub fn own<R: Threads + Net + Sync>(
    rt: &R,
    alloc: Global,
    path: &str,
    connections: u8,
    count: u32,
) -> Result<(), Fault> {
    let mut tellers = Vec::new(alloc);
    for number in 0..connections {
        tellers.push(Teller {
            alloc,
            wire: Wire::connect(rt, alloc, path)?,
            number,
            is_marked: false,
        })?;
    }
    let ends = thread::map_vec(rt, tellers, &|teller| ask_own(teller, count))?;
    for end in ends {
        end?;
    }
    Ok(())
}

fn ask_own(mut teller: Teller, count: u32) -> Result<(), Fault> {
    for turn in 0..count {
        match turn % 16 {
            0 => teller.toggle()?,
            8 => teller.look()?,
            _ => teller.refuse((turn % TEXTS) as u8)?,
        }
    }
    Ok(())
}

impl Teller {
    /// Sets the mark, or takes it off.
    fn toggle(&mut self) -> Result<(), Fault> {
        let text = format!(in self.alloc; "mark --add --toggle c{}", self.number)?;
        self.wire.ask(RUN_COMMAND, text.as_bytes())?;
        self.is_marked = !self.is_marked;
        expect(self.wire.payload() == "[{\"success\":true}]".as_bytes())
    }

    /// Sees whether the mark is there where it was set, and is not where it was taken off.
    fn look(&mut self) -> Result<(), Fault> {
        self.wire.ask(GET_MARKS, b"")?;
        let mark = format!(in self.alloc; "\"c{}\"", self.number)?;
        let Ok(marks) = str::from_utf8(self.wire.payload()) else {
            return Err(Fault::Wrong);
        };
        expect(marks.contains(mark.as_str()) == self.is_marked)
    }

    /// Sends a text that does not read, from a byte on that only this connection's have, and sees that the reply names it.
    fn refuse(&mut self, turn: u8) -> Result<(), Fault> {
        let at = 5 + u32::from(self.number) * TEXTS + u32::from(turn);
        let text = unreadable(self.alloc, at as usize)?;
        self.wire.ask(RUN_COMMAND, &text)?;
        let owed = format!(in self.alloc;
            "[{{\"error\":\"parse error at byte {at}\",\"parse_error\":true,\"success\":false}}]"
        )?;
        expect(self.wire.payload() == owed.as_bytes())
    }
}

/// A text that does not read from this byte on, which is at least the sixth.
fn unreadable(alloc: Global, at: usize) -> Result<Vec<u8>, Fault>
    requires { 5 ≤ at }
{
    let mut text = Vec::new(alloc);
    text.extend_from_slice(b"nop ")?;
    text.resize(at - 1, b'a')?;
    text.extend_from_slice(b";!")?;
    Ok(text)
}

fn expect(holds: bool) -> Result<(), Fault> {
    if holds { Ok(()) } else { Err(Fault::Wrong) }
}
