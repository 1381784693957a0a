//! What the callers and the clients of a rehearsal do.
ghost use Rattle.std.specs.Prelude.{◌≡◌, ◌<◌, ◌≤◌, ◌++◌, ◌∷◌, ◌^◌, [], length, IfOk, OnOk};
ghost use Rattle.wm_serve.specs.Callers.{bytes_of, caller_link, client_link, commands, doors_of, habit_of, last_command, last_text, link_at};
ghost use Rattle.wm_serve.specs.declared.rehearsed.RehearsedLink.TheVariants as links;

use crate::once::OnceListen;
use crate::rehearsed::RehearsedLink;
use std::alloc::Global;
use wm_base::{List, NoMemory};
use wm_frames::{Message, encode};
use wm_habits::{Actor, ActorLink, Habit};
use wm_ports::MemLink;

/// How many bytes there is room for on a caller's link: more than the replies to all of its commands.
const ROOM: usize = 65_536;

/// The line with which each client opens its window.
const FIRST: &str = "map 0000ff 640x480 class=\"c\"";

/// The type of a message that runs a command.
const RUN_COMMAND: u32 = 0;

/// The listeners of a rehearsal with so many callers and as many clients: those of the callers first.
pub fn rehearsed_doors(alloc: Global, n: u32) -> Result<Vec<OnceListen>, NoMemory>
    requires { n ≤ 8 }
    ensures { IfOk result (λ doors. doors.items ≡ doors_of n) }
{
    let mut doors = Vec::new(alloc);
    for door in 0..2 * n {
        let listen = OnceListen::new(link_at(alloc, n, door)?, link_at(alloc, n, door)?);
        doors.push(listen)?;
    }
    Ok(doors)
}

/// The link at the door of this number, with so many callers.
fn link_at(alloc: Global, n: u32, door: u32) -> Result<RehearsedLink, NoMemory>
    ensures { IfOk result (λ made. made ≡ link_at n door) }
{
    if door < n {
        return Ok(RehearsedLink::Caller(caller(alloc, door)?));
    }
    Ok(RehearsedLink::Client(client(alloc, door - n)?))
}

/// The link of a caller: its commands twice, and `exit` where it is the first.
fn caller(alloc: Global, i: u32) -> Result<MemLink, NoMemory>
    ensures { IfOk result (λ made. links.Caller made ≡ caller_link i) }
{
    let mut bytes = Vec::new(alloc);
    push_commands(alloc, i, &mut bytes)?;
    push_last(alloc, i, &mut bytes)?;
    MemLink::new(alloc, bytes, ROOM, Vec::new(alloc), Vec::new(alloc))
}

/// Adds the messages of what a caller sends behind its commands: these once more, and `exit` where it is the first.
fn push_last(alloc: Global, i: u32, bytes: &mut Vec<u8>) -> Result<(), NoMemory>
    ensures { OnOk result (bytes.new.items ≡ bytes.old.items ++ bytes_of (commands i ++ last_text i)) }
{
    push_commands(alloc, i, bytes)?;
    if i == 0 {
        return push_command(alloc, "exit", bytes);
    }
    Ok(())
}

/// Adds the messages of a caller's eight commands.
fn push_commands(alloc: Global, i: u32, bytes: &mut Vec<u8>) -> Result<(), NoMemory>
    ensures { OnOk result (bytes.new.items ≡ bytes.old.items ++ bytes_of (commands i)) }
{
    push_command(alloc, "split toggle", bytes)?;
    push_command(alloc, "layout toggle all", bytes)?;
    push_command(alloc, "focus left", bytes)?;
    push_command(alloc, "focus right", bytes)?;
    push_command(alloc, "move left", bytes)?;
    push_command(alloc, "move right", bytes)?;
    push_command(alloc, "floating toggle", bytes)?;
    push_command(alloc, last_command(i), bytes)
}

/// The last of a caller's eight commands.
fn last_command(i: u32) -> &'static str
    ensures { result.now ≡ last_command i }
{
    match i % 4 {
        0 => "workspace number 1",
        1 => "workspace number 2",
        2 => "workspace number 3",
        _ => "workspace number 4",
    }
}

/// Adds the message that runs a command.
#[tactic(auto, unfolding(crate::specs::Callers::bytes_of))]
fn push_command(alloc: Global, text: &str, bytes: &mut Vec<u8>) -> Result<(), NoMemory>
    requires { length text.now < 2 ^ 32 }
    ensures { OnOk result (bytes.new.items ≡ bytes.old.items ++ bytes_of (text.now ∷ [])) }
{
    let mut payload = Vec::new(alloc);
    payload.extend_from_slice(text.as_bytes())?;
    let message = Message {
        kind: RUN_COMMAND,
        payload: List::of(payload),
    };
    encode(&message, bytes)
}

/// The link of a client, which begins by opening a window.
fn client(alloc: Global, i: u32) -> Result<ActorLink, NoMemory>
    ensures { IfOk result (λ made. links.Client made ≡ client_link i) }
{
    ActorLink::new(Actor::new(alloc, habit_of(i)), FIRST)
}

/// The habit of a client, by its number.
fn habit_of(i: u32) -> Habit
    ensures { result ≡ habit_of i }
{
    match i % 4 {
        0 => Habit::AtOnce,
        1 => Habit::Late { lines: 2 },
        2 => Habit::Never,
        _ => Habit::Wrong,
    }
}
