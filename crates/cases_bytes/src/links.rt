//! Cases of links, listeners and clocks in memory.
use crate::fields::{bytes, last_number, number, numbers, push_bytes, push_enclosed};
use crate::memory::dots;
use case_data::{Fault, Words};
use std::alloc::{AllocError, Global};
use wm_ports::{Accepted, Clock, Link, Listen, MemLink, MemListen, Received, SendFault, StepClock};

/// From `BYTES|FAILS|QUIET|SPACE|PIECE|ROOM|STEPS`, what a link with so much space answers: at each `r` of the steps it
/// receives into a room of dots, at each `s` the piece is sent. Then what was sent.
pub fn tell_link(fields: &mut Words<'_>, out: &mut String) -> Result<(), Fault> {
    let bytes = bytes(fields)?;
    let mut link = link_of(bytes, fields)?;
    push_steps(&mut link, fields, out)?;
    push_bytes(out, link.sent())
}

fn link_of(bytes: Vec<u8>, fields: &mut Words<'_>) -> Result<MemLink, Fault> {
    let fails = numbers(fields)?;
    let quiet = numbers(fields)?;
    let space = number(fields)?;
    Ok(MemLink::new(fields.alloc, bytes, space as usize, fails, quiet)?)
}

fn push_steps(link: &mut MemLink, fields: &mut Words<'_>, out: &mut String) -> Result<(), Fault> {
    let piece = bytes(fields)?;
    let size = number(fields)?;
    for step in fields.rest().bytes() {
        if step == b'r' {
            push_receiving(link, fields.alloc, size, out)?;
        } else {
            push_sending(link, &piece, out)?;
        }
    }
    Ok(())
}

fn push_receiving(
    link: &mut MemLink,
    alloc: Global,
    size: u32,
    out: &mut String,
) -> Result<(), Fault> {
    let mut room = dots(alloc, size)?;
    if room.is_empty() {
        return Err(Fault::BadLine);
    }
    let answer = link.receive(&mut room);
    push_received(out, answer)?;
    push_enclosed(out, &room)
}

fn push_received(out: &mut String, answer: Received) -> Result<(), AllocError> {
    match answer {
        Received::Got(count) => write!(out, "  got {count} "),
        Received::Quiet => out.push_str("  quiet "),
        Received::End => out.push_str("  end "),
        Received::Failed => out.push_str("  failed "),
        Received::NoMemory => out.push_str("  no memory "),
    }
}

fn push_sending(link: &mut MemLink, piece: &[u8], out: &mut String) -> Result<(), Fault> {
    if piece.is_empty() {
        return Err(Fault::BadLine);
    }
    match link.send(piece) {
        Ok(count) => Ok(write!(out, "  sent {count}\n")?),
        Err(SendFault::Failed) => Ok(out.push_str("  failed\n")?),
        Err(SendFault::NoMemory) => Ok(out.push_str("  no memory\n")?),
    }
}

/// From `TEXTS|FAILS|QUIET|TIMES`, what a listener answers whose links have these texts: each link is received from once,
/// is sent `ok`, and is given back. Then what was sent to each that was given back.
pub fn tell_listen(fields: &mut Words<'_>, out: &mut String) -> Result<(), Fault> {
    let links = links_of(fields)?;
    let mut listen = listen_of(links, fields)?;
    for _ in 0..last_number(fields)? {
        push_accepting(&mut listen, fields.alloc, out)?;
    }
    push_returned(listen.returned(), out)
}

fn links_of(fields: &mut Words<'_>) -> Result<Vec<MemLink>, Fault> {
    let alloc = fields.alloc;
    let mut links = Vec::new(alloc);
    for text in fields.until("|").split_whitespace() {
        links.push(small_link(alloc, text.as_bytes())?)?;
    }
    Ok(links)
}

/// A link of these bytes that takes two.
fn small_link(alloc: Global, text: &[u8]) -> Result<MemLink, Fault> {
    let bytes = Vec::from_slice(alloc, text)?;
    let fails = Vec::new(alloc);
    let quiet = Vec::new(alloc);
    Ok(MemLink::new(alloc, bytes, 2, fails, quiet)?)
}

fn listen_of(links: Vec<MemLink>, fields: &mut Words<'_>) -> Result<MemListen, Fault> {
    let fails = numbers(fields)?;
    let quiet = numbers(fields)?;
    Ok(MemListen::new(fields.alloc, links, fails, quiet)?)
}

fn push_accepting(listen: &mut MemListen, alloc: Global, out: &mut String) -> Result<(), Fault> {
    match listen.accept() {
        Accepted::Link(mut link) => {
            let told = push_served(&mut link, alloc, out);
            listen.give_back(link);
            told
        }
        Accepted::Quiet => Ok(out.push_str("  quiet\n")?),
        Accepted::Failed => Ok(out.push_str("  failed\n")?),
    }
}

fn push_served(link: &mut MemLink, alloc: Global, out: &mut String) -> Result<(), Fault> {
    push_receiving(link, alloc, 4, out)?;
    push_sending(link, b"ok", out)
}

fn push_returned(links: &[MemLink], out: &mut String) -> Result<(), Fault> {
    for link in links {
        push_bytes(out, link.sent())?;
    }
    Ok(())
}

/// From `FIRST ADD|TIMES`, the numbers that a clock gives.
pub fn tell_clock(fields: &mut Words<'_>, out: &mut String) -> Result<(), Fault> {
    let steps = numbers(fields)?;
    let [first, add] = steps.as_slice() else {
        return Err(Fault::BadLine);
    };
    let mut clock = StepClock::new(*first, *add);
    for _ in 0..last_number(fields)? {
        write!(out, "  {}\n", clock.now_ms())?;
    }
    Ok(())
}
