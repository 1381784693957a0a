//! The program cases_sessions: sessions of clients on links in memory, from files of such cases.
#![tactic(auto)]

mod actors;
mod awaiting;
mod beside;
mod counted;
mod desks;
mod doors;
mod gated;
mod gates;
mod given;
mod habits;
mod links;
mod others;
mod rehearsing;
mod replaying;
mod seats;
mod serving;
mod speech;
mod telling;
mod working;

use actors::{tell_acted, tell_painter, tell_timing};
use awaiting::tell_awaited;
use beside::{tell_beside, tell_client_beside, tell_together};
use case_data::{Fault, Words};
use desks::{tell_serve, tell_serve_by};
use habits::{tell_habit, tell_timer};
use rehearsing::tell_rehearse;
use serving::{tell_client, tell_cuts, tell_many, tell_session};
use std::sync::Wait;
use std::thread::Threads;
use std::{env, fs};
use working::{tell_client_worker, tell_ipc_worker};

fn main(rt: HostRuntime) -> Result<(), Fault> {
    for name in env::args(&rt)?.skip(1) {
        tell_file(&rt, &rt, name.as_str())?;
    }
    Ok(())
}

/// Tells the cases of a file.
fn tell_file<R: Threads + Wait + Sync>(
    rt: &HostRuntime,
    wait: &R,
    name: &str,
) -> Result<(), Fault> {
    let text = fs::read_to_string(rt, name)?;
    tell_lines(rt, wait, text.as_str())
}

/// Tells each line of a file, but for empty ones and those that begin with `#`.
fn tell_lines<R: Threads + Wait + Sync>(
    rt: &HostRuntime,
    wait: &R,
    text: &str,
) -> Result<(), Fault> {
    for line in text.lines() {
        if !line.is_empty() && !line.starts_with("#") {
            tell_line(rt, wait, line)?;
        }
    }
    Ok(())
}

/// Prints a line and what came of it.
fn tell_line<R: Threads + Wait + Sync>(
    rt: &HostRuntime,
    wait: &R,
    line: &str,
) -> Result<(), Fault> {
    let mut out = String::new(rt.alloc());
    tell_case(wait, &mut Words::of(rt.alloc(), line), &mut out)?;
    print!(rt; "{line}\n{out}")?;
    Ok(())
}

/// Writes what comes of the case of a line, or that the line is none.
fn tell_case<R: Threads + Wait + Sync>(
    wait: &R,
    words: &mut Words<'_>,
    out: &mut String,
) -> Result<(), Fault> {
    match tell(wait, words, out) {
        Err(Fault::BadLine) => Ok(out.push_str("  bad line\n")?),
        answer => answer,
    }
}

/// Writes what comes of the case of a line. Its first word says whether it is one.
fn tell<R: Threads + Wait + Sync>(
    wait: &R,
    words: &mut Words<'_>,
    out: &mut String,
) -> Result<(), Fault> {
    match words.word() {
        "case" => Ok(()),
        "session" => tell_session(wait, words, out),
        "together" => tell_together(wait, words, out),
        "beside" => tell_beside(wait, words, out),
        "many" => tell_many(wait, words, out),
        "cuts" => tell_cuts(wait, words, out),
        "client" => tell_client(wait, words, out),
        "client-beside" => tell_client_beside(wait, words, out),
        "habit" => tell_habit(words, out),
        "timer" => tell_timer(words, out),
        "painter" => tell_painter(wait, words, out),
        "timing" => tell_timing(wait, words, out),
        "acted" => tell_acted(wait, words, out),
        "ipc-worker" => tell_ipc_worker(wait, words, out),
        "client-worker" => tell_client_worker(wait, words, out),
        "serve" => tell_serve(wait, words, out),
        "serve-by" => tell_serve_by(wait, words, out),
        "awaited" => tell_awaited(wait, words, out),
        "rehearse" => tell_rehearse(wait, words, out),
        _ => Err(Fault::BadLine),
    }
}
