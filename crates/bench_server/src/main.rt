//! The program bench_server: a client that loads a server of i3-ipc, and a server of fixed replies beside it.
#![tactic(auto)]

mod event;
mod fault;
mod fixed;
mod load;
mod own;
mod wire;

use crate::fault::Fault;
use crate::load::Messages;
use std::env;
use std::net::Net;
use std::process::ExitCode;
use std::rt::Files;
use std::thread::Threads;
use std::time::Clock;

/// What `--help` writes.
const HELP: &str = "\
bench_server: loads a server of i3-ipc.

usage: bench_server load PATH CONNECTIONS COUNT TYPE [PAYLOAD ..]
                              send COUNT messages of this type on each connection, the payloads in turn, each after the
                              reply to the one before, and write how many were answered in a second
       bench_server own PATH CONNECTIONS COUNT
                              send COUNT messages on each connection whose replies can be told apart, and see that each is
                              the message's own; a container must have the focus
       bench_server event PATH COUNT
                              send COUNT ticks, and write the time in microseconds to the event that half took at most, 99
                              of 100, and all
       bench_server fixed PATH BYTES CONNECTIONS
                              serve so many connections, with replies of so many bytes
       bench_server --help    write this text

Exit status: 0 done, 2 bad words, 3 a wrong reply, 9 refused by the system, or the peer went.";

fn main(rt: HostRuntime) -> ExitCode {
    let ended = match words(&rt) {
        Ok(words) => bench(&rt, &words),
        Err(fault) => Err(fault),
    };
    match ended {
        Ok(()) => ExitCode::from(0),
        Err(fault) => ExitCode::from(fault.number()),
    }
}

fn bench<R: Threads + Files + Net + Clock + Print + AllocGlobal + Sync>(
    rt: &R,
    words: &[String],
) -> Result<(), Fault> {
    match words {
        [word] if word.as_str() == "--help" => println!(rt; "{HELP}")?,
        [word, path, numbers @ ..] => named(rt, word, path, numbers)?,
        _ => return Err(Fault::BadWords),
    }
    Ok(())
}

/// Does what the first word names, with the server at this path.
fn named<R: Threads + Files + Net + Clock + Print + AllocGlobal + Sync>(
    rt: &R,
    word: &str,
    path: &str,
    rest: &[String],
) -> Result<(), Fault> {
    let alloc = rt.alloc();
    match (word, rest) {
        ("load", [connections, count, kind, payloads @ ..]) => {
            let messages = Messages {
                count: number(count)?,
                kind: number(kind)?,
                payloads,
            };
            write_rate(rt, path, number(connections)?, messages)
        }
        ("own", [connections, count]) => {
            let Ok(connections) = u8::try_from(number(connections)?) else {
                return Err(Fault::BadWords);
            };
            own::own(rt, alloc, path, connections, number(count)?)
        }
        ("event", [count]) => {
            let times = event::take_times(rt, alloc, path, number(count)?)?;
            println!(rt; "{} {} {}", times.half, times.most, times.all)?;
            Ok(())
        }
        ("fixed", [bytes, connections]) => {
            fixed::serve(rt, alloc, path, number(bytes)?, number(connections)?)
        }
        _ => Err(Fault::BadWords),
    }
}

/// Writes how many messages were answered in a second.
fn write_rate<R: Threads + Net + Clock + Print + AllocGlobal + Sync>(
    rt: &R,
    path: &str,
    connections: u32,
    messages: Messages<'_>,
) -> Result<(), Fault> {
    let took = load::load(rt, rt.alloc(), path, connections, messages)?;
    let all = u128::from(connections) * u128::from(messages.count);
    let rate = all * 1_000_000_000 / took.as_nanos().max(1);
    println!(rt; "{rate}")?;
    Ok(())
}

fn number(word: &str) -> Result<u32, Fault> {
    word.parse::<u32>().map_err(|_| Fault::BadWords)
}

/// The program's words, without its own name.
fn words(rt: &HostRuntime) -> Result<Vec<String>, Fault> {
    let Ok(args) = env::args(rt) else {
        return Err(Fault::BadWords);
    };
    let mut words = Vec::new(rt.alloc());
    for word in args.skip(1) {
        words.push(word)?;
    }
    Ok(words)
}
