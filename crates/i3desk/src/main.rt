//! The program i3desk: the desktop of i3, served on Unix sockets.
#![tactic(auto)]

mod doors;

use doors::{Sockets, builds};
use std::alloc::AllocError;
use std::env;
use std::io::ErrorKind;
use std::net::Net;
use std::process::ExitCode;
use std::rt::Files;
use std::sync::Wait;
use std::thread::Threads;
use wm_crew::ServeStatus;
use wm_json::VERSION;
use wm_options::options_of;
use wm_ports::{StdSink, StdSource};
use wm_serve::serve;
use wm_sockets::RealClock;

/// What `--help` writes.
const HELP: &str = "\
i3desk: the desktop of i3, served on Unix sockets.

usage: i3desk [--hold MS] < CONFIGURATION               serve clients until one says `exit`
       i3desk [--hold MS] --rehearse N < CONFIGURATION  let N callers and N modelled clients, 1 to 8, act in memory
       i3desk --help                                    write this text
       i3desk --version                                 write the version

It listens in the folder in which it was started:
  i3desk.ipc      clients that speak i3-ipc, at most 8 at a time, as `i3-msg -s i3desk.ipc 'focus left'`
  i3desk.clients  clients that open windows and speak lines, at most 16 at a time, as `nc -U i3desk.clients`
Only the user who started it may connect. Each further client waits until another one has gone.

The configuration is one of i3, whose outputs, borders, gaps, modes, workspaces and saved layouts count; an empty one means one
output of 1920x1080 pixels. The frames are written to standard output, one after another as they are painted. A frame
shows an arrangement only once each window whose size it changes has given a buffer for it or was closed, or MS milliseconds
have passed, 1 to 10000, and 200 where the words do not say it. At the end come the summary of all steps and the tree.

Exit status: 0 done, 2 bad words, 3 bad configuration, 6 input too large, 7 read fault, 8 write fault, 9 no memory, 10 too many
outputs, 11 a listener failed, 12 history full.";

fn main(rt: HostRuntime) -> ExitCode {
    let status = match words(&rt) {
        Ok(words) => answer(&rt, &rt, &words),
        Err(status) => status,
    };
    if status.number() != 0 {
        let _ = eprintln!(rt; "{status}");
    }
    ExitCode::from(status.number())
}

/// The program's words, without its own name. A word that is no UTF-8 is a wrong one.
fn words(rt: &HostRuntime) -> Result<Vec<String>, ServeStatus> {
    let mut words = Vec::new(rt.alloc());
    let args = match env::args(rt) {
        Ok(args) => args,
        Err(error) if error.kind() == ErrorKind::OutOfMemory => return Err(ServeStatus::NoMemory),
        Err(_) => return Err(ServeStatus::BadWords),
    };
    for word in args.skip(1) {
        if words.push(word).is_err() {
            return Err(ServeStatus::NoMemory);
        }
    }
    Ok(words)
}

/// Answers `--help` and `--version`, and serves by all other words.
fn answer<R: Threads + Wait + Files + Net + Sync>(
    rt: &HostRuntime,
    system: &R,
    words: &[String],
) -> ServeStatus {
    match words {
        [word] if word.as_str() == "--help" => say(rt, HELP),
        [word] if word.as_str() == "--version" => say_version(rt),
        _ => match run(rt, system, words) {
            Ok(status) => status,
            Err(AllocError) => ServeStatus::NoMemory,
        },
    }
}

/// Serves by the words, with doors on the sockets unless they ask for a rehearsal. Whatever comes, the sockets' files are removed.
fn run<R: Threads + Wait + Files + Net + Sync>(
    rt: &HostRuntime,
    system: &R,
    words: &[String],
) -> Result<ServeStatus, AllocError> {
    let Ok(options) = options_of(rt.alloc(), words) else {
        return Ok(ServeStatus::NoMemory);
    };
    let wanted = options.is_some_and(|options| options.rehearse.is_none());
    let sockets = Sockets::open(rt, system, wanted);
    let status = run_at(rt, system, words, &sockets);
    sockets.remove(system);
    status
}

/// Serves by the words, with doors on these sockets.
fn run_at<R: Threads + Wait + Files + Net + Sync>(
    rt: &HostRuntime,
    system: &R,
    words: &[String],
    sockets: &Sockets,
) -> Result<ServeStatus, AllocError> {
    let mut doors = sockets.doors(system, rt.alloc())?;
    let mut builds = builds(rt.alloc())?;
    let mut source = StdSource::new(rt.stdin());
    let mut frames = StdSink::new(rt.stdout());
    let Ok(mut clock) = RealClock::new(rt) else {
        let _ = eprintln!(rt; "the system's clock cannot be read");
        return Ok(ServeStatus::NoMemory);
    };
    Ok(serve(
        rt.alloc(),
        system,
        words,
        &mut source,
        &mut doors,
        &mut builds,
        &mut frames,
        &mut clock,
    ))
}

/// Writes the version, whose number is that of the reply to GET_VERSION.
fn say_version(rt: &HostRuntime) -> ServeStatus {
    let number = VERSION.strip_prefix("i3replay ").unwrap_or(VERSION);
    match println!(rt; "i3desk {number}") {
        Ok(()) => ServeStatus::Done,
        Err(_) => ServeStatus::WriteFault,
    }
}

/// Writes a text and a line feed to standard output.
fn say(rt: &HostRuntime, text: &str) -> ServeStatus {
    match println!(rt; "{text}") {
        Ok(()) => ServeStatus::Done,
        Err(_) => ServeStatus::WriteFault,
    }
}
