//! The program i3replay: replays scripts of windows, draws their frames, answers frames of i3-ipc, and takes steps that a number makes.
#![tactic(auto)]

use std::alloc::AllocError;
use std::env;
use std::io::{self, ErrorKind};
use std::process::ExitCode;
use wm_base::List;
use wm_criteria::RegexBuild;
use wm_json::VERSION;
use wm_ports::{StdSink, StdSource};
use wm_tool::{Status, tool};

/// What `--help` writes.
const HELP: &str = "\
i3replay: replays scripts of windows, draws their frames, and answers frames of i3-ipc, on the desktop of i3.

usage: i3replay replay < SCRIPT    write the answers and frames of a script
       i3replay draw < SCRIPT      write the last frame of a script as a picture, a portable pixmap
       i3replay ipc < FRAMES       write the replies to the messages of i3-ipc, and events
       i3replay generate N COUNT   write how far COUNT steps lead that are made from the number N
       i3replay --help             write this text
       i3replay --version          write the version

A script has one of these on each line, with spaces between words; empty lines and those that begin with `#` say nothing.
`version 1` may stand first. Those of the plan come before all others:
  output NAME X,Y WxH                     an output, at most eight; without one DP-1, 1000x800 at 0,0
  border none | pixel N | normal N        the border of containers
  gaps inner N | outer N                  the gaps of workspaces
  mode NAME                               a binding mode beside `default`
  bind MODE CHORD COMMAND                 what a chord runs in a mode
  layout NAME JSON                        a saved layout, for `append_layout NAME`
and then:
  map INK WxH PROPERTY=\"T\" ..             open a window: six hexadecimal digits, its buffer's size, and its properties
  title ID \"T\"                            give it another title
  urgent ID on | off                      make it urgent or not
  close ID, gone                          close the window of this id, or all of the caller's
  output-add NAME X,Y WxH                 add an output
  output-remove NAME                      remove it
  reserve NAME TOP RIGHT BOTTOM LEFT      keep its edges free
  run TEXT                                run the commands of a text, as `run layout splitv`
  key CHORD                               press a chord, in the mode that was set last
  tick \"T\"                                tell a text to all who watch the desk
  paint                                   write the frame
  tree, workspaces, outputs, marks        write what i3-ipc replies to GET_TREE, GET_WORKSPACES, GET_OUTPUTS, GET_MARKS
  ack ID SERIAL                           acknowledge the configure of this serial
  buffer ID INK WxH                       give the window a buffer
  deadline N                              the time of transaction N is over
  wants SERIAL KILL                       write what is asked of the caller's windows: configures above this serial, and
                                          requests to close of steps above this number
Each of these is of caller 0, or of another one with `@WHO ` in front. A frame shows an arrangement only
once each window whose size it changes has given a buffer for it or was closed, or its deadline came.

Each message of i3-ipc has its reply, and the events that were subscribed follow the reply to the message that they came
with; types above 12 have none.

`generate` reads nothing. N is a number of 1 to 10 digits, at most 4294967295, and COUNT one of 1 to 5 digits, at most 20000. It
writes how many steps were taken, how many layout transactions have ended, how many steps had come when the last of them
began, and how many windows are open, a line each.

Exit status: 0 done, 2 bad words, 3 bad script, 4 bad frames, 5 frames cut short, 6 input too large, 7 read fault, 8 write fault, 9 no memory.";

fn main(rt: HostRuntime) -> ExitCode {
    let status = match words(&rt) {
        Ok(words) => answer(&rt, &words),
        Err(status) => status,
    };
    if status.number() != 0 {
        let _ = eprintln!(rt; "{status}");
    }
    ExitCode::from(status.number())
}

/// The program's words, without its own name. A word that is no UTF-8 is a wrong one.
fn words(rt: &HostRuntime) -> Result<Vec<String>, Status> {
    let mut words = Vec::new(rt.alloc());
    let args = match env::args(rt) {
        Ok(args) => args,
        Err(error) if error.kind() == ErrorKind::OutOfMemory => return Err(Status::NoMemory),
        Err(_) => return Err(Status::BadWords),
    };
    for word in args.skip(1) {
        if words.push(word).is_err() {
            return Err(Status::NoMemory);
        }
    }
    Ok(words)
}

/// Answers `--help` and `--version`, and hands all other words to the tool.
fn answer(rt: &HostRuntime, words: &[String]) -> Status {
    match words {
        [word] if word.as_str() == "--help" => say(rt, HELP),
        [word] if word.as_str() == "--version" => say(rt, VERSION),
        _ => {
            let mut source = StdSource::new(rt.stdin());
            let mut sink = StdSink::new(rt.stdout());
            let mut build = RegexBuild::new();
            tool(rt.alloc(), words, &mut source, &mut sink, &mut build)
        }
    }
}

/// Writes a text and a line feed to standard output.
fn say(rt: &HostRuntime, text: &str) -> Status {
    match println!(rt; "{text}") {
        Ok(()) => Status::Done {
            refused: List::of(Vec::new(rt.alloc())),
        },
        Err(_) => Status::WriteFault,
    }
}
