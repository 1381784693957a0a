//! The program bench_calls: what calls of a tree and answers of a desk take, and the steps that a number makes.
#![tactic(auto)]

mod desk;
mod fault;
mod script;
mod states;
mod texts;
mod tree;

use crate::fault::Fault;
use std::env;
use std::process::ExitCode;

fn main(rt: HostRuntime) -> ExitCode {
    match bench(&rt) {
        Ok(()) => ExitCode::from(0),
        Err(Fault::BadWords) => ExitCode::from(2),
        Err(Fault::Refused) => ExitCode::from(9),
    }
}

/// Takes the words `tree 400 raise`, `desk 200 give`, `script 1 20000` and the like.
fn bench(rt: &HostRuntime) -> Result<(), Fault> {
    let words = words(rt)?;
    let [of, count, call] = words.as_slice() else {
        return Err(Fault::BadWords);
    };
    match of.as_str() {
        "tree" => tree::bench(rt.alloc(), count, call),
        "desk" => desk::bench(rt, count, call),
        "script" => script::write(rt, count, call),
        _ => Err(Fault::BadWords),
    }
}

/// The program's words, without its own name.
fn words(rt: &HostRuntime) -> Result<Vec<String>, Fault> {
    let Ok(args) = env::args(rt) else {
        return Err(Fault::BadWords);
    };
    let mut words = Vec::new(rt.alloc());
    for word in args.skip(1) {
        words.push(word)?;
    }
    Ok(words)
}
