//! The program cases_tree: cases of trees, arrangements, views, events and transactions, from the files it is given.
#![tactic(auto)]

mod changes;
mod desk;
mod events;
mod kinds;
mod looks;
mod marks;
mod news;
mod placed;
mod play;
mod sets;
mod showing;
mod steps;
mod telling;
mod transactions;
mod views;

use crate::play::play;
use crate::transactions::play_transactions;
use case_data::Fault;
use std::alloc::Global;
use std::{env, fs};

fn main(rt: HostRuntime) -> Result<(), Fault> {
    for word in env::args(&rt)?.skip(1) {
        play_file(&rt, word.as_str())?;
    }
    Ok(())
}

/// Runs the cases of a file, on transactions where its name says so, else on trees.
fn play_file(rt: &HostRuntime, name: &str) -> Result<(), Fault> {
    let text = fs::read_to_string(rt, name)?;
    let mut out = String::new(rt.alloc());
    play_text(rt.alloc(), name, text.as_str(), &mut out)?;
    print!(rt; "{out}")?;
    Ok(())
}

fn play_text(alloc: Global, name: &str, text: &str, out: &mut String) -> Result<(), Fault> {
    if name == "transactions.cases" {
        play_transactions(alloc, text, out)
    } else {
        play(alloc, text, out)
    }
}
