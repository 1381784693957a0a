//! The program cases_bytes: frames, replies, views, kept events, texts, rectangles, sources and sinks, links,
//! listeners and clocks, pictures and maps, from files of such cases.
#![tactic(auto)]

mod fields;
mod frames;
mod kept;
mod limits;
mod links;
mod lists;
mod maps;
mod memory;
mod nodes;
mod pictures;
mod quads;
mod rects;
mod replies;
mod streams;
mod views;
mod whole;

use case_data::{Fault, Words};
use std::{env, fs};

fn main(rt: HostRuntime) -> Result<(), Fault> {
    for name in env::args(&rt)?.skip(1) {
        tell_file(&rt, name.as_str())?;
    }
    Ok(())
}

/// Tells the cases of a file.
fn tell_file(rt: &HostRuntime, name: &str) -> Result<(), Fault> {
    let text = fs::read_to_string(rt, name)?;
    tell_lines(rt, text.as_str())
}

/// Tells each line of a file, but for empty ones and those that begin with `#`.
fn tell_lines(rt: &HostRuntime, text: &str) -> Result<(), Fault> {
    for line in text.lines() {
        if !line.is_empty() && !line.starts_with("#") {
            tell_line(rt, line)?;
        }
    }
    Ok(())
}

/// Prints a line and what came of it.
fn tell_line(rt: &HostRuntime, line: &str) -> Result<(), Fault> {
    let mut out = String::new(rt.alloc());
    tell_case(&mut Words::of(rt.alloc(), line), &mut out)?;
    print!(rt; "{line}\n{out}")?;
    Ok(())
}

/// Writes what comes of the case of a line, or that the line is none.
fn tell_case(words: &mut Words<'_>, out: &mut String) -> Result<(), Fault> {
    match tell(words, out) {
        Err(Fault::BadLine) => Ok(out.push_str("  bad line\n")?),
        answer => answer,
    }
}

/// Writes what comes of the case of a line. Its first word says what is called.
fn tell(words: &mut Words<'_>, out: &mut String) -> Result<(), Fault> {
    match words.word() {
        "case" => Ok(()),
        "feeds" => frames::tell_feeds(words, out),
        "single" => frames::tell_single(words, out),
        "cuts" => frames::tell_cuts(words, out),
        "encodes" => frames::tell_encoded(words, out),
        word => tell_picture(word, words, out),
    }
}

/// The same, of pictures, maps, kept events and rectangles.
fn tell_picture(word: &str, words: &mut Words<'_>, out: &mut String) -> Result<(), Fault> {
    match word {
        "frame" => pictures::tell_frame(words, out),
        "canvas" => pictures::tell_canvas(words, out),
        "map" => maps::tell_map(words, out),
        "kept" => kept::tell_kept(words, out),
        "inset" => rects::tell_inset(words, out),
        "overlap" => rects::tell_overlap(words, out),
        _ => tell_text(word, words, out),
    }
}

/// The same, of texts, lists and the words of limits and errors.
fn tell_text(word: &str, words: &mut Words<'_>, out: &mut String) -> Result<(), Fault> {
    match word {
        "errors" => limits::tell_errors(out),
        "limits" => limits::tell_limits(out),
        "text" => lists::tell_text(words, out),
        "list" => lists::tell_list(words, out),
        "nested" => lists::tell_nested(words, out),
        _ => tell_reply(word, words, out),
    }
}

/// The same, of replies.
fn tell_reply(word: &str, words: &mut Words<'_>, out: &mut String) -> Result<(), Fault> {
    match word {
        "replies" => replies::tell_replies(words, out),
        "success" => replies::tell_success(words, out),
        "version" => replies::tell_version(words, out),
        "texts" => replies::tell_texts(words, out),
        _ => tell_view(word, words, out),
    }
}

/// The same, of nodes, workspaces, outputs and events.
fn tell_view(word: &str, words: &mut Words<'_>, out: &mut String) -> Result<(), Fault> {
    match word {
        "node" => views::tell_node(words, out),
        "workspaces" => views::tell_workspaces(words, out),
        "outputs" => views::tell_outputs(words, out),
        "event" => views::tell_event(words, out),
        _ => tell_port(word, words, out),
    }
}

/// The same, of sources and sinks.
fn tell_port(word: &str, words: &mut Words<'_>, out: &mut String) -> Result<(), Fault> {
    match word {
        "source" => memory::tell_source(words, out),
        "sink" => memory::tell_sink(words, out),
        "limit" => whole::tell_limit(words, out),
        "whole" => whole::tell_whole(words, out),
        "reader" => streams::tell_reader(words, out),
        "writer" => streams::tell_writer(words, out),
        _ => tell_link(word, words, out),
    }
}

/// The same, of links, listeners and clocks.
fn tell_link(word: &str, words: &mut Words<'_>, out: &mut String) -> Result<(), Fault> {
    match word {
        "link" => links::tell_link(words, out),
        "listen" => links::tell_listen(words, out),
        "clock" => links::tell_clock(words, out),
        _ => Err(Fault::BadLine),
    }
}
