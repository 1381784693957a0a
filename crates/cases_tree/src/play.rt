//! The lines of cases on trees and their arrangements.
ghost use Rattle.cases_tree.specs.Desk.{Holds};

use crate::desk::{Desk, start};
use crate::looks::read;
use crate::sets::set;
use crate::showing::push_tree;
use crate::telling::tell_case;
use crate::{changes, events, marks, placed, steps, views};
use case_data::{Fault, Words};
use std::alloc::Global;
use std::mem;
use wm_tree::Tree;

/// Does what the lines of a text say, and appends what comes out.
pub fn play(alloc: Global, text: &str, out: &mut String) -> Result<(), Fault> {
    let mut desk = Desk::empty(alloc)?;
    let answer = play_lines(&mut desk, alloc, text, out);
    drop(desk);
    answer
}

fn play_lines(desk: &mut Desk, alloc: Global, text: &str, out: &mut String) -> Result<(), Fault>
    requires { Holds desk.old }
    ensures { Holds desk.new }
{
    for line in text.lines() {
        take_line(desk, alloc, line, out)?;
    }
    Ok(())
}

fn take_line(desk: &mut Desk, alloc: Global, line: &str, out: &mut String) -> Result<(), Fault>
    requires { Holds desk.old }
    ensures { Holds desk.new }
{
    if line.is_empty() || line.starts_with('#') {
        return Ok(());
    }
    match run(desk, &mut Words::of(alloc, line), out) {
        Err(Fault::BadLine) => Ok(writeln!(out, "bad line: {line}")?),
        answer => answer,
    }
}

fn run(desk: &mut Desk, words: &mut Words<'_>, out: &mut String) -> Result<(), Fault>
    requires { Holds desk.old }
    ensures { Holds desk.new }
{
    match words.word() {
        "case" => tell_case(words, out),
        "start" => start(desk, words),
        "times" => times(desk, words, out),
        "keep" => keep(desk),
        "back" => back(desk),
        word => show(word, desk, words, out),
    }
}

/// Says what the tree is.
fn show(word: &str, desk: &mut Desk, words: &mut Words<'_>, out: &mut String) -> Result<(), Fault>
    requires { Holds desk.old }
    ensures { Holds desk.new }
{
    match word {
        "read" => read(&desk.tree, words, out),
        "tree" => Ok(push_tree(words.alloc, out, &desk.tree)?),
        "same" => same(desk, words, out),
        _ => show_placed(word, desk, words, out),
    }
}

/// Says what the arrangement of the tree gives.
fn show_placed(
    word: &str,
    desk: &mut Desk,
    words: &mut Words<'_>,
    out: &mut String,
) -> Result<(), Fault>
    requires { Holds desk.old }
    ensures { Holds desk.new }
{
    match word {
        "arrange" => placed::place(desk, words, out),
        "again" => placed::compare(desk, words, out),
        "area" => placed::area(desk, words, out),
        "size" => placed::size(desk, words, out),
        "cut" => placed::cut_all(words, out),
        _ => show_json(word, desk, words, out),
    }
}

/// Says the tree or its events as JSON, or does what a call that changes the tree says.
fn show_json(
    word: &str,
    desk: &mut Desk,
    words: &mut Words<'_>,
    out: &mut String,
) -> Result<(), Fault>
    requires { Holds desk.old }
    ensures { Holds desk.new }
{
    match word {
        "view" => views::view(desk, words, out),
        "events" => events::events(desk, words, out),
        _ => act(word, desk, words, out),
    }
}

/// Does what a call that changes the tree says.
fn act(word: &str, desk: &mut Desk, words: &mut Words<'_>, out: &mut String) -> Result<(), Fault>
    requires { Holds desk.old }
    ensures { Holds desk.new }
{
    match word {
        "add" => changes::add(desk, words, out),
        "move" => changes::move_con(desk, words, out),
        "detach" => changes::detach(desk, words, out),
        "wrap" => changes::wrap(desk, words, out),
        "exchange" => changes::exchange(desk, words, out),
        "set" => set(desk, words),
        _ => act_on_spaces(word, desk, words, out),
    }
}

/// The same, of workspaces and outputs, of placeholders and of settling.
fn act_on_spaces(
    word: &str,
    desk: &mut Desk,
    words: &mut Words<'_>,
    out: &mut String,
) -> Result<(), Fault>
    requires { Holds desk.old }
    ensures { Holds desk.new }
{
    match word {
        "fill" => changes::fill(desk, words, out),
        "move-workspace" => changes::move_space(desk, words, out),
        "remove-output" => changes::remove_output(desk, words, out),
        "workspaces" => marks::workspaces(desk, words, out),
        "settle" => settle(desk),
        _ => act_on_marks(word, desk, words, out),
    }
}

/// The same, of marks, of urgent windows and of the order of recency.
fn act_on_marks(
    word: &str,
    desk: &mut Desk,
    words: &mut Words<'_>,
    out: &mut String,
) -> Result<(), Fault>
    requires { Holds desk.old }
    ensures { Holds desk.new }
{
    match word {
        "mark" => marks::mark(desk, words, out),
        "marks" => marks::marks(desk, words, out),
        "unmark" => marks::unmark(desk, words),
        "urgent" => marks::urgent(desk, words, out),
        "calm" => marks::calm(desk, words),
        "raise" => marks::raise(desk, words),
        _ => step(word, desk, words, out),
    }
}

/// Does what a command does.
fn step(word: &str, desk: &mut Desk, words: &mut Words<'_>, out: &mut String) -> Result<(), Fault>
    requires { Holds desk.old }
    ensures { Holds desk.new }
{
    match word {
        "focus" => steps::focus(desk, words, out),
        "send" => steps::send(desk, words, out),
        "bring" => steps::bring(desk, words, out),
        _ => Err(Fault::BadLine),
    }
}

fn settle(desk: &mut Desk) -> Result<(), Fault>
    requires { Holds desk.old }
    ensures { Holds desk.new }
{
    desk.tree.settle();
    Ok(())
}

/// `times 255 add window last 4`: makes a call so often, and says the last answer.
fn times(desk: &mut Desk, words: &mut Words<'_>, out: &mut String) -> Result<(), Fault>
    requires { Holds desk.old }
    ensures { Holds desk.new }
{
    let count = words.number()?;
    let line = words.rest();
    let mut answer = String::new(words.alloc);
    for _ in 0..count {
        answer.clear();
        act_once(desk, &mut Words::of(words.alloc, line), &mut answer)?;
    }
    Ok(out.push_str(answer.as_str())?)
}

fn act_once(desk: &mut Desk, words: &mut Words<'_>, out: &mut String) -> Result<(), Fault>
    requires { Holds desk.old }
    ensures { Holds desk.new }
{
    act(words.word(), desk, words, out)
}

/// Keeps a copy of the tree.
fn keep(desk: &mut Desk) -> Result<(), Fault>
    requires { Holds desk.old }
    ensures { Holds desk.new }
{
    desk.kept = Some(desk.tree.copy()?);
    desk.kept_sound = desk.sound;
    Ok(())
}

/// Goes back to the copy that was kept.
fn back(desk: &mut Desk) -> Result<(), Fault>
    ensures { Holds desk.new }
{
    desk.sound = false;
    desk.kept_sound = false;
    if let Some(tree) = &mut desk.kept {
        mem::swap(&mut desk.tree, tree);
    }
    Ok(())
}

/// Says whether the tree is the one that was kept.
fn same(desk: &Desk, words: &Words<'_>, out: &mut String) -> Result<(), Fault> {
    let same = is_kept(words.alloc, desk)?;
    Ok(writeln!(out, "same {same}")?)
}

fn is_kept(alloc: Global, desk: &Desk) -> Result<bool, Fault> {
    let Some(tree) = &desk.kept else {
        return Ok(false);
    };
    let kept = shown(alloc, tree)?;
    let now = shown(alloc, &desk.tree)?;
    Ok(kept.as_str() == now.as_str())
}

fn shown(alloc: Global, tree: &Tree) -> Result<String, Fault> {
    let mut lines = String::new(alloc);
    push_tree(alloc, &mut lines, tree)?;
    Ok(lines)
}
