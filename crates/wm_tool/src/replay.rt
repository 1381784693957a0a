//! The lines of a script are run, and what they tell is written in pieces.
ghost use Rattle.std.specs.Prelude.{◌≡◌, ℕ, List, Option, ◌+◌, ◌<◌, ◌≤◌, ◌^◌, ◌++◌, [], None, IfErr, OnErr, OnOk, length, vec_capacity, vec_len};
ghost use Rattle.std.specs.List.{AllByRecursion};
ghost use Rattle.wm_core.specs.DeskValue.{Stands};
ghost use Rattle.wm_history.specs.History.{History, opening_of};
ghost use Rattle.wm_criteria.specs.Building.{Log};
ghost use Rattle.wm_defs.specs.Counts.{Rose};
ghost use Rattle.wm_layouts.specs.Plan.{IsSound};
ghost use Rattle.wm_ports.specs.Told.{TakesPart};
ghost use Rattle.wm_script.specs.Out.{after, out_from, script_out, script_texts, steps_of, texts_from, told};
ghost use Rattle.wm_script.specs.Refusals.{refusal_at};
ghost use Rattle.wm_script.specs.Script.{IsFitBind, IsFitLine, IsFitScript};
ghost use Rattle.wm_script.specs.declared.refused.Refused as lists;
ghost use Rattle.wm_tool.specs.Ending.{HasStopped};
ghost use Rattle.wm_tool.specs.Running.{Finishes, Leads, noted_at, NotesLine, NotesSome, Plays, Stops, Writes};
ghost use Rattle.wm_tool.specs.declared.replay.Stop.TheVariants as stops;

use std::alloc::{AllocError, Global};
use wm_base::NoMemory;
use wm_binds::Bind;
use wm_core::Desk;
use wm_criteria::Build;
use wm_layouts::Plan;
use wm_ports::{Failed, Sink, write_all};
use wm_script::{Line, Refused, Script, play};

/// How long a piece of the output is at least before it is written, in bytes.
const PIECE: usize = 65536;

/// Why a script was not run to its end.
#[derive(Clone, Copy)]
pub enum Stop {
    WriteFault,
    NoMemory,
}

impl From<Failed> for Stop {
    ghost from_gives = { λ _ s. s ≡ stops.WriteFault };

    fn from(_failed: Failed) -> Stop {
        Stop::WriteFault
    }
}

impl From<NoMemory> for Stop {
    ghost from_gives = { λ _ s. s ≡ stops.NoMemory };

    fn from(_error: NoMemory) -> Stop {
        Stop::NoMemory
    }
}

impl From<AllocError> for Stop {
    ghost from_gives = { λ _ s. s ≡ stops.NoMemory };

    fn from(_error: AllocError) -> Stop {
        Stop::NoMemory
    }
}

/// Runs the lines of a script on the desk of its plan, and writes what they tell. Patterns that are refused are listed.
pub fn replay<B: Build, W: Sink>(
    alloc: Global,
    script: Script,
    build: &mut B,
    refused: &mut Vec<Refused>,
    sink: &mut W,
) -> Result<(), Stop>
    requires few { length script.lines ≤ 16777216 }
    requires fit { IsFitScript script }
    requires none { refused.old.items ≡ [] }
    ensures ok { OnOk result (Finishes (W.taken sink.old) (W.taken sink.new) (script_out script) refused.new.items (script_texts script) (B.log build.old) (B.log build.new)) }
    ensures part { OnErr result (Stops (W.taken sink.old) (W.taken sink.new) (script_out script) (script_texts script) (B.log build.old) (B.log build.new)) }
    ensures err { IfErr result (HasStopped (W.faults sink.old) (W.faults sink.new)) }
{
    let Script { plan, binds, lines } = script;
    let end = replay_plan(
        alloc,
        plan,
        binds.items(),
        lines.items(),
        build,
        refused,
        sink,
    );
    drop(binds);
    drop(lines);
    end
}

/// Runs the lines on the desk of a plan, and writes what they tell.
fn replay_plan<B: Build, W: Sink>(
    alloc: Global,
    plan: Plan,
    binds: &[Bind],
    lines: &[Line],
    build: &mut B,
    refused: &mut Vec<Refused>,
    sink: &mut W,
) -> Result<(), Stop>
    requires few { length lines.now ≤ 16777216 }
    requires fit { AllByRecursion IsFitLine lines.now }
    requires binds { AllByRecursion IsFitBind binds.now }
    requires sound { IsSound plan }
    requires none { refused.old.items ≡ [] }
    ensures ok { OnOk result (Finishes (W.taken sink.old) (W.taken sink.new) (λ rs. out_from (opening_of plan) binds.now lines.now rs []) refused.new.items (λ rs. texts_from (opening_of plan) binds.now lines.now rs []) (B.log build.old) (B.log build.new)) }
    ensures part { OnErr result (Stops (W.taken sink.old) (W.taken sink.new) (λ rs. out_from (opening_of plan) binds.now lines.now rs []) (λ rs. texts_from (opening_of plan) binds.now lines.now rs []) (B.log build.old) (B.log build.new)) }
    ensures err { IfErr result (HasStopped (W.faults sink.old) (W.faults sink.new)) }
{
    let mut desk = Desk::start(alloc, plan)?;
    let end = replay_on(alloc, &mut desk, binds, lines, build, refused, sink);
    drop(desk);
    end
}

/// Runs the lines on a desk that is new, and writes what they tell.
fn replay_on<B: Build, W: Sink>(
    alloc: Global,
    desk: &mut Desk,
    binds: &[Bind],
    lines: &[Line],
    build: &mut B,
    refused: &mut Vec<Refused>,
    sink: &mut W,
) -> Result<(), Stop>
    requires few { length lines.now ≤ 16777216 }
    requires fit { AllByRecursion IsFitLine lines.now }
    requires binds { AllByRecursion IsFitBind binds.now }
    requires none { refused.old.items ≡ [] }
    requires stands { Stands desk.old [] }
    ensures ok { OnOk result (Finishes (W.taken sink.old) (W.taken sink.new) (λ rs. out_from (opening_of desk.old.plan) binds.now lines.now rs []) refused.new.items (λ rs. texts_from (opening_of desk.old.plan) binds.now lines.now rs []) (B.log build.old) (B.log build.new)) }
    ensures part { OnErr result (Stops (W.taken sink.old) (W.taken sink.new) (λ rs. out_from (opening_of desk.old.plan) binds.now lines.now rs []) (λ rs. texts_from (opening_of desk.old.plan) binds.now lines.now rs []) (B.log build.old) (B.log build.new)) }
    ensures err { IfErr result (HasStopped (W.faults sink.old) (W.faults sink.new)) }
{
    let mut piece = Vec::new(alloc);
    run_lines(alloc, desk, binds, lines, build, refused, &mut piece, sink)?;
    write_all(sink, &piece)?;
    Ok(())
}

/// Runs the lines on the desk. What they tell is written, or held in the piece.
fn run_lines<B: Build, W: Sink>(
    alloc: Global,
    desk: &mut Desk,
    binds: &[Bind],
    lines: &[Line],
    build: &mut B,
    refused: &mut Vec<Refused>,
    piece: &mut Vec<u8>,
    sink: &mut W,
) -> Result<(), Stop>
    requires few { desk.old.steps + length lines.now ≤ 16777216 }
    requires fit { AllByRecursion IsFitLine lines.now }
    requires binds { AllByRecursion IsFitBind binds.now }
    ensures ok { (old : Option (List ℕ)) → (whole : List lists.Refused → List ℕ) → (texts : List lists.Refused → List (Option (List ℕ))) → (first : Log) →
        Plays old (W.taken sink.old) desk.old refused.old.items piece.old.items (out_from (opening_of desk.old.plan) binds.now lines.now) whole (texts_from (opening_of desk.old.plan) binds.now lines.now) texts first (B.log build.old) →
        OnOk result (Plays old (W.taken sink.new) desk.new refused.new.items piece.new.items (out_from (opening_of desk.old.plan) binds.now []) whole (texts_from (opening_of desk.old.plan) binds.now []) texts first (B.log build.new)) }
    ensures part { (old : Option (List ℕ)) → (whole : List lists.Refused → List ℕ) → (texts : List lists.Refused → List (Option (List ℕ))) → (first : Log) →
        Plays old (W.taken sink.old) desk.old refused.old.items piece.old.items (out_from (opening_of desk.old.plan) binds.now lines.now) whole (texts_from (opening_of desk.old.plan) binds.now lines.now) texts first (B.log build.old) →
        OnErr result (Stops old (W.taken sink.new) whole texts first (B.log build.new)) }
    ensures err { IfErr result (HasStopped (W.faults sink.old) (W.faults sink.new)) }
    ensures counted { W.faults sink.old ≤ W.faults sink.new }
{
    let mut rest = lines;
    while let [line, after @ ..] = rest {
        run_line(alloc, desk, binds, line, build, refused, piece)?;
        write_long(piece, sink)?;
        rest = after;
    }
    Ok(())
}

/// Writes the piece, where it is long enough.
fn write_long<W: Sink>(piece: &mut Vec<u8>, sink: &mut W) -> Result<(), Failed>
    ensures ok { OnOk result (Writes (W.taken sink.old) (W.taken sink.new) piece.old.items piece.new.items) }
    ensures part { OnErr result (TakesPart (W.taken sink.old) (W.taken sink.new) piece.old.items) }
    ensures failed { OnErr result (Rose (W.faults sink.old) (W.faults sink.new)) }
    ensures counted { W.faults sink.old ≤ W.faults sink.new }
{
    if piece.len() >= PIECE {
        write_all(sink, piece)?;
        piece.clear();
    }
    Ok(())
}

/// Runs one line on the desk, and adds what it tells.
pub(crate) fn run_line<B: Build>(
    alloc: Global,
    desk: &mut Desk,
    binds: &[Bind],
    line: &Line,
    build: &mut B,
    refused: &mut Vec<Refused>,
    piece: &mut Vec<u8>,
) -> Result<(), NoMemory>
    requires few { desk.old.steps < 2 ^ 48 }
    requires fit { IsFitLine line.now }
    requires binds { AllByRecursion IsFitBind binds.now }
    ensures ok { refusal_at desk.old.steps refused.old.items ≡ None →
        OnOk result (Leads desk.old desk.new (after (opening_of desk.old.plan) binds.now line.now refused.new.items) (told (opening_of desk.old.plan) binds.now line.now refused.new.items) piece.old.items piece.new.items) }
    ensures steps { OnOk result (desk.new.steps ≡ desk.old.steps + steps_of line.now.deed) }
    ensures plan { desk.new.plan ≡ desk.old.plan }
    ensures notes { OnOk result (NotesLine (opening_of desk.old.plan) binds.now desk.old line.now refused.old.items refused.new.items (B.log build.old) (B.log build.new)) }
    ensures stopped { OnErr result (NotesSome (opening_of desk.old.plan) binds.now desk.old line.now refused.old.items (B.log build.old) (B.log build.new)) }
{
    refused.reserve(1)?;
    let place = desk.steps();
    let played = play(alloc, desk, binds, line, build)?;
    note(refused, place, played.refused);
    piece.extend_from_slice(played.text.items())?;
    Ok(())
}

/// Lists the pattern that was refused at a place, if one was. There is room for it.
fn note(refused: &mut Vec<Refused>, place: u64, pattern: Option<u32>)
    requires { vec_len refused.old < vec_capacity refused.old }
    ensures { refused.new.items ≡ refused.old.items ++ noted_at place pattern }
{
    if let Some(pattern) = pattern {
        refused.push_reserved(Refused { place, pattern });
    }
}
