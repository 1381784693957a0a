//! The tool: its words, what it reads, and how its run ends.
ghost use Rattle.std.specs.Prelude.{◌≡◌, ◌≢◌, ◌≤◌, ◌↔◌, ℕ, [], length, IfOk, None, OnOk};
ghost use Rattle.wm_defs.specs.Counts.{Rose};
ghost use Rattle.wm_tool.specs.Ending.{ending_of, ends, EndsAs, EndsOn, frames_status, HasRead, HasRisen, HasWritten, OnUnwritten, rest_ending, WritesOn};
ghost use Rattle.wm_frames.specs.Decoding.{Stands};
ghost use Rattle.wm_frames.specs.Reading.{messages};
ghost use Rattle.wm_tool.specs.Generating.{Sums};
ghost use Rattle.wm_tool.specs.Words.{OnGenerate, OnRun, OnUnread, order_of};
ghost use Rattle.wm_tool.specs.declared.words.Command.TheVariants as commands;
ghost use Rattle.wm_tool.specs.declared.status.Status.TheVariants as status;

use crate::drawing::draw;
use crate::generating::sum_up;
use crate::ipc::answer_all;
use crate::replay::replay;
use crate::status::Status;
use crate::words::{Command, Order, order_of};
use std::alloc::Global;
use wm_base::{List, NoMemory};
use wm_criteria::Build;
use wm_frames::{Decoder, FrameFault};
use wm_ports::{Sink, Source, read_to_limit};
use wm_script::{Refused, read_script};

/// How long an input is at most, in bytes.
const MOST: usize = 16_777_216;

/// Runs the tool with these words. With `replay`, `ipc` or `draw` alone the script or the frames that the source gives are
/// read to their end, and what they tell goes to the sink as it is made. The patterns of their texts are built by
/// `build`, and the steps that it refuses are listed. With `generate`, a number and a count, nothing is read, and how far so
/// many steps lead that are made from the number goes to the sink.
pub fn tool<R: Source, W: Sink, B: Build>(
    alloc: Global,
    words: &[String],
    source: &mut R,
    sink: &mut W,
    build: &mut B,
) -> Status
    ensures words { result ≡ status.BadWords ↔ order_of words.now ≡ None }
    ensures unread { OnUnread (order_of words.now) (source.new ≡ source.old) }
    ensures unwritten { OnUnwritten result (sink.new ≡ sink.old) }
    ensures read { OnRun (order_of words.now) (λ c. HasRead c result (R.rest source.old) (R.rest source.new)) }
    ensures written { OnRun (order_of words.now) (λ c.
        HasWritten c (B.log build.old) (B.log build.new) result (R.rest source.old) (W.taken sink.old) (W.taken sink.new)) }
    ensures summed { OnGenerate (order_of words.now) (λ seed count. Sums seed count result (W.taken sink.old) (W.taken sink.new)) }
    ensures faults { HasRisen result (R.faults source.old) (R.faults source.new) (W.faults sink.old) (W.faults sink.new) }
    ensures whole { OnRun (order_of words.now) (λ c.
        (Rose (R.faults source.old) (R.faults source.new) → ⊥) →
        (Rose (W.faults sink.old) (W.faults sink.new) → ⊥) → EndsAs c result (R.rest source.old)) }
{
    match order_of(words) {
        Some(Order::Run(command)) => ending(run(alloc, command, source, sink, build)),
        Some(Order::Generate { seed, count }) => summed(alloc, seed, count, sink),
        None => Status::BadWords,
    }
}

/// The status of a run.
fn ending(ended: Result<List<Refused>, Status>) -> Status
    ensures { result ≡ ending_of ended }
{
    match ended {
        Ok(refused) => Status::Done { refused },
        Err(status) => status,
    }
}

/// Takes so many steps, made from this number, and writes how far they lead.
fn summed<W: Sink>(alloc: Global, seed: u32, count: u32, sink: &mut W) -> Status
    requires few { count ≤ 20000 }
    ensures words { result ≢ status.BadWords }
    ensures unwritten { OnUnwritten result (sink.new ≡ sink.old) }
    ensures written { Sums seed count result (W.taken sink.old) (W.taken sink.new) }
    ensures faults { (old new : ℕ) → HasRisen result old new (W.faults sink.old) (W.faults sink.new) }
{
    match sum_up(alloc, seed, count, sink) {
        Ok(()) => Status::Done {
            refused: List::of(Vec::new(alloc)),
        },
        Err(stop) => Status::from(stop),
    }
}

/// Reads what the source gives, and runs the command on it.
fn run<R: Source, W: Sink, B: Build>(
    alloc: Global,
    command: Command,
    source: &mut R,
    sink: &mut W,
    build: &mut B,
) -> Result<List<Refused>, Status>
    ensures words { ending_of result ≢ status.BadWords }
    ensures unwritten { OnUnwritten (ending_of result) (sink.new ≡ sink.old) }
    ensures read { HasRead command (ending_of result) (R.rest source.old) (R.rest source.new) }
    ensures written { HasWritten command (B.log build.old) (B.log build.new) (ending_of result) (R.rest source.old) (W.taken sink.old) (W.taken sink.new) }
    ensures faults { HasRisen (ending_of result) (R.faults source.old) (R.faults source.new) (W.faults sink.old) (W.faults sink.new) }
{
    let bytes = read_to_limit(alloc, source, MOST)?;
    match command {
        Command::Replay => replay_script(alloc, &bytes, sink, build),
        Command::Ipc => answer_frames(alloc, &bytes, sink, build),
        Command::Draw => draw_script(alloc, &bytes, sink, build),
    }
}

/// Replays the script that the bytes are.
fn replay_script<W: Sink, B: Build>(
    alloc: Global,
    bytes: &[u8],
    sink: &mut W,
    build: &mut B,
) -> Result<List<Refused>, Status>
    requires within { length bytes.now ≤ 16777216 }
    ensures ends { EndsOn commands.Replay bytes.now (ending_of result) }
    ensures unwritten { OnUnwritten (ending_of result) (sink.new ≡ sink.old) }
    ensures written { WritesOn commands.Replay bytes.now (B.log build.old) (B.log build.new) (ending_of result) (W.taken sink.old) (W.taken sink.new) }
    ensures faults { (old new : ℕ) → HasRisen (ending_of result) old new (W.faults sink.old) (W.faults sink.new) }
{
    let script = read_script(alloc, bytes)?;
    let mut refused = Vec::new(alloc);
    replay(alloc, script, build, &mut refused, sink)?;
    Ok(List::of(refused))
}

/// Draws the last frame of the script that the bytes are.
fn draw_script<W: Sink, B: Build>(
    alloc: Global,
    bytes: &[u8],
    sink: &mut W,
    build: &mut B,
) -> Result<List<Refused>, Status>
    requires within { length bytes.now ≤ 16777216 }
    ensures ends { EndsOn commands.Draw bytes.now (ending_of result) }
    ensures unwritten { OnUnwritten (ending_of result) (sink.new ≡ sink.old) }
    ensures written { WritesOn commands.Draw bytes.now (B.log build.old) (B.log build.new) (ending_of result) (W.taken sink.old) (W.taken sink.new) }
    ensures faults { (old new : ℕ) → HasRisen (ending_of result) old new (W.faults sink.old) (W.faults sink.new) }
{
    let script = read_script(alloc, bytes)?;
    let mut refused = Vec::new(alloc);
    draw(alloc, script, build, &mut refused, sink)?;
    Ok(List::of(refused))
}

/// Answers the messages of the frames that the bytes are.
fn answer_frames<W: Sink, B: Build>(
    alloc: Global,
    bytes: &[u8],
    sink: &mut W,
    build: &mut B,
) -> Result<List<Refused>, Status>
    requires within { length bytes.now ≤ 16777216 }
    ensures ends { EndsOn commands.Ipc bytes.now (ending_of result) }
    ensures unwritten { OnUnwritten (ending_of result) (sink.new ≡ sink.old) }
    ensures written { WritesOn commands.Ipc bytes.now (B.log build.old) (B.log build.new) (ending_of result) (W.taken sink.old) (W.taken sink.new) }
    ensures faults { (old new : ℕ) → HasRisen (ending_of result) old new (W.faults sink.old) (W.faults sink.new) }
{
    let mut decoder = Decoder::new(alloc);
    answer_fed(alloc, &mut decoder, bytes, sink, build)
}

/// Feeds the bytes to a new decoder, and answers the messages that they make.
fn answer_fed<W: Sink, B: Build>(
    alloc: Global,
    decoder: &mut Decoder,
    bytes: &[u8],
    sink: &mut W,
    build: &mut B,
) -> Result<List<Refused>, Status>
    requires fresh { Stands [] [] decoder.old }
    requires within { length bytes.now ≤ 16777216 }
    ensures ends { EndsOn commands.Ipc bytes.now (ending_of result) }
    ensures unwritten { OnUnwritten (ending_of result) (sink.new ≡ sink.old) }
    ensures written { WritesOn commands.Ipc bytes.now (B.log build.old) (B.log build.new) (ending_of result) (W.taken sink.old) (W.taken sink.new) }
    ensures faults { (old new : ℕ) → HasRisen (ending_of result) old new (W.faults sink.old) (W.faults sink.new) }
{
    let end = feed_all(decoder, bytes)?;
    let mut refused = Vec::new(alloc);
    answer_all(alloc, decoder, build, &mut refused, sink)?;
    match end {
        FramesEnd::Whole => Ok(List::of(refused)),
        FramesEnd::Bad { at } => Err(Status::BadFrames { at }),
        FramesEnd::Cut { bytes } => Err(Status::Truncated { bytes }),
    }
}

/// How frames end: whole, at a place where none begins, or with a part of one.
#[derive(Clone, Copy)]
enum FramesEnd {
    Whole,
    Bad { at: u64 },
    Cut { bytes: usize },
}

/// Feeds the bytes to a new decoder, and says how they end.
fn feed_all(decoder: &mut Decoder, bytes: &[u8]) -> Result<FramesEnd, NoMemory>
    requires fresh { Stands [] [] decoder.old }
    requires within { length bytes.now ≤ 16777216 }
    ensures ends { IfOk result (λ end. frames_status end ≡ ends commands.Ipc bytes.now) }
    ensures queue { OnOk result (decoder.new.queue ≡ messages bytes.now) }
{
    match decoder.feed(bytes) {
        Ok(()) => Ok(frames_left(decoder.rest())),
        Err(FrameFault::Magic { at }) => Ok(FramesEnd::Bad { at }),
        Err(FrameFault::TooLong { at, len: _ }) => Ok(FramesEnd::Bad { at }),
        Err(FrameFault::NoMemory) => Err(NoMemory),
    }
}

/// How frames end with this many bytes behind the last whole one.
fn frames_left(bytes: usize) -> FramesEnd
    ensures { frames_status result ≡ rest_ending bytes }
{
    if bytes == 0 {
        FramesEnd::Whole
    } else {
        FramesEnd::Cut { bytes }
    }
}
