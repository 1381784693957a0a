//! The lines of a script are run, and the frame that they leave is drawn.
ghost use Rattle.std.specs.Prelude.{◌≡◌, ℕ, List, Option, ◌+◌, ◌≤◌, [], IfErr, IfOk, OnErr, OnOk, length};
ghost use Rattle.std.specs.List.{AllByRecursion};
ghost use Rattle.wm_core.specs.DeskValue.{Stands};
ghost use Rattle.wm_history.specs.History.{History, opening_of};
ghost use Rattle.wm_criteria.specs.Building.{Log};
ghost use Rattle.wm_layouts.specs.Plan.{IsSound};
ghost use Rattle.wm_script.specs.Out.{script_texts, texts_from};
ghost use Rattle.wm_script.specs.Script.{IsFitBind, IsFitLine, IsFitScript};
ghost use Rattle.wm_script.specs.declared.refused.Refused as lists;
ghost use Rattle.wm_tool.specs.Drawing.{drawn_from, picture, script_drawn};
ghost use Rattle.wm_tool.specs.Ending.{HasStopped};
ghost use Rattle.wm_tool.specs.Running.{Draws, Finishes, IsBackedBy, Stops};

use crate::replay::{Stop, run_line};
use std::alloc::Global;
use wm_base::NoMemory;
use wm_binds::Bind;
use wm_core::Desk;
use wm_criteria::Build;
use wm_layouts::Plan;
use wm_paint::Canvas;
use wm_ports::{Sink, write_all};
use wm_script::{Line, Refused, Script};

/// Runs the lines of a script on the desk of its plan, and writes the picture of the frame that they leave. Patterns that
/// are refused are listed.
pub fn draw<B: Build, W: Sink>(
    alloc: Global,
    script: Script,
    build: &mut B,
    refused: &mut Vec<Refused>,
    sink: &mut W,
) -> Result<(), Stop>
    requires few { length script.lines ≤ 16777216 }
    requires fit { IsFitScript script }
    requires none { refused.old.items ≡ [] }
    ensures ok { OnOk result (Finishes (W.taken sink.old) (W.taken sink.new) (script_drawn script) refused.new.items (script_texts script) (B.log build.old) (B.log build.new)) }
    ensures part { OnErr result (Stops (W.taken sink.old) (W.taken sink.new) (script_drawn script) (script_texts script) (B.log build.old) (B.log build.new)) }
    ensures err { IfErr result (HasStopped (W.faults sink.old) (W.faults sink.new)) }
{
    let Script { plan, binds, lines } = script;
    let end = draw_plan(
        alloc,
        plan,
        binds.items(),
        lines.items(),
        build,
        refused,
        sink,
    );
    drop(binds);
    drop(lines);
    end
}

/// Runs the lines on the desk of a plan, and writes the picture of the frame that they leave.
fn draw_plan<B: Build, W: Sink>(
    alloc: Global,
    plan: Plan,
    binds: &[Bind],
    lines: &[Line],
    build: &mut B,
    refused: &mut Vec<Refused>,
    sink: &mut W,
) -> Result<(), Stop>
    requires few { length lines.now ≤ 16777216 }
    requires fit { AllByRecursion IsFitLine lines.now }
    requires binds { AllByRecursion IsFitBind binds.now }
    requires sound { IsSound plan }
    requires none { refused.old.items ≡ [] }
    ensures ok { OnOk result (Finishes (W.taken sink.old) (W.taken sink.new) (λ rs. drawn_from (opening_of plan) binds.now lines.now rs []) refused.new.items (λ rs. texts_from (opening_of plan) binds.now lines.now rs []) (B.log build.old) (B.log build.new)) }
    ensures part { OnErr result (Stops (W.taken sink.old) (W.taken sink.new) (λ rs. drawn_from (opening_of plan) binds.now lines.now rs []) (λ rs. texts_from (opening_of plan) binds.now lines.now rs []) (B.log build.old) (B.log build.new)) }
    ensures err { IfErr result (HasStopped (W.faults sink.old) (W.faults sink.new)) }
{
    let mut desk = Desk::start(alloc, plan)?;
    let end = draw_on(alloc, &mut desk, binds, lines, build, refused, sink);
    drop(desk);
    end
}

/// Runs the lines on a desk that is new, and writes the picture of the frame that they leave.
fn draw_on<B: Build, W: Sink>(
    alloc: Global,
    desk: &mut Desk,
    binds: &[Bind],
    lines: &[Line],
    build: &mut B,
    refused: &mut Vec<Refused>,
    sink: &mut W,
) -> Result<(), Stop>
    requires few { length lines.now ≤ 16777216 }
    requires fit { AllByRecursion IsFitLine lines.now }
    requires binds { AllByRecursion IsFitBind binds.now }
    requires none { refused.old.items ≡ [] }
    requires stands { Stands desk.old [] }
    ensures ok { OnOk result (Finishes (W.taken sink.old) (W.taken sink.new) (λ rs. drawn_from (opening_of desk.old.plan) binds.now lines.now rs []) refused.new.items (λ rs. texts_from (opening_of desk.old.plan) binds.now lines.now rs []) (B.log build.old) (B.log build.new)) }
    ensures part { OnErr result (Stops (W.taken sink.old) (W.taken sink.new) (λ rs. drawn_from (opening_of desk.old.plan) binds.now lines.now rs []) (λ rs. texts_from (opening_of desk.old.plan) binds.now lines.now rs []) (B.log build.old) (B.log build.new)) }
    ensures err { IfErr result (HasStopped (W.faults sink.old) (W.faults sink.new)) }
{
    play_lines(alloc, desk, binds, lines, build, refused)?;
    let bytes = picture(alloc, desk)?;
    write_all(sink, &bytes)?;
    Ok(())
}

/// Runs the lines on the desk, and drops what they tell.
fn play_lines<B: Build>(
    alloc: Global,
    desk: &mut Desk,
    binds: &[Bind],
    lines: &[Line],
    build: &mut B,
    refused: &mut Vec<Refused>,
) -> Result<(), NoMemory>
    requires few { desk.old.steps + length lines.now ≤ 16777216 }
    requires fit { AllByRecursion IsFitLine lines.now }
    requires binds { AllByRecursion IsFitBind binds.now }
    ensures ok { (whole : List lists.Refused → List ℕ) → (texts : List lists.Refused → List (Option (List ℕ))) → (first : Log) →
        Draws desk.old refused.old.items (drawn_from (opening_of desk.old.plan) binds.now lines.now) whole (texts_from (opening_of desk.old.plan) binds.now lines.now) texts first (B.log build.old) →
        OnOk result (Draws desk.new refused.new.items (drawn_from (opening_of desk.old.plan) binds.now []) whole (texts_from (opening_of desk.old.plan) binds.now []) texts first (B.log build.new)) }
    ensures part { (whole : List lists.Refused → List ℕ) → (texts : List lists.Refused → List (Option (List ℕ))) → (first : Log) →
        Draws desk.old refused.old.items (drawn_from (opening_of desk.old.plan) binds.now lines.now) whole (texts_from (opening_of desk.old.plan) binds.now lines.now) texts first (B.log build.old) →
        OnErr result (IsBackedBy texts first (B.log build.new)) }
    ensures plan { OnOk result (desk.new.plan ≡ desk.old.plan) }
{
    let mut told = Vec::new(alloc);
    let mut rest = lines;
    while let [line, after @ ..] = rest {
        run_line(alloc, desk, binds, line, build, refused, &mut told)?;
        told.clear();
        rest = after;
    }
    Ok(())
}

/// The picture of the frame over the first output, as a portable pixmap.
fn picture(alloc: Global, desk: &Desk) -> Result<Vec<u8>, NoMemory>
    requires { (history : History) × Stands desk.now history }
    ensures { (history : History) → Stands desk.now history → IfOk result (λ bytes. bytes.items ≡ picture (opening_of desk.now.plan) history) }
{
    let mut canvas = Canvas::new(alloc, desk.screen())?;
    let frame = desk.frame()?;
    canvas.draw(&frame)?;
    canvas.ppm()
}
