//! A line is played on a desk.
ghost use Rattle.std.specs.Prelude.{◌≡◌, ◌+◌, ◌<◌, ◌^◌, ◌∷◌, [], IfOk, IsTrue, None, OnOk, Some, length, map};
ghost use Rattle.std.specs.List.{AllByRecursion, list_all};
ghost use Rattle.wm_history.specs.Act as acts;
ghost use Rattle.wm_history.specs.Act.{act_of, choice_of, text_of};
ghost use Rattle.wm_core.specs.DeskValue.{Stands};
ghost use Rattle.wm_history.specs.History.{History, opening_of};
ghost use Rattle.wm_history.specs.Sizes.{IsFitStep};
ghost use Rattle.wm_history.specs.declared.step.Step.TheVariants as steps;
ghost use Rattle.wm_criteria.specs.Prepared.{is_built};
ghost use Rattle.wm_layouts.specs.Sizes.{IsFitSize};
ghost use Rattle.wm_script.specs.Out.{act_with, bound_text, choices_with, entry_of, key_with, last_bind, run_with, steps_of, text_of_step, text_run};
ghost use Rattle.wm_script.specs.Playing.{IsFitAnew, IsPlayable, IsRefusal, IsShort, Plays, RefusesIn, Tells, TellsLine};

use crate::answers::answer_text;
use crate::keys::last_bind;
use crate::line::{Deed, Line};
use crate::looks::{look, paint};
use crate::texts::judge;
use std::alloc::Global;
use wm_base::{Buffer, List, NoMemory, Props, Text};
use wm_binds::Bind;
use wm_core::{Choice, Desk, Step};
use wm_criteria::{Build, Prepared};
use wm_tree::copy_props;

/// What a line writes, and the pattern of its text that was refused, counted from 0, if one was.
#[derive(Drop)]
pub struct Played {
    pub text: List<u8>,
    pub refused: Option<u32>,
}

/// Plays one line on a desk whose keys run these bindings. The patterns of its text are built by `build`, also those of the
/// text that a window brings. After an `Err` the desk may have taken the line's step.
pub fn play<B: Build>(
    alloc: Global,
    desk: &mut Desk,
    binds: &[Bind],
    line: &Line,
    build: &mut B,
) -> Result<Played, NoMemory>
    requires few { desk.old.steps < 2 ^ 48 }
    requires fit { IsPlayable line.now.deed }
    requires short { AllByRecursion IsShort binds.now }
    ensures plays { IfOk result (Plays desk.old desk.new binds.now line.now) }
    ensures steps { OnOk result (desk.new.steps ≡ desk.old.steps + steps_of line.now.deed) }
    ensures plan { desk.new.plan ≡ desk.old.plan }
    ensures refusal { RefusesIn desk.old binds.now line.now result (B.log build.old) (B.log build.new) }
{
    let mut refused = None;
    let text = play_noting(alloc, desk, binds, line, build, &mut refused)?;
    Ok(Played { text, refused })
}

/// Plays one line, and notes the pattern of its text that was refused.
fn play_noting<B: Build>(
    alloc: Global,
    desk: &mut Desk,
    binds: &[Bind],
    line: &Line,
    build: &mut B,
    noted: &mut Option<u32>,
) -> Result<List<u8>, NoMemory>
    requires few { desk.old.steps < 2 ^ 48 }
    requires fit { IsPlayable line.now.deed }
    requires short { AllByRecursion IsShort binds.now }
    requires none { noted.old ≡ None }
    ensures tells { IfOk result (TellsLine desk.old desk.new binds.now line.now noted.new) }
    ensures steps { OnOk result (desk.new.steps ≡ desk.old.steps + steps_of line.now.deed) }
    ensures plan { desk.new.plan ≡ desk.old.plan }
    ensures refusal { (history : History) → Stands desk.old history →
        IsRefusal (text_run (opening_of desk.old.plan) binds.now history line.now.deed) noted.new (B.log build.old) (B.log build.new) }
{
    match &line.deed {
        Deed::Run(text) => run(alloc, desk, line.who, text.as_str(), build, noted),
        Deed::Do(step) => take_anew(alloc, desk, line.who, step, build, noted),
        Deed::Key(chord) => press(alloc, desk, binds, line.who, chord, build, noted),
        Deed::Paint => paint(alloc, desk),
        Deed::Look(query) => look(alloc, desk, line.who, query),
    }
}

/// Takes a step of the caller, and gives the line of its answer.
fn take(alloc: Global, desk: &mut Desk, who: u32, step: &Step) -> Result<List<u8>, NoMemory>
    requires few { desk.old.steps < 2 ^ 48 }
    requires fit { IsFitStep step.now }
    ensures tells { IfOk result (Tells desk.old desk.new (entry_of who (act_of step.now))) }
    ensures steps { OnOk result (desk.new.steps ≡ desk.old.steps + 1) }
    ensures plan { desk.new.plan ≡ desk.old.plan }
{
    let answer = desk.step(who, step)?;
    let text = answer_text(alloc, &answer);
    drop(answer);
    text
}

/// The same of a step that is dropped then.
fn take_once(alloc: Global, desk: &mut Desk, who: u32, step: Step) -> Result<List<u8>, NoMemory>
    requires few { desk.old.steps < 2 ^ 48 }
    requires fit { IsFitStep step }
    ensures tells { IfOk result (Tells desk.old desk.new (entry_of who (act_of step))) }
    ensures steps { OnOk result (desk.new.steps ≡ desk.old.steps + 1) }
    ensures plan { desk.new.plan ≡ desk.old.plan }
{
    let text = take(alloc, desk, who, &step);
    drop(step);
    text
}

/// Runs a text.
fn run<B: Build>(
    alloc: Global,
    desk: &mut Desk,
    who: u32,
    text: &str,
    build: &mut B,
    noted: &mut Option<u32>,
) -> Result<List<u8>, NoMemory>
    requires few { desk.old.steps < 2 ^ 48 }
    requires short { length text.now < 2 ^ 32 }
    requires none { noted.old ≡ None }
    ensures tells { IfOk result (Tells desk.old desk.new (run_with who noted.new text.now)) }
    ensures steps { OnOk result (desk.new.steps ≡ desk.old.steps + 1) }
    ensures plan { desk.new.plan ≡ desk.old.plan }
    ensures refusal { IsRefusal (Some text.now) noted.new (B.log build.old) (B.log build.new) }
{
    let prepared = judge(alloc, text, build, noted)?;
    take_once(alloc, desk, who, Step::Run(prepared))
}

/// Takes a step of another kind. The text that a window brings is prepared anew.
fn take_anew<B: Build>(
    alloc: Global,
    desk: &mut Desk,
    who: u32,
    step: &Step,
    build: &mut B,
    noted: &mut Option<u32>,
) -> Result<List<u8>, NoMemory>
    requires few { desk.old.steps < 2 ^ 48 }
    requires fit { IsFitAnew step.now }
    requires none { noted.old ≡ None }
    ensures tells { IfOk result (Tells desk.old desk.new (entry_of who (act_with noted.new step.now))) }
    ensures steps { OnOk result (desk.new.steps ≡ desk.old.steps + 1) }
    ensures plan { desk.new.plan ≡ desk.old.plan }
    ensures refusal { IsRefusal (text_of_step step.now) noted.new (B.log build.old) (B.log build.new) }
{
    match step {
        Step::Map {
            props,
            buffer,
            then: Some(brought),
        } => {
            let brought = judge(alloc, brought.text.as_str(), build, noted)?;
            let step = map_step(props, *buffer, brought)?;
            take_once(alloc, desk, who, step)
        }
        step => take(alloc, desk, who, step),
    }
}

/// The step that opens a window, which brings this text.
fn map_step(props: &Props, buffer: Buffer, brought: Prepared) -> Result<Step, NoMemory>
    requires size { IsFitSize buffer.size }
    requires built { IsTrue (is_built brought) }
    ensures step { IfOk result (λ step. step ≡ steps.Map props.now buffer (Some brought)) }
    ensures fit { IfOk result IsFitStep }
{
    match copy_props(props) {
        Ok(props) => Ok(Step::Map {
            props,
            buffer,
            then: Some(brought),
        }),
        Err(error) => {
            drop(brought);
            Err(NoMemory::from(error))
        }
    }
}

/// Presses a chord.
fn press<B: Build>(
    alloc: Global,
    desk: &mut Desk,
    binds: &[Bind],
    who: u32,
    chord: &Text,
    build: &mut B,
    noted: &mut Option<u32>,
) -> Result<List<u8>, NoMemory>
    requires few { desk.old.steps < 2 ^ 48 }
    requires short { AllByRecursion IsShort binds.now }
    requires none { noted.old ≡ None }
    ensures tells { IfOk result (Tells desk.old desk.new (key_with binds.now who noted.new desk.old.mode chord.now)) }
    ensures steps { OnOk result (desk.new.steps ≡ desk.old.steps + 1) }
    ensures plan { desk.new.plan ≡ desk.old.plan }
    ensures refusal { IsRefusal (bound_text (last_bind desk.old.mode chord.now binds.now)) noted.new (B.log build.old) (B.log build.new) }
{
    let choices = choices_of(alloc, desk, binds, chord, build, noted)?;
    let step = key_step(chord, choices)?;
    take_once(alloc, desk, who, step)
}

/// What the chord does in the mode of the desk.
fn choices_of<B: Build>(
    alloc: Global,
    desk: &Desk,
    binds: &[Bind],
    chord: &Text,
    build: &mut B,
    noted: &mut Option<u32>,
) -> Result<Vec<Choice>, NoMemory>
    requires short { AllByRecursion IsShort binds.now }
    requires none { noted.old ≡ None }
    ensures choices { IfOk result (λ choices. map choice_of choices.items ≡ choices_with noted.new (last_bind desk.now.mode chord.now binds.now)) }
    ensures built { IfOk result (λ choices. IsTrue (list_all (λ (c : Choice). is_built c.prepared) choices.items)) }
    ensures refusal { IsRefusal (bound_text (last_bind desk.now.mode chord.now binds.now)) noted.new (B.log build.old) (B.log build.new) }
{
    match last_bind(binds, desk.mode(), chord.as_str()) {
        Some(bind) => {
            let prepared = judge(alloc, bind.text.as_str(), build, noted)?;
            choice_in(alloc, &bind.mode, prepared)
        }
        None => Ok(Vec::new(alloc)),
    }
}

/// A text is run in this mode.
fn choice_in(alloc: Global, mode: &Text, prepared: Prepared) -> Result<Vec<Choice>, NoMemory>
    requires { IsTrue (is_built prepared) }
    ensures choices { IfOk result (λ choices. map choice_of choices.items ≡ record { mode = mode.now; text = text_of prepared } ∷ []) }
    ensures built { IfOk result (λ choices. IsTrue (list_all (λ (c : Choice). is_built c.prepared) choices.items)) }
{
    match mode.clone() {
        Ok(mode) => Ok(vec![in alloc; Choice { mode, prepared }]?),
        Err(error) => {
            drop(prepared);
            Err(NoMemory::from(error))
        }
    }
}

/// The step that presses a chord, with these choices.
fn key_step(chord: &Text, choices: Vec<Choice>) -> Result<Step, NoMemory>
    requires { IsTrue (list_all (λ (c : Choice). is_built c.prepared) choices.items) }
    ensures step { IfOk result (λ step. act_of step ≡ acts.Key chord.now (map choice_of choices.items)) }
    ensures fit { IfOk result IsFitStep }
{
    match chord.clone() {
        Ok(chord) => Ok(Step::Key {
            chord,
            choices: List::of(choices),
        }),
        Err(error) => {
            drop(choices);
            Err(NoMemory::from(error))
        }
    }
}
