//! The configuration: its lines in their order.
ghost use Rattle.std.specs.Prelude.{◌≡◌, IfOk};
ghost use Rattle.wm_binds.specs.Blocks.{blank_draft, IsStep};
ghost use Rattle.wm_binds.specs.Letters.{end};
ghost use Rattle.wm_binds.specs.LettersReading.{draft_after, letters_after, line_by, read_by, set_or_entered_by, IsLine};
ghost use Rattle.wm_binds.specs.Naming.{set_line};
ghost use Rattle.wm_binds.specs.Reading.{at_end, config, config_of, or_one_output, refusal_at, IsRead};
ghost use Rattle.wm_layouts.specs.Plan.{IsSound};
ghost use Rattle.wm_fields.specs.Split.{lines_of};

use crate::config::{Config, ConfigRefusal};
use crate::draft::{Block, Draft, LineRefusal};
use crate::line::entry_of;
use crate::names::Names;
use crate::naming::{Name, name_set, replaced, set_line};
use crate::words::text_of;
use std::alloc::Global;
use wm_base::{Edges, Limit, List, NoMemory, OutputPlan, Rect, Str, Text};
use wm_fields::first_line;
use wm_layouts::{Env, Plan};

/// The refusal of the line of this number.
fn refusal_at(line: u64, refusal: LineRefusal) -> ConfigRefusal
    ensures { result ≡ refusal_at line refusal }
{
    match refusal {
        LineRefusal::Outside => ConfigRefusal::BadLine { line },
        LineRefusal::Full => ConfigRefusal::Full {
            line,
            limit: Limit::Outputs,
        },
        LineRefusal::NoMemory => ConfigRefusal::NoMemory,
    }
}

/// A line that sets no name, with its names replaced.
fn take_entry(
    alloc: Global,
    names: &Names,
    draft: &mut Draft,
    text: &[u8],
) -> Result<(), LineRefusal>
    ensures { IsStep (draft_after names.now draft.old text.now) draft.new result }
{
    let text = replaced(alloc, names, draft.room, text)?;
    draft.room -= text.len();
    match entry_of(alloc, &text)? {
        Some(entry) => draft.enter(alloc, entry),
        None => Err(LineRefusal::Outside),
    }
}

/// A line that sets a name, which stands at the top alone.
fn take_name(
    alloc: Global,
    names: &mut Names,
    draft: &mut Draft,
    text: &[u8],
) -> Result<(), LineRefusal>
    ensures { IsLine (letters_after names.old draft.old draft.old.block text.now) names.new draft.new result }
{
    let Block::Top = draft.block else {
        return Err(LineRefusal::Outside);
    };
    match name_set(alloc, names, draft.room, text)? {
        Some(Name { name, value }) => {
            draft.room -= value.items().len();
            names.put_name(alloc, name.as_str().as_bytes(), value)?;
            Ok(())
        }
        None => Err(LineRefusal::Outside),
    }
}

/// Adds what a line says, where it is in the grammar.
fn take_line(
    alloc: Global,
    names: &mut Names,
    draft: &mut Draft,
    text: &[u8],
) -> Result<(), LineRefusal>
    ensures { IsLine (line_by names.old draft.old text.now) names.new draft.new result }
{
    if text_of(text).is_none() {
        return Err(LineRefusal::Outside);
    }
    if let Block::Bar = draft.block {
        draft.pass(text);
        return Ok(());
    }
    take_text(alloc, names, draft, text)
}

/// Adds what a line outside the block of a bar says.
fn take_text(
    alloc: Global,
    names: &mut Names,
    draft: &mut Draft,
    text: &[u8],
) -> Result<(), LineRefusal>
    ensures { IsLine (set_or_entered_by names.old draft.old text.now (set_line text.now)) names.new draft.new result }
{
    match set_line(text) {
        Some(rest) => take_name(alloc, names, draft, rest),
        None => take_entry(alloc, names, draft, text),
    }
}

/// What all lines give.
#[tactic(auto, using(crate::proofs::ReadingLemmas::refused, crate::proofs::ReadingLemmas::taken))]
fn read_lines(alloc: Global, bytes: &[u8]) -> Result<Draft, ConfigRefusal>
    ensures { IsRead (read_by 0 end blank_draft (lines_of bytes.now)) result }
{
    let mut names = Names::new();
    let mut draft = Draft::new(alloc);
    let mut count = 0u64;
    let mut rest = bytes;
    while !rest.is_empty() {
        let (text, after) = first_line(rest);
        count += 1;
        if let Err(refusal) = take_line(alloc, &mut names, &mut draft, text) {
            return Err(refusal_at(count, refusal));
        }
        rest = after;
    }
    at_end(count, draft)
}

/// What was read, where no block is open at the end. Otherwise the last line is refused.
fn at_end(last: u64, draft: Draft) -> Result<Draft, ConfigRefusal>
    ensures { IsRead (at_end last draft draft.block) result }
{
    match draft.block {
        Block::Top => Ok(draft),
        _ => Err(ConfigRefusal::BadLine { line: last }),
    }
}

/// The configuration that bytes are. Where each line is UTF-8 all of them are.
#[tactic(auto, using(crate::proofs::ReadingLemmas::config_read, crate::proofs::ReadingLemmas::config_refused, crate::proofs::SoundLemmas::config_sound))]
pub fn read_config(alloc: Global, bytes: &[u8]) -> Result<Config, ConfigRefusal>
    ensures read { IsRead (config bytes.now) result }
    ensures sound { IfOk result (λ config. IsSound config.plan) }
{
    let draft = read_lines(alloc, bytes)?;
    let Some(text) = text_of(bytes) else {
        unreachable!()
    };
    match finished(alloc, text, draft) {
        Ok(config) => Ok(config),
        Err(_) => Err(ConfigRefusal::NoMemory),
    }
}

/// The configuration of this text, which gives this draft.
fn finished(alloc: Global, text: &str, draft: Draft) -> Result<Config, NoMemory>
    ensures { IfOk result (λ config. config ≡ config_of text.now draft) }
{
    let Draft {
        outputs,
        border,
        inner,
        outer,
        modes,
        homes,
        layouts,
        binds,
        block: _,
        room: _,
    } = draft;
    let config = Str::of(String::from_str(alloc, text)?);
    let outputs = or_one_output(alloc, outputs)?;
    let env = Env {
        modes: modes.into_list(),
        layouts,
        homes,
    };
    let plan = Plan {
        outputs,
        border,
        inner,
        outer,
        env,
        config,
    };
    Ok(Config {
        plan,
        binds: binds.into_list(),
    })
}

/// The outputs, or DP-1 of 1920x1080 at 0,0 where there are none.
fn or_one_output(alloc: Global, outputs: List<OutputPlan>) -> Result<List<OutputPlan>, NoMemory>
    ensures { IfOk result (λ outputs_now. outputs_now ≡ or_one_output outputs) }
{
    if !outputs.items().is_empty() {
        return Ok(outputs);
    }
    let Ok(name) = Text::new(alloc, "DP-1") else {
        return Err(NoMemory);
    };
    let output = OutputPlan {
        name,
        rect: Rect {
            x: 0,
            y: 0,
            w: 1920,
            h: 1080,
        },
        reserved: Edges {
            top: 0,
            right: 0,
            bottom: 0,
            left: 0,
        },
    };
    Ok(List::of(vec![in alloc; output]?))
}
