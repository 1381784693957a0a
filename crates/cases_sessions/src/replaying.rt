//! The stored steps of a desk, taken again on a new one.
ghost use Rattle.std.specs.Prelude.{◌≡◌, ◌≤◌, IfOk, IsTrue};
ghost use Rattle.wm_history.specs.Sizes.{IsFitStep};
ghost use Rattle.wm_layouts.specs.Sizes.{IsFitSize};

use case_data::Fault;
use std::alloc::Global;
use wm_base::Size;
use wm_book::{Kept, Recorded};
use wm_core::{Desk, Query, Step};
use wm_layouts::Plan;
use wm_talk::view_json;

/// How many steps are taken again at most.
const MOST: u64 = 65_536;

/// Writes how many steps were stored, and whether they give a new desk the same tree.
pub fn push_replayed(alloc: Global, desk: Recorded, out: &mut String) -> Result<(), Fault> {
    let told = replayed(alloc, &desk);
    drop(desk);
    let same = told?;
    out.push_str(if same {
        "  the same tree\n"
    } else {
        "  another tree\n"
    })?;
    Ok(())
}

/// Whether the stored steps of the desk give a new one the same tree.
fn replayed(alloc: Global, desk: &Recorded) -> Result<bool, Fault> {
    let mut again = Desk::start(alloc, Plan::standard(alloc)?)?;
    let taken = take_again(desk, &mut again);
    let same = have_same_tree(alloc, desk, &again);
    drop(again);
    taken?;
    same
}

/// Takes the stored steps on another desk.
fn take_again(desk: &Recorded, again: &mut Desk) -> Result<(), Fault> {
    for place in 0..MOST {
        let Some(entry) = desk.entry(place) else {
            return Ok(());
        };
        if again.steps() >= MOST || !is_fit(&entry.step) {
            return Err(Fault::BadLine);
        }
        let answer = again.step(entry.who, &entry.step)?;
        drop(answer);
    }
    Ok(())
}

/// Whether both desks have the same tree, as queries tell it.
fn have_same_tree(alloc: Global, desk: &Recorded, again: &Desk) -> Result<bool, Fault> {
    let (one, other) = (desk.look(0, &Query::Tree)?, again.look(0, &Query::Tree)?);
    let (first, second) = (view_json(alloc, &one), view_json(alloc, &other));
    drop(one);
    drop(other);
    Ok(first?.as_slice() == second?.as_slice())
}

/// Whether the step may be taken: one of those that a rehearsal stores.
fn is_fit(step: &Step) -> bool
    ensures { IsTrue result → IsFitStep step.now }
{
    match step {
        Step::Run(text) => text.built(),
        Step::Map { buffer, then, .. } => is_fit_size(buffer.size) && then.is_none(),
        Step::Close { con: _ } | Step::Gone | Step::Client(_) => true,
        _ => false,
    }
}

fn is_fit_size(size: Size) -> bool
    ensures { IsTrue result → IsFitSize size }
{
    size.w <= 16_384 && size.h <= 16_384
}
