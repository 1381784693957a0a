//! Steps that a number makes are taken on a desk, and it is written how far they lead.
ghost use Rattle.std.specs.Prelude.{◌≡◌, ◌≤◌, [], IfErr, IfOk, OnErr, OnOk};
ghost use Rattle.wm_core.specs.DeskValue.{Stands};
ghost use Rattle.wm_ports.specs.Told.{TakesAll, TakesPart};
ghost use Rattle.wm_tool.specs.Ending.{HasStopped};
ghost use Rattle.wm_tool.specs.Generating.{out_generate};
ghost use Rattle.wm_tool.specs.Planning.{IsPlain};

use crate::planning::standard_desk;
use crate::replay::Stop;
use std::alloc::Global;
use wm_base::NoMemory;
use wm_core::Desk;
use wm_generate::generate;
use wm_lines::push_state;
use wm_ports::{Sink, write_all};

/// Takes so many steps, made from this number, on a desk of the standard plan, and writes how far it is then.
pub fn sum_up<W: Sink>(alloc: Global, seed: u32, count: u32, sink: &mut W) -> Result<(), Stop>
    requires few { count ≤ 20000 }
    ensures ok { OnOk result (TakesAll (W.taken sink.old) (W.taken sink.new) (out_generate seed count)) }
    ensures part { OnErr result (TakesPart (W.taken sink.old) (W.taken sink.new) (out_generate seed count)) }
    ensures err { IfErr result (HasStopped (W.faults sink.old) (W.faults sink.new)) }
{
    let mut desk = standard_desk(alloc)?;
    let summed = summary(alloc, &mut desk, seed, count);
    drop(desk);
    let lines = summed?;
    write_all(sink, &lines)?;
    Ok(())
}

/// Takes so many steps, made from this number, on a desk that is new, and says how far it is then.
fn summary(alloc: Global, desk: &mut Desk, seed: u32, count: u32) -> Result<Vec<u8>, NoMemory>
    requires few { count ≤ 20000 }
    requires plan { IsPlain desk.old.plan }
    requires stands { Stands desk.old [] }
    ensures { IfOk result (λ lines. lines.items ≡ out_generate seed count) }
{
    let state = generate(alloc, desk, seed, count)?;
    let mut lines = Vec::new(alloc);
    push_state(alloc, &mut lines, &state)?;
    Ok(lines)
}
