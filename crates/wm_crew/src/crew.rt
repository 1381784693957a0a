//! Workers beside one another.
ghost use Rattle.std.specs.Prelude.{◌≡◌, ◌<◌, ◌+◌, ◌^◌, ◌++◌, length};
ghost use Rattle.std.specs.List.{All};
ghost use Rattle.std.specs.Thread.{IsSend, IsSync};
ghost use Rattle.wm_crew.specs.Crew.{AtAll, posts};

use crate::duty::Duty;
use crate::fault::{Fault, fault_of, worse};
use std::alloc::Global;
use std::sync::Wait;
use std::thread::{Threads, join_mut};

/// Runs a worker for each pass, listener and what it keeps, all beside one another: the last one in the caller's thread, each
/// other one in a thread of its own, or after the others where none can be had. The fault is that of the first door of the
/// gravest kind; the doors are numbered from `first`.
#[cycle(crew)]
pub fn run_crew<R: Threads + Wait + Sync, P: Send, A: Send, B: Send, L, W: Duty<P, A, B, L> + Sync>(
    alloc: Global,
    rt: &R,
    duty: &W,
    first: usize,
    passes: &mut [P],
    listens: &mut [A],
    kept: &mut [B],
) -> Option<Fault>
    requires listens { length listens.old ≡ length passes.old }
    requires kept { length kept.old ≡ length passes.old }
    requires numbers { first + length passes.old < 2 ^ 64 }
    requires ready { All (W.ready duty.now) passes.old }
    ensures { AtAll (W.does duty.now) first (posts passes.old listens.old kept.old) (posts passes.new listens.new kept.new) result }
{
    if passes.is_empty() {
        return None;
    }
    if passes.len() == 1 {
        let end = duty.perform(
            alloc,
            rt,
            first,
            &mut passes[0],
            &mut listens[0],
            &mut kept[0],
        );
        return fault_of(first, end);
    }
    let (one, passes) = passes.split_at_mut(1);
    let (listen, listens) = listens.split_at_mut(1);
    let (keep, kept) = kept.split_at_mut(1);
    run_beside(
        alloc, rt, duty, first, one, listen, keep, passes, listens, kept,
    )
}

/// Runs the first worker in a thread of its own, and the others beside it.
#[cycle(crew)]
fn run_beside<R: Threads + Wait + Sync, P: Send, A: Send, B: Send, L, W: Duty<P, A, B, L> + Sync>(
    alloc: Global,
    rt: &R,
    duty: &W,
    first: usize,
    pass: &mut [P],
    listen: &mut [A],
    keep: &mut [B],
    passes: &mut [P],
    listens: &mut [A],
    kept: &mut [B],
) -> Option<Fault>
    requires one { (length pass.old ≡ 1) × (length listen.old ≡ 1) × (length keep.old ≡ 1) }
    requires rest { (0 < length passes.old) × (length listens.old ≡ length passes.old) × (length kept.old ≡ length passes.old) }
    requires numbers { first + 1 + length passes.old < 2 ^ 64 }
    requires ready { All (W.ready duty.now) pass.old × All (W.ready duty.now) passes.old }
    ensures { AtAll (W.does duty.now) first
        (posts pass.old listen.old keep.old ++ posts passes.old listens.old kept.old)
        (posts pass.new listen.new keep.new ++ posts passes.new listens.new kept.new) result }
{
    let mut one = || -> Option<Fault>
        requires { IsSync R.row × IsSync W.row × IsSend P.row × IsSend A.row × IsSend B.row
            × (length pass.now ≡ 1) × (length listen.now ≡ 1) × (length keep.now ≡ 1) × (first + 1 < 2 ^ 64) × All (W.ready duty.now) pass.now }
        ensures { AtAll (W.does duty.entry.now) first (posts pass.entry.now listen.entry.now keep.entry.now) (posts pass.exit.now listen.exit.now keep.exit.now) result }
    { run_crew(alloc, rt, duty, first, pass, listen, keep) };
    let mut rest = || -> Option<Fault>
        requires { IsSync R.row × IsSync W.row × IsSend P.row × IsSend A.row × IsSend B.row
            × (length listens.now ≡ length passes.now) × (length kept.now ≡ length passes.now) × (first + 1 + length passes.now < 2 ^ 64) × All (W.ready duty.now) passes.now }
        ensures { AtAll (W.does duty.entry.now) (first + 1) (posts passes.entry.now listens.entry.now kept.entry.now) (posts passes.exit.now listens.exit.now kept.exit.now) result }
    { run_crew(alloc, rt, duty, first + 1, passes, listens, kept) };
    let (fault, others) = join_mut(rt, &mut one, &mut rest);
    worse(fault, others)
}
