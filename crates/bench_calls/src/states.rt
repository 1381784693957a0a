//! How far a desk is, asked again and again, and what that took.
use crate::desk::{ANSWERS, Call, answer, between, run, time_out_all};
use crate::fault::Fault;
use std::time::CpuClock;
use wm_base::ConId;
use wm_core::Desk;

/// Asks again and again how far the desk is, each time after a deadline that is nobody's, where nothing waits or all windows
/// on the screen are awaited, and tells how many nanoseconds both took.
pub fn ask_all(rt: &HostRuntime, desk: &mut Desk, awaited: bool) -> Result<u128, Fault> {
    time_out_all(desk)?;
    if awaited {
        run(rt.alloc(), desk, "layout toggle split")?;
    }
    let before = rt.thread_cpu_time()?;
    let mut greatest = 0;
    for _ in 0..ANSWERS {
        answer(desk, ConId(0), Call::State, 0)?;
        greatest = told(desk).max(greatest);
    }
    let took = between(before, rt.thread_cpu_time()?)?;
    if greatest == 0 {
        return Err(Fault::Refused);
    }
    Ok(took.as_nanos() / u128::from(ANSWERS))
}

/// What is told of a desk, in one number.
fn told(desk: &Desk) -> u64 {
    let state = desk.state();
    let waiting = state
        .waiting
        .map_or(0, |waiting| u64::from(waiting.least.0));
    state.steps.max(waiting)
}
