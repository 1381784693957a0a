//! How threads of a case wait for one another.
use crossbeam_utils::Backoff;
use std::sync::atomic::{AtomicU64, Ordering};

/// How often a count is looked at that another thread raises, before this one goes on without it.
const MOST_LOOKS: u32 = 10_000_000;

/// Waits until the count is at least so much. `false` where it did not come to that.
pub fn comes(count: &AtomicU64, least: u64) -> bool {
    let backoff = Backoff::new();
    for _ in 0..MOST_LOOKS {
        if count.load(Ordering::SeqCst) >= least {
            return true;
        }
        backoff.snooze();
    }
    false
}
