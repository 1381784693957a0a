//! Layout transactions: which arrangement is committed, which one waits, and what each window shows.
#![tactic(auto)]

mod answers;
mod calls;
mod copying;
mod held;
mod laws;
mod queue;
mod readings;
mod sweeping;
mod txn;
mod windows;

pub use answers::{AckRefusal, BufferRefusal, Waiting};
pub use laws::{
    a_transaction_begins_at_the_entry, a_transaction_ends_at_the_entry,
    a_waiting_transaction_is_told, a_window_has_the_configured_size, a_window_shows_its_answer,
    a_window_shows_its_opening, at_most_one_begins, at_most_two_end, done_and_prefix_never_fall,
    each_window_is_known, open_windows_are_known, other_entries_change_nothing,
    the_second_awaits_nobody, transactions_begin_within_the_history, what_has_begun_stays,
    what_has_ended_stays,
};
pub use txn::Txn;
