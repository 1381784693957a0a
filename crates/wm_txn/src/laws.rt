//! Laws of the transactions.
ghost use Rattle.wm_txn.specs.Lasting.{BeginsOnce, BeginsThere, BegunStays, EndedStays, EndsThere, EndsTwiceAtMost, NeverFalls, SecondAwaitsNobody};
ghost use Rattle.wm_txn.specs.Shown.{HasConfiguredSize, ShowsAnswer, ShowsOpening};
ghost use Rattle.wm_txn.specs.Standing.{BeginsWithin, KnowsOpen, KnowsWindows, StillStands, TellsWaiting};

/// An entry that is none of the machine's business leaves it standing for the history.
#[tactic(auto, using(crate::proofs::StandingLemmas::still_stands))]
pub fn other_entries_change_nothing()
    ensures { StillStands }
{}

/// Each transaction began within the history.
pub fn transactions_begin_within_the_history()
    ensures { BeginsWithin }
{}

/// The machine knows each window that was ever open, and no other.
#[tactic(auto, using(crate::proofs::StandingLemmas::knows_windows))]
pub fn each_window_is_known()
    ensures { KnowsWindows }
{}

/// The machine knows which windows are open.
#[tactic(auto, using(crate::proofs::StandingLemmas::knows_open))]
pub fn open_windows_are_known()
    ensures { KnowsOpen }
{}

/// What has begun stays so as the history grows.
#[tactic(auto, using(crate::proofs::LastingLemmas::begun_lasts))]
pub fn what_has_begun_stays()
    ensures { BegunStays }
{}

/// What has ended stays so as the history grows.
#[tactic(auto, using(crate::proofs::LastingLemmas::ended_lasts))]
pub fn what_has_ended_stays()
    ensures { EndedStays }
{}

/// A transaction that has begun with one more entry began at that entry.
#[tactic(auto, using(crate::proofs::BeginLemmas::begins_there))]
pub fn a_transaction_begins_at_the_entry()
    ensures { BeginsThere }
{}

/// At most one transaction begins at one entry.
#[tactic(auto, using(crate::proofs::BeginLemmas::begins_once))]
pub fn at_most_one_begins()
    ensures { BeginsOnce }
{}

/// A transaction that has ended with one more entry ended at that entry.
#[tactic(auto, using(crate::proofs::BeginLemmas::ends_there))]
pub fn a_transaction_ends_at_the_entry()
    ensures { EndsThere }
{}

/// The number of the last ended transaction and its prefix never fall.
#[tactic(auto, using(crate::proofs::LastingLemmas::never_falls))]
pub fn done_and_prefix_never_fall()
    ensures { NeverFalls }
{}

/// At most two transactions end at one entry.
#[tactic(auto, using(crate::proofs::LastingLemmas::ends_twice))]
pub fn at_most_two_end()
    ensures { EndsTwiceAtMost }
{}

/// The second transaction that ends at one entry awaits nobody.
pub fn the_second_awaits_nobody()
    ensures { SecondAwaitsNobody }
{}

/// A window in the arrangement that is done has the size that it was configured with last.
#[tactic(auto, using(crate::proofs::ShownLemmas::has_configured_size))]
pub fn a_window_has_the_configured_size()
    ensures { HasConfiguredSize }
{}

/// A window shows its buffer under the number of the transaction that configured it last, unless a deadline ended that
/// one or the window was closed then.
pub fn a_window_shows_its_answer()
    ensures { ShowsAnswer }
{}

/// A window that no ended transaction configured shows its buffer of the opening, before any has ended.
pub fn a_window_shows_its_opening()
    ensures { ShowsOpening }
{}

/// A waiting transaction is told exactly where more have begun than have ended.
pub fn a_waiting_transaction_is_told()
    ensures { TellsWaiting }
{}
