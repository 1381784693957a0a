//! Laws of the scratchpad: it has only flagged windows with an outer rectangle, whatever is done.
ghost use Rattle.law_lasting.specs.ScratchpadLaws.{AddedOutputsKeepTheScratchpad, ClosingKeepsTheScratchpad, GoingKeepsTheScratchpad, MappingKeepsTheScratchpad, OpeningsHaveAnEmptyScratchpad, RemovedOutputsKeepTheScratchpad, ReservingKeepsTheScratchpad, RetitlingKeepsTheScratchpad, SettlingKeepsTheScratchpad, SwallowingKeepsTheScratchpad, TextsKeepTheScratchpad, TheScratchpadHasWindows, UrgencyKeepsTheScratchpad};

/// The scratchpad has only windows, each flagged and with an outer rectangle.
#[tactic(auto, using(crate::proofs::ScratchpadLemmas::scratchpad_windows))]
pub fn the_scratchpad_has_windows()
    ensures { TheScratchpadHasWindows }
{}

/// A text keeps that.
pub fn texts_keep_the_scratchpad()
    ensures { TextsKeepTheScratchpad }
{}

/// The scratchpad of an opening tree is empty.
pub fn openings_have_an_empty_scratchpad()
    ensures { OpeningsHaveAnEmptyScratchpad }
{}

/// A window that is mapped keeps the order of the scratchpad.
#[tactic(auto, using(crate::proofs::ScratchpadLemmas::mapping_keeps))]
pub fn mapping_keeps_the_scratchpad()
    ensures { MappingKeepsTheScratchpad }
{}

/// A window that comes to its placeholder keeps it.
pub fn swallowing_keeps_the_scratchpad()
    ensures { SwallowingKeepsTheScratchpad }
{}

/// A container that is closed keeps it.
#[tactic(auto, using(crate::proofs::ScratchpadLemmas::closing_keeps))]
pub fn closing_keeps_the_scratchpad()
    ensures { ClosingKeepsTheScratchpad }
{}

/// A container that goes keeps it, also before settling.
#[tactic(auto, using(crate::proofs::ScratchpadLemmas::going_keeps))]
pub fn going_keeps_the_scratchpad()
    ensures { GoingKeepsTheScratchpad }
{}

/// Settling keeps it.
#[tactic(auto, using(crate::proofs::ScratchpadLemmas::settling_keeps))]
pub fn settling_keeps_the_scratchpad()
    ensures { SettlingKeepsTheScratchpad }
{}

/// Another title of a window keeps it.
#[tactic(auto, using(crate::proofs::ScratchpadLemmas::retitling_keeps))]
pub fn retitling_keeps_the_scratchpad()
    ensures { RetitlingKeepsTheScratchpad }
{}

/// Other urgent windows keep it.
pub fn urgency_keeps_the_scratchpad()
    ensures { UrgencyKeepsTheScratchpad }
{}

/// Other reserved edges of an output keep it.
#[tactic(auto, using(crate::proofs::ScratchpadLemmas::reserving_keeps))]
pub fn reserving_keeps_the_scratchpad()
    ensures { ReservingKeepsTheScratchpad }
{}

/// An output that comes keeps it.
pub fn an_output_that_comes_keeps_the_scratchpad()
    ensures { AddedOutputsKeepTheScratchpad }
{}

/// An output that goes keeps it.
#[tactic(auto, using(crate::proofs::ScratchpadLemmas::removed_outputs_keep))]
pub fn an_output_that_goes_keeps_the_scratchpad()
    ensures { RemovedOutputsKeepTheScratchpad }
{}
