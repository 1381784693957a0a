//! Laws of fullscreen: a workspace has at most one fullscreen container, whatever is done.
ghost use Rattle.law_lasting.specs.FullscreenLaws.{AddedOutputsKeepOneFullscreen, ClosingKeepsOneFullscreen, MappingKeepsOneFullscreen, RemovedOutputsKeepOneFullscreen, ReservingKeepsOneFullscreen, RetitlingKeepsOneFullscreen, SwallowingKeepsOneFullscreen, TextsKeepOneFullscreen, UrgencyKeepsOneFullscreen};

/// A text keeps at most one fullscreen container in each workspace.
pub fn texts_keep_one_fullscreen()
    ensures { TextsKeepOneFullscreen }
{}

/// So does a window that is mapped.
pub fn mapping_keeps_one_fullscreen()
    ensures { MappingKeepsOneFullscreen }
{}

/// So does a window that comes to its placeholder.
pub fn swallowing_keeps_one_fullscreen()
    ensures { SwallowingKeepsOneFullscreen }
{}

/// So does a container that is closed.
#[tactic(auto, using(crate::proofs::SingleLasts::closing_keeps))]
pub fn closing_keeps_one_fullscreen()
    ensures { ClosingKeepsOneFullscreen }
{}

/// So does another title of a window.
#[tactic(auto, using(crate::proofs::SingleLasts::retitling_keeps))]
pub fn retitling_keeps_one_fullscreen()
    ensures { RetitlingKeepsOneFullscreen }
{}

/// So do other urgent windows.
pub fn urgency_keeps_one_fullscreen()
    ensures { UrgencyKeepsOneFullscreen }
{}

/// So do other reserved edges of an output.
#[tactic(auto, using(crate::proofs::SingleLasts::reserving_keeps))]
pub fn reserving_keeps_one_fullscreen()
    ensures { ReservingKeepsOneFullscreen }
{}

/// So does an output that comes.
pub fn an_output_that_comes_keeps_one_fullscreen()
    ensures { AddedOutputsKeepOneFullscreen }
{}

/// So does an output that goes.
#[tactic(auto, using(crate::proofs::SingleLasts::removed_outputs_keep))]
pub fn an_output_that_goes_keeps_one_fullscreen()
    ensures { RemovedOutputsKeepOneFullscreen }
{}
