//! Laws of the names of outputs: they differ, whatever is done.
ghost use Rattle.law_names.specs.OutputNameLaws.{AddedOutputsKeepOutputNames, ClosingKeepsOutputNames, MappingKeepsOutputNames, OpeningsHaveOutputNames, RemovedOutputsKeepOutputNames, ReservingKeepsOutputNames, RetitlingKeepsOutputNames, SettlingKeepsOutputNames, SwallowingKeepsOutputNames, TextsKeepOutputNames, UrgencyKeepsOutputNames};

/// The names of outputs differ in each tree with which a desk opens, where those that are planned differ.
pub fn openings_have_output_names()
    ensures { OpeningsHaveOutputNames }
{}

/// Each text keeps that the names of outputs differ.
pub fn texts_keep_output_names()
    ensures { TextsKeepOutputNames }
{}

/// Settling keeps it.
pub fn settling_keeps_output_names()
    ensures { SettlingKeepsOutputNames }
{}

/// A window that is mapped keeps it.
pub fn mapping_keeps_output_names()
    ensures { MappingKeepsOutputNames }
{}

/// A window that comes to its placeholder keeps it.
pub fn swallowing_keeps_output_names()
    ensures { SwallowingKeepsOutputNames }
{}

/// A container that is closed keeps it.
pub fn closing_keeps_output_names()
    ensures { ClosingKeepsOutputNames }
{}

/// Another title of a window keeps it.
pub fn retitling_keeps_output_names()
    ensures { RetitlingKeepsOutputNames }
{}

/// Other urgent windows keep it.
pub fn urgency_keeps_output_names()
    ensures { UrgencyKeepsOutputNames }
{}

/// Other reserved edges of an output keep it.
pub fn reserving_keeps_output_names()
    ensures { ReservingKeepsOutputNames }
{}

/// An output that comes, where it is not refused, keeps it: no other one has its name.
pub fn an_output_that_comes_keeps_output_names()
    ensures { AddedOutputsKeepOutputNames }
{}

/// An output that goes keeps it.
pub fn an_output_that_goes_keeps_output_names()
    ensures { RemovedOutputsKeepOutputNames }
{}
