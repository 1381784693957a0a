//! Laws of marks: none is on two containers, nor twice on one, whatever is done.
ghost use Rattle.law_marks.specs.MarkLaws.{AddedOutputsKeepMarksApart, ClosingKeepsMarksApart, MappingKeepsMarksApart, OpeningsHaveMarksApart, RemovedOutputsKeepMarksApart, ReservingKeepsMarksApart, RetitlingKeepsMarksApart, SettlingKeepsMarksApart, SwallowingKeepsMarksApart, TextsKeepMarksApart, UrgencyKeepsMarksApart};

/// In each tree with which a desk opens no mark is there twice.
pub fn openings_have_marks_apart()
    ensures { OpeningsHaveMarksApart }
{}

/// Each text keeps that no mark is on two containers, nor twice on one.
pub fn texts_keep_marks_apart()
    ensures { TextsKeepMarksApart }
{}

/// Settling keeps it.
pub fn settling_keeps_marks_apart()
    ensures { SettlingKeepsMarksApart }
{}

/// A window that is mapped keeps it.
pub fn mapping_keeps_marks_apart()
    ensures { MappingKeepsMarksApart }
{}

/// A window that comes to its placeholder keeps it.
pub fn swallowing_keeps_marks_apart()
    ensures { SwallowingKeepsMarksApart }
{}

/// A container that is closed keeps it.
pub fn closing_keeps_marks_apart()
    ensures { ClosingKeepsMarksApart }
{}

/// Another title of a window keeps it.
pub fn retitling_keeps_marks_apart()
    ensures { RetitlingKeepsMarksApart }
{}

/// Other urgent windows keep it.
pub fn urgency_keeps_marks_apart()
    ensures { UrgencyKeepsMarksApart }
{}

/// Other reserved edges of an output keep it.
pub fn reserving_keeps_marks_apart()
    ensures { ReservingKeepsMarksApart }
{}

/// An output that comes, where it is not refused, keeps it.
pub fn an_output_that_comes_keeps_marks_apart()
    ensures { AddedOutputsKeepMarksApart }
{}

/// An output that goes keeps it.
pub fn an_output_that_goes_keeps_marks_apart()
    ensures { RemovedOutputsKeepMarksApart }
{}
