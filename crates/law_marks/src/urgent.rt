//! Laws of urgent ids: each is a window of the tree, and none is urgent twice, whatever is done.
ghost use Rattle.law_marks.specs.UrgentLaws.{AddedOutputsKeepUrgentWindows, CalmKeepsUrgentWindows, ClosingKeepsUrgentWindows, MappingKeepsUrgentWindows, OpeningsHaveNoneUrgent, RemovedOutputsKeepUrgentWindows, ReservingKeepsUrgentWindows, RetitlingKeepsUrgentWindows, SettlingKeepsUrgentWindows, SwallowingKeepsUrgentWindows, TextsKeepUrgentWindows, UrgencyKeepsUrgentWindows};

/// In a tree with which a desk opens none is urgent.
pub fn openings_have_none_urgent()
    ensures { OpeningsHaveNoneUrgent }
{}

/// Each text keeps that each urgent id is a window of the tree, and none is urgent twice.
pub fn texts_keep_urgent_windows()
    ensures { TextsKeepUrgentWindows }
{}

/// Settling keeps it.
pub fn settling_keeps_urgent_windows()
    ensures { SettlingKeepsUrgentWindows }
{}

/// A window that is mapped keeps it.
pub fn mapping_keeps_urgent_windows()
    ensures { MappingKeepsUrgentWindows }
{}

/// A window that comes to its placeholder keeps it.
pub fn swallowing_keeps_urgent_windows()
    ensures { SwallowingKeepsUrgentWindows }
{}

/// A container that is closed keeps it.
pub fn closing_keeps_urgent_windows()
    ensures { ClosingKeepsUrgentWindows }
{}

/// Another title of a window keeps it.
pub fn retitling_keeps_urgent_windows()
    ensures { RetitlingKeepsUrgentWindows }
{}

/// A window that becomes urgent keeps it.
pub fn urgency_keeps_urgent_windows()
    ensures { UrgencyKeepsUrgentWindows }
{}

/// One that is urgent no longer keeps it.
pub fn calm_keeps_urgent_windows()
    ensures { CalmKeepsUrgentWindows }
{}

/// Other reserved edges of an output keep it.
pub fn reserving_keeps_urgent_windows()
    ensures { ReservingKeepsUrgentWindows }
{}

/// An output that comes, where it is not refused, keeps it.
pub fn an_output_that_comes_keeps_urgent_windows()
    ensures { AddedOutputsKeepUrgentWindows }
{}

/// An output that goes keeps it.
pub fn an_output_that_goes_keeps_urgent_windows()
    ensures { RemovedOutputsKeepUrgentWindows }
{}
