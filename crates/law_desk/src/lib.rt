//! Laws of the trees that the histories of a desk leave.
#![tactic(auto)]

ghost use Rattle.law_desk.specs.LastingLaws.{HistoriesAreInOrder, HistoriesStayInOrder};
ghost use Rattle.law_desk.specs.MarkLaws.{HistoriesKeepMarksApart, HistoriesKeepUrgentWindows, HistoriesKeepWindowsAfloat};
ghost use Rattle.law_desk.specs.NamingLaws.{HistoriesHaveOutputNames, HistoriesHaveSpaceNames};

/// A tree that is in order stays so through each history.
pub fn histories_stay_in_order()
    ensures { HistoriesStayInOrder }
{}

/// From a sound plan every history leaves a tree that is in order: sound, with only flagged windows in the scratchpad, each
/// with an outer rectangle, and at most one fullscreen container in each workspace.
pub fn histories_are_in_order()
    ensures { HistoriesAreInOrder }
{}

/// From a sound plan every history leaves a tree in which the names of workspaces differ.
pub fn histories_have_space_names()
    ensures { HistoriesHaveSpaceNames }
{}

/// From a sound plan every history leaves a tree in which the names of outputs differ.
pub fn histories_have_output_names()
    ensures { HistoriesHaveOutputNames }
{}

/// From a sound plan every history leaves a tree in which no mark is on two containers, nor twice on one.
pub fn histories_keep_marks_apart()
    ensures { HistoriesKeepMarksApart }
{}

/// From a sound plan every history leaves a tree in which each urgent id is a window, and none is urgent twice.
pub fn histories_keep_urgent_windows()
    ensures { HistoriesKeepUrgentWindows }
{}

/// From a sound plan every history leaves a tree in which all that floats on a workspace, or hides in the scratchpad, is a
/// window with an outer rectangle within the limits.
pub fn histories_keep_windows_afloat()
    ensures { HistoriesKeepWindowsAfloat }
{}
