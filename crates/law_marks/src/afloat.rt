//! Laws of what floats: windows, each with an outer rectangle within the limits, whatever is done.
ghost use Rattle.law_marks.specs.AfloatLaws.{AddedOutputsKeepWindowsAfloat, ClosingKeepsWindowsAfloat, MappingKeepsWindowsAfloat, OpeningsFloatWindows, RemovedOutputsKeepWindowsAfloat, ReservingKeepsWindowsAfloat, RetitlingKeepsWindowsAfloat, SettlingKeepsWindowsAfloat, SwallowingKeepsWindowsAfloat, TextsKeepWindowsAfloat, UrgencyKeepsWindowsAfloat};

/// In each tree with which a desk opens what floats or hides is a window with an outer rectangle within the limits.
pub fn openings_float_windows()
    ensures { OpeningsFloatWindows }
{}

/// Each text keeps that what floats on a workspace, or hides in the scratchpad, is a window with an outer rectangle within the
/// limits.
pub fn texts_keep_windows_afloat()
    ensures { TextsKeepWindowsAfloat }
{}

/// Settling keeps it.
pub fn settling_keeps_windows_afloat()
    ensures { SettlingKeepsWindowsAfloat }
{}

/// A window that is mapped keeps it.
pub fn mapping_keeps_windows_afloat()
    ensures { MappingKeepsWindowsAfloat }
{}

/// A window that comes to its placeholder keeps it.
pub fn swallowing_keeps_windows_afloat()
    ensures { SwallowingKeepsWindowsAfloat }
{}

/// A container that is closed keeps it.
pub fn closing_keeps_windows_afloat()
    ensures { ClosingKeepsWindowsAfloat }
{}

/// Another title of a window keeps it.
pub fn retitling_keeps_windows_afloat()
    ensures { RetitlingKeepsWindowsAfloat }
{}

/// Other urgent windows keep it.
pub fn urgency_keeps_windows_afloat()
    ensures { UrgencyKeepsWindowsAfloat }
{}

/// Other reserved edges of an output keep it.
pub fn reserving_keeps_windows_afloat()
    ensures { ReservingKeepsWindowsAfloat }
{}

/// An output that comes, where it is not refused, keeps it.
pub fn an_output_that_comes_keeps_windows_afloat()
    ensures { AddedOutputsKeepWindowsAfloat }
{}

/// An output that goes keeps it.
pub fn an_output_that_goes_keeps_windows_afloat()
    ensures { RemovedOutputsKeepWindowsAfloat }
{}
