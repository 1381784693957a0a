//! Laws of the names of workspaces: they differ, whatever is done.
ghost use Rattle.law_names.specs.SpaceNameLaws.{AddedOutputsKeepSpaceNames, ClosingKeepsSpaceNames, MappingKeepsSpaceNames, NewNamesAreFree, OpeningsHaveSpaceNames, RemovedOutputsKeepSpaceNames, ReservingKeepsSpaceNames, RetitlingKeepsSpaceNames, SettlingKeepsSpaceNames, SwallowingKeepsSpaceNames, TextsKeepSpaceNames, UrgencyKeepsSpaceNames};

/// The names of workspaces differ in each tree with which a desk opens.
pub fn openings_have_space_names()
    ensures { OpeningsHaveSpaceNames }
{}

/// The number that a new workspace gets as its name, where a command gives it none, is the name of no other one.
pub fn new_names_are_free()
    ensures { NewNamesAreFree }
{}

/// Each text keeps that the names of workspaces differ.
pub fn texts_keep_space_names()
    ensures { TextsKeepSpaceNames }
{}

/// Settling, which takes empty workspaces away, keeps it.
pub fn settling_keeps_space_names()
    ensures { SettlingKeepsSpaceNames }
{}

/// A window that is mapped keeps it.
pub fn mapping_keeps_space_names()
    ensures { MappingKeepsSpaceNames }
{}

/// A window that comes to its placeholder keeps it.
pub fn swallowing_keeps_space_names()
    ensures { SwallowingKeepsSpaceNames }
{}

/// A container that is closed keeps it.
pub fn closing_keeps_space_names()
    ensures { ClosingKeepsSpaceNames }
{}

/// Another title of a window keeps it.
pub fn retitling_keeps_space_names()
    ensures { RetitlingKeepsSpaceNames }
{}

/// Other urgent windows keep it.
pub fn urgency_keeps_space_names()
    ensures { UrgencyKeepsSpaceNames }
{}

/// Other reserved edges of an output keep it.
pub fn reserving_keeps_space_names()
    ensures { ReservingKeepsSpaceNames }
{}

/// An output that comes with a workspace of its own keeps it.
pub fn an_output_that_comes_keeps_space_names()
    ensures { AddedOutputsKeepSpaceNames }
{}

/// An output that goes, whose workspaces come to another one, keeps it.
pub fn an_output_that_goes_keeps_space_names()
    ensures { RemovedOutputsKeepSpaceNames }
{}
