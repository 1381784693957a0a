//! Laws of the other steps: windows that are mapped and closed, changes of nodes, outputs that come and go.
ghost use Rattle.wm_opens.specs.Laws.{AddedOutputsKeepWindows, ClosingCloses, ClosingKeepsOthers, ClosingStaysGood, ClosingTakesItsOwn, EditsKeepWindows, MappingOpensOne, MappingStaysGood, OpeningsAreTidy, RaisingKeepsWindows, RemovedOutputsKeepWindows, RemovedOutputsOpenNone, SettlingKeepsWindows, SettlingOpensNone, WindowsAreSeen};

/// Settling makes no window.
#[tactic(auto, using(crate::proofs::OpenLemmas::settling_opens_none))]
pub fn settling_opens_none()
    ensures { SettlingOpensNone }
{}

/// A window that is mapped is one more under the next id, and no other comes or goes.
#[tactic(auto, using(crate::proofs::OpenLemmas::mapping_opens_one))]
pub fn a_mapped_window_is_one_more()
    ensures { MappingOpensOne }
{}

/// Raising a node keeps each window.
#[tactic(auto, using(crate::proofs::OpenLemmas::raising_keeps))]
pub fn raising_keeps_windows()
    ensures { RaisingKeepsWindows }
{}

/// A change of a node keeps each window, unless it fills a placeholder.
#[tactic(auto, using(crate::proofs::OpenLemmas::edits_keep))]
pub fn a_change_keeps_windows()
    ensures { EditsKeepWindows }
{}

/// A node that is taken out takes the windows with it that it is or holds, and no other.
#[tactic(auto, using(crate::proofs::OpenLemmas::closing_takes))]
pub fn a_node_that_goes_takes_its_own()
    ensures { ClosingTakesItsOwn }
{}

/// A window that is taken out of a sound tree is there no more.
#[tactic(auto, using(crate::proofs::OpenLemmas::closing_closes))]
pub fn a_closed_window_is_gone()
    ensures { ClosingCloses }
{}

/// An output that comes keeps each window.
pub fn an_output_that_comes_keeps_windows()
    ensures { AddedOutputsKeepWindows }
{}

/// An output that goes makes no window.
#[tactic(auto, using(crate::proofs::OpenLemmas::removal_opens_none))]
pub fn an_output_that_goes_opens_none()
    ensures { RemovedOutputsOpenNone }
{}

/// In a sound tree each window is counted once, and what is no window not at all.
#[tactic(auto, using(crate::proofs::OpenLemmas::windows_seen))]
pub fn windows_are_counted_as_seen()
    ensures { WindowsAreSeen }
{}

/// Settling keeps each window of a sound tree in which no container has floating windows, and leaves such a tree.
pub fn settling_keeps_windows()
    ensures { SettlingKeepsWindows }
{}

/// A window that is mapped leaves the tree sound, and no container with floating windows.
pub fn mapping_stays_good()
    ensures { MappingStaysGood }
{}

/// A window that is closed takes no other window with it.
#[tactic(auto, using(crate::proofs::StepLemmas::closing_keeps_others))]
pub fn a_closed_window_takes_no_other()
    ensures { ClosingKeepsOthers }
{}

/// A container that goes leaves the tree sound, and no container with floating windows.
pub fn closing_stays_good()
    ensures { ClosingStaysGood }
{}

/// An output that goes keeps each window of a sound tree in which no container has floating windows.
#[tactic(auto, using(crate::proofs::OutputLemmas::holds_removed))]
pub fn an_output_that_goes_keeps_windows()
    ensures { RemovedOutputsKeepWindows }
{}

/// No container of an opening tree has floating windows.
pub fn openings_are_tidy()
    ensures { OpeningsAreTidy }
{}
