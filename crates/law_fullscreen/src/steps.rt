//! Laws of the steps by which trees change, and of the opening.
ghost use Rattle.law_fullscreen.specs.Laws.{AddedOutputsKeepOne, AddedSpacesKeepOne, ClosingKeepsOne, CountsAgree, ExchangingKeepsOne, FillingFillsAlone, FillingKeepsOne, GoingAlongKeepsOne, MappingKeepsOne, MovedSpacesKeepOne, MovingKeepsOne, OpeningsHaveOne, RaisingKeepsOne, RemovedOutputsKeepOne, SettlingKeepsOne, WrappingKeepsOne};

/// Raising a node keeps at most one fullscreen container in each workspace.
#[tactic(auto, using(crate::proofs::LawLemmas::raising_keeps))]
pub fn a_raised_node_keeps_one()
    ensures { RaisingKeepsOne }
{}

/// So does a container that moves, within its workspace, to another one, or to and from the scratchpad.
pub fn a_moved_container_keeps_one()
    ensures { MovingKeepsOne }
{}

/// So do two containers that change places.
pub fn exchanged_containers_keep_one()
    ensures { ExchangingKeepsOne }
{}

/// So does a container that becomes fullscreen, or is so no longer.
#[tactic(auto, using(crate::proofs::LawLemmas::filling_keeps))]
pub fn a_fullscreen_container_keeps_one()
    ensures { FillingKeepsOne }
{}

/// A container that becomes fullscreen is then the only one of its workspace.
#[tactic(auto, using(crate::proofs::AloneLemmas::filling_fills_alone))]
pub fn a_fullscreen_container_is_alone()
    ensures { FillingFillsAlone }
{}

/// Sticky windows that go along to another workspace keep at most one there.
#[tactic(auto, using(crate::proofs::LawLemmas::going_along_keeps))]
pub fn sticky_windows_keep_one()
    ensures { GoingAlongKeepsOne }
{}

/// A split round a container keeps at most one.
#[tactic(auto, using(crate::proofs::LawLemmas::wrapping_keeps))]
pub fn a_wrapped_container_keeps_one()
    ensures { WrappingKeepsOne }
{}

/// A tree that settles keeps at most one in each workspace.
#[tactic(auto, using(crate::proofs::LawLemmas::settling_keeps))]
pub fn settling_keeps_one()
    ensures { SettlingKeepsOne }
{}

/// A window that is mapped keeps at most one.
pub fn a_mapped_window_keeps_one()
    ensures { MappingKeepsOne }
{}

/// A container that is closed keeps at most one.
#[tactic(auto, using(crate::proofs::LawLemmas::closing_keeps))]
pub fn a_closed_container_keeps_one()
    ensures { ClosingKeepsOne }
{}

/// A workspace that comes keeps at most one in each.
#[tactic(auto, using(crate::proofs::LawLemmas::space_coming_keeps))]
pub fn a_workspace_that_comes_keeps_one()
    ensures { AddedSpacesKeepOne }
{}

/// A workspace that comes to another output keeps at most one in each.
#[tactic(auto, using(crate::proofs::LawLemmas::space_moving_keeps))]
pub fn a_workspace_that_moves_keeps_one()
    ensures { MovedSpacesKeepOne }
{}

/// An output that comes with a workspace keeps at most one in each.
#[tactic(auto, using(crate::proofs::LawLemmas::output_coming_keeps))]
pub fn an_output_that_comes_keeps_one()
    ensures { AddedOutputsKeepOne }
{}

/// An output that goes, whose workspaces come to another one, keeps at most one in each.
#[tactic(auto, using(crate::proofs::LawLemmas::removing_keeps))]
pub fn an_output_that_goes_keeps_one()
    ensures { RemovedOutputsKeepOne }
{}

/// No workspace of an opening tree has two fullscreen containers.
pub fn openings_have_one()
    ensures { OpeningsHaveOne }
{}

/// The count of each workspace and the count row by row say the same of a sound tree.
#[tactic(auto, using(crate::proofs::LawLemmas::counts_agree))]
pub fn both_counts_agree()
    ensures { CountsAgree }
{}
