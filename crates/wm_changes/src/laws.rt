//! Laws on the events of two trees.
ghost use Rattle.wm_changes.specs.FactLaws.{SpacesAreFound, WindowsAreFound};
ghost use Rattle.wm_changes.specs.Laws.{BegunSpacesCame, ClosedWindowsWent, EmptiedSpacesWent, EventsAreFew, NewWindowsCame, NothingIsToldOfNothing};

/// A tree that is as it was tells nothing.
#[tactic(auto, using(crate::proofs::StillLemmas::nothing_told))]
pub fn nothing_is_told_of_nothing()
    ensures { NothingIsToldOfNothing }
{}

/// New are exactly the windows that came, and closed are exactly those that went, by rising id.
#[tactic(auto, using(crate::proofs::CameLemmas::new_came, crate::proofs::CameLemmas::closed_went))]
pub fn windows_come_and_go()
    ensures new { NewWindowsCame }
    ensures closed { ClosedWindowsWent }
{}

/// Begun are exactly the workspaces that came, and emptied are exactly those that went, by rising id.
#[tactic(auto, using(crate::proofs::CameLemmas::begun_came, crate::proofs::CameLemmas::emptied_went))]
pub fn workspaces_come_and_go()
    ensures begun { BegunSpacesCame }
    ensures emptied { EmptiedSpacesWent }
{}

/// At most 29,443 events are told: six of each of 4,096 windows, two of each of 256 workspaces, one of each that is
/// gone, one of outputs, and two of what is focused.
#[tactic(auto, using(crate::proofs::FewLemmas::few))]
pub fn events_are_few()
    ensures { EventsAreFew }
{}

/// Each window of a sound tree is found, as it is and where it stands, and nothing else is.
#[tactic(auto, using(crate::proofs::FoundLemmas::windows_found))]
pub fn windows_are_found()
    ensures { WindowsAreFound }
{}

/// Each workspace of a sound tree is found, as it is and on the output that holds it, and nothing else is.
#[tactic(auto, using(crate::proofs::FoundSpaceLemmas::spaces_found))]
pub fn workspaces_are_found()
    ensures { SpacesAreFound }
{}
