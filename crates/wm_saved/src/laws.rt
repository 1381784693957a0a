//! Laws of reading layout files.
ghost use Rattle.wm_saved.specs.Faults.{FaultsAreThere};
ghost use Rattle.wm_saved.specs.Others.{PassesOverOthers};

/// With or without a field of a key that is not read, whatever its value, an object is read as the same container, or
/// has the same first fault.
#[tactic(auto, using(crate::proofs::OtherLemmas::passes_over_others))]
pub fn other_fields_are_passed_over()
    ensures { PassesOverOthers }
{}

/// The path of a first fault leads to a value that is there, key by key and place by place.
#[tactic(auto, using(crate::proofs::FaultLemmas::faults_are_there))]
pub fn faults_are_at_their_paths()
    ensures { FaultsAreThere }
{}
