//! Laws of floating windows in a round: the next one in a direction is the next one by id.
ghost use Rattle.law_sizes.specs.Rounds.{FocusesRound, GoesRound};

/// From a floating window, right and down is the one of least greater id of its workspace, else the one of least id;
/// left and up is the one of greatest smaller id, else the one of greatest id; and none where there is no other one.
#[tactic(auto, using(crate::proofs::RoundLaws::goes_round))]
pub fn floating_windows_go_round_by_id()
    ensures { GoesRound }
{}

/// Focusing in a direction from a floating window, where that is not refused, focuses the next one by id in it.
#[tactic(auto, using(crate::proofs::RoundLaws::focuses_round))]
pub fn focusing_in_a_direction_goes_round_by_id()
    ensures { FocusesRound }
{}
