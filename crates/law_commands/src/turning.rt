//! Laws of moving there and back, and of exchanging twice.
ghost use Rattle.law_commands.specs.Turning.{MovesBack, SwapsBack};

/// A container that moves towards a window or placeholder beside it and then back leaves the tree as it was before.
pub fn moving_there_and_back_changes_nothing()
    ensures { MovesBack }
{}

/// Two containers that change places twice leave the tree as it was before, where none was to lose fullscreen.
#[tactic(auto, using(crate::proofs::TurnLaws::swaps_back))]
pub fn swapping_twice_changes_nothing()
    ensures { SwapsBack }
{}
