//! Laws of `border toggle`.
ghost use Rattle.law_layouts.specs.Borders.{BorderTogglesBack, BorderTogglesRound};

/// `border toggle` three times leaves a border of the same kind, 2 pixels wide, and all else as it was.
#[tactic(auto, using(crate::proofs::BorderLaws::border_toggles_round))]
pub fn toggling_the_border_three_times_comes_round()
    ensures { BorderTogglesRound }
{}

/// `border toggle` three times gives the tree back, where there was no border, or one of 2 pixels.
#[tactic(auto, using(crate::proofs::BorderLaws::border_toggles_back))]
pub fn toggling_the_border_three_times_changes_nothing()
    ensures { BorderTogglesBack }
{}
