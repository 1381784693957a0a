//! Laws of `sticky toggle` and `fullscreen toggle`.
ghost use Rattle.law_layouts.specs.Switches.{FullTogglesBack, FullTogglesTwice, StickyTogglesBack};

/// `sticky toggle` twice gives the tree back.
#[tactic(auto, using(crate::proofs::SwitchLaws::sticky_toggles_back))]
pub fn toggling_sticky_twice_changes_nothing()
    ensures { StickyTogglesBack }
{}

/// `fullscreen toggle` twice gives the tree back, where no other container of the workspace is fullscreen.
#[tactic(auto, using(crate::proofs::SwitchLaws::full_toggles_back))]
pub fn toggling_fullscreen_twice_changes_nothing()
    ensures { FullTogglesBack }
{}

/// `fullscreen toggle` twice on a container takes fullscreen from the other containers of its workspace alone.
#[tactic(auto, using(crate::proofs::FullLaws::full_toggles_twice))]
pub fn toggling_fullscreen_twice_leaves_no_other_fullscreen()
    ensures { FullTogglesTwice }
{}
