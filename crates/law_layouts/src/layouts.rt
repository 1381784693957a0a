//! Laws of `layout toggle`.
ghost use Rattle.law_layouts.specs.Layouts.{AllTogglesAsSet, AllTogglesBack, AllVisitsAll, SplitTogglesAsSet, SplitTogglesBack};

/// From splith or splitv, `layout toggle split` twice leaves the tree that setting that layout leaves.
#[tactic(auto, using(crate::proofs::LayoutLaws::split_toggles_as_set))]
pub fn toggling_split_twice_sets_the_layout_that_was()
    ensures { SplitTogglesAsSet }
{}

/// From splith or splitv, which was also the last split layout, `layout toggle split` twice gives the tree back.
#[tactic(auto, using(crate::proofs::LayoutLaws::split_toggles_back))]
pub fn toggling_split_twice_changes_nothing()
    ensures { SplitTogglesBack }
{}

/// From any layout, `layout toggle all` four times leaves the tree that setting splitv and then that layout leaves.
#[tactic(auto, using(crate::proofs::LayoutLaws::all_toggles_as_set))]
pub fn toggling_all_four_times_sets_the_layout_that_was()
    ensures { AllTogglesAsSet }
{}

/// From any layout, where the last split layout was the one that going round leaves, `layout toggle all` four times gives
/// the tree back.
#[tactic(auto, using(crate::proofs::LayoutLaws::all_toggles_back))]
pub fn toggling_all_four_times_changes_nothing()
    ensures { AllTogglesBack }
{}

/// Where it is not refused, `layout toggle all` comes to each of the four layouts.
pub fn toggling_all_visits_all_layouts()
    ensures { AllVisitsAll }
{}
