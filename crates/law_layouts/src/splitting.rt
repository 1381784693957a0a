//! Laws of `split`.
ghost use Rattle.law_layouts.specs.Splitting.{SplitHIsSplitH, SplitKeepsFocus, SplitKeepsTiled, SplitKeepsWorkspace, SplitToggleIsOther, SplitVIsSplitV};

/// After `split h` that is not refused, the workspace or the parent of the container has the layout splith.
#[tactic(auto, using(crate::proofs::SplitLaws::split_h_is))]
pub fn split_h_gives_splith()
    ensures { SplitHIsSplitH }
{}

/// After `split v` that is not refused, it has the layout splitv.
#[tactic(auto, using(crate::proofs::SplitLaws::split_v_is))]
pub fn split_v_gives_splitv()
    ensures { SplitVIsSplitV }
{}

/// After `split toggle` that is not refused, it has splitv where splith was, and else splith.
#[tactic(auto, using(crate::proofs::SplitLaws::split_toggle_is))]
pub fn split_toggle_gives_the_other_split()
    ensures { SplitToggleIsOther }
{}

/// A tiled container is tiled still after a `split` that is not refused.
#[tactic(auto, using(crate::proofs::SplitLaws::split_keeps_tiled))]
pub fn splitting_keeps_the_container_tiled()
    ensures { SplitKeepsTiled }
{}

/// It is in the same workspace still.
#[tactic(auto, using(crate::proofs::SplitLaws::split_keeps_workspace))]
pub fn splitting_keeps_the_workspace()
    ensures { SplitKeepsWorkspace }
{}

/// What was focused is focused still after a `split` that is not refused.
#[tactic(auto, using(crate::proofs::FocusKept::split_keeps_focus))]
pub fn splitting_keeps_the_focus()
    ensures { SplitKeepsFocus }
{}
