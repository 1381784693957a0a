//! Laws: what is told of a tree is in order, and is all there is.
ghost use Rattle.wm_views.specs.FocusLaws.{FocusIsOfCons, FocusIsOfOutputs, FocusIsOfSpaces};
ghost use Rattle.wm_views.specs.Order.{NodesAreAll, RecencyRises, WorkspacesAreAll, WorkspacesRise};

/// The workspaces stand by number, those without one last, then by id, and they are those of the outputs, each as often as there.
#[tactic(auto, using(crate::proofs::OrderLemmas::workspaces_rise, crate::proofs::OrderLemmas::workspaces_are_all))]
pub fn workspaces_are_in_order()
    ensures rise { WorkspacesRise }
    ensures all { WorkspacesAreAll }
{}

/// The children and floating windows of a node stand by recency of their subtrees, and none is lost.
#[tactic(auto, using(crate::proofs::OrderLemmas::recency_rises, crate::proofs::OrderLemmas::nodes_are_all))]
pub fn focus_is_by_recency()
    ensures rise { RecencyRises }
    ensures all { NodesAreAll }
{}

/// What the views of a sound tree list as focus are the ids of the views of the rows below, each as often as there.
#[tactic(auto, using(crate::proofs::FocusLemmas::focus_is_of_cons, crate::proofs::FocusLemmas::focus_is_of_spaces, crate::proofs::FocusLemmas::focus_is_of_outputs))]
pub fn focus_is_of_the_rows()
    ensures cons { FocusIsOfCons }
    ensures spaces { FocusIsOfSpaces }
    ensures outputs { FocusIsOfOutputs }
{}
