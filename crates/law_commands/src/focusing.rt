//! Laws on the definitions of focusing.
ghost use Rattle.law_commands.specs.Focused.{FocusFocuses};
ghost use Rattle.law_commands.specs.Focusing.{ChildKeeps, DirectionKeeps, ParentKeeps};

/// After `focus` on a container or workspace that is not refused, it is what is focused.
#[tactic(auto, using(crate::proofs::FocusLaws::focus_focuses))]
pub fn focus_focuses()
    ensures { FocusFocuses }
{}

/// Focusing a child changes nothing but recency, urgency and fullscreen of its workspace.
#[tactic(auto, using(crate::proofs::FocusingLemmas::child_keeps))]
pub fn focusing_a_child_keeps_the_rest()
    ensures { ChildKeeps }
{}

/// Focusing a node in a direction, from what does not float, changes nothing but recency, urgency and fullscreen of one
/// workspace, where that is shown and focused already.
#[tactic(auto, using(crate::proofs::FocusingLemmas::direction_keeps))]
pub fn focusing_in_a_direction_keeps_the_rest()
    ensures { DirectionKeeps }
{}

/// Focusing a parent that is tiled or a workspace changes nothing but recency, urgency and fullscreen of its workspace.
#[tactic(auto, using(crate::proofs::FocusingLemmas::parent_keeps))]
pub fn focusing_a_parent_keeps_the_rest()
    ensures { ParentKeeps }
{}
