//! Laws on the definitions of marks.
ghost use Rattle.wm_focus.specs.Laws.{FindsMarked, NoOtherHasIt, NoneIsLeft};

/// The container that is found for a mark has it, and where none is found no container has it.
#[tactic(auto, using(crate::proofs::LawLemmas::finds_marked))]
pub fn marked_is_found()
    ensures { FindsMarked }
{}

/// After a mark is given to a container no other one has it.
#[tactic(auto, using(crate::proofs::LawLemmas::no_other))]
pub fn one_has_a_mark()
    ensures { NoOtherHasIt }
{}

/// After a mark or all marks are taken off all containers, none that has it is found.
pub fn none_is_left()
    ensures { NoneIsLeft }
{}
