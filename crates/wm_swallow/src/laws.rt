//! Laws on the definitions of placeholders that swallow windows, and of layouts that are appended.
ghost use Rattle.wm_swallow.specs.Laws.{AppendingAdds, FoundTakes, IdsStay, IsFirst, IsWindowAfterwards, MarksStay};

/// What is found is the first node, depth first and each before its tiled children, that takes the window; nothing is found
/// exactly where none takes it.
#[tactic(auto, using(crate::proofs::WalkLemmas::is_first))]
pub fn first_one_swallows()
    ensures { IsFirst }
{}

/// The container that is found in a sound tree is a placeholder with an entry for the window; afterwards it is that window,
/// and else as it was.
#[tactic(auto, using(crate::proofs::FillLemmas::found_takes, crate::proofs::FillLemmas::window_afterwards))]
pub fn placeholder_becomes_window()
    ensures takes { FoundTakes }
    ensures window { IsWindowAfterwards }
{}

/// The ids of all containers stay, in their order, and each container keeps its marks.
#[tactic(auto, using(crate::proofs::FillLemmas::ids_after, crate::proofs::FillLemmas::marks_after))]
pub fn ids_and_marks_stay()
    ensures ids { IdsStay }
    ensures marks { MarksStay }
{}

/// Appending to a workspace of a sound tree gives as many ids as the layout has containers, adds these containers and the
/// trees to the workspace's children, and loses nothing.
#[tactic(auto, using(crate::proofs::WholeLemmas::appending_adds))]
pub fn appending_adds_all()
    ensures { AppendingAdds }
{}
