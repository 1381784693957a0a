//! Laws of growing and shrinking tiled containers: who gives, who gets, and that nothing else changes.
ghost use Rattle.law_sizes.specs.Dealing.{ResizeDeals};
ghost use Rattle.law_sizes.specs.Returning.{ResizesBack};
ghost use Rattle.law_sizes.specs.Shares.{ResizeKeeps};

/// A tiled container that grows or shrinks changes nothing but the shares of the children of one node.
pub fn a_resize_keeps_all_but_shares()
    ensures { ResizeKeeps }
{}

/// Where a tiled container is not refused to grow or shrink, what one child gets is what the others lose, each its part.
#[tactic(auto, using(crate::proofs::DealLaws::resize_deals))]
pub fn a_resize_gives_what_is_taken()
    ensures { ResizeDeals }
{}

/// A tiled container that grows by so many hundredths and then shrinks by as many, or the other way round, leaves the tree
/// as it was before, where neither is refused.
#[tactic(auto, using(crate::proofs::BackLaws::resizes_back))]
pub fn resizing_there_and_back_changes_nothing()
    ensures { ResizesBack }
{}
