//! The laws that the areas of windows and placeholders cover the area of the container around them.
ghost use Rattle.std.specs.Prelude.{◌≡◌, ◌↔◌, true, ℤ};
ghost use Rattle.wm_base.specs.declared.geometry.Rect.{Rect};
ghost use Rattle.wm_base.specs.Rect.{HasPixel};
ghost use Rattle.wm_arrange.specs.Cover.{has_pixel, CoversOnce};
ghost use Rattle.wm_arrange.specs.CoverTree.{AreasAreTold, CoversInTree};

/// With no inner gap, the areas of the windows and placeholders below a container cover its area, no pixel twice,
/// where it and each split below it have a child and the layout splith or splitv.
#[tactic(auto, using(crate::proofs::CoverLemmas::covers_once, crate::proofs::StripLemmas::pixel_told))]
pub fn areas_cover_once()
    ensures once { CoversOnce }
    ensures pixels { (r : Rect) (x y : ℤ) → has_pixel x y r ≡ true ↔ HasPixel r x y }
{}

/// In the arrangement of a whole tree, the areas of the windows and placeholders below a tiled container or workspace
/// cover its area, no pixel twice, where its workspace has no inner gap, and it and each split below it have a child
/// and the layout splith or splitv. The area that is placed for a tiled container or workspace is the one that
/// `area_of` tells.
pub fn arranged_areas_cover_once()
    ensures once { CoversInTree }
    ensures told { AreasAreTold }
{}
