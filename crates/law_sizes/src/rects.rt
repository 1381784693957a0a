//! Laws of floating windows that get another size or place: nothing changes but the rectangle of that window.
ghost use Rattle.law_sizes.specs.Rects.{GrowthKeeps, PlaceKeeps, ShiftKeeps, SizeKeeps};

/// A container that gets a size keeps its place, and nothing else changes.
pub fn a_size_keeps_the_rest()
    ensures { SizeKeeps }
{}

/// A container that gets a place keeps its size, and nothing else changes.
pub fn a_place_keeps_the_rest()
    ensures { PlaceKeeps }
{}

/// A container that is shifted in a direction keeps its size, and nothing else changes.
pub fn a_shift_keeps_the_rest()
    ensures { ShiftKeeps }
{}

/// A container that is not tiled and grows or shrinks changes its rectangle at that side, and nothing else changes.
pub fn a_growth_keeps_the_rest()
    ensures { GrowthKeeps }
{}
