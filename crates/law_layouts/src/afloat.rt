//! Laws of `floating toggle`.
ghost use Rattle.law_layouts.specs.Afloat.{TogglesAfloat, TogglesAfloatAgain, TogglesSunkAgain};

/// `floating toggle` on a tiled window lets it float on its workspace, with the rectangle that it had when it floated
/// earlier, or else with a new one.
pub fn toggling_floating_lets_a_window_float()
    ensures { TogglesAfloat }
{}

/// A second `floating toggle` tiles it on the same workspace, and keeps that rectangle for when it floats again.
pub fn toggling_floating_twice_tiles_a_window_again()
    ensures { TogglesSunkAgain }
{}

/// `floating toggle` twice on a floating window lets it float on the same workspace with the same rectangle.
pub fn toggling_floating_twice_gives_the_rectangle_back()
    ensures { TogglesAfloatAgain }
{}
