//! Laws of painting.
ghost use Rattle.wm_paint.specs.Laws.{ClearStays, CoversItsPixels, LastGives, PixelsTell};

/// A rectangle covers exactly the pixels that it has.
#[tactic(auto, using(crate::proofs::LawLemmas::covers_pixels))]
pub fn covers_its_pixels()
    ensures { CoversItsPixels }
{}

/// The ink of a pixel is that of the last quad that covers it, and as before where none does.
#[tactic(auto, using(crate::proofs::LawLemmas::clear_stays, crate::proofs::LawLemmas::last_gives))]
pub fn last_quad_gives_the_ink()
    ensures clear { ClearStays }
    ensures last { LastGives }
{}

/// Two canvases of one area with the same pixels are the same.
#[tactic(auto, using(crate::proofs::LawLemmas::pixels_tell))]
pub fn pixels_tell_canvases()
    ensures { PixelsTell }
{}
