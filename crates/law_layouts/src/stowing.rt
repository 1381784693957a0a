//! Laws of the scratchpad.
ghost use Rattle.law_layouts.specs.Stowing.{ComesFirst, MovesToScratchpad, ShowsFirst, ShowsThis, ShowsWhatHid};

/// After `move scratchpad` that is not refused, the window is in the scratchpad.
#[tactic(auto, using(crate::proofs::StowLaws::moves_to_scratchpad))]
pub fn moving_to_the_scratchpad_hides_a_window()
    ensures { MovesToScratchpad }
{}

/// A window that comes to the empty scratchpad is its first one.
#[tactic(auto, using(crate::proofs::HideLaws::first_comes))]
pub fn a_window_is_first_in_the_empty_scratchpad()
    ensures { ComesFirst }
{}

/// `scratchpad show` for a window of the scratchpad lets it float on the focused workspace, in the middle of the current
/// output.
pub fn showing_a_window_of_the_scratchpad_brings_it()
    ensures { ShowsThis }
{}

/// `scratchpad show` for no window in particular brings the first window of the scratchpad in that way, where none of the
/// scratchpad is out on the focused workspace.
pub fn showing_the_scratchpad_brings_its_first_window()
    ensures { ShowsFirst }
{}

/// `scratchpad show` behind `move scratchpad` brings the same window, where the scratchpad was empty.
pub fn showing_the_scratchpad_brings_the_window_that_hid()
    ensures { ShowsWhatHid }
{}
