//! Laws of placeholders: which ids may still open as windows, and windows that come to their placeholders.
ghost use Rattle.wm_opens.specs.Laws.{AddedOutputsOpenNoOther, ClosingOpensNoOther, EditsOpenNoOther, MappingOpensNoOther, NoOtherMayOpen, PlaceholdersAreSeen, RaisingOpensNoOther, RemovedOutputsOpenNoOther, SettlingOpensNoOther, StepsOpenNoOther, SwallowingFills, SwallowingNoneStays, SwallowingOpensNoOther, SwallowingSpendsItsId, SwallowingStaysGood, TextsOpenNoOther, WindowsMayNotOpen, WindowsNeverOpenAgain};

/// In a sound tree each placeholder is counted once, and what is no placeholder not at all.
pub fn placeholders_are_counted_as_seen()
    ensures { PlaceholdersAreSeen }
{}

/// After a step that lets no other id open, an id may open only if it might before.
pub fn no_other_id_may_open()
    ensures { NoOtherMayOpen }
{}

/// So it is after one such step and another.
pub fn steps_let_no_other_open()
    ensures { StepsOpenNoOther }
{}

/// What is a window may not open.
pub fn a_window_may_not_open()
    ensures { WindowsMayNotOpen }
{}

/// Nor may its id open after steps that let no other id open, whether it was closed or not.
pub fn a_window_never_opens_again()
    ensures { WindowsNeverOpenAgain }
{}

/// After a text no other id may open: what its commands make gets ids that are still to be given.
pub fn texts_let_no_other_open()
    ensures { TextsOpenNoOther }
{}

/// Nor after settling.
pub fn settling_lets_no_other_open()
    ensures { SettlingOpensNoOther }
{}

/// Nor after a window was mapped under the next id.
pub fn mapping_lets_no_other_open()
    ensures { MappingOpensNoOther }
{}

/// Nor after a node was raised.
pub fn raising_lets_no_other_open()
    ensures { RaisingOpensNoOther }
{}

/// Nor after any change of a node.
pub fn a_change_lets_no_other_open()
    ensures { EditsOpenNoOther }
{}

/// Nor after a node was taken out.
pub fn closing_lets_no_other_open()
    ensures { ClosingOpensNoOther }
{}

/// Nor after an output came.
pub fn an_output_that_comes_lets_no_other_open()
    ensures { AddedOutputsOpenNoOther }
{}

/// Nor after one went.
pub fn an_output_that_goes_lets_no_other_open()
    ensures { RemovedOutputsOpenNoOther }
{}

/// Nor after a window came to its placeholder.
pub fn swallowing_lets_no_other_open()
    ensures { SwallowingOpensNoOther }
{}

/// The placeholder that is found becomes the window, and nothing else comes or goes.
pub fn a_swallowed_window_fills_its_placeholder()
    ensures { SwallowingFills }
{}

/// A sound tree stays sound, and no container gets floating windows.
pub fn swallowing_stays_good()
    ensures { SwallowingStaysGood }
{}

/// Where none is found, the tree stays.
pub fn a_window_that_none_swallows_changes_nothing()
    ensures { SwallowingNoneStays }
{}

/// The id of the placeholder that is found might open before, and may not afterwards.
pub fn swallowing_spends_its_id()
    ensures { SwallowingSpendsItsId }
{}
