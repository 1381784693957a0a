//! Laws of texts: which windows their commands leave.
ghost use Rattle.wm_opens.specs.Laws.{TextsKeepOwners, TextsKeepWindows, TextsLeaveWindows, TextsOpenNone};

/// No command of a text makes a window: an id stands in the tree as a window at most as often as before.
#[tactic(auto, using(crate::proofs::OpenLemmas::texts_open_none))]
pub fn texts_open_no_window()
    ensures { TextsOpenNone }
{}

/// A text keeps each window of a sound tree in which no container has floating windows, and leaves such a tree.
pub fn texts_keep_windows()
    ensures { TextsKeepWindows }
{}

/// What is a window before a text is one after it, and nothing else is.
#[tactic(auto, using(crate::proofs::TextLemmas::texts_leave))]
pub fn texts_leave_windows()
    ensures { TextsLeaveWindows }
{}

/// After a text each window is the same caller's, and no other one is.
#[tactic(auto, using(crate::proofs::TextLemmas::texts_keep_owners))]
pub fn texts_keep_owners()
    ensures { TextsKeepOwners }
{}
