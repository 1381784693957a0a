//! Laws of showing workspaces.
ghost use Rattle.law_workspaces.specs.Returned.{ComesBack};
ghost use Rattle.law_workspaces.specs.Shown.{ShowsIt};

/// After `workspace` of one that is there, its output shows it and is the current one, and the previous name is that of
/// the workspace that was focused before, where that was another one.
pub fn a_shown_workspace_is_focused()
    ensures { ShowsIt }
{}

/// Where the names of workspaces differ, `workspace` of another one that is there and then `workspace back_and_forth`
/// comes to the workspace that was focused.
pub fn going_back_and_forth_changes_no_focus()
    ensures { ComesBack }
{}
