//! A law of renaming workspaces.
ghost use Rattle.law_workspaces.specs.Renamed.{Renames};

/// After `rename workspace` that is not refused, the workspace has the new name, and the names of workspaces differ
/// where they differed before.
pub fn a_renamed_workspace_has_its_name()
    ensures { Renames }
{}
