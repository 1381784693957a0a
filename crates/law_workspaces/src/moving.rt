//! A law of moving workspaces to other outputs.
ghost use Rattle.law_workspaces.specs.Moved.{MovesSpace};

/// After `move workspace to output` from another output that is not refused, the workspace is the last one of the output
/// and shown there, and the output that it left shows one of its own workspaces.
pub fn a_moved_workspace_is_last_and_shown()
    ensures { MovesSpace }
{}
