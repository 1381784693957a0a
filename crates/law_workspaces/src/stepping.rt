//! A law of the next and the previous workspace.
ghost use Rattle.law_workspaces.specs.Stepped.{StepsBack};

/// A step to the next workspace and then to the previous one, or the other way round, comes to the workspace that was
/// focused.
pub fn a_step_on_and_a_step_back_change_no_focus()
    ensures { StepsBack }
{}
