//! Laws of what is shown and stepped through when the tree is settled behind a command.
ghost use Rattle.law_workspaces.specs.Settled.{SettlesBeside, StepsBackSettled};

/// A workspace that is focused and shown on its output is so in the settled tree, too, and the previous name stays.
pub fn settling_keeps_what_is_shown()
    ensures { SettlesBeside }
{}

/// A step to the next workspace, the tree settled behind it, and a step to the previous one, or the other way round,
/// comes to the workspace that was focused, where that was not taken away as an empty one.
pub fn a_step_on_and_a_step_back_settled_change_no_focus()
    ensures { StepsBackSettled }
{}
