//! Laws of showing workspaces and of sending containers to them.
ghost use Rattle.law_commands.specs.Sending.{SendsBack};
ghost use Rattle.law_commands.specs.Showing.{ShowsOnce};

/// A container that is sent to a workspace, and from there back or to another one, is as it was but for its place, and
/// so is all that stands below it.
pub fn sending_there_and_back_keeps_what_is_below()
    ensures { SendsBack }
{}

/// A workspace that is shown twice is shown once.
#[tactic(auto, using(crate::proofs::ShowLaws::shows_once))]
pub fn showing_twice_is_showing_once()
    ensures { ShowsOnce }
{}
