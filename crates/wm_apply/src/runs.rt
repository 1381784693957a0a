//! On what each command runs.
ghost use Rattle.std.specs.Prelude.{◌≡◌};
ghost use Rattle.wm_apply.specs.Commands.{is_for_all, is_once, runs_on, runs_once, is_whole};

use wm_language::Command;

/// A command runs once and changes no tree, or once on the tree as a whole, whatever the criteria; any other runs on
/// its subjects.
#[derive(Clone, Copy, Debug, PartialEq, Eq)]
pub enum Runs {
    Once,
    Whole,
    Subjects,
}

/// On what the command runs.
fn runs_on(command: &Command) -> Runs
    ensures { result ≡ runs_on command.now }
{
    match command {
        Command::Nop | Command::Idle | Command::Exit | Command::Mode(_) => Runs::Once,
        Command::Workspace(_) | Command::Rename(..) | Command::AppendLayout(_) => Runs::Whole,
        Command::Split(_) | Command::SetLayout(_) | Command::CycleLayout(_) => Runs::Subjects,
        Command::Focus | Command::FocusDir(_) | Command::FocusParent => Runs::Subjects,
        Command::FocusChild | Command::FocusKind(_) | Command::FocusOutput(_) => Runs::Subjects,
        Command::MoveDir(..) | Command::MoveToWorkspace(_) => Runs::Subjects,
        Command::MoveToOutput(_) | Command::MoveWorkspace(_) => Runs::Subjects,
        Command::MoveToMark(_) | Command::MoveToScratchpad => Runs::Subjects,
        Command::MovePosition(..) | Command::MoveCenter | Command::Swap(_) => Runs::Subjects,
        Command::Resize { .. } | Command::ResizeSet(..) | Command::Floating(_) => Runs::Subjects,
        Command::Fullscreen(_) | Command::SetBorder(_) | Command::CycleBorder => Runs::Subjects,
        Command::Gaps { .. } | Command::Sticky(_) | Command::Mark { .. } => Runs::Subjects,
        Command::Unmark(_) | Command::ScratchpadShow | Command::TitleFormat(_) => Runs::Subjects,
        Command::Kill => Runs::Subjects,
    }
}

/// Whether the command changes no tree, runs once, whatever the criteria, and has no subject.
pub fn runs_once(command: &Command) -> bool
    ensures { result ≡ runs_once command.now }
{
    matches!(runs_on(command), Runs::Once)
}

/// Whether the command runs once on the tree as a whole, whatever the criteria, and has no subject.
pub fn is_whole(command: &Command) -> bool
    ensures { result ≡ is_whole command.now }
{
    matches!(runs_on(command), Runs::Whole)
}
