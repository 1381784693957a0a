//! The words for what changed.
ghost use Rattle.std.specs.Prelude.{◌≡◌, IfOk};
ghost use Rattle.wm_changes.specs.Differences.{change_text};

use std::alloc::Global;
use wm_base::{NoMemory, Str};

/// What changed in a window or in a workspace.
#[derive(Clone, Copy, Debug)]
pub enum Change {
    New,
    Title,
    Move,
    Floating,
    FullscreenMode,
    Urgent,
    Mark,
    Close,
    Focus,
    Init,
    Rename,
    Empty,
}

impl Change {
    /// The word of a change.
    pub fn word(self, alloc: Global) -> Result<Str, NoMemory>
        ensures { IfOk result (λ word. word ≡ change_text self) }
    {
        let mut word = String::new(alloc);
        word.push_str(self.text())?;
        Ok(Str::of(word))
    }

    fn text(self) -> &'static str
        ensures { result.now ≡ change_text self }
    {
        match self {
            Change::New => "new",
            Change::Title => "title",
            Change::Move => "move",
            Change::Floating => "floating",
            Change::FullscreenMode => "fullscreen_mode",
            Change::Urgent => "urgent",
            Change::Mark => "mark",
            Change::Close => "close",
            Change::Focus => "focus",
            Change::Init => "init",
            Change::Rename => "rename",
            Change::Empty => "empty",
        }
    }
}
