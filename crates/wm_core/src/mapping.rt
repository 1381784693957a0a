//! Opening windows.
ghost use Rattle.std.specs.Prelude.{◌≡◌, ◌<◌, ◌^◌, Some};
ghost use Rattle.wm_history.specs.Act.{Map, text_if_some};
ghost use Rattle.wm_history.specs.Effect.{opened, then_outcome};
ghost use Rattle.wm_history.specs.History.{Entry, done_by};
ghost use Rattle.wm_history.specs.Sizes.{IsFitThen};
ghost use Rattle.wm_core.specs.Steps.{MayCome, Takes};
ghost use Rattle.wm_layouts.specs.Sizes.{IsFitSize};

use crate::desk::Desk;
use wm_base::{Buffer, ConId, NoMemory, Props};
use wm_criteria::Prepared;
use wm_history::{Answer, NotOpened, has_no_pixels, open, run_then};
use wm_tree::Tree;

impl Desk {
    /// Opens a window of the caller, in the placeholder that swallows it or else where there is room for it. It is raised,
    /// unless its workspace has a fullscreen one, and then the text that it brings runs, if any.
    pub(crate) fn map(
        &mut self,
        who: u32,
        props: &Props,
        buffer: Buffer,
        then: &Option<Prepared>,
    ) -> Result<Answer, NoMemory>
        requires few { self.old.steps < 2 ^ 48 }
        requires size { IsFitSize buffer.size }
        requires built { IsFitThen then.now }
        ensures { Takes self.old self.new result (record { who = who; act = Map props.now buffer (text_if_some then.now) }) }
    {
        if has_no_pixels(buffer.size) {
            return Ok(self.stay(Answer::Empty));
        }
        let mut tree = self.tree.copy()?;
        match open(&mut tree, who, props, buffer.size) {
            Ok(id) => self.open_with(tree, id, buffer, then),
            Err(NotOpened::Full(limit)) => {
                drop(tree);
                Ok(self.stay(Answer::Full(limit)))
            }
            Err(NotOpened::NoMemory) => {
                drop(tree);
                Err(NoMemory)
            }
        }
    }

    /// Runs the text that a map brings, if any, on a tree in which its window is in its place, and takes the tree.
    fn open_with(
        &mut self,
        tree: Tree,
        id: ConId,
        buffer: Buffer,
        then: &Option<Prepared>,
    ) -> Result<Answer, NoMemory>
        requires come { MayCome self.old tree (Some (id, buffer)) }
        requires built { IsFitThen then.now }
        ensures { (entry : Entry) → done_by self.old.plan.env self.old.mode self.old.tree entry ≡ opened self.old.tree (id, buffer) (then_outcome self.old.plan.env (text_if_some then.now) id tree) → Takes self.old self.new result entry }
    {
        let mut tree = tree;
        match run_then(self.alloc, &mut tree, &self.plan.env, then, id) {
            Ok(mut applied) => {
                let said = Answer::Mapped(id);
                let answer = self.take(tree, &mut applied, Some((id, buffer)), said, None);
                drop(applied);
                answer
            }
            Err(error) => {
                drop(tree);
                Err(error)
            }
        }
    }
}
