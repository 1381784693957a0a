//! Changing one part of the tree alone.
ghost use Rattle.std.specs.Prelude.{◌≡◌, true};
ghost use Rattle.wm_forest.specs.Look.{first_kids, in_row};
ghost use Rattle.wm_tree.specs.Sets.{IsShowable, with_shown};
ghost use Rattle.wm_tree.specs.TreeValue.{parent};
ghost use Rattle.wm_forest.specs.RootId.{root};
ghost use Rattle.wm_tree.specs.Sound.{IsSound};
ghost use Rattle.wm_tree.specs.Words.{edited};
ghost use Rattle.wm_forest.specs.declared.kind.KindEdit.TheVariants as edits;

use crate::tree::Tree;
use wm_base::{Border, ConId, Edges, Text};
use wm_forest::{ConState, KindEdit, ROOT};

impl Tree {
    /// Makes the change of the node, where that is there.
    pub(crate) fn edit(&mut self, id: ConId, edit: KindEdit)
        ensures { self.new ≡ edited id edit self.old }
    {
        drop(self.nodes.change(id, edit));
    }

    /// Gives the container another state. No second window of a workspace is fullscreen, and a floating or scratchpad
    /// window has a rectangle.
    pub fn set_state(&mut self, con: ConId, s: ConState)
        ensures tree { self.new ≡ edited con (edits.State s) self.old }
        ensures sound { IsSound self.old → IsSound self.new }
    {
        self.edit(con, KindEdit::State(s));
    }

    /// Gives the window or placeholder another title.
    pub fn set_title(&mut self, con: ConId, t: Text)
        ensures tree { self.new ≡ edited con (edits.Title t) self.old }
        ensures sound { IsSound self.old → IsSound self.new }
    {
        self.edit(con, KindEdit::Title(t));
    }

    /// Gives the container another title format.
    pub fn set_title_format(&mut self, con: ConId, t: Text)
        ensures tree { self.new ≡ edited con (edits.TitleFormat t) self.old }
        ensures sound { IsSound self.old → IsSound self.new }
    {
        self.edit(con, KindEdit::TitleFormat(t));
    }

    /// Gives the workspace another name, which no other workspace has.
    pub fn set_name(&mut self, w: ConId, n: Text)
        ensures tree { self.new ≡ edited w (edits.Name n) self.old }
        ensures sound { IsSound self.old → IsSound self.new }
    {
        self.edit(w, KindEdit::Name(n));
    }

    /// Gives the workspace other gaps, of at most 1,000 pixels.
    pub fn set_gaps(&mut self, w: ConId, inner: u32, outer: u32)
        ensures tree { self.new ≡ edited w (edits.Gaps inner outer) self.old }
        ensures sound { IsSound self.old → IsSound self.new }
    {
        self.edit(w, KindEdit::Gaps(inner, outer));
    }

    /// Gives new containers this border, and new workspaces these gaps.
    pub fn set_defaults(&mut self, b: Border, inner: u32, outer: u32)
        ensures tree { self.new ≡ record self.old { border = b; inner = inner; outer = outer } }
        ensures sound { IsSound self.old → IsSound self.new }
    {
        self.border = b;
        self.inner = inner;
        self.outer = outer;
    }

    /// Reserves edges of the output for bars, of at most 16,384 pixels.
    pub fn set_reserved(&mut self, o: ConId, e: Edges)
        ensures tree { self.new ≡ edited o (edits.Reserved e) self.old }
        ensures sound { IsSound self.old → IsSound self.new }
    {
        self.edit(o, KindEdit::Reserved(e));
    }

    /// Makes the output the current one.
    pub fn set_current(&mut self, o: ConId)
        ensures tree { self.new ≡ edited root (edits.Current o) self.old }
        ensures sound { in_row o (first_kids self.old.nodes) ≡ true → IsSound self.old → IsSound self.new }
    {
        self.edit(ROOT, KindEdit::Current(o));
    }

    /// Sets the name of the previous workspace.
    pub fn set_previous(&mut self, n: Option<Text>)
        ensures tree { self.new ≡ record self.old { previous = n } }
        ensures sound { IsSound self.old → IsSound self.new }
    {
        self.previous = n;
    }

    /// Makes the workspace the one that its output shows.
    pub fn set_shown(&mut self, w: ConId)
        ensures tree { self.new ≡ with_shown w self.old }
        ensures sound { IsShowable (parent self.old w) w self.old.nodes → IsSound self.old → IsSound self.new }
    {
        if let Some(output) = self.parent(w) {
            self.edit(output, KindEdit::Shown(w));
        }
    }
}
