//! What is focused in a tree.
ghost use Rattle.std.specs.Option.{option_copied};
ghost use Rattle.wm_criteria.specs.Subject.{IsFocus};

use crate::subject::{space_name, window};
use std::alloc::Global;
use wm_base::{ConId, Props, Text};
use wm_tree::Tree;

/// A tree, with what `__focused__` stands for in it: the focused container, the properties of the focused window, and
/// the name of the focused workspace.
#[derive(Drop)]
pub struct Focus<'a> {
    pub alloc: Global,
    pub tree: &'a Tree,
    pub con: ConId,
    pub window: Option<&'a Props>,
    pub space: Option<&'a Text>,
    pub ghost meant: { IsFocus con (option_copied window) (option_copied space) tree.now },
}

impl<'a> Focus<'a> {
    ghost use Rattle.std.specs.Prelude.{◌≡◌};

    /// What is focused in the tree.
    pub fn of(alloc: Global, tree: &'a Tree) -> Focus<'a>
        ensures { result.tree.now ≡ tree.now }
    {
        let con = tree.focused();
        Focus {
            alloc,
            tree,
            con,
            window: window(tree, con),
            space: space_name(tree, tree.shown()),
        }
    }
}
