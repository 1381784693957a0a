//! A tree, and the workspaces and urgent windows that were found in it.
ghost use Rattle.std.specs.Prelude.{◌≡◌, IfOk};
ghost use Rattle.wm_changes.specs.Scene.{IsScene};
ghost use Rattle.wm_forest.specs.Recency.{lists};
ghost use Rattle.wm_tree.specs.Sound.{IsSound};

use crate::spaces::{Site, spaces};
use std::alloc::Global;
use std::collections::BTreeMap;
use wm_arrange::id_set;
use wm_base::{ConId, NoMemory};
use wm_ids::IdMap;
use wm_tree::Tree;

/// A tree with its workspaces, each under its id, and the ids of its urgent windows.
#[derive(Drop)]
pub struct Scene<'a> {
    pub tree: &'a Tree,
    pub spaces: BTreeMap<u32, Site<'a>>,
    pub urgent: IdMap<()>,
}

impl<'a> Scene<'a> {
    /// What is found in a tree.
    pub fn new(alloc: Global, tree: &'a Tree) -> Result<Scene<'a>, NoMemory>
        requires { IsSound tree.now }
        ensures scene { IfOk result (λ scene. IsScene scene) }
        ensures tree { IfOk result (λ scene. scene.tree.now ≡ tree.now) }
    {
        let urgent = id_set(alloc, tree.urgent_ids())?;
        let spaces = spaces(alloc, tree)?;
        Ok(Scene {
            tree,
            spaces,
            urgent,
        })
    }

    /// Whether the id is that of an urgent window.
    pub fn is_urgent(&self, id: ConId) -> bool
        requires { IsScene self.now }
        ensures { result ≡ lists id self.now.tree.now.urgent }
    {
        self.urgent.get(id.0).is_some()
    }
}
