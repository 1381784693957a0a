//! What the parts of a workspace depend on besides its own nodes.
ghost use Rattle.std.specs.Prelude.{◌≡◌};
ghost use Rattle.wm_arrange.specs.Scene.{ink, seen, IsScene};

use std::alloc::Global;
use wm_base::{ConId, Ink};
use wm_ids::IdMap;
use wm_tree::Tree;

const FOCUSED: Ink = Ink(0x4c_7899);

const URGENT: Ink = Ink(0x90_0000);

const PLAIN: Ink = Ink(0x33_3333);

/// A tree with its focused node, the child that each tabbed or stacked container shows, by the id of the container, the
/// ids of its urgent windows, and the inner gap of one of its workspaces in pixels.
#[derive(Clone, Copy)]
pub struct Scene<'a> {
    pub alloc: Global,
    pub tree: &'a Tree,
    pub focused: ConId,
    pub chosen: &'a IdMap<ConId>,
    pub urgent: &'a IdMap<()>,
    pub inner: u32,
}

impl Scene<'_> {
    /// The ink of the container's title and border.
    pub fn ink(&self, con: ConId) -> Ink
        requires { IsScene self.now }
        ensures { result ≡ ink (seen self.now) con }
    {
        if con == self.focused {
            FOCUSED
        } else if self.urgent.get(con.0).is_some() {
            URGENT
        } else {
            PLAIN
        }
    }
}
