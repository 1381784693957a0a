//! The views of the windows and workspaces of a tree, over maps where more than a few are made.
ghost use Rattle.std.specs.Prelude.{◌≡◌, IfOk};
ghost use Rattle.wm_changes.specs.Changes.{above, holder_area, space_view, window_view};
ghost use Rattle.wm_changes.specs.Shot.{IsOf};
ghost use Rattle.wm_views.specs.Sight.{IsSight};

use crate::spaces::Site;
use crate::standing::Standing;
use crate::windows::Found;
use std::alloc::Global;
use std::marker::Model;
use std::mem;
use wm_arrange::Arrangement;
use wm_base::{ConId, NOWHERE, NoMemory, Rect};
use wm_forest::Row;
use wm_json::NodeView;
use wm_tree::{Cursor, Tree};
use wm_views::{Above, Sight, con_view, space_view as view_of};

/// So many views are made without maps.
const FEW: u32 = 8;

/// A tree with its arrangement, what views look up once a view was made, and how many were made.
#[derive(Drop)]
pub struct Viewer<'a> {
    tree: &'a Tree,
    arrangement: &'a Arrangement,
    sight: Option<Sight<'a>>,
    views: u32,
}

impl<'a> Model for Viewer<'a> {
    ghost use Rattle.std.specs.Prelude.{IfSome};
    ghost use Rattle.wm_changes.specs.Shot.{IsOf, Shot, shot_code};

    ghost Value = { Shot };

    ghost coded = { shot_code };

    ghost view = { λ v. record { tree = v.tree.now; parts = v.arrangement.now.parts } };

    ghost invariant = { λ v. IfSome v.sight (λ s. IsOf v.tree.now v.arrangement.now.parts s) };
}

impl<'a> Viewer<'a> {
    /// Views of this tree, none of which is made yet.
    pub fn new(tree: &'a Tree, arrangement: &'a Arrangement) -> Viewer<'a>
        ensures { result ≡ record { tree = tree.now; parts = arrangement.now.parts } }
    {
        Viewer {
            tree,
            arrangement,
            sight: None,
            views: 0,
        }
    }

    /// A window as events show it.
    pub fn window(&mut self, alloc: Global, window: &Found<'_>) -> Result<NodeView, NoMemory>
        ensures view { IfOk result (λ view. view ≡ window_view self.old.tree self.old.parts window.now) }
        ensures same { self.new ≡ self.old }
    {
        let sight = self.take_sight(alloc)?;
        let view = window_view(alloc, &sight, window);
        drop(mem::replace(&mut self.sight, Some(sight)));
        view
    }

    /// A workspace as events show it.
    pub fn space(&mut self, alloc: Global, site: &Site<'_>) -> Result<NodeView, NoMemory>
        ensures view { IfOk result (λ view. view ≡ space_view self.old.tree self.old.parts site.now) }
        ensures same { self.new ≡ self.old }
    {
        let sight = self.take_sight(alloc)?;
        let view = space_view(alloc, &sight, site);
        drop(mem::replace(&mut self.sight, Some(sight)));
        view
    }

    /// Takes out what views look up, for one view more.
    fn take_sight(&mut self, alloc: Global) -> Result<Sight<'a>, NoMemory>
        ensures sight { IfOk result (λ sight. IsOf self.old.tree self.old.parts sight) }
        ensures same { self.new ≡ self.old }
    {
        self.views = self.views.saturating_add(1);
        match mem::replace(&mut self.sight, None) {
            Some(sight) if self.views != FEW + 1 => Ok(sight),
            kept => {
                drop(kept);
                self.new_sight(alloc)
            }
        }
    }

    /// What views look up: in maps, where more than a few are made.
    fn new_sight(&self, alloc: Global) -> Result<Sight<'a>, NoMemory>
        ensures { IfOk result (λ sight. IsOf self.now.tree self.now.parts sight) }
    {
        if self.views > FEW {
            Sight::new(alloc, self.tree, self.arrangement)
        } else {
            Sight::plain(alloc, self.tree, self.arrangement)
        }
    }
}

/// A window as events show it.
fn window_view(alloc: Global, sight: &Sight<'_>, window: &Found<'_>) -> Result<NodeView, NoMemory>
    requires { IsSight sight.now }
    ensures { IfOk result (λ view. view ≡ window_view sight.now.tree.now sight.now.arrangement.now.parts window.now) }
{
    let nothing = Row::new();
    let above = above(sight, window.standing);
    con_view(
        alloc,
        sight,
        &above,
        window.part,
        window.state,
        &Cursor::at(&nothing),
    )
}

/// What stands above a node.
fn above(sight: &Sight<'_>, standing: Standing) -> Above
    requires { IsSight sight.now }
    ensures { result ≡ above sight.now.arrangement.now.parts standing }
{
    Above {
        rect: holder_area(sight, standing.holder),
        shares: standing.shares,
        floating: standing.floating,
    }
}

fn holder_area(sight: &Sight<'_>, holder: Option<ConId>) -> Rect
    requires { IsSight sight.now }
    ensures { result ≡ holder_area sight.now.arrangement.now.parts holder }
{
    match holder {
        None => NOWHERE,
        Some(id) => sight.area(id),
    }
}

/// A workspace as events show it.
fn space_view(alloc: Global, sight: &Sight<'_>, site: &Site<'_>) -> Result<NodeView, NoMemory>
    requires { IsSight sight.now }
    ensures { IfOk result (λ view. view ≡ space_view sight.now.tree.now sight.now.arrangement.now.parts site.now) }
{
    view_of(
        alloc,
        sight,
        site.output,
        site.part,
        site.state,
        &site.kids,
        &site.floats,
    )
}
