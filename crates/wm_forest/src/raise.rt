//! Raising a container in its workspace.
ghost use Rattle.std.specs.Prelude.{◌≡◌};
ghost use Rattle.wm_forest.specs.Change.{raised_at, raised_in};

use crate::edit::Edit;
use crate::row::Row;
use wm_base::ConId;

/// Raising a container in its workspace.
#[derive(Drop)]
struct RaiseIn(ConId);

impl Edit for RaiseIn {
    ghost word = { λ x. raised_in x.0 };

    fn edit(self, row: &mut Row) {
        let RaiseIn(con) = self;
        if let Some(cell) = &mut row.first {
            cell.kids.clear_fullscreen(con);
            cell.floats.clear_fullscreen(con);
            cell.floats.put_at_end(con);
        }
    }
}

impl Row {
    /// Raises the container in this workspace, where there is one.
    pub fn raise_at(&mut self, con: ConId, space: Option<ConId>)
        ensures { self.new ≡ raised_at con space self.old }
    {
        if let Some(space) = space {
            drop(self.change(space, RaiseIn(con)));
        }
    }
}
