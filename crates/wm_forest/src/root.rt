//! The root of a tree: its id, and the current output that it names.
ghost use Rattle.std.specs.Prelude.{◌≡◌};
ghost use Rattle.wm_forest.specs.RootId.{current_of};

use crate::part::NodeKind;
use wm_base::ConId;

/// The id of the node that holds the outputs and the scratchpad.
pub const ROOT: ConId = ConId(1);

impl NodeKind {
    /// The root's current output; other nodes have none, and the root stands for it.
    pub fn current(&self) -> ConId
        ensures { result ≡ current_of self.now }
    {
        match self {
            NodeKind::Root { current } => *current,
            NodeKind::Output(_) | NodeKind::Space(_) | NodeKind::Con(_) => ROOT,
        }
    }
}
