//! Why a change of a tree is refused.
ghost use Rattle.std.specs.Prelude.{◌≡◌};
ghost use Rattle.wm_tree.specs.declared.refusal.TreeRefusal.TheVariants.{Full};

use std::alloc::AllocError;
use wm_base::{ConId, Limit, NoMemory};

/// Why a change was refused. The tree is as it was before.
#[derive(Clone, Copy, Debug, PartialEq, Eq)]
pub enum TreeRefusal {
    /// This limit would be passed.
    Full { limit: Limit },
    /// This id is not in the tree.
    Missing(ConId),
    NoMemory,
}

/// The refusal of a change that would pass this limit.
pub(crate) fn full(limit: Limit) -> TreeRefusal
    ensures { result ≡ Full limit }
{
    TreeRefusal::Full { limit }
}

impl From<AllocError> for TreeRefusal {
    ghost use Rattle.wm_tree.specs.declared.refusal.TreeRefusal.TheVariants as refusals;

    ghost from_gives = { λ _ e. e ≡ refusals.NoMemory };

    fn from(_error: AllocError) -> TreeRefusal {
        TreeRefusal::NoMemory
    }
}

impl From<NoMemory> for TreeRefusal {
    ghost use Rattle.wm_tree.specs.declared.refusal.TreeRefusal.TheVariants as refusals;

    ghost from_gives = { λ _ e. e ≡ refusals.NoMemory };

    fn from(_error: NoMemory) -> TreeRefusal {
        TreeRefusal::NoMemory
    }
}
