//! Refusals as commands answer them.
ghost use Rattle.std.specs.Prelude.{◌≡◌};
ghost use Rattle.wm_base.specs.declared.errors.Refusal.TheVariants.{NoTarget};
ghost use Rattle.wm_shared.specs.Refusing.{refusal_by};

use wm_base::{ErrorText, Refusal};
use wm_tree::TreeRefusal;

/// What a command answers where the tree refuses.
pub fn refused(error: TreeRefusal) -> Refusal
    ensures { result ≡ refusal_by error }
{
    match error {
        TreeRefusal::Full { limit } => Refusal::Full { limit },
        TreeRefusal::Missing(_) => Refusal::NoTarget(ErrorText::NoContainer),
        TreeRefusal::NoMemory => Refusal::NoMemory,
    }
}
