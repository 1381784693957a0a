//! Outputs by their names.
ghost use Rattle.wm_spaces.specs.Names.{output_named};
ghost use Rattle.std.specs.Prelude.{◌≡◌, IfOk};

use wm_base::{ConId, NoMemory, Text};
use wm_language::OutArg;
use wm_spaces::output_at;
use wm_tree::Tree;

/// The output of this name.
pub fn output_named(tree: &Tree, name: &Text) -> Result<Option<ConId>, NoMemory>
    ensures { IfOk result (λ output. output ≡ output_named name.now tree.now) }
{
    let named = OutArg::Named(name.clone()?);
    Ok(output_at(tree, tree.current(), &named))
}
