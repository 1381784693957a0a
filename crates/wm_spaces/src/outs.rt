//! The output that a command names.
ghost use Rattle.std.specs.Prelude.{◌≡◌, IfSome};
ghost use Rattle.wm_spaces.specs.Outs.{next_in, output_at};
ghost use Rattle.wm_forest.specs.Look.{first_kids, node_in, nth_id, rest_of};
ghost use Rattle.wm_tree.specs.Outputs.{IsOutput};
ghost use Rattle.wm_tree.specs.Sound.{IsSound};

use crate::names::output_named;
use crate::targets::node_at;
use wm_base::ConId;
use wm_language::OutArg;
use wm_shared::{first_id, output_from, output_of};
use wm_tree::{Cursor, Tree};

/// The node of a row behind this one.
fn behind(row: Cursor<'_>, con: ConId) -> Option<ConId>
    ensures { result ≡ nth_id 0 (rest_of (node_in con row.entry)) }
{
    first_id(&node_at(row, con).rest())
}

/// The output after this one, the first after the last.
fn next_of(t: &Tree, output: ConId) -> Option<ConId>
    ensures { result ≡ next_in (first_kids t.now.nodes) output }
{
    match behind(t.nodes().kids(), output) {
        Some(next) => Some(next),
        None => first_id(&t.nodes().kids()),
    }
}

/// The output that a command names: the one in a direction of the subject's, the subject's, the first, the one after the
/// subject's, the first after the last, or the one of a name. `None` exactly where there is none.
pub fn output_at(t: &Tree, from: ConId, arg: &OutArg) -> Option<ConId>
    ensures value { result ≡ output_at from arg.now t.now }
    ensures listed { IsSound t.now → IfSome result (λ o. IsOutput o t.now.nodes) }
{
    output_for(t, from, arg)
}

fn output_for(t: &Tree, from: ConId, arg: &OutArg) -> Option<ConId>
    ensures { result ≡ output_at from arg.now t.now }
{
    match arg {
        OutArg::At(d) => output_from(t, from, *d),
        OutArg::Current => output_of(t, from),
        OutArg::Primary => first_id(&t.nodes().kids()),
        OutArg::Next => next_of(t, output_of(t, from)?),
        OutArg::Named(name) => output_named(t, name.as_str()),
    }
}
