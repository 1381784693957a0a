//! The summary of a history.

ghost use Rattle.std.specs.Prelude.{◌≡◌, List, IfOk};
ghost use Rattle.wm_core.specs.Entries.{history_of};
ghost use Rattle.wm_history.specs.History.{opening_of};
ghost use Rattle.wm_history.specs.Look.{state};
ghost use Rattle.wm_history.specs.declared.step.Step as steps;
ghost use Rattle.wm_serve.specs.Summary.{summary};
ghost use Rattle.wm_turn.specs.declared.view.Entry.{Entry};

use std::alloc::Global;
use wm_base::NoMemory;
use wm_book::Kept;
use wm_core::Query;
use wm_lines::{push_line, push_state};
use wm_talk::view_json;

/// The summary of the history that the value stands for: how many steps there are, how many transactions have ended, how many
/// steps had come when the last of them began, how many windows are open, a line each, and the tree as a line of JSON.
pub fn summary<V: Kept>(alloc: Global, value: &V) -> Result<Vec<u8>, NoMemory>
    ensures { (entries : List (Entry steps.Step)) → V.stands value.now entries →
        IfOk result (λ bytes. bytes.items ≡ summary (opening_of (V.opening value.now)) (history_of entries)) }
{
    let mut bytes = Vec::new(alloc);
    push_state(alloc, &mut bytes, &value.state())?;
    let tree = value.look(0, &Query::Tree)?;
    let line = view_json(alloc, &tree);
    drop(tree);
    push_line(&mut bytes, &line?)?;
    Ok(bytes)
}
