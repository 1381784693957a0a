//! Open windows that were asked to close, each with the number of the last step that asked it.
ghost use Rattle.std.specs.Prelude.{◌≡◌, ◌∷◌, [], IfOk, OnOk};
ghost use Rattle.std.specs.Option.{option_map, option_to_list};
ghost use Rattle.wm_base.specs.declared.ids.ConId.{ConId};
ghost use Rattle.wm_history.specs.Follows.{kill_after, kill_in};
ghost use Rattle.wm_history.specs.ByWindow.{new_or};
ghost use Rattle.wm_history.specs.Look.{kill_above};

use crate::by_window::put;
use crate::state::Want;
use std::collections::BTreeMap;
use wm_base::{ConId, NoMemory};

/// The numbers of all windows after the step of this number asked these windows to close. `None` where it asked none.
pub fn noted(
    kills: &BTreeMap<u32, u64>,
    closes: &[ConId],
    number: u64,
) -> Result<Option<BTreeMap<u32, u64>>, NoMemory>
    ensures { (v : ConId) → IfOk result (λ noted. kill_in (new_or (option_map (λ m. m.entries) noted) kills.now.entries) v ≡ kill_after closes.now number v (kill_in kills.now.entries v)) }
{
    if closes.is_empty() {
        return Ok(None);
    }
    let mut after = kills.clone()?;
    put_all(&mut after, closes, number)?;
    Ok(Some(after))
}

/// Puts the number at each of the windows.
fn put_all(kills: &mut BTreeMap<u32, u64>, closes: &[ConId], number: u64) -> Result<(), NoMemory>
    ensures { (v : ConId) → OnOk result (kill_in kills.new.entries v ≡ kill_after closes.now number v (kill_in kills.old.entries v)) }
{
    let mut rest = closes;
    while let [con, after @ ..] = rest {
        put(kills, *con, number)?;
        rest = after;
    }
    Ok(())
}

/// What asked a window to close, where its number is above this one.
pub fn kill_above(kills: &BTreeMap<u32, u64>, con: ConId, kill: u64) -> Option<Want>
    ensures { option_to_list result ≡ kill_above con kill (kill_in kills.now.entries con) }
{
    let number = kills.get(&con.0).copied()?;
    if kill < number {
        return Some(Want::Kill { con, number });
    }
    None
}
