//! Maps by the id of a window.
ghost use Rattle.std.specs.Prelude.{◌≡◌, ◌∷◌, [], OnOk};
ghost use Rattle.std.specs.Option.{option_map};
ghost use Rattle.wm_base.specs.declared.ids.ConId.{ConId};
ghost use Rattle.wm_history.specs.ByWindow.{left_of, new_or, put_at, value_at};

use std::collections::BTreeMap;
use wm_base::{ConId, NoMemory};

/// Takes another map, if there is one.
pub fn renew<V: Drop>(map: &mut BTreeMap<u32, V>, other: Option<BTreeMap<u32, V>>)
    ensures { map.new.entries ≡ new_or (option_map (λ m. m.entries) other) map.old.entries }
{
    if let Some(other) = other {
        *map = other;
    }
}

/// Puts the value at the window.
pub fn put<V: Drop>(map: &mut BTreeMap<u32, V>, con: ConId, value: V) -> Result<(), NoMemory>
    ensures { (v : ConId) → OnOk result (value_at map.new.entries v ≡ put_at (con ∷ []) value v (value_at map.old.entries v)) }
{
    map.insert(con.0, value)?;
    Ok(())
}

/// Takes these windows out.
pub fn forget<V: Drop>(map: &mut BTreeMap<u32, V>, gone: &[ConId])
    ensures { (v : ConId) → value_at map.new.entries v ≡ left_of gone.now v (value_at map.old.entries v) }
{
    let mut rest = gone;
    while let [con, after @ ..] = rest {
        take(map, *con);
        rest = after;
    }
}

/// Takes the window out.
fn take<V: Drop>(map: &mut BTreeMap<u32, V>, con: ConId)
    ensures { (v : ConId) → value_at map.new.entries v ≡ left_of (con ∷ []) v (value_at map.old.entries v) }
{
    map.remove(&con.0);
}
