//! The ids of a list, looked up in a map.
ghost use Rattle.std.specs.Prelude.{◌≡◌, ◌||◌, IfOk, OnOk};
ghost use Rattle.wm_arrange.specs.Maps.{holds};
ghost use Rattle.wm_base.specs.declared.ids.ConId.{ConId};
ghost use Rattle.wm_forest.specs.Look.{same};
ghost use Rattle.wm_forest.specs.Recency.{lists};

use std::alloc::Global;
use wm_base::{ConId, NoMemory};
use wm_ids::IdMap;

/// The ids of a list.
#[tactic(auto, using(crate::proofs::MapLemmas::any_assoc))]
pub fn id_set(alloc: Global, list: &[ConId]) -> Result<IdMap<()>, NoMemory>
    ensures { IfOk result (λ map. (c : ConId) → holds map c ≡ lists c list.now) }
{
    let mut map = IdMap::new(alloc);
    let mut rest = list;
    while let [id, after @ ..] = rest {
        add(&mut map, *id)?;
        rest = after;
    }
    Ok(map)
}

fn add(map: &mut IdMap<()>, id: ConId) -> Result<(), NoMemory>
    ensures { (c : ConId) → OnOk result (holds map.new c ≡ (holds map.old c || same id c)) }
{
    map.insert(id.0, ())?;
    Ok(())
}
