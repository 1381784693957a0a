//! The places of ids in a list.
ghost use Rattle.std.specs.Prelude.{◌≡◌, if◌then◌else◌, Some, None, IfOk, OnOk};
ghost use Rattle.std.specs.Option.{option_or};
ghost use Rattle.wm_base.specs.declared.ids.ConId.{ConId};
ghost use Rattle.wm_forest.specs.Recency.{place_from};
ghost use Rattle.wm_forest.specs.Look.{same};
ghost use Rattle.wm_arrange.specs.Choices.{ArePlaces};
ghost use Rattle.wm_arrange.specs.Maps.{value_at};

use std::alloc::Global;
use wm_base::{ConId, NoMemory};
use wm_ids::IdMap;
use wm_tree::Recent;

/// A list of ids with the place of each in it, from 0; the first where an id is there twice.
#[derive(Drop)]
pub struct Recency<'a> {
    pub ids: Recent<'a>,
    pub places: IdMap<usize>,
}

impl<'a> Recency<'a> {
    /// The places of the ids of a list.
    pub fn new(alloc: Global, ids: Recent<'a>) -> Result<Recency<'a>, NoMemory>
        ensures places { IfOk result (λ recency. ArePlaces recency) }
        ensures ids { IfOk result (λ recency. recency.ids ≡ ids.entry) }
    {
        let places = places_of(alloc, ids.again())?;
        Ok(Recency { ids, places })
    }

    /// The place of an id. `None` exactly where it is not in the list.
    pub fn place(&self, id: ConId) -> Option<usize>
        requires { ArePlaces self.now }
        ensures { result ≡ place_from 0 id self.now.ids }
    {
        self.places.get(id.0).copied()
    }
}

/// The place of each id in the list, from 0; the first where an id is there twice.
#[tactic(auto, using(crate::proofs::MapLemmas::place_step))]
pub fn places_of(alloc: Global, mut ids: Recent<'_>) -> Result<IdMap<usize>, NoMemory>
    ensures { IfOk result (λ map. (c : ConId) → value_at map c ≡ place_from 0 c ids.entry) }
{
    let mut map = IdMap::new(alloc);
    let mut at = 0;
    while let Some(id) = ids.next() {
        keep_place(&mut map, id, at)?;
        at += 1;
    }
    Ok(map)
}

/// Keeps a place, unless one of its id is kept.
#[tactic(auto, using(crate::proofs::MapLemmas::or_there))]
fn keep_place(map: &mut IdMap<usize>, id: ConId, at: usize) -> Result<(), NoMemory>
    ensures { (c : ConId) → OnOk result (value_at map.new c ≡ option_or (value_at map.old c) (if same id c then Some at else None)) }
{
    match map.get(id.0) {
        Some(_) => Ok(()),
        None => put_place(map, id, at),
    }
}

fn put_place(map: &mut IdMap<usize>, id: ConId, at: usize) -> Result<(), NoMemory>
    ensures { (c : ConId) → OnOk result (value_at map.new c ≡ (if same id c then Some at else value_at map.old c)) }
{
    map.insert(id.0, at)?;
    Ok(())
}
