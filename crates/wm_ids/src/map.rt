//! The map: a hash map of std, seen by rising id.
ghost use Rattle.std.specs.Prelude.{◌≡◌, ℕ, [], None, IfOk, OnOk, OnErr, option_copied, if◌then◌else◌};
ghost use Rattle.std.specs.BTreeMap.{insert_entry, is_at};
ghost use Rattle.std.specs.List.Sorted.{IsStrictlySortedBy};
ghost use Rattle.std.specs.Map.{keys_of, lookup, remove_entry, set_value};
ghost use Rattle.std.specs.Ordering.{nat_cmp};

use crate::spread::ByFours;
use std::alloc::Global;
use std::collections::HashMap;
use std::marker::Model;
use std::mem;
use wm_base::NoMemory;

/// Values by id. A look-up takes the same time however many there are, and the memory goes with how many there are at
/// once, however high their ids.
#[derive(Drop)]
pub struct IdMap<V> {
    values: HashMap<u32, V, ByFours>,
}

impl<V> Model for IdMap<V> {
    ghost use Rattle.std.specs.Prelude.{List, ℕ};
    ghost use Rattle.std.specs.Coded.{coded×, coded_ℕ, coded_list};
    ghost use Rattle.wm_ids.specs.IdMap.{entries};

    ghost Value = { List (ℕ × V) };

    ghost coded = { coded_list (coded× coded_ℕ V.code) };

    ghost view = { λ m. entries m.values };
}

impl<V: Drop> IdMap<V> {
    /// A map without values, which takes no memory.
    pub fn new(alloc: Global) -> IdMap<V>
        ensures empty { result ≡ [] }
        ensures ordered { IsStrictlySortedBy nat_cmp (keys_of result) }
    {
        IdMap {
            values: HashMap::with_hasher(alloc, ByFours),
        }
    }

    /// The value of an id. `None` exactly where it has none.
    pub fn get(&self, id: u32) -> Option<&V>
        ensures { option_copied result ≡ lookup (is_at (nat_cmp id)) self.now }
    {
        self.values.get(&id)
    }

    /// Gives an id that has a value another one. Without a value it stays so.
    pub fn set(&mut self, id: u32, value: V)
        ensures value { self.new ≡ set_value (is_at (nat_cmp id)) self.old value }
        ensures ordered { IsStrictlySortedBy nat_cmp (keys_of self.new) }
    {
        let Some(held) = self.values.get_mut(&id) else {
            drop(value);
            return;
        };
        drop(mem::replace(held, value));
    }

    /// Gives an id a value. After an `Err` nothing has changed.
    pub fn insert(&mut self, id: u32, value: V) -> Result<(), NoMemory>
        ensures ok { OnOk result (self.new ≡ insert_entry nat_cmp self.old id value) }
        ensures ordered { IsStrictlySortedBy nat_cmp (keys_of self.new) }
        ensures err { OnErr result (self.new ≡ self.old) }
    {
        drop(self.values.insert(id, value)?);
        Ok(())
    }

    /// Takes the value of an id away, if it has one.
    pub fn remove(&mut self, id: u32)
        ensures value { self.new ≡ remove_entry (is_at (nat_cmp id)) self.old }
        ensures found { (q : ℕ) → lookup (is_at (nat_cmp q)) self.new ≡ (if is_at (nat_cmp id) q then None else lookup (is_at (nat_cmp q)) self.old) }
        ensures ordered { IsStrictlySortedBy nat_cmp (keys_of self.new) }
    {
        drop(self.values.remove(&id));
    }
}

impl<V: Clone> IdMap<V> {
    /// An equal map, where a clone of a value is equal to it.
    pub fn copy(&self) -> Result<IdMap<V>, NoMemory>
        ensures { ((v w : V) → V.is_clone v w → w ≡ v) → IfOk result (λ copy. copy ≡ self.now) }
    {
        let values = self.values.clone()?;
        Ok(IdMap { values })
    }
}
