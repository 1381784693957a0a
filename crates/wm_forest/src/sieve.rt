//! A sieve of ids, for many questions whether one is among some that need not be kept.
ghost use Rattle.std.specs.Prelude.{◌≡◌, ◌||◌, ◌≤◌, ◌<◌, ◌%◌, true};
ghost use Rattle.wm_forest.specs.Look.{has};
ghost use Rattle.wm_forest.specs.Sieve.{Takes, TakesIn, is_taken};

use crate::row::Row;
use std::marker::Model;
use wm_base::ConId;

/// How many places there are: twice as many as a tree has containers.
const PLACES: usize = 8192;

/// Places of ids, of which some are taken. The place of an id is its rest, so that an id whose place is free was not
/// put in, and most others were.
#[derive(Drop)]
pub struct Sieve {
    taken: [bool; PLACES],
}

impl Model for Sieve {
    ghost use Rattle.std.specs.Prelude.{List, Bool};

    ghost Value = { List Bool };

    ghost view = { λ sieve. sieve.taken };
}

impl Sieve {
    /// A sieve without ids.
    pub fn new() -> Sieve {
        Sieve {
            taken: [false; PLACES],
        }
    }

    /// Takes the place of the id.
    pub fn take(&mut self, id: ConId)
        ensures { Takes id self.old self.new }
    {
        self.taken[place(id)] = true;
    }

    /// Whether the place of the id is taken.
    pub fn has_taken(&self, id: ConId) -> bool
        ensures { result ≡ is_taken id self.now }
    {
        self.taken[place(id)]
    }

    /// Takes the places of the row's ids, at any depth.
    pub(crate) fn take_in(&mut self, row: &Row)
        ensures { TakesIn row.now self.old self.new }
    {
        let mut row = row;
        while let Some(cell) = &row.first {
            self.take(cell.part.id);
            self.take_in(&cell.kids);
            self.take_in(&cell.floats);
            row = &cell.rest;
        }
    }
}

/// The place of the id.
fn place(id: ConId) -> usize
    ensures value { result ≡ id.0 % 8192 }
    ensures within { result < 8192 }
{
    id.0 as usize % PLACES
}
