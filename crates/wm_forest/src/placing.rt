//! Putting rows at places, and how many levels there may be at a place.
ghost use Rattle.std.specs.Prelude.{◌≡◌, false, true, MatchOption};
ghost use Rattle.wm_forest.specs.Look.{first_part, has, only};
ghost use Rattle.wm_forest.specs.Place.{named, put, room_at, room_by, room_under, row_room, siblings};
ghost use Rattle.wm_forest.specs.Spot.{spot_in};

use crate::place::{Place, Put};
use crate::row::Row;
use crate::spot::{MAX_DEPTH, Spot, TOP, room_below};
use wm_base::ConId;

impl Row {
    /// Puts the nodes of a row at a place, where its node is here.
    pub fn put(&mut self, at: Place, row: Row)
        ensures { self.new ≡ put at row self.old }
    {
        drop(self.change(at.named(), Put { at, row }));
    }

    /// The row in which a newcomer at this place stands. `None` exactly where its node is not here.
    pub fn siblings(&self, at: Place) -> Option<&Row>
        ensures { MatchOption result (has (named at) self.now ≡ false)
            (λ row. (has (named at) self.now ≡ true) × (row.now ≡ siblings at self.now)) }
    {
        match at {
            Place::After(con) | Place::Before(con) => self.row_with(self, con),
            Place::First(con) | Place::Last(con) => match self.find(con) {
                Some(cell) => Some(&cell.kids),
                None => None,
            },
            Place::Float(..) | Place::Scratchpad(_) => match self.find(at.named()) {
                Some(cell) => Some(&cell.floats),
                None => None,
            },
        }
    }

    /// How many levels the row of a newcomer at this place may have.
    pub fn room_at(&self, at: Place) -> u32
        ensures { result ≡ room_at at self.now }
    {
        match at {
            Place::After(con) | Place::Before(con) => self.row_room(con),
            Place::First(con) | Place::Last(con) => self.room_under(TOP, con).unwrap_or(0),
            Place::Float(..) | Place::Scratchpad(_) => MAX_DEPTH,
        }
    }

    /// How many levels there may be below the node; `row` tells where this row stands. `None` exactly where the node
    /// is not here.
    fn room_under(&self, row: Spot, id: ConId) -> Option<u32>
        ensures { MatchOption result
            ((has id self.now ≡ false) × (room_under (room_by (spot_in row id self.now)) (first_part (only id self.now)) ≡ 0))
            (λ room. (has id self.now ≡ true) × (room ≡ room_under (room_by (spot_in row id self.now)) (first_part (only id self.now)))) }
    {
        let mut left = self;
        while let Some(cell) = &left.first {
            if cell.part.id == id {
                return Some(room_below(row.room, &cell.part.kind));
            }
            if let Some(room) = cell.kids.room_under(row.below(true, &cell.part), id) {
                return Some(room);
            }
            if let Some(room) = cell.floats.room_under(row.below(false, &cell.part), id) {
                return Some(room);
            }
            left = &cell.rest;
        }
        None
    }

    /// How many levels the row of the node may have.
    pub fn row_room(&self, con: ConId) -> u32
        ensures { result ≡ row_room con self.now }
    {
        match self.spot(TOP, con) {
            Some(spot) => spot.room,
            None => 0,
        }
    }
}
