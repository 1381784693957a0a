//! Counts of a row: containers, marks, nodes and shares.
ghost use Rattle.std.specs.Prelude.{◌≡◌, ◌-◌, ◌*◌, ◌≤◌, ◌<◌, ◌^◌, ◌+◌, ◌/◌, ◌==◌, if◌then◌else◌, min, length};
ghost use Rattle.wm_forest.specs.Counts.{but, con_count, count, counts, mark_count, newcomer_share, one_con, one_space, row_length, share_of, share_sum, space_count};

use crate::part::{NodeKind, Part};
use crate::row::Row;
use wm_base::ConId;

/// The share of the first node in a row.
const FIRST_SHARE: u32 = 65_536;

impl NodeKind {
    /// The node's share among its siblings. Only containers have one.
    pub fn share(&self) -> u32
        ensures { result ≡ share_of self.now }
    {
        match self {
            NodeKind::Con(con) => con.share,
            NodeKind::Root { .. } | NodeKind::Output(_) | NodeKind::Space(_) => 0,
        }
    }

    /// One for a container, else none.
    fn one_con(&self) -> usize
        ensures { result ≡ one_con self.now }
    {
        match self {
            NodeKind::Con(_) => 1,
            NodeKind::Root { .. } | NodeKind::Output(_) | NodeKind::Space(_) => 0,
        }
    }

    /// One for a workspace, else none.
    fn one_space(&self) -> usize
        ensures { result ≡ one_space self.now }
    {
        match self {
            NodeKind::Space(_) => 1,
            NodeKind::Root { .. } | NodeKind::Output(_) | NodeKind::Con(_) => 0,
        }
    }
}

/// What a node counts: one where it is a workspace, one where it is a container, or its marks.
enum Counted {
    Spaces,
    Cons,
    Marks,
}

impl Counted {
    fn of(&self, part: &Part) -> usize
        ensures { result ≡ counts self.now part.now }
    {
        match self {
            Counted::Spaces => part.kind.one_space(),
            Counted::Cons => part.kind.one_con(),
            Counted::Marks => part.marks.items().len(),
        }
    }
}

impl Row {
    /// How many workspaces there are, at any depth, but no more than are counted here: `most`.
    pub fn spaces_up_to(&self, most: usize) -> usize
        ensures { result ≡ min most (space_count self.now) }
    {
        self.count_up_to(&Counted::Spaces, most)
    }

    /// How many containers there are, at any depth, but no more than are counted here: `most`.
    pub fn cons_up_to(&self, most: usize) -> usize
        ensures { result ≡ min most (con_count self.now) }
    {
        self.count_up_to(&Counted::Cons, most)
    }

    /// How many marks there are, at any depth, but no more than are counted here: `most`.
    pub fn marks_up_to(&self, most: usize) -> usize
        ensures { result ≡ min most (mark_count self.now) }
    {
        self.count_up_to(&Counted::Marks, most)
    }

    /// What all nodes count, at any depth, but no more than are counted here: `most`.
    fn count_up_to(&self, counted: &Counted, most: usize) -> usize
        ensures { result ≡ min most (count (counts counted.now) self.now) }
    {
        let (mut row, mut sum) = (self, 0);
        while let Some(cell) = &row.first {
            sum += counted.of(&cell.part).min(most - sum);
            sum += cell.kids.count_up_to(counted, most - sum);
            sum += cell.floats.count_up_to(counted, most - sum);
            row = &cell.rest;
        }
        sum
    }

    /// How many nodes the row has, but no more than are counted here: `most`.
    pub fn len_up_to(&self, most: usize) -> usize
        ensures { result ≡ min most (row_length self.now) }
    {
        let (mut row, mut length) = (self, 0);
        while let Some(cell) = &row.first {
            if length == most {
                return most;
            }
            length += 1;
            row = &cell.rest;
        }
        length
    }

    /// The sum of the shares of the row's nodes.
    pub fn share_sum(&self) -> u64
        requires { row_length self.now ≤ 2 ^ 32 }
        ensures sum { result ≡ share_sum self.now }
        ensures bound { result ≤ row_length self.now * (2 ^ 32 - 1) }
    {
        let (mut row, mut sum) = (self, 0);
        while let Some(cell) = &row.first {
            sum += u64::from(cell.part.kind.share());
            row = &cell.rest;
        }
        sum
    }

    /// How many nodes the row has beside this one, but no more than are counted here: `most`.
    pub fn len_but_up_to(&self, id: ConId, most: usize) -> usize
        ensures { result ≡ min most (row_length (but id self.now)) }
    {
        let (mut row, mut length) = (self, 0);
        while let Some(cell) = &row.first {
            if cell.part.id == id {
                return length + cell.rest.len_up_to(most - length);
            }
            if length == most {
                return most;
            }
            length += 1;
            row = &cell.rest;
        }
        length
    }

    /// The sum of the shares of the row's nodes beside this one.
    pub fn share_sum_but(&self, id: ConId) -> u64
        requires { row_length (but id self.now) ≤ 2 ^ 32 }
        ensures sum { result ≡ share_sum (but id self.now) }
        ensures bound { result ≤ row_length (but id self.now) * (2 ^ 32 - 1) }
    {
        let (mut row, mut sum) = (self, 0);
        while let Some(cell) = &row.first {
            if cell.part.id == id {
                return sum + cell.rest.share_sum();
            }
            sum += u64::from(cell.part.kind.share());
            row = &cell.rest;
        }
        sum
    }

    /// The share that a newcomer to the row gets: the mean of its nodes' shares, or 65,536 in an empty row.
    pub fn newcomer_share(&self) -> u32
        requires { row_length self.now ≤ 256 }
        ensures { result ≡ newcomer_share self.now }
    {
        mean(self.share_sum(), self.len_up_to(256))
    }

    /// The share that a node gets that moves within or to the row: the mean of the others' shares.
    pub fn share_beside(&self, id: ConId) -> u32
        requires { row_length (but id self.now) ≤ 256 }
        ensures { result ≡ newcomer_share (but id self.now) }
    {
        mean(self.share_sum_but(id), self.len_but_up_to(id, 256))
    }
}

/// The mean of shares of which there are so many, or 65,536 where there is none.
fn mean(sum: u64, count: usize) -> u32
    requires { sum ≤ count * (2 ^ 32 - 1) }
    ensures { result ≡ (if count == 0 then 65536 else sum / count) }
{
    if count == 0 {
        FIRST_SHARE
    } else {
        (sum / count as u64) as u32
    }
}
