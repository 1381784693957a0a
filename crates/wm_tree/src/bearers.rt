//! Looking for a mark, and taking it off.
ghost use Rattle.std.specs.Prelude.{◌≡◌};
ghost use Rattle.wm_tree.specs.Marks.{bearer, bears, part_off};

use std::alloc::Global;
use wm_base::{ConId, Text};
use wm_forest::{Cursor, EachPart, Part};

/// The first node, depth first, that has the mark and is not the one to be kept.
pub(crate) fn bearer(mut row: Cursor<'_>, keep: Option<ConId>, name: &Text) -> Option<ConId>
    ensures { result ≡ bearer keep name.now row.entry }
{
    while let Some(part) = row.part() {
        if keep != Some(part.id) && bears(part.marks.items(), name) {
            return Some(part.id);
        }
        if let Some(con) = bearer(row.kids(), keep, name) {
            return Some(con);
        }
        if let Some(con) = bearer(row.floats(), keep, name) {
            return Some(con);
        }
        row = row.rest();
    }
    None
}

/// Taking a mark from all nodes but the one to be kept.
#[derive(Drop)]
pub(crate) struct TakeOff<'a> {
    pub alloc: Global,
    pub keep: Option<ConId>,
    pub name: &'a Text,
}

impl<'a> EachPart for TakeOff<'a> {
    ghost word = { λ x. part_off x.keep x.name.now };

    fn change(&self, part: &mut Part) {
        if self.keep != Some(part.id) {
            part.unmark(self.alloc, self.name);
        }
    }
}

/// Whether the mark is among the marks.
pub(crate) fn bears(marks: &[Text], name: &Text) -> bool
    ensures { result ≡ bears name.now marks.now }
{
    marks.iter().any(|mark| mark.as_str() == name.as_str())
}
