//! Changes of a node's marks.
ghost use Rattle.std.specs.Prelude.{◌≡◌, []};
ghost use Rattle.std.specs.Option.{option_copied};
ghost use Rattle.wm_forest.specs.Marks.{keep_word, marks_word, other_marks, that_mark, unmark_word};

use crate::edit::Edit;
use crate::part::Part;
use crate::row::Row;
use std::alloc::Global;
use std::mem;
use wm_base::{List, Text};

/// Other marks for a container.
#[derive(Drop)]
pub struct SetMarks(pub List<Text>);

impl Edit for SetMarks {
    ghost word = { λ x. marks_word x.0 };

    fn edit(self, row: &mut Row) {
        let SetMarks(marks) = self;
        if let Some(cell) = &mut row.first {
            cell.part.marks = marks;
        }
    }
}

/// Taking a mark from a container.
#[derive(Drop)]
pub struct Unmark<'a> {
    pub alloc: Global,
    pub name: &'a Text,
}

impl<'a> Edit for Unmark<'a> {
    ghost word = { λ x. unmark_word x.name.now };

    fn edit(self, row: &mut Row) {
        if let Some(cell) = &mut row.first {
            cell.part.unmark(self.alloc, self.name);
        }
    }
}

/// Taking all marks from a container but this one.
#[derive(Drop)]
pub struct KeepMark<'a> {
    pub alloc: Global,
    pub name: Option<&'a Text>,
}

impl<'a> Edit for KeepMark<'a> {
    ghost word = { λ x. keep_word (option_copied x.name) };

    fn edit(self, row: &mut Row) {
        if let Some(cell) = &mut row.first {
            match self.name {
                Some(name) => cell.part.keep_mark(self.alloc, name),
                None => cell.part.strip(self.alloc),
            }
        }
    }
}

impl Part {
    /// Takes a mark from the node.
    pub fn unmark(&mut self, alloc: Global, name: &Text)
        ensures { self.new ≡ record self.old { marks = other_marks name.now self.old.marks } }
    {
        let mut marks = self.take_marks(alloc).into_vec();
        retain_others(&mut marks, name.as_str());
        self.marks = List::of(marks);
    }

    /// Takes all marks from the node but this one.
    fn keep_mark(&mut self, alloc: Global, name: &Text)
        ensures { self.new ≡ record self.old { marks = that_mark name.now self.old.marks } }
    {
        let mut marks = self.take_marks(alloc).into_vec();
        retain_that(&mut marks, name.as_str());
        self.marks = List::of(marks);
    }

    /// Takes all marks from the node.
    pub fn strip(&mut self, alloc: Global)
        ensures { self.new ≡ record self.old { marks = [] } }
    {
        drop(self.take_marks(alloc));
    }

    /// Takes all marks from the node, and gives them.
    fn take_marks(&mut self, alloc: Global) -> List<Text>
        ensures left { self.new ≡ record self.old { marks = [] } }
        ensures taken { result ≡ self.old.marks }
    {
        mem::replace(&mut self.marks, List::of(Vec::new(alloc)))
    }
}

/// Takes all others out.
fn retain_that(marks: &mut Vec<Text>, name: &str)
    ensures { marks.new.items ≡ that_mark name.now marks.old.items }
{
    marks.retain(|mark| mark.as_str() == name);
}

/// Takes a mark out, wherever it stands.
fn retain_others(marks: &mut Vec<Text>, name: &str)
    ensures { marks.new.items ≡ other_marks name.now marks.old.items }
{
    marks.retain(|mark| mark.as_str() != name);
}
