//! Places in a tree, and what is put there.
ghost use Rattle.std.specs.Prelude.{◌≡◌, false, ◌≤◌, length, IfOk};
ghost use Rattle.wm_forest.specs.Change.{first_by};
ghost use Rattle.wm_forest.specs.Forest.{end, con};
ghost use Rattle.wm_forest.specs.Row.{row_of};
ghost use Rattle.wm_forest.specs.Place.{before_first, is_before, named, new_part, new_kind, plain_title, put_word, rect_at, tiles};

use crate::edit::Edit;
use crate::kind::last_split;
use crate::part::{ConKind, ConPart, ConState, NodeKind, Part, Swallow};
use crate::root::ROOT;
use crate::row::{Cell, Row};
use std::alloc::{AllocError, Global};
use std::mem;
use wm_base::{Border, ConId, Layout, List, NoMemory, Props, Rect, Size, Text, short_text};

/// Where a container is put: behind or before a tiled container, first or last among the children of a split or a
/// workspace, last among a workspace's floating windows with this outer rectangle, or last in the scratchpad.
#[derive(Clone, Copy, Debug, PartialEq, Eq)]
pub enum Place {
    After(ConId),
    Before(ConId),
    First(ConId),
    Last(ConId),
    Float(ConId, Rect),
    Scratchpad(Rect),
}

/// A container to be made: a window of the caller with the number `owner` and this natural size, a placeholder for a
/// window, or a split without children.
#[derive(Debug, Drop)]
pub enum NewCon {
    Window {
        props: Props,
        owner: u32,
        natural: Size,
    },
    Placeholder {
        props: Props,
        swallows: List<Swallow>,
    },
    Split {
        layout: Layout,
    },
}

impl Place {
    /// The node that the place names; the root for the scratchpad.
    pub fn named(self) -> ConId
        ensures { result ≡ named self }
    {
        match self {
            Place::After(con) | Place::Before(con) | Place::First(con) | Place::Last(con) => con,
            Place::Float(space, _) => space,
            Place::Scratchpad(_) => ROOT,
        }
    }

    /// Whether a container is tiled there.
    pub fn tiles(self) -> bool
        ensures { result ≡ tiles self }
    {
        match self {
            Place::After(_) | Place::Before(_) | Place::First(_) | Place::Last(_) => true,
            Place::Float(..) | Place::Scratchpad(_) => false,
        }
    }

    /// The outer rectangle that a window gets there.
    pub fn rect(self) -> Option<Rect>
        ensures { result ≡ rect_at self }
    {
        match self {
            Place::After(_) | Place::Before(_) | Place::First(_) | Place::Last(_) => None,
            Place::Float(_, rect) | Place::Scratchpad(rect) => Some(rect),
        }
    }
}

impl NewCon {
    fn kind(self) -> ConKind
        ensures { result ≡ new_kind self }
    {
        match self {
            NewCon::Window {
                props,
                owner,
                natural,
            } => ConKind::Window {
                props,
                owner,
                natural,
            },
            NewCon::Placeholder { props, swallows } => ConKind::Placeholder { props, swallows },
            NewCon::Split { layout } => ConKind::Split {
                layout,
                last_split: last_split(layout, Layout::SplitH),
            },
        }
    }

    /// The container under this id, with this share, border, outer rectangle and format of its title.
    fn part(
        self,
        alloc: Global,
        id: ConId,
        share: u32,
        border: Border,
        rect: Option<Rect>,
        title_format: Text,
    ) -> Part
        requires { title_format ≡ plain_title }
        ensures { result ≡ new_part id share border rect self }
    {
        let con = ConPart {
            state: ConState {
                border,
                sticky: false,
                fullscreen: false,
                flagged: false,
                rect,
            },
            share,
            title_format,
            kind: self.kind(),
        };
        Part {
            id,
            kind: NodeKind::Con(con),
            marks: List::of(Vec::new(alloc)),
        }
    }

    /// The container under this id, with this share, border and outer rectangle, with nothing below it.
    pub fn cell(
        self,
        alloc: Global,
        id: ConId,
        share: u32,
        border: Border,
        rect: Option<Rect>,
    ) -> Result<Box<Cell>, NoMemory>
        ensures { IfOk result (λ cell. row_of cell.value ≡ con (new_part id share border rect self) end end end) }
    {
        let title_format = match short_text(alloc, "%title") {
            Ok(text) => text,
            Err(error) => {
                drop(self);
                return Err(error);
            }
        };
        let part = self.part(alloc, id, share, border, rect, title_format);
        Ok(Cell::of(alloc, part)?)
    }
}

/// Nodes that are put at a place.
#[derive(Drop)]
pub(crate) struct Put {
    pub at: Place,
    pub row: Row,
}

impl Edit for Put {
    ghost word = { λ x. put_word x.at x.row };

    fn edit(self, row: &mut Row) {
        let Put { at, row: new } = self;
        row.put_first(at, new);
    }
}

impl Row {
    /// Puts the nodes of a row at a place that names the first node.
    fn put_first(&mut self, at: Place, row: Row)
        ensures { self.new ≡ first_by (put_word at) row self.old }
    {
        if let Place::Before(_) = at {
            self.put_before(row);
        } else if let Some(cell) = &mut self.first {
            cell.put(at, row);
        }
    }

    /// Puts the nodes of a row before the first node, where there is one.
    fn put_before(&mut self, mut row: Row)
        ensures { self.new ≡ first_by before_first row self.old }
    {
        if self.first.is_some() {
            row.append(mem::replace(self, Row::new()));
            *self = row;
        }
    }
}

impl Cell {
    /// Puts the nodes of a row at a place that names this node, and is not before it.
    fn put(&mut self, at: Place, mut row: Row)
        requires { is_before at ≡ false }
        ensures { row_of self.new ≡ put_word at row self.old.part self.old.kids self.old.floats self.old.rest }
    {
        match at {
            Place::After(_) => {
                row.append(mem::replace(&mut self.rest, Row::new()));
                self.rest = row;
            }
            Place::Before(_) => unreachable!(),
            Place::First(_) => {
                row.append(mem::replace(&mut self.kids, Row::new()));
                self.kids = row;
            }
            Place::Last(_) => self.kids.append(row),
            Place::Float(..) | Place::Scratchpad(_) => self.floats.append(row),
        }
    }
}
