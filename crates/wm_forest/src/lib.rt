//! Nodes in rows: the nested value of a tree's nodes, and the calls that look into it and change it.
#![tactic(auto)]

mod change;
mod copy;
mod count;
mod cursor;
mod each;
mod edit;
mod exchange;
mod holds;
mod kind;
mod look;
mod marks;
mod part;
mod passing;
mod place;
mod placing;
mod raise;
pub mod recency;
mod root;
mod row;
mod settling;
mod shares;
mod sieve;
mod spot;
mod sticky;
mod taking;

pub use change::NOBODY;
pub use copy::{copy_props, copy_texts_and};
pub use cursor::Cursor;
pub use each::EachPart;
pub use edit::Edit;
pub use kind::KindEdit;
pub use marks::{KeepMark, SetMarks, Unmark};
pub use part::{
    ConKind, ConPart, ConState, NodeKind, OutputPart, Part, SpacePart, Swallow, SwallowKey,
};
pub use place::{NewCon, Place};
pub use root::ROOT;
pub use row::{Cell, Row};
pub use shares::{SetShares, Sibling};
pub use sieve::Sieve;
pub use spot::{Spot, TOP};
pub use taking::TakeIn;
