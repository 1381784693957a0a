//! Ids, rectangles, texts, lists and refusals: the plain values that every crate above speaks of.
#![tactic(auto)]

mod errors;
mod geometry;
mod ids;
mod list;
mod plan;
mod properties;
mod text;
mod words;

pub use errors::{ErrorText, Limit, NoMemory, Refusal};
pub use geometry::{Axis, Dir, Edges, NOWHERE, Rect, Size, inset_pixels};
pub use ids::{Buffer, ConId, Ink};
pub use list::{List, Str};
pub use plan::{Border, Layout, OutputPlan};
pub use properties::Props;
pub use text::{Text, TextRefusal};
pub use words::short_text;
