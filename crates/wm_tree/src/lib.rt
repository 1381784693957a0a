//! The container tree: one nested value, and the calls that look into it and change it.
#![tactic(auto)]

mod along;
mod attach;
mod bearers;
mod copy;
mod filling;
mod gaps;
mod giving;
mod lists;
mod marks;
mod moving;
mod newcomer;
mod outputs;
mod recent;
mod refusal;
mod sets;
mod sharing;
mod spaces;
mod standing;
mod start;
mod states;
mod tree;
mod words;

pub use gaps::GapChange;
pub use recent::Recent;
pub use refusal::TreeRefusal;
pub use standing::{Placed, Standing};
pub use states::StateChange;
pub use tree::Tree;
pub use wm_forest::recency::SOON;
pub use wm_forest::{
    ConKind, ConPart, ConState, Cursor, NewCon, NodeKind, OutputPart, Part, Place, Sibling, Sieve,
    SpacePart, Swallow, SwallowKey, copy_props,
};
