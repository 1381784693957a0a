//! The command language: batches of commands, and how they are written.
#![tactic(auto)]

mod arguments;
mod batch;
mod batches;
mod command;
mod printing;
mod refusal;
mod shown;
mod writing;

pub use arguments::{
    Cycle, GapOp, Kind, LayoutArg, OnOff, OutArg, Side, SplitArg, SwapArg, Target,
};
pub use batch::{Batch, Criteria, Group, Key};
pub use batches::spell;
pub use command::Command;
pub use refusal::ReadRefusal;
