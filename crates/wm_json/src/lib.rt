//! JSON of replies, views and events, compact and with keys in byte order, and copies of nodes and events.
#![tactic(auto)]

mod copies;
mod event_copies;
mod events;
mod fields;
mod node_copies;
mod nodes;
mod replies;
mod spaces;
mod values;
mod views;
mod write;

pub use copies::{copy_str, copy_texts};
pub use event_copies::kind_of;
pub use events::event_value;
pub use nodes::node_value;
pub use replies::{Reply, replies_value};
pub use spaces::{outputs_value, workspaces_value};
pub use values::{VERSION, success_value, texts_value, version_value};
pub use views::{EventBody, EventView, NodeView, OutputView, WorkspaceView};
pub use write::{compact, replies_json, texts_json};
