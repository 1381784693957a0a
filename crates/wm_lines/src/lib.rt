//! Lines of scripts and of clients: the steps that they take, and the lines that tell answers, what is asked of windows and how far a desk is.
#![tactic(auto)]

mod answers;
mod client_lines;
mod clients;
mod output_lines;
mod states;
mod steps;
mod texts;
mod wants;
mod window_lines;

pub use answers::push_answer;
pub use clients::client_step;
pub use output_lines::output_in;
pub use states::push_state;
pub use steps::step_line;
pub use texts::{push_line, push_text};
pub use wants::push_wants;
