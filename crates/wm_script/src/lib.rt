//! Scripts: what their lines say, in which order they stand, and how a line is played on a desk.
#![tactic(auto)]

mod answers;
mod deed_lines;
mod drafting;
mod keys;
mod laws;
mod line;
mod looks;
mod plan_lines;
mod playing;
mod reading;
mod refused;
mod said;
mod script;
mod texts;

pub use answers::answer_text;
pub use laws::{bad_line_is_first, script_is_its_lines};
pub use line::{Deed, Line};
pub use playing::{Played, play};
pub use reading::Reading;
pub use refused::Refused;
pub use said::Said;
pub use script::{Script, ScriptRefusal, read_script};
