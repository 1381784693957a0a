//! What a line of a script says.
use crate::line::Line;
use wm_base::{Border, OutputPlan, Str, Text};
use wm_saved::SavedLayout;

/// What a line says.
#[derive(Drop)]
pub enum Said {
    /// Nothing: spaces alone, or a comment.
    Nothing,
    /// It is a script of version 1.
    Version,
    /// There is this output.
    Output(OutputPlan),
    /// Containers have this border.
    Border(Border),
    /// Workspaces have this inner gap in pixels.
    Inner(u32),
    /// Workspaces have this outer gap in pixels.
    Outer(u32),
    /// There is this mode.
    Mode(Text),
    /// The chord runs the text in the mode.
    Bind { mode: Text, chord: Text, text: Str },
    /// There is this layout under this name.
    Layout { name: Text, layout: SavedLayout },
    /// A caller does something.
    Does(Line),
}
