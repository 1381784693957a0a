//! What a line of a configuration says.
use wm_base::{Border, OutputPlan, Str, Text};
use wm_saved::SavedLayout;

/// What a line says that sets no name.
#[derive(Drop)]
pub(crate) enum Entry {
    /// Nothing: blanks alone, or a comment.
    Nothing,
    /// Something of i3 that has no meaning here.
    Passed,
    /// The block of a bar begins.
    Bar,
    /// The block of this mode begins.
    Mode(Text),
    /// A block ends.
    Close,
    /// The chord runs the text.
    Key { chord: Text, text: Str },
    /// Containers have this border.
    Border(Border),
    /// Workspaces have this inner gap in pixels.
    Inner(u32),
    /// Workspaces have this outer gap in pixels.
    Outer(u32),
    /// The workspace of this name is made on this output.
    Home { name: Text, output: Text },
    /// There is this output.
    Output(OutputPlan),
    /// There is this layout under this name.
    Layout { name: Text, layout: SavedLayout },
}
