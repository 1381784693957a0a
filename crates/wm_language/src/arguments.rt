//! What commands are told: the arguments that are words of the command language.
use wm_base::{Dir, Text};

/// How `split` lays out.
#[derive(Clone, Copy, Debug, PartialEq, Eq, Hash)]
pub enum SplitArg {
    /// Side by side.
    H,
    /// One above another.
    V,
    /// The other of the two.
    Toggle,
}

/// The layout that `layout` sets.
#[derive(Clone, Copy, Debug, PartialEq, Eq, Hash)]
pub enum LayoutArg {
    /// The last split that the container had.
    Default,
    SplitH,
    SplitV,
    Tabbed,
    Stacked,
}

/// Among which layouts `layout toggle` goes round.
#[derive(Clone, Copy, Debug, PartialEq, Eq, Hash)]
pub enum Cycle {
    /// Stacked, tabbed and the last split.
    Bare,
    /// The two splits.
    Split,
    /// All four.
    All,
}

/// Which kind of container `focus` goes to.
#[derive(Clone, Copy, Debug, PartialEq, Eq, Hash)]
pub enum Kind {
    Floating,
    Tiling,
    /// The other kind.
    Toggle,
}

/// Whether a property is put on, taken off, or changed.
#[derive(Clone, Copy, Debug, PartialEq, Eq, Hash)]
pub enum OnOff {
    Enable,
    Disable,
    Toggle,
}

/// An output: the next one in a direction, the subject's own, the first, the one after the subject's, or the
/// one of a name.
#[derive(Debug, Drop)]
pub enum OutArg {
    At(Dir),
    Current,
    Primary,
    Next,
    Named(Text),
}

/// A workspace: a neighbour in the order of workspaces, of all or of the output's, the one shown before, the
/// one of a number, the one of a name, or the focused one.
#[derive(Debug, Drop)]
pub enum Target {
    Next,
    Prev,
    NextOnOutput,
    PrevOnOutput,
    BackAndForth,
    Number(Text),
    Named(Text),
    Current,
}

/// With whom `swap` exchanges places: the container of an id, the window of an id, or the container of a mark.
#[derive(Debug, Drop)]
pub enum SwapArg {
    Con(u32),
    Window(u32),
    Mark(Text),
}

/// At which side `resize` acts.
#[derive(Clone, Copy, Debug, PartialEq, Eq, Hash)]
pub enum Side {
    Width,
    Height,
    At(Dir),
}

/// How `gaps` changes a gap: sets it, adds to it, or takes from it.
#[derive(Clone, Copy, Debug, PartialEq, Eq, Hash)]
pub enum GapOp {
    Set,
    Plus,
    Minus,
}
