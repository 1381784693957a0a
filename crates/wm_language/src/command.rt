//! The commands of the command language, a variant for each form.
use crate::arguments::{
    Cycle, GapOp, Kind, LayoutArg, OnOff, OutArg, Side, SplitArg, SwapArg, Target,
};
use wm_base::{Border, Dir, Text};

/// A command. Its subject is the focused container or those that the criteria match. Numbers are in pixels
/// where nothing else is said.
#[derive(Drop)]
pub enum Command {
    /// `split h`: gives the subject, wrapped where it has neighbours, a split layout.
    Split(SplitArg),
    /// `layout tabbed`: sets the layout of the subject's parent.
    SetLayout(LayoutArg),
    /// `layout toggle all`: goes to the next layout.
    CycleLayout(Cycle),
    /// `focus`: focuses the subject.
    Focus,
    /// `focus left`: focuses the neighbour in a direction.
    FocusDir(Dir),
    /// `focus parent`: raises the parent.
    FocusParent,
    /// `focus child`: raises the focused child.
    FocusChild,
    /// `focus floating`: raises the most recent container of a kind.
    FocusKind(Kind),
    /// `focus output next`: makes an output the current one.
    FocusOutput(OutArg),
    /// `move left 20 px`: moves by a place, or a floating window by pixels.
    MoveDir(Dir, u32),
    /// `move container to workspace 3`: sends the subject to a workspace.
    MoveToWorkspace(Target),
    /// `move container to output left`: sends the subject to the workspace that an output shows.
    MoveToOutput(OutArg),
    /// `move workspace to output left`: puts the workspace on an output.
    MoveWorkspace(OutArg),
    /// `move container to mark m`: puts the subject after the marked container.
    MoveToMark(Text),
    /// `move scratchpad`: puts the window into the scratchpad.
    MoveToScratchpad,
    /// `move position 10 20`: sets the place of a floating window, across and down.
    MovePosition(i64, i64),
    /// `move position center`: centres a floating window on its output.
    MoveCenter,
    /// `swap container with mark m`: exchanges the places of two containers.
    Swap(SwapArg),
    /// `resize grow width 10 px or 5 ppt`: grows or shrinks by pixels, or by hundredths where `ppt` is above 0.
    Resize {
        grow: bool,
        side: Side,
        px: u32,
        ppt: u32,
    },
    /// `resize set 300 200`: sets a floating window's width and height.
    ResizeSet(u32, u32),
    /// `floating toggle`: makes a window float or tiles it.
    Floating(OnOff),
    /// `fullscreen`: makes a window fill its output.
    Fullscreen(OnOff),
    /// `border pixel 1`: sets the border.
    SetBorder(Border),
    /// `border toggle`: goes to the next border.
    CycleBorder,
    /// `gaps inner all plus 5`: changes the inner or outer gaps of the workspace or of all.
    Gaps {
        outer: bool,
        all: bool,
        op: GapOp,
        px: u32,
    },
    /// `sticky enable`: lets a floating window go along with the shown workspace.
    Sticky(OnOff),
    /// `mark --add m`: gives the subject a mark, beside its others or in their place.
    Mark {
        add: bool,
        toggle: bool,
        name: Text,
    },
    /// `unmark m`: takes a mark off, or all.
    Unmark(Option<Text>),
    /// `workspace 3`: shows a workspace.
    Workspace(Target),
    /// `rename workspace a to b`: renames the focused workspace or the one named first.
    Rename(Option<Text>, Text),
    /// `scratchpad show`: shows a window of the scratchpad, or hides it.
    ScratchpadShow,
    /// `mode resize`: makes a binding mode the current one.
    Mode(Text),
    /// `append_layout l`: appends a saved layout to the focused workspace.
    AppendLayout(Text),
    /// `title_format %title`: sets how titles are written.
    TitleFormat(Text),
    /// `kill`: asks the subject's windows to close.
    Kill,
    /// `nop`: does nothing.
    Nop,
    /// `exec`, `open`, `reload` and `restart`: read and not done here.
    Idle,
    /// `exit`: stops the desk.
    Exit,
}
