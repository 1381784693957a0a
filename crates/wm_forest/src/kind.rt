//! Changes of what a node says of itself.
ghost use Rattle.std.specs.Prelude.{◌≡◌};
ghost use Rattle.wm_forest.specs.declared.part.NodeKind.TheVariants.{Con, Output, Root, Space};
ghost use Rattle.wm_forest.specs.Kinds.{changed, filled, is_con_kind, laid_out, last_split_of, titled};

use crate::part::{ConKind, ConPart, ConState, NodeKind, OutputPart, SpacePart};
use std::mem;
use wm_base::{ConId, Edges, Layout, Props, Size, Text};

/// A change of one node: a container's share, state, title or title format, the window that a placeholder becomes, a
/// container's or workspace's layout, a workspace's name or gaps, an output's reserved edges or shown workspace, or the
/// root's current output.
#[derive(Drop)]
pub enum KindEdit {
    Share(u32),
    Layout(Layout),
    State(ConState),
    Title(Text),
    TitleFormat(Text),
    Fill(Props, u32, Size),
    Name(Text),
    Gaps(u32, u32),
    Reserved(Edges),
    Shown(ConId),
    Current(ConId),
}

impl NodeKind {
    /// Whether this is a container.
    pub fn is_con(&self) -> bool
        ensures { result ≡ is_con_kind self.now }
    {
        match self {
            NodeKind::Con(_) => true,
            NodeKind::Root { .. } | NodeKind::Output(_) | NodeKind::Space(_) => false,
        }
    }
}

impl KindEdit {
    /// Makes the change. A node that it is not for stays as it was.
    pub fn make(self, kind: &mut NodeKind)
        ensures { kind.new ≡ changed self kind.old }
    {
        match kind {
            NodeKind::Root { current } => self.make_root(current),
            NodeKind::Output(output) => self.make_output(output),
            NodeKind::Space(space) => self.make_space(space),
            NodeKind::Con(con) => self.make_con(con),
        }
    }

    /// Makes the change of the root's current output, where it is one.
    fn make_root(self, current: &mut ConId)
        ensures { Root current.new ≡ changed self (Root current.old) }
    {
        match self {
            KindEdit::Current(output) => *current = output,
            other => drop(other),
        }
    }

    /// Makes the change of an output, where it is one.
    fn make_output(self, output: &mut OutputPart)
        ensures { Output output.new ≡ changed self (Output output.old) }
    {
        match self {
            KindEdit::Reserved(edges) => output.reserved = edges,
            KindEdit::Shown(shown) => output.shown = shown,
            other => drop(other),
        }
    }

    /// Makes the change of a workspace, where it is one.
    fn make_space(self, space: &mut SpacePart)
        ensures { Space space.new ≡ changed self (Space space.old) }
    {
        match self {
            KindEdit::Layout(layout) => {
                space.last_split = last_split(layout, space.last_split);
                space.layout = layout;
            }
            KindEdit::Name(name) => space.name = name,
            KindEdit::Gaps(inner, outer) => {
                space.inner = inner;
                space.outer = outer;
            }
            other => drop(other),
        }
    }

    /// Makes the change of a container, where it is one.
    fn make_con(self, con: &mut ConPart)
        ensures { Con con.new ≡ changed self (Con con.old) }
    {
        match self {
            KindEdit::Share(share) => con.share = share,
            KindEdit::Layout(layout) => lay_out(&mut con.kind, layout),
            KindEdit::State(state) => con.state = state,
            KindEdit::Title(title) => set_title(&mut con.kind, title),
            KindEdit::TitleFormat(format) => con.title_format = format,
            KindEdit::Fill(props, owner, natural) => fill(&mut con.kind, props, owner, natural),
            other => drop(other),
        }
    }
}

/// The last of the two split layouts that a node had, when it takes this layout.
pub fn last_split(layout: Layout, was: Layout) -> Layout
    ensures { result ≡ last_split_of layout was }
{
    match layout {
        Layout::SplitH | Layout::SplitV => layout,
        Layout::Tabbed | Layout::Stacked => was,
    }
}

fn lay_out(kind: &mut ConKind, layout: Layout)
    ensures { kind.new ≡ laid_out layout kind.old }
{
    if let ConKind::Split {
        layout: own,
        last_split: last,
    } = kind
    {
        *last = last_split(layout, *last);
        *own = layout;
    }
}

fn set_title(kind: &mut ConKind, title: Text)
    ensures { kind.new ≡ titled title kind.old }
{
    match kind {
        ConKind::Split { .. } => {}
        ConKind::Window { props, .. } => props.title = title,
        ConKind::Placeholder { props, .. } => props.title = title,
    }
}

/// Makes a placeholder this window.
fn fill(kind: &mut ConKind, props: Props, owner: u32, natural: Size)
    ensures { kind.new ≡ filled props owner natural kind.old }
{
    if let ConKind::Placeholder { .. } = kind {
        let window = ConKind::Window {
            props,
            owner,
            natural,
        };
        drop(mem::replace(kind, window));
    } else {
        drop(props);
    }
}
