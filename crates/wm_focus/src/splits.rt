//! Splitting containers, and the layouts of what holds them.
ghost use Rattle.std.specs.Prelude.{◌≡◌, ◌≢◌, ◌&&◌, ◌||◌, false, None, Some, OnOk, IfOk, IfErr};
ghost use Rattle.wm_focus.specs.Splits.{IsTarget, asked_split, chosen, cycle_layout_refusal, cycle_layout_tree, gives_layout, has_no_second, is_plain_split, laid, layout_refusal, layouts_by, layouts_of, next_layout, other_split, set_layout_refusal, set_layout_tree, split_layouts, split_refusal, split_tree};
ghost use Rattle.wm_shared.specs.Does.{DoesExactlyIfSound, DoesIfSound};
ghost use Rattle.wm_shared.specs.Subject.{IsSubject};
ghost use Rattle.wm_forest.specs.declared.part.ConPart.{ConPart};

use wm_base::{ConId, ErrorText, Layout, Refusal};
use wm_language::{Cycle, LayoutArg, SplitArg};
use wm_shared::refused;
use wm_tree::{ConKind, Placed, SpacePart, Standing, Tree};

/// A layout, and the last split layout.
#[derive(Clone, Copy, Debug, PartialEq, Eq)]
pub struct Layouts {
    pub now: Layout,
    pub last: Layout,
}

/// Those of a node that has none of its own.
const PLAIN: Layouts = Layouts {
    now: Layout::SplitH,
    last: Layout::SplitH,
};

/// The node whose layout a command sets, its layouts, and whether it is the command's subject itself, a workspace.
#[derive(Clone, Copy, Debug)]
pub struct Target {
    pub at: ConId,
    pub layouts: Layouts,
    pub own: bool,
}

/// The layouts of the workspace or split.
fn layouts_of(t: &Tree, con: ConId) -> Layouts
    ensures { result ≡ layouts_of t.now con }
{
    match t.standing(con) {
        Some(Standing::Space(part)) => space_layouts(part),
        Some(Standing::Placed(Placed { part, .. }) | Standing::Away(part, _)) => {
            split_layouts(&part.kind)
        }
        Some(Standing::Above) | None => PLAIN,
    }
}

/// The layouts of a workspace.
fn space_layouts(space: &SpacePart) -> Layouts
    ensures { result ≡ layouts_by (Some space.now) None }
{
    Layouts {
        now: space.layout,
        last: space.last_split,
    }
}

/// The layouts of a split.
fn split_layouts(kind: &ConKind) -> Layouts
    ensures { result ≡ split_layouts kind.now }
{
    match kind {
        ConKind::Split { layout, last_split } => Layouts {
            now: *layout,
            last: *last_split,
        },
        ConKind::Window { .. } | ConKind::Placeholder { .. } => PLAIN,
    }
}

/// The node whose layout a command on the subject sets: a workspace's own, else that of a tiled container's parent.
fn laid(t: &Tree, con: ConId) -> Result<Target, Refusal>
    requires { IsSubject t.now con }
    ensures fine { OnOk result (layout_refusal con t.now ≡ None) }
    ensures laid { IfOk result (λ target. IsTarget target con t.now) }
    ensures cause { IfErr result (λ e. (layout_refusal con t.now ≡ Some e) × (e ≢ Refusal.NoMemory)) }
{
    match t.standing(con) {
        Some(Standing::Space(part)) => Ok(Target {
            at: con,
            layouts: space_layouts(part),
            own: true,
        }),
        Some(Standing::Placed(placed)) if placed.tiled => {
            Ok(around(t, placed.holder.unwrap_or(con)))
        }
        Some(Standing::Placed(_)) => Err(Refusal::NoTarget(ErrorText::NotTiled)),
        Some(Standing::Away(..)) => Err(Refusal::NoTarget(ErrorText::NoWorkspace)),
        Some(Standing::Above) | None => unreachable!(),
    }
}

/// A tiled container's parent, as the node whose layout is set.
fn around(t: &Tree, parent: ConId) -> Target
    ensures { result ≡ record { at = parent; layouts = layouts_of t.now parent; own = false } }
{
    Target {
        at: parent,
        layouts: layouts_of(t, parent),
        own: false,
    }
}

/// Sets the layout of the container's parent, or of a workspace itself. The default is the last split layout that it
/// had.
pub fn set_layout(t: &mut Tree, con: ConId, arg: LayoutArg) -> Result<(), Refusal>
    requires { IsSubject t.old con }
    ensures { DoesExactlyIfSound t.old t.new result (set_layout_refusal con arg)
        (set_layout_tree con arg) }
{
    let Target { at, layouts, .. } = laid(t, con)?;
    t.set_layout(at, chosen(arg, layouts.last));
    Ok(())
}

fn chosen(arg: LayoutArg, last: Layout) -> Layout
    ensures { result ≡ chosen arg last }
{
    match arg {
        LayoutArg::Default => last,
        LayoutArg::SplitH => Layout::SplitH,
        LayoutArg::SplitV => Layout::SplitV,
        LayoutArg::Tabbed => Layout::Tabbed,
        LayoutArg::Stacked => Layout::Stacked,
    }
}

/// Sets the next layout of the container's parent, or of a workspace itself: of the two splits, of stacked, tabbed
/// and the last split, or of all four.
pub fn cycle_layout(t: &mut Tree, con: ConId, arg: Cycle) -> Result<(), Refusal>
    requires { IsSubject t.old con }
    ensures { DoesExactlyIfSound t.old t.new result (cycle_layout_refusal con arg)
        (cycle_layout_tree con arg) }
{
    let Target { at, layouts, .. } = laid(t, con)?;
    t.set_layout(at, next_layout(arg, layouts));
    Ok(())
}

fn next_layout(arg: Cycle, layouts: Layouts) -> Layout
    ensures { result ≡ next_layout arg layouts }
{
    match (arg, layouts.now) {
        (Cycle::Bare | Cycle::Split, Layout::Tabbed) => layouts.last,
        (Cycle::Bare, Layout::Stacked) => Layout::Tabbed,
        (Cycle::Bare, Layout::SplitH | Layout::SplitV) => Layout::Stacked,
        (Cycle::Split, Layout::SplitH) => Layout::SplitV,
        (Cycle::Split, Layout::SplitV) => Layout::SplitH,
        (Cycle::Split, Layout::Stacked) => layouts.last,
        (Cycle::All, Layout::SplitH) => Layout::SplitV,
        (Cycle::All, Layout::SplitV) => Layout::Stacked,
        (Cycle::All, Layout::Stacked) => Layout::Tabbed,
        (Cycle::All, Layout::Tabbed) => Layout::SplitH,
    }
}

/// Splits at the container: a workspace gets the layout, and the parent of an only child where it is splith or splitv.
/// Otherwise a new split with the layout takes the container's place and holds it.
pub fn split(t: &mut Tree, con: ConId, arg: SplitArg) -> Result<(), Refusal>
    requires { IsSubject t.old con }
    ensures { DoesIfSound t.old t.new result (split_refusal con arg) (split_tree con arg) }
{
    let target = laid(t, con)?;
    let layout = asked_split(arg, target.layouts.now);
    if gives_layout(t, target) {
        t.set_layout(target.at, layout);
        return Ok(());
    }
    match t.wrap(con, layout) {
        Ok(_) => Ok(()),
        Err(error) => Err(refused(error)),
    }
}

fn asked_split(arg: SplitArg, now: Layout) -> Layout
    ensures { result ≡ asked_split arg now }
{
    match arg {
        SplitArg::H => Layout::SplitH,
        SplitArg::V => Layout::SplitV,
        SplitArg::Toggle if now == Layout::SplitH => Layout::SplitV,
        SplitArg::Toggle => Layout::SplitH,
    }
}

/// Whether the layout is given to the target: to a workspace itself, or to the parent of an only child.
fn gives_layout(t: &Tree, target: Target) -> bool
    ensures { result ≡ (target.own || (has_no_second t.now target.at && is_plain_split target.layouts.now)) }
{
    target.own || t.child(target.at, 1).is_none() && is_plain_split(target.layouts.now)
}

fn is_plain_split(layout: Layout) -> bool
    ensures { result ≡ is_plain_split layout }
{
    match layout {
        Layout::SplitH | Layout::SplitV => true,
        Layout::Tabbed | Layout::Stacked => false,
    }
}
