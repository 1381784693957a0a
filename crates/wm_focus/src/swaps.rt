//! Exchanging the places of two containers, and moving one after another.
ghost use Rattle.std.specs.Prelude.{◌≡◌, ◌≢◌, ◌&&◌, ◌||◌, Some, None, IfSome, false, true};
ghost use Rattle.wm_shared.specs.Does.{DoesExactly, DoesExactlyIfSound};
ghost use Rattle.wm_shared.specs.Subject.{IsSubject, is_space};
ghost use Rattle.wm_spaces.specs.Sending.{sent_some, sent_some_refusal};
ghost use Rattle.wm_focus.specs.Swaps.{beside_refusal, exchange_refusal, exchanged_with, is_part, moved_after, move_to_mark_refusal, move_to_mark_tree, partner, partner_text, swap_refusal, swap_tree};
ghost use Rattle.wm_forest.specs.Look.{con_kind, has, kind_of, only};
ghost use Rattle.wm_tree.specs.Sound.{IsSound};
ghost use Rattle.wm_tree.specs.TreeValue.{is_tiled_con};

use crate::marks::marked;
use wm_base::{ConId, ErrorText, Refusal, Text};
use wm_language::SwapArg;
use wm_shared::{on_workspace, refused};
use wm_spaces::send;
use wm_tree::{Place, Placed, Standing, Tree};

/// The container that the command names.
fn partner(t: &Tree, arg: &SwapArg) -> Option<ConId>
    ensures { result ≡ partner arg.now t.now }
{
    match arg {
        SwapArg::Con(id) => t.container(ConId(*id)).map(|_| ConId(*id)),
        SwapArg::Window(id) => {
            let part = t.container(ConId(*id))?;
            if part.kind.is_window() {
                Some(ConId(*id))
            } else {
                None
            }
        }
        SwapArg::Mark(name) => marked(t, name),
    }
}

/// What is answered where there is no such container.
fn partner_text(arg: &SwapArg) -> ErrorText
    ensures { result ≡ partner_text arg.now }
{
    match arg {
        SwapArg::Con(_) | SwapArg::Window(_) => ErrorText::NoContainer,
        SwapArg::Mark(_) => ErrorText::NoMark,
    }
}

/// Exchanges the places of the container and of another one; the shares stay with the places.
pub fn swap(t: &mut Tree, con: ConId, arg: &SwapArg) -> Result<(), Refusal>
    requires { IsSubject t.old con }
    ensures { DoesExactlyIfSound t.old t.new result (swap_refusal con arg.now)
        (swap_tree con arg.now) }
{
    let Placed { tiled, .. } = on_workspace(t, con)?;
    match partner(t, arg) {
        Some(other) => exchange(t, con, tiled, other),
        None => Err(Refusal::NoTarget(partner_text(arg))),
    }
}

/// Exchanges the places of a container, which is tiled or not, and of another one.
fn exchange(t: &mut Tree, con: ConId, tiled: bool, other: ConId) -> Result<(), Refusal>
    requires { is_tiled_con t.old con ≡ tiled }
    ensures { DoesExactlyIfSound t.old t.new result (exchange_refusal con (Some other) ErrorText.NoMark)
        (exchanged_with con (Some other)) }
{
    if t.is_within(con, other) || t.is_within(other, con) {
        return Err(Refusal::NoTarget(ErrorText::SameContainer));
    }
    if !tiled || !t.is_tiled(other) {
        return Err(Refusal::NoTarget(ErrorText::NotTiled));
    }
    match t.exchange(con, other) {
        Ok(()) => Ok(()),
        Err(error) => Err(refused(error)),
    }
}

/// Puts the container after the one that has the mark; a floating window is sent to the workspace of that one. It may
/// leave a split without children, which settling removes.
pub fn move_to_mark(t: &mut Tree, con: ConId, name: &Text) -> Result<(), Refusal>
    requires { IsSubject t.old con }
    ensures { DoesExactlyIfSound t.old t.new result (move_to_mark_refusal con name.now)
        (move_to_mark_tree con name.now) }
{
    let Placed { tiled, .. } = on_workspace(t, con)?;
    match marked(t, name) {
        Some(other) => move_after(t, con, tiled, other),
        None => Err(Refusal::NoTarget(ErrorText::NoMark)),
    }
}

/// Puts the container, which is tiled or not, after another one, or sends a floating window to its workspace.
fn move_after(t: &mut Tree, con: ConId, tiled: bool, other: ConId) -> Result<(), Refusal>
    requires sound { IsSound t.old }
    requires con { kind_of con_kind con t.old.nodes ≢ None }
    requires tiled { is_tiled_con t.old con ≡ tiled }
    ensures { DoesExactlyIfSound t.old t.new result (beside_refusal con (Some other))
        (moved_after con (Some other)) }
{
    if t.is_within(con, other) {
        return Err(Refusal::NoTarget(ErrorText::SameContainer));
    }
    let space = match t.standing(other) {
        Some(Standing::Placed(placed)) if placed.tiled => Some(placed.space),
        Some(Standing::Away(_, true)) => None,
        _ => return Err(Refusal::NoTarget(ErrorText::NotTiled)),
    };
    if !tiled {
        return send_beside(t, con, space);
    }
    match t.move_to(con, Place::After(other)) {
        Ok(()) => Ok(()),
        Err(error) => Err(refused(error)),
    }
}

/// Sends the container to the workspace, if there is one.
fn send_beside(t: &mut Tree, con: ConId, space: Option<ConId>) -> Result<(), Refusal>
    requires sound { IsSound t.old }
    requires con { kind_of con_kind con t.old.nodes ≢ None }
    requires space { IfSome space (λ w. is_space t.old w ≡ true) }
    ensures { DoesExactly t.old t.new result (sent_some_refusal space con) (sent_some space con) }
{
    match space {
        Some(w) => send(t, con, w),
        None => Ok(()),
    }
}
