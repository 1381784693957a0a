//! Moving a container in a direction.
ghost use Rattle.std.specs.Prelude.{◌≡◌, Some, MatchOption, false, true};
ghost use Rattle.wm_focus.specs.Moves.{IsGoal, IsTurn, after_child, beside, cross_refusal, cross_tree, entry, held_out, is_split_con, leave_refusal, leave_tree, move_dir_refusal, move_dir_tree, move_refusal, near_end, runs_split, side_of, space_over, step_refusal, step_tree, turn_refusal, turned};
ghost use Rattle.wm_shared.specs.Does.{Does};
ghost use Rattle.wm_shared.specs.Subject.{IsSubject};
ghost use Rattle.wm_focus.specs.Walks.{neighbour_at};
ghost use Rattle.wm_tree.specs.Move.{moved, share_in};
ghost use Rattle.wm_tree.specs.Sound.{IsSound};
ghost use Rattle.wm_tree.specs.TreeValue.{is_tiled_con, parent};

use crate::rungs::{Aim, aimed, ways_above};
use wm_base::{ConId, Dir, ErrorText, Refusal};
use wm_floats::shift;
use wm_shared::{
    dir_axis, enter, is_forward, layout_axis, on_workspace, output_from, refused, remember,
    shown_on, space_name,
};
use wm_tree::{ConKind, Cursor, Place, Placed, Tree};

/// Moves the container in a direction: past a window or placeholder beside it, into a split beside it, out of its
/// parent, or to what the output in that direction shows. A floating window is shifted by `px` pixels. It may leave a
/// split without children, which settling removes.
pub fn move_dir(t: &mut Tree, con: ConId, d: Dir, px: u32) -> Result<(), Refusal>
    requires { IsSubject t.old con }
    ensures { Does t.old t.new result (move_dir_refusal con d px) (move_dir_tree con d px) }
{
    let Placed {
        part,
        holder,
        tiled,
        ..
    } = on_workspace(t, con)?;
    let own = part.share;
    if !tiled {
        return shift(t, con, d, px);
    }
    match beside(t, con, holder, d) {
        Some(next) => pass(t, con, own, next, d),
        None => leave(t, con, holder, d),
    }
}

/// The neighbour of the container on that side, where its parent is along the axis of the direction.
fn beside(t: &Tree, con: ConId, holder: Option<ConId>, d: Dir) -> Option<ConId>
    requires { parent t.now con ≡ holder }
    ensures { result ≡ beside d con t.now }
{
    neighbour_at(t.nodes(), holder?, con, d)?
}

/// The neighbour of the container on that side among the parent's children. `None` exactly where the parent is not
/// here.
fn neighbour_at(mut row: Cursor<'_>, parent: ConId, con: ConId, d: Dir) -> Option<Option<ConId>>
    ensures { result ≡ neighbour_at d con parent row.entry }
{
    while let Some(part) = row.part() {
        if part.id == parent {
            return Some(aimed(Aim::Beside, d, &part.kind, row.kids(), con));
        }
        if let Some(found) = neighbour_at(row.kids(), parent, con, d) {
            return Some(found);
        }
        if let Some(found) = neighbour_at(row.floats(), parent, con, d) {
            return Some(found);
        }
        row = row.rest();
    }
    None
}

/// Moves the container, which has this share, past its neighbour, or into it where that is a split.
fn pass(t: &mut Tree, con: ConId, own: u32, next: ConId, d: Dir) -> Result<(), Refusal>
    requires sound { IsSound t.old }
    requires own { share_in con t.old.nodes ≡ own }
    requires tiled { is_tiled_con t.old con ≡ true }
    requires next { beside d con t.old ≡ Some next }
    ensures { Does t.old t.new result (step_refusal d con (Some next))
        (step_tree d con (Some next)) }
{
    match split_along(t, next, d) {
        Some(along) => {
            let at = entry(t, next, along, d);
            go(t, con, at)
        }
        None => turn(t, con, own, next),
    }
}

/// Moves the container out of its parent, beside the child that holds it of the nearest node above along the axis.
fn leave(t: &mut Tree, con: ConId, holder: Option<ConId>, d: Dir) -> Result<(), Refusal>
    requires sound { IsSound t.old }
    requires tiled { is_tiled_con t.old con ≡ true }
    requires holder { parent t.old con ≡ holder }
    ensures { Does t.old t.new result (leave_refusal d con) (leave_tree d con) }
{
    match held_out(t, con, holder, d) {
        Some(child) => go(t, con, side_of(d, child)),
        None => cross(t, con, d),
    }
}

/// What the output in that direction shows.
fn space_over(t: &Tree, con: ConId, d: Dir) -> Option<ConId>
    ensures { result ≡ space_over d con t.now }
{
    shown_on(t, output_from(t, con, d)?)
}

/// Moves the container to the near end of what the output in that direction shows, which becomes the current one.
fn cross(t: &mut Tree, con: ConId, d: Dir) -> Result<(), Refusal>
    requires sound { IsSound t.old }
    requires tiled { is_tiled_con t.old con ≡ true }
    ensures { Does t.old t.new result (cross_refusal d con) (cross_tree d con) }
{
    let Some(space) = space_over(t, con, d) else {
        return Err(Refusal::NoTarget(ErrorText::NoNeighbour));
    };
    let was = t.shown();
    let Ok(name) = space_name(t, was) else {
        return Err(Refusal::NoMemory);
    };
    go(t, con, near_end(d, space))?;
    enter(t, con);
    remember(t, was, name);
    Ok(())
}

/// Puts the container at the place.
fn go(t: &mut Tree, con: ConId, at: Place) -> Result<(), Refusal>
    requires sound { IsSound t.old }
    requires goal { IsGoal con at t.old }
    ensures { Does t.old t.new result (move_refusal con at) (moved con at) }
{
    match t.move_to(con, at) {
        Ok(()) => Ok(()),
        Err(error) => Err(refused(error)),
    }
}

/// Two neighbours change places, each with its share, of which one is given.
fn turn(t: &mut Tree, con: ConId, own: u32, next: ConId) -> Result<(), Refusal>
    requires sound { IsSound t.old }
    requires own { share_in con t.old.nodes ≡ own }
    requires turn { IsTurn con next t.old }
    ensures { Does t.old t.new result (turn_refusal con next) (turned con next) }
{
    let other = share(t, next);
    match t.exchange(con, next) {
        Ok(()) => {
            t.set_share(con, own);
            t.set_share(next, other);
            Ok(())
        }
        Err(error) => Err(refused(error)),
    }
}

/// The container's share.
fn share(t: &Tree, con: ConId) -> u32
    ensures { result ≡ share_in con t.now.nodes }
{
    match t.container(con) {
        Some(part) => part.share,
        None => 0,
    }
}

/// Whether the split is along the axis of the direction. `None` exactly where it is no split.
fn split_along(t: &Tree, con: ConId, d: Dir) -> Option<bool>
    ensures { MatchOption result (is_split_con t.now con ≡ false)
        (λ along. (is_split_con t.now con ≡ true) × (runs_split d con t.now ≡ along)) }
{
    let part = t.container(con)?;
    match part.kind {
        ConKind::Split { layout, .. } => Some(layout_axis(layout) == dir_axis(d)),
        ConKind::Window { .. } | ConKind::Placeholder { .. } => None,
    }
}

/// The place in a split, along the axis of the direction or not, for a container that comes from the other side.
fn entry(t: &Tree, split: ConId, along: bool, d: Dir) -> Place
    requires { runs_split d split t.now ≡ along }
    ensures { result ≡ entry d split t.now }
{
    if along {
        near_end(d, split)
    } else {
        after_child(split, t.focused_child(split))
    }
}

fn near_end(d: Dir, split: ConId) -> Place
    ensures { result ≡ near_end d split }
{
    if is_forward(d) {
        Place::First(split)
    } else {
        Place::Last(split)
    }
}

fn after_child(split: ConId, child: Option<ConId>) -> Place
    ensures { result ≡ after_child split child }
{
    match child {
        Some(child) => Place::After(child),
        None => Place::First(split),
    }
}

/// The place beside a child on that side.
fn side_of(d: Dir, child: ConId) -> Place
    ensures { result ≡ side_of d child }
{
    if is_forward(d) {
        Place::After(child)
    } else {
        Place::Before(child)
    }
}

/// The child that holds the container, of the nearest node above its parent along the axis of the direction.
fn held_out(t: &Tree, con: ConId, holder: Option<ConId>, d: Dir) -> Option<ConId>
    requires { parent t.now con ≡ holder }
    ensures { result ≡ held_out d con t.now }
{
    ways_above(t.nodes(), holder?, d).out
}
