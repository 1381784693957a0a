//! Sending containers to other workspaces.
ghost use Rattle.std.specs.Prelude.{◌≡◌, ◌≢◌, ◌+ℤ◌, ◌-ℤ◌, None, true};
ghost use Rattle.std.specs.Option.{option_copied};
ghost use Rattle.wm_shared.specs.Does.{Does, DoesExactly};
ghost use Rattle.wm_shared.specs.Showing.{shown_on};
ghost use Rattle.wm_shared.specs.Subject.{IsSubject, is_space};
ghost use Rattle.wm_spaces.specs.Sending.{send_to_output_refusal, send_to_output_tree, send_to_refusal, send_to_tree, sent, sent_new, sent_new_refusal, sent_place, sent_refusal, shifted};
ghost use Rattle.wm_shared.specs.Rects.{held, output_part_of, rect_of};
ghost use Rattle.wm_forest.specs.Look.{con_kind, kind_of};
ghost use Rattle.wm_tree.specs.Outputs.{IsOutput};
ghost use Rattle.wm_tree.specs.Sound.{IsSound};
ghost use Rattle.wm_tree.specs.TreeValue.{is_tiled_con, workspace_of};

use crate::targets::{Goal, find_goal, home};
use std::mem;
use wm_base::{ConId, ErrorText, Rect, Refusal, Text};
use wm_language::Target;
use wm_shared::{held, is_space, on_workspace, output_part_of, rect_of, refused, shown_on};
use wm_tree::{OutputPart, Place, Standing, Tree};

/// How far it is from one number to another.
fn difference(from: i32, to: i32) -> i64
    ensures { result ≡ to -ℤ from }
{
    i64::from(to) - i64::from(from)
}

/// A number moved by the difference of two others.
fn moved(n: i32, from: i32, to: i32) -> i64
    ensures { result ≡ n +ℤ (to -ℤ from) }
{
    i64::from(n) + difference(from, to)
}

/// The rectangle on another output: shifted by the difference of their places.
fn shifted(from: Option<&OutputPart>, to: Option<&OutputPart>, r: Rect) -> Rect
    ensures { result ≡ shifted (option_copied from.entry) (option_copied to.entry) r }
{
    match (from, to) {
        (Some(a), Some(b)) => Rect {
            x: held(moved(r.x, a.rect.x, b.rect.x)),
            y: held(moved(r.y, a.rect.y, b.rect.y)),
            w: r.w,
            h: r.h,
        },
        _ => r,
    }
}

/// The container's workspace, if it has one, and whether it is tiled.
fn spot_of(t: &Tree, con: ConId) -> (Option<ConId>, bool)
    requires { kind_of con_kind con t.now.nodes ≢ None }
    ensures { (result.0 ≡ workspace_of t.now con) × (result.1 ≡ is_tiled_con t.now con) }
{
    match t.standing(con) {
        Some(Standing::Placed(placed)) => (Some(placed.space), placed.tiled),
        Some(Standing::Away(_, tiled)) => (None, tiled),
        Some(Standing::Above | Standing::Space(_)) | None => unreachable!(),
    }
}

/// Where a container, which is tiled or not, comes that is sent to the workspace.
fn sent_place(t: &Tree, con: ConId, tiled: bool, w: ConId) -> Place
    requires { is_tiled_con t.now con ≡ tiled }
    ensures { result ≡ sent_place con w t.now }
{
    if !tiled {
        let rect = shifted(
            output_part_of(t, con),
            output_part_of(t, w),
            rect_of(t, con),
        );
        return Place::Float(w, rect);
    }
    t.tiling_place(w)
}

/// Sends a container to a workspace, if it is not there: a tiled one after the leaf, or last where nothing is tiled; a
/// floating one last among the floating windows.
pub fn send(t: &mut Tree, con: ConId, w: ConId) -> Result<(), Refusal>
    requires sound { IsSound t.old }
    requires con { kind_of con_kind con t.old.nodes ≢ None }
    requires space { is_space t.old w ≡ true }
    ensures { DoesExactly t.old t.new result (sent_refusal con w) (sent con w) }
{
    let (space, tiled) = spot_of(t, con);
    if space == t.workspace_of(w) {
        return Ok(());
    }
    let at = sent_place(t, con, tiled, w);
    match t.move_to(con, at) {
        Ok(()) => Ok(()),
        Err(error) => Err(refused(error)),
    }
}

/// Sends the container to the workspace that the output shows.
pub fn send_to_output(t: &mut Tree, con: ConId, output: ConId) -> Result<(), Refusal>
    requires subject { IsSubject t.old con }
    requires output { IsOutput output t.old.nodes }
    ensures { DoesExactly t.old t.new result (send_to_output_refusal con output)
        (send_to_output_tree con output) }
{
    on_workspace(t, con)?;
    match shown_on(t, output) {
        Some(w) => send(t, con, w),
        None => Ok(()),
    }
}

/// Sends the container to the workspace that the command names, and makes that where it is not there: last on the output
/// that the homes give its name, if that is there, else on the current one.
pub fn send_to(
    t: &mut Tree,
    con: ConId,
    target: &Target,
    homes: &[(Text, Text)],
) -> Result<(), Refusal>
    requires { IsSubject t.old con }
    ensures { Does t.old t.new result (send_to_refusal con target.now homes.now)
        (send_to_tree con target.now homes.now) }
{
    if is_space(t, con) {
        return Err(Refusal::NoTarget(ErrorText::AtWorkspace));
    }
    let Ok(goal) = find_goal(t, target) else {
        return Err(Refusal::NoMemory);
    };
    match goal {
        Goal::There(w) => send(t, con, w),
        Goal::Absent(name) => {
            let output = home(t, name.as_str(), homes);
            send_new(t, con, output, &name)
        }
        Goal::Refused(text) => Err(Refusal::NoTarget(text)),
    }
}

/// Makes a workspace of this name on the output and sends the container there.
fn send_new(t: &mut Tree, con: ConId, output: ConId, name: &Text) -> Result<(), Refusal>
    requires sound { IsSound t.old }
    requires con { kind_of con_kind con t.old.nodes ≢ None }
    requires output { IsOutput output t.old.nodes }
    ensures { Does t.old t.new result (sent_new_refusal con output name.now)
        (sent_new con output name.now) }
{
    let Ok(before) = t.copy() else {
        return Err(Refusal::NoMemory);
    };
    let w = match t.add_workspace(output, name) {
        Ok(w) => w,
        Err(error) => {
            drop(before);
            return Err(refused(error));
        }
    };
    match send(t, con, w) {
        Ok(()) => {
            drop(before);
            Ok(())
        }
        Err(error) => {
            drop(mem::replace(t, before));
            Err(error)
        }
    }
}
