//! Laws of moving, swapping, sending and removing outputs: no workspace or container is lost, and none is made.
ghost use Rattle.std.specs.Prelude.{◌≡◌};
ghost use Rattle.wm_base.specs.declared.ids.ConId.{ConId};
ghost use Rattle.wm_shared.specs.Subject.{IsSubject};
ghost use Rattle.wm_tree.specs.Outputs.{IsOutput};
ghost use Rattle.wm_tree.specs.Sound.{IsSound};
ghost use Rattle.wm_forest.specs.SoundRow.{ranked};

use wm_base::{ConId, Dir, Refusal, Text};
use wm_focus::{move_dir, move_to_mark, swap};
use wm_language::SwapArg;
use wm_spaces::{output_removed, send_to_output};
use wm_tree::Tree;

/// Moving a container in a direction keeps each workspace and container, as often as it was there.
pub fn a_move_keeps_all(t: &mut Tree, con: ConId, d: Dir, px: u32) -> Result<(), Refusal>
    requires { IsSubject t.old con }
    ensures { (i : ConId) → ranked i t.new.nodes ≡ ranked i t.old.nodes }
{
    move_dir(t, con, d, px)
}

/// Moving a container after a marked one keeps each workspace and container, as often as it was there.
pub fn a_move_to_a_mark_keeps_all(t: &mut Tree, con: ConId, name: &Text) -> Result<(), Refusal>
    requires { IsSubject t.old con }
    ensures { (i : ConId) → ranked i t.new.nodes ≡ ranked i t.old.nodes }
{
    move_to_mark(t, con, name)
}

/// Exchanging two containers keeps each workspace and container, as often as it was there.
pub fn a_swap_keeps_all(t: &mut Tree, con: ConId, arg: &SwapArg) -> Result<(), Refusal>
    requires { IsSubject t.old con }
    ensures { (i : ConId) → ranked i t.new.nodes ≡ ranked i t.old.nodes }
{
    swap(t, con, arg)
}

/// Sending a container to what an output shows keeps each workspace and container, as often as it was there.
pub fn a_sending_keeps_all(t: &mut Tree, con: ConId, output: ConId) -> Result<(), Refusal>
    requires subject { IsSubject t.old con }
    requires output { IsOutput output t.old.nodes }
    ensures { (i : ConId) → ranked i t.new.nodes ≡ ranked i t.old.nodes }
{
    send_to_output(t, con, output)
}

/// Removing an output keeps each workspace and container, as often as it was there.
pub fn an_output_that_goes_keeps_all(t: &mut Tree, name: &Text) -> Result<(), Refusal>
    requires { IsSound t.old }
    ensures { (i : ConId) → ranked i t.new.nodes ≡ ranked i t.old.nodes }
{
    output_removed(t, name)
}
