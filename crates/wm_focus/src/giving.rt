//! Giving a mark to a container that has it not, or that has it already.
ghost use Rattle.std.specs.Prelude.{◌≡◌, true, false};
ghost use Rattle.wm_focus.specs.Marks.{give_refusal, given_mark, is_marked};
ghost use Rattle.wm_shared.specs.Does.{Does};
ghost use Rattle.wm_shared.specs.Subject.{is_container};
ghost use Rattle.wm_tree.specs.Sound.{IsSound};

use wm_base::{ConId, Refusal, Text};
use wm_shared::refused;
use wm_tree::Tree;

/// Gives the mark to the container, which has it not, and takes it off any other.
pub(crate) fn give(t: &mut Tree, con: ConId, name: &Text, add: bool) -> Result<(), Refusal>
    requires sound { IsSound t.old }
    requires kind { is_container t.old con ≡ true }
    requires other { is_marked con name.now t.old ≡ false }
    ensures { Does t.old t.new result (give_refusal con name.now add)
        (given_mark con name.now add) }
{
    match t.give_mark(con, name, add) {
        Ok(()) => Ok(()),
        Err(error) => Err(refused(error)),
    }
}

/// Gives the mark to the container, which has it already, and takes it off any other. Without `add` the container loses
/// its other marks.
#[tactic(auto, using(crate::proofs::GiveLemmas::given_all, crate::proofs::GiveLemmas::given_alone))]
pub(crate) fn give_again(t: &mut Tree, con: ConId, name: &Text, add: bool)
    requires { is_marked con name.now t.old ≡ true }
    ensures tree { t.new ≡ given_mark con name.now add t.old }
    ensures sound { IsSound t.old → IsSound t.new }
{
    if !add {
        t.keep_mark(con, Some(name));
    }
    t.take_mark(Some(con), name);
}
