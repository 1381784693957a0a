//! Commands on one subject that put a property of windows on or off, or go between tiled and floating.
ghost use Rattle.std.specs.Prelude.{◌≡◌};
ghost use Rattle.wm_apply.specs.FloatRows.{floating_refusal, floating_tree, focus_of_kind_refusal, focus_of_kind_tree, fullscreen_set, sticky_tree, wanted, wanted_kind};
ghost use Rattle.wm_floats.specs.Windows.{window_refusal};
ghost use Rattle.wm_shared.specs.Does.{DoesExactly};
ghost use Rattle.wm_shared.specs.Subject.{IsSubject};

use wm_base::{ConId, Refusal};
use wm_floats::focus_kind;
use wm_language::{Kind, OnOff};
use wm_tree::Tree;

/// Whether a property is to be on; `None` is the other way round from now.
fn wanted(arg: OnOff) -> Option<bool>
    ensures { result ≡ wanted arg }
{
    match arg {
        OnOff::Enable => Some(true),
        OnOff::Disable => Some(false),
        OnOff::Toggle => None,
    }
}

/// Whether the command goes to a floating window; `None` is the other way round from what the subject is.
fn wanted_kind(kind: Kind) -> Option<bool>
    ensures { result ≡ wanted_kind kind }
{
    match kind {
        Kind::Floating => Some(true),
        Kind::Tiling => Some(false),
        Kind::Toggle => None,
    }
}

/// Raises the most recent container of the kind in the subject's workspace.
pub fn focus_of_kind(t: &mut Tree, con: ConId, kind: Kind) -> Result<(), Refusal>
    requires { IsSubject t.old con }
    ensures { DoesExactly t.old t.new result (focus_of_kind_refusal con kind)
        (focus_of_kind_tree con kind) }
{
    focus_kind(t, con, wanted_kind(kind))
}

/// Makes the window float, or tiles it.
pub fn set_floating(t: &mut Tree, con: ConId, arg: OnOff) -> Result<(), Refusal>
    requires { IsSubject t.old con }
    ensures { DoesExactly t.old t.new result (floating_refusal con arg) (floating_tree con arg) }
{
    wm_floats::set_floating(t, con, wanted(arg))
}

/// Makes the window fill its output, or no longer.
pub fn set_fullscreen(t: &mut Tree, con: ConId, arg: OnOff) -> Result<(), Refusal>
    requires { IsSubject t.old con }
    ensures { DoesExactly t.old t.new result (window_refusal con) (fullscreen_set con arg) }
{
    wm_floats::set_fullscreen(t, con, wanted(arg))
}

/// Makes the window sticky, or no longer.
pub fn set_sticky(t: &mut Tree, con: ConId, arg: OnOff) -> Result<(), Refusal>
    requires { IsSubject t.old con }
    ensures { DoesExactly t.old t.new result (window_refusal con) (sticky_tree con arg) }
{
    wm_floats::set_sticky(t, con, wanted(arg))
}
