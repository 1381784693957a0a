//! Giving marks to containers and taking them off.
ghost use Rattle.std.specs.Prelude.{◌≡◌};
ghost use Rattle.std.specs.Option.{option_copied};
ghost use Rattle.wm_focus.specs.Marks.{holder_of, is_mark, mark_refusal, mark_tree, unmark_refusal, unmark_tree};
ghost use Rattle.wm_shared.specs.Does.{DoesExactlyIfSound, DoesIfSound};
ghost use Rattle.wm_shared.specs.Subject.{IsSubject};

use crate::giving::{give, give_again};
use wm_base::{ConId, ErrorText, Refusal, Text};
use wm_shared::is_space;
use wm_tree::Tree;

/// How many bytes a mark has at most.
const MAX_MARK: usize = 256;

/// The first container, depth first, that has the mark. `None` exactly where no container has it.
pub fn marked(t: &Tree, name: &Text) -> Option<ConId>
    ensures { result ≡ holder_of name.now t.now }
{
    t.bearer(None, name)
}

/// Gives the mark to the container, and takes it off any other. Without `add` the container loses its other marks, and
/// with `toggle` it loses this one alone where it has it.
pub fn mark(t: &mut Tree, con: ConId, name: &Text, add: bool, toggle: bool) -> Result<(), Refusal>
    requires { IsSubject t.old con }
    ensures { DoesIfSound t.old t.new result (mark_refusal con name.now add toggle)
        (mark_tree con name.now add toggle) }
{
    if is_space(t, con) {
        return Err(Refusal::NoTarget(ErrorText::AtWorkspace));
    }
    if !is_mark(name) {
        return Err(Refusal::NoTarget(ErrorText::OutOfRange));
    }
    if !t.is_marked(con, name) {
        return give(t, con, name, add);
    }
    if toggle {
        t.remove_mark(con, name);
        return Ok(());
    }
    give_again(t, con, name, add);
    Ok(())
}

/// Whether it has 1 to 256 bytes.
fn is_mark(name: &Text) -> bool
    ensures { result ≡ is_mark name.now }
{
    let len = name.as_str().len();
    0 < len && len <= MAX_MARK
}

/// Takes the mark, or all marks, off the container, or off all containers. It is never refused.
pub fn unmark(t: &mut Tree, con: Option<ConId>, name: Option<&Text>) -> Result<(), Refusal>
    ensures { DoesExactlyIfSound t.old t.new result (unmark_refusal con (option_copied name.entry))
        (unmark_tree con (option_copied name.entry)) }
{
    match (con, name) {
        (Some(con), Some(name)) => t.remove_mark(con, name),
        (Some(con), None) => t.keep_mark(con, None),
        (None, Some(name)) => t.take_mark(None, name),
        (None, None) => t.strip(),
    }
    Ok(())
}
