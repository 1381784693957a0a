//! Title formats of windows.
ghost use Rattle.wm_shared.specs.Does.{Does};
ghost use Rattle.wm_shared.specs.Subject.{IsSubject};
ghost use Rattle.wm_sizes.specs.Titles.{title_format_refusal, title_format_tree};

use crate::windows::look_refusal;
use wm_base::{ConId, Refusal, Text};
use wm_tree::Tree;

/// Gives the window this title format.
pub fn title_format(t: &mut Tree, con: ConId, format: &Text) -> Result<(), Refusal>
    requires { IsSubject t.old con }
    ensures { Does t.old t.new result (title_format_refusal con)
        (title_format_tree con format.now) }
{
    if let Some(error) = look_refusal(t, con) {
        return Err(error);
    }
    let Ok(format) = format.clone() else {
        return Err(Refusal::NoMemory);
    };
    t.set_title_format(con, format);
    Ok(())
}
