//! The texts of commands that are run.
ghost use Rattle.std.specs.Prelude.{◌≡◌, IfOk, IsTrue};
ghost use Rattle.wm_criteria.specs.Prepared.{is_built};
ghost use Rattle.wm_generate.specs.Texts.{ready, reads_plain, showing, text_by};

use std::alloc::Global;
use wm_base::NoMemory;
use wm_criteria::{Prepared, prepare_bare};

/// The prepared text that is run, by a number.
pub fn prepared(alloc: Global, number: u32) -> Result<Prepared, NoMemory>
    ensures text { IfOk result (λ p. p.text ≡ text_by number) }
    ensures verdict { IfOk result (λ p. p.verdict ≡ ready (text_by number)) }
    ensures built { IfOk result (λ p. IsTrue (is_built p)) }
{
    prepare_bare(alloc, text(number))
}

/// The text that is run, by a number.
fn text(number: u32) -> &'static str
    ensures { result.now ≡ text_by number }
{
    match number % 8 {
        0 => "split toggle",
        1 => "layout toggle all",
        2 => "focus left",
        3 => "focus right",
        4 => "move left",
        5 => "move right",
        6 => "floating toggle",
        _ => showing(number / 8),
    }
}

/// The text that shows one of the first four workspaces, by a number.
fn showing(number: u32) -> &'static str
    ensures { result.now ≡ showing number }
{
    match number % 4 {
        0 => "workspace number 1",
        1 => "workspace number 2",
        2 => "workspace number 3",
        _ => "workspace number 4",
    }
}
