//! What a desk stands for where several callers share it.
use crate::asked::Asked;
use crate::desk::Desk;
use wm_history::Step;
use wm_layouts::Plan;
use wm_turn::Stands;

impl Stands for Desk {
    type Opening = Plan;

    type Step = Step;

    type Question = Asked;

    ghost use Rattle.wm_core.specs.DeskValue as desk;
    ghost use Rattle.wm_core.specs.Entries.{bare_step, history_of};

    ghost opening = { λ d. d.plan };

    ghost form = { bare_step };

    ghost stands = { λ d entries. desk.Stands d (history_of entries) };
}
