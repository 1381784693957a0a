//! Keys: a chord runs the text that is bound to it in the mode.
ghost use Rattle.std.specs.Prelude.{◌≡◌, ◌<◌, ◌^◌, map, IsTrue};
ghost use Rattle.std.specs.List.{list_all};
ghost use Rattle.wm_history.specs.Act.{Key, choice_of};
ghost use Rattle.wm_core.specs.Steps.{Takes};
ghost use Rattle.wm_history.specs.declared.step.Choice.{Choice};
ghost use Rattle.wm_criteria.specs.Prepared.{is_built};

use crate::desk::Desk;
use wm_base::{NoMemory, Text};
use wm_history::{Answer, Choice, bound, choice_for};

impl Desk {
    /// Runs the text of the first choice for the mode, and tells that the chord was bound to it.
    pub(crate) fn key(
        &mut self,
        who: u32,
        chord: &Text,
        choices: &[Choice],
    ) -> Result<Answer, NoMemory>
        requires built { IsTrue (list_all (λ (c : Choice). is_built c.prepared) choices.now) }
        requires few { self.old.steps < 2 ^ 48 }
        ensures { Takes self.old self.new result (record { who = who; act = Key chord.now (map choice_of choices.now) }) }
    {
        let Some(choice) = choice_for(choices, self.mode.as_str()) else {
            return Ok(self.stay(Answer::Unbound));
        };
        let event = bound(self.alloc, chord, &choice.prepared.text)?;
        self.run_text(&choice.prepared, Some(event))
    }
}
