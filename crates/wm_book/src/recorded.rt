//! A desk that stores the first steps that are taken on it.
ghost use Rattle.std.specs.Prelude.{◌≡◌, ◌≤◌, ◌<◌, ◌⊎◌, List, [], ◌∷◌, Some, length, IfOk, MatchOption};
ghost use Rattle.wm_book.specs.Recorded.{IsRecord, entry_at, most_stored, stored};
ghost use Rattle.wm_history.specs.declared.step.Step as steps;
ghost use Rattle.wm_layouts.specs.Plan.{IsSound};
ghost use Rattle.wm_turn.specs.declared.view.Entry as turn;

use crate::entry::{Entry, bare_copy};
use crate::kept::Kept;
use std::alloc::Global;
use std::marker::Model;
use wm_base::NoMemory;
use wm_core::{Answer, Asked, ClientStep, Desk, Query, State, Step, View};
use wm_layouts::Plan;
use wm_paint::Frame;
use wm_turn::Stands;

/// How many steps are stored.
const MOST_STORED: usize = 65_536;

/// A desk that stores its first 65,536 steps. Later steps are taken and not stored.
#[derive(Drop)]
pub struct Recorded {
    alloc: Global,
    desk: Desk,
    entries: Vec<Entry>,
}

impl Model for Recorded {
    ghost use Rattle.std.specs.Prelude.{◌≤◌};
    ghost use Rattle.std.specs.Vec.{vec_capacity};
    ghost use Rattle.wm_book.specs.Recorded.{RecordedValue, most_stored, recorded_code};

    ghost Value = { RecordedValue };

    ghost coded = { recorded_code };

    ghost view = { λ r. record { desk = r.desk; entries = r.entries.items } };

    ghost invariant = { λ r. most_stored ≤ vec_capacity r.entries };
}

impl Stands for Recorded {
    type Opening = Plan;

    type Step = Step;

    type Question = Asked;

    ghost use Rattle.wm_book.specs.Recorded.{IsRecord};
    ghost use Rattle.wm_core.specs.Entries.{bare_step};

    ghost opening = { λ r. r.desk.plan };

    ghost form = { bare_step };

    ghost stands = { IsRecord };
}

impl Recorded {
    /// A recorded desk at the opening of its plan, with room for all steps that it stores.
    pub fn start(alloc: Global, plan: Plan) -> Result<Recorded, NoMemory>
        requires { IsSound plan }
        ensures plan { IfOk result (λ recorded. recorded.desk.plan ≡ plan) }
        ensures stands { IfOk result (λ recorded. IsRecord recorded []) }
    {
        let entries = Vec::with_capacity(alloc, MOST_STORED)?;
        let desk = Desk::start(alloc, plan)?;
        Ok(Recorded {
            alloc,
            desk,
            entries,
        })
    }

    /// The step at this place of the history, counted from 0, where it is stored. There is none exactly where so many
    /// steps were not taken, or are not stored.
    pub fn entry(&self, place: u64) -> Option<&Entry>
        ensures { (entries : List (turn.Entry steps.Step)) → IsRecord self.now entries →
            MatchOption result ((length entries ≤ place) ⊎ (most_stored ≤ place))
            (λ entry. (place < most_stored) × (entry_at place entries ≡ Some (record { who = entry.now.who; step = entry.now.step }))) }
    {
        self.entries.get(place as usize)
    }

    /// Stores the step of the caller, where there is room.
    fn store(&mut self, who: u32, step: Step)
        ensures desk { self.new.desk ≡ self.old.desk }
        ensures entries { (entries : List (turn.Entry steps.Step)) → self.old.entries ≡ stored entries →
            self.new.entries ≡ stored (record { who = who; step = step } ∷ entries) }
    {
        if self.entries.len() < MOST_STORED {
            self.entries.push_reserved(Entry { who, step });
        } else {
            drop(step);
        }
    }
}

impl Kept for Recorded {
    ghost use Rattle.wm_book.specs.Counting.{counts, says_form};

    ghost count = { λ r. r.desk.steps };

    fn step(&mut self, who: u32, step: &Step) -> Result<Answer, NoMemory> {
        if self.entries.len() >= MOST_STORED {
            return Ok(self.desk.step(who, step)?);
        }
        let copy = bare_copy(self.alloc, step)?;
        match self.desk.step(who, step) {
            Ok(answer) => {
                self.store(who, copy);
                Ok(answer)
            }
            Err(error) => {
                drop(copy);
                Err(error)
            }
        }
    }

    fn answer_client(&mut self, who: u32, step: &ClientStep) -> Answer {
        let answer = self.desk.answer_client(who, step);
        self.store(who, Step::Client(*step));
        answer
    }

    fn look(&self, who: u32, query: &Query) -> Result<View, NoMemory> {
        self.desk.look(who, query)
    }

    fn frame(&self) -> Result<Frame, NoMemory> {
        self.desk.frame()
    }

    fn state(&self) -> State {
        self.desk.state()
    }

    ghost counted = { λ r entries s. counts r.desk entries s.desk_stands };

    ghost says = { says_form };
}
