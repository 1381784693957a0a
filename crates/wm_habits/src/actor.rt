//! A modelled client.
ghost use Rattle.std.specs.Prelude.{◌≡◌, IfOk, OnOk, OnErr, map, string_bytes};
ghost use Rattle.wm_habits.specs.Acting.{due, opening, says, then_acting};
ghost use Rattle.wm_habits.specs.Asking.{asked_of};
ghost use Rattle.wm_habits.specs.Saying.{line_bytes};

use crate::asking::{Asked, asked_in};
use crate::habit::Habit;
use crate::saying::{bytes_of, said_to};
use std::alloc::Global;
use std::collections::VecDeque;
use std::marker::Model;
use wm_base::NoMemory;

/// A modelled client: its habit, and what the lines asked that it has not yet answered.
#[derive(Debug, Drop)]
pub struct Actor {
    alloc: Global,
    habit: Habit,
    waiting: VecDeque<Option<Asked>>,
}

impl Model for Actor {
    ghost use Rattle.wm_habits.specs.Acting.{Acting};

    ghost Value = { Acting };

    ghost view = { λ a. record { habit = a.habit; waiting = a.waiting.items } };
}

impl Actor {
    /// A client of this habit, to which no line came.
    pub fn new(alloc: Global, habit: Habit) -> Actor
        ensures { result ≡ opening habit }
    {
        Actor {
            alloc,
            habit,
            waiting: VecDeque::new(alloc),
        }
    }

    /// The lines that it sends on a line from the server. After want of memory it is as before.
    pub fn answer(&mut self, line: &str) -> Result<Vec<String>, NoMemory>
        ensures said { IfOk result (λ lines. map string_bytes lines.items ≡ says self.old (asked_of line.now)) }
        ensures ok { OnOk result (self.new ≡ then_acting self.old (asked_of line.now)) }
        ensures err { OnErr result (self.new ≡ self.old) }
    {
        let asked = asked_in(line.as_bytes());
        let said = self.says(asked)?;
        self.note(asked)?;
        Ok(said)
    }

    /// The allocator that it takes memory from.
    pub fn allocator(&self) -> Global {
        self.alloc
    }

    /// The bytes of the lines that it says to a line that asks so.
    pub fn bytes_said(&self, asked: Option<Asked>) -> Result<Vec<u8>, NoMemory>
        ensures { IfOk result (λ bytes. bytes.items ≡ line_bytes (says self.now asked)) }
    {
        let said = self.says(asked)?;
        bytes_of(self.alloc, said.as_slice())
    }

    /// The lines that it says to a line that asks so.
    fn says(&self, asked: Option<Asked>) -> Result<Vec<String>, NoMemory>
        ensures { IfOk result (λ lines. map string_bytes lines.items ≡ says self.now asked) }
    {
        said_to(self.alloc, self.habit, self.due(asked))
    }

    /// What is answered once a line comes that asks so.
    fn due(&self, asked: Option<Asked>) -> Option<Asked>
        ensures { result ≡ due self.now asked }
    {
        if self.waiting.len() < self.habit.lines() as usize {
            return None;
        }
        match self.waiting.front() {
            Some(first) => *first,
            None => asked,
        }
    }

    /// Notes that a line came that asks so. After want of memory it is as before.
    pub fn note(&mut self, asked: Option<Asked>) -> Result<(), NoMemory>
        ensures ok { OnOk result (self.new ≡ then_acting self.old asked) }
        ensures err { OnErr result (self.new ≡ self.old) }
    {
        let is_early = self.waiting.len() < self.habit.lines() as usize;
        self.waiting.push_back(asked)?;
        if !is_early {
            self.waiting.pop_front();
        }
        Ok(())
    }
}
