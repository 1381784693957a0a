//! What a client is told: answers, and what is asked of its windows.
ghost use Rattle.std.specs.Prelude.{◌≡◌, ◌≤◌, ◌⊎◌, suc, ℕ, List, Some, false, true, length};
ghost use Rattle.wm_cut.specs.Lines.{behind_line, first_line};
ghost use Rattle.wm_lines.specs.Told.{answer_text};
ghost use Rattle.wm_session.specs.Telling.{wire};
ghost use Rattle.wm_clients.specs.Served.{Stage, stage};
ghost use Rattle.wm_clients.specs.Serving.{free_spot, Going, GoesOn, IsPart, Spot};
ghost use Rattle.wm_clients.specs.Telling.{AreFew, Sends, Tells};
ghost use Rattle.wm_clients.specs.Wanted.{NONE_SENT, wants_text};

use crate::ending::ClientEnd;
use crate::sent::Sent;
use crate::stepping::{read_step, take_step};
use std::alloc::Global;
use std::sync::Wait;
use wm_core::{Answer, Door, Query, View, Want};
use wm_lines::{push_answer, push_wants};
use wm_ports::{Link, send_all};

/// What a client is told by: the greatest numbers that were sent of what is asked of its windows, how many of its lines
/// were answered, and the bytes that are to be sent.
#[derive(Drop)]
pub struct Teller {
    alloc: Global,
    pub sent: Sent,
    pub lines: u64,
    bytes: Vec<u8>,
}

impl Teller {
    /// No line was answered, and nothing was sent.
    pub fn new(alloc: Global) -> Teller
        ensures sent { result.sent ≡ NONE_SENT }
        ensures lines { result.lines ≡ 0 }
    {
        Teller {
            alloc,
            sent: Sent::nothing(),
            lines: 0,
            bytes: Vec::new(alloc),
        }
    }

    /// Sends the line of an answer, in one piece where the link takes it whole.
    fn send_answer<L: Link>(&mut self, answer: &Answer, link: &mut L) -> Result<(), ClientEnd>
        ensures sends { Sends (wire (L.told link.old) (L.faults link.old)) (wire (L.told link.new) (L.faults link.new)) (answer_text answer.now) result }
        ensures sent { self.new.sent ≡ self.old.sent }
        ensures lines { self.new.lines ≡ self.old.lines }
    {
        self.bytes.clear();
        push_answer(self.alloc, &mut self.bytes, answer)?;
        send_all(link, &self.bytes)?;
        Ok(())
    }

    /// Sends the lines of what is asked, in one piece where the link takes it whole.
    fn send_wants<L: Link>(&mut self, wants: &[Want], link: &mut L) -> Result<(), ClientEnd>
        ensures sends { Sends (wire (L.told link.old) (L.faults link.old)) (wire (L.told link.new) (L.faults link.new)) (wants_text wants.now) result }
        ensures sent { self.new.sent ≡ self.old.sent }
        ensures lines { self.new.lines ≡ self.old.lines }
    {
        self.bytes.clear();
        push_wants(self.alloc, &mut self.bytes, wants)?;
        send_all(link, &self.bytes)?;
        Ok(())
    }

    /// Sends what a view says is asked of the client's windows, and notes the greatest numbers.
    fn tell<L: Link>(&mut self, view: &View, link: &mut L) -> Result<(), ClientEnd>
        ensures tells { Tells view.now self.old.sent self.new.sent (wire (L.told link.old) (L.faults link.old)) (wire (L.told link.new) (L.faults link.new)) result }
        ensures lines { self.new.lines ≡ self.old.lines }
    {
        let View::Wants(wants) = view else {
            return Ok(());
        };
        self.send_wants(wants.items(), link)?;
        self.sent = self.sent.after(wants.items());
        Ok(())
    }

    /// Reads what is asked of the client's windows above the numbers that were sent, and sends it.
    fn read_wants<R: Wait, D: Door, L: Link>(
        &mut self,
        rt: &R,
        door: &D,
        pass: &mut D::Pass,
        link: &mut L,
    ) -> Result<(), ClientEnd>
        requires ready { D.is_of door.now pass.old × ((D.carried pass.old).turn ≡ false) }
        ensures door { D.is_of door.now pass.new }
        ensures turn { (D.carried pass.new).turn ≡ false }
        ensures lines { self.new.lines ≡ self.old.lines }
        ensures seen { length (D.carried pass.old).seen ≤ length (D.carried pass.new).seen }
        ensures reads { (first : Stage) → (s : Spot) → s.sent ≡ self.old.sent → s.due ≡ true → (s.turns ≡ s.stops) ⊎ (s.turns ≡ suc s.stops) →
            Going true first (stage (D.carried pass.old) (L.told link.old) (L.faults link.old)) s →
            GoesOn first (stage (D.carried pass.new) (L.told link.new) (L.faults link.new))
            (λ _. Going true first (stage (D.carried pass.new) (L.told link.new) (L.faults link.new)) (record s { sent = self.new.sent; due = false })) result }
    {
        let Sent { serial, kill } = self.sent;
        let view = door.look(rt, pass, &Query::Wants { serial, kill })?;
        let told = self.tell(&view, link);
        drop(view);
        told
    }

    /// Takes the step of a line, and sends its answer, and then what is asked of the client's windows.
    pub fn answer<R: Wait, D: Door, L: Link>(
        &mut self,
        rt: &R,
        door: &D,
        pass: &mut D::Pass,
        line: &[u8],
        link: &mut L,
    ) -> Result<(), ClientEnd>
        requires ready { D.is_of door.now pass.old × ((D.carried pass.old).turn ≡ false) }
        requires few { AreFew self.old.lines (D.carried pass.old).seen }
        ensures door { D.is_of door.now pass.new }
        ensures turn { (D.carried pass.new).turn ≡ false }
        ensures few { AreFew self.new.lines (D.carried pass.new).seen }
        ensures answers { (first : Stage) → (received pending : List ℕ) → (stops : ℕ) → first_line pending ≡ Some line.now →
            Going true first (stage (D.carried pass.old) (L.told link.old) (L.faults link.old)) (free_spot self.old.sent self.old.lines received pending (suc stops) stops) →
            GoesOn first (stage (D.carried pass.new) (L.told link.new) (L.faults link.new))
            (λ _. Going true first (stage (D.carried pass.new) (L.told link.new) (L.faults link.new)) (free_spot self.new.sent self.new.lines received (behind_line pending) (suc stops) stops)) result }
    {
        let step = read_step(self.alloc, line, self.lines + 1)?;
        let taken = take_step(rt, door, pass, &step);
        drop(step);
        let answer = taken?;
        self.lines += 1;
        let told = self.send_answer(&answer, link);
        drop(answer);
        told?;
        self.read_wants(rt, door, pass, link)
    }

    /// Asks whether the desk is to stop, and ends the session where it is. Otherwise it sends what is asked of the client's
    /// windows.
    pub fn ask_stop<R: Wait, D: Door, L: Link>(
        &mut self,
        rt: &R,
        door: &D,
        pass: &mut D::Pass,
        link: &mut L,
    ) -> Result<(), ClientEnd>
        requires ready { D.is_of door.now pass.old × ((D.carried pass.old).turn ≡ false) }
        requires few { AreFew self.old.lines (D.carried pass.old).seen }
        ensures door { D.is_of door.now pass.new }
        ensures turn { (D.carried pass.new).turn ≡ false }
        ensures few { AreFew self.new.lines (D.carried pass.new).seen }
        ensures asks { (first : Stage) → (received pending : List ℕ) → (stops : ℕ) → IsPart pending →
            Going true first (stage (D.carried pass.old) (L.told link.old) (L.faults link.old)) (free_spot self.old.sent self.old.lines received pending (suc stops) stops) →
            GoesOn first (stage (D.carried pass.new) (L.told link.new) (L.faults link.new))
            (λ _. Going true first (stage (D.carried pass.new) (L.told link.new) (L.faults link.new)) (free_spot self.new.sent self.new.lines received pending (suc stops) (suc stops))) result }
    {
        if door.stopped(rt, pass) {
            return Err(ClientEnd::Stopped);
        }
        self.read_wants(rt, door, pass, link)
    }
}
