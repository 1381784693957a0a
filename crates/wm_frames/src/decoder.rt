//! The decoder: bytes in any pieces, and the messages that they make.
ghost use Rattle.std.specs.Prelude.{◌≡◌, ◌++◌, ℕ, List, [], None, Some, Err, length, IfSome, IfNone, IfErr, OnOk};
ghost use Rattle.std.specs.Option.{option_to_list};

use crate::message::{FrameFault, Message};
use crate::partial::{Partial, fault_of, missing};
use std::alloc::Global;
use std::collections::VecDeque;
use std::marker::Model;

/// Takes bytes in any pieces and queues the messages whose frames are whole.
///
/// Contracts see the queue, the rest, the place where the rest or the fault stands, and the fault.
#[derive(Debug, Drop)]
pub struct Decoder {
    alloc: Global,
    partial: Partial,
    queue: VecDeque<Message>,
    place: u64,
    fault: Option<FrameFault>,
}

impl Model for Decoder {
    ghost use Rattle.std.specs.Prelude.{◌++◌};
    ghost use Rattle.wm_frames.specs.Decoding.{Decoding};

    ghost Value = { Decoding };

    ghost use Rattle.wm_frames.specs.Partial.{IsPartial};

    ghost view = { λ d. record { queue = d.queue.items; rest = d.partial.head ++ d.partial.body.items; place = d.place; fault = d.fault } };

    ghost invariant = { λ d. IsPartial d.partial.head d.partial.body.items };
}

impl Decoder {
    ghost use Rattle.wm_frames.specs.Decoding.{Stands};
    ghost use Rattle.wm_frames.specs.Step.{Takes};
    ghost use Rattle.wm_frames.specs.declared.message.Message.{Message};

    /// A decoder that was fed nothing.
    pub fn new(alloc: Global) -> Decoder
        ensures empty { result ≡ record { queue = []; rest = []; place = 0; fault = None } }
        ensures stands { Stands [] [] result }
    {
        Decoder {
            alloc,
            partial: Partial::new(alloc),
            queue: VecDeque::new(alloc),
            place: 0,
            fault: None,
        }
    }

    /// How many bytes the rest has: those after the last whole frame, and none after a fault.
    pub fn rest(&self) -> usize
        ensures { result ≡ length self.now.rest }
    {
        self.partial.head.bytes().len() + self.partial.body.len()
    }

    /// Takes the oldest queued message. There is none exactly where nothing is queued.
    pub fn next(&mut self) -> Option<Message>
        ensures queue { self.old.queue ≡ option_to_list result ++ self.new.queue }
        ensures none { IfNone result (self.old.queue ≡ []) }
        ensures others { self.new ≡ record self.old { queue = self.new.queue } }
        ensures stands { (fed : List ℕ) → (given : List Message) → Stands fed given self.old
            → Stands fed (given ++ option_to_list result) self.new }
    {
        self.queue.pop_front()
    }

    /// Takes the next piece, and queues each message whose frame is whole now. A fault is for good.
    pub fn feed(&mut self, piece: &[u8]) -> Result<(), FrameFault>
        // What was given and is queued, and the rest or the fault, are the one reading of all bytes fed.
        ensures stands { (result ≡ Err FrameFault.NoMemory → ⊥) → (fed : List ℕ) → (given : List Message)
            → Stands fed given self.old → Stands (fed ++ piece.now) given self.new }
        // The answer is the fault, where there is one, and each later feed answers the same.
        ensures ok { OnOk result (self.new.fault ≡ None) }
        ensures fault { IfErr result (λ e. (e ≡ FrameFault.NoMemory → ⊥) → self.new.fault ≡ Some e) }
        ensures for_good { IfSome self.old.fault (λ e. (result ≡ Err e) × (self.new ≡ self.old)) }
        ensures memory { result ≡ Err FrameFault.NoMemory → self.new ≡ self.old }
    {
        if let Some(fault) = self.fault {
            return Err(fault);
        }
        self.take(piece)
    }

    /// Reads the rest and the piece, where there was no fault.
    fn take(&mut self, piece: &[u8]) -> Result<(), FrameFault>
        requires { self.old.fault ≡ None }
        ensures takes { (result ≡ Err FrameFault.NoMemory → ⊥) → Takes self.old piece.now self.new }
        ensures ok { OnOk result (self.new.fault ≡ None) }
        ensures fault { IfErr result (λ e. (e ≡ FrameFault.NoMemory → ⊥) → self.new.fault ≡ Some e) }
        ensures memory { result ≡ Err FrameFault.NoMemory → self.new ≡ self.old }
    {
        let mut head = self.partial.head.copied();
        let taken = head.fill(piece);
        let (_, after) = piece.split_at(taken);
        if let Some(fault) = fault_of(self.place, head.bytes()) {
            self.partial = Partial::new(self.alloc);
            self.fault = Some(fault);
            return Err(fault);
        }
        let missing = missing(head.bytes(), self.partial.body.len());
        if after.len() < missing {
            self.partial.go_on(head, after, missing)?;
            return Ok(());
        }
        let (place, fault) = self.partial.end(
            self.alloc,
            self.place,
            head,
            after,
            missing,
            &mut self.queue,
        )?;
        self.place = place;
        self.fault = fault;
        fault.map_or(Ok(()), Err)
    }
}
