//! The bytes of a frame that is not whole yet: its head, and then its payload so far.
ghost use Rattle.std.specs.Prelude.{◌≡◌, ℕ, ◌+◌, ◌-◌, ◌<◌, ◌≤◌, ◌++◌, ◌∷◌, [], drop, length, take, IfOk, OnOk, OnErr};
ghost use Rattle.wm_frames.specs.Decoding.{capped};
ghost use Rattle.wm_frames.specs.Front.{front_of, length_field, kind_field};
ghost use Rattle.wm_frames.specs.Reading.{messages, tail};
ghost use Rattle.wm_frames.specs.Step.{fault_at, kept};
ghost use Rattle.wm_frames.specs.Partial.{IsPartial};

use crate::front::{Front, number_at, read_front};
use crate::head::Head;
use crate::message::{FrameFault, HEAD, Message, add};
use crate::whole::read_frames;
use std::alloc::{AllocError, Global};
use std::collections::VecDeque;
use std::mem;
use wm_base::List;

/// A frame that is not whole yet.
#[derive(Debug, Drop)]
pub struct Partial {
    pub head: Head,
    pub body: Vec<u8>,
}

/// The fault at a place, where these bytes stand there.
pub fn fault_of(place: u64, bytes: &[u8]) -> Option<FrameFault>
    ensures { result ≡ fault_at place (front_of bytes.now) }
{
    match read_front(bytes) {
        Front::Whole(_) | Front::Part => None,
        Front::Wrong => Some(FrameFault::Magic { at: place }),
        Front::Long(len) => Some(FrameFault::TooLong { at: place, len }),
    }
}

impl Partial {
    /// No bytes.
    pub fn new(alloc: Global) -> Partial
        ensures head { result.head ≡ [] }
        ensures body { result.body.items ≡ [] }
        ensures partial { IsPartial result.head result.body.items }
    {
        Partial {
            head: Head::new(),
            body: Vec::new(alloc),
        }
    }

    /// Goes on with more bytes. The whole frame lacks this many bytes at least.
    pub fn go_on(&mut self, head: Head, after: &[u8], missing: usize) -> Result<(), AllocError>
        ensures ok_head { OnOk result (self.new.head ≡ head) }
        ensures ok_body { OnOk result (self.new.body.items ≡ self.old.body.items ++ after.now) }
        ensures err_head { OnErr result (self.new.head ≡ self.old.head) }
        ensures err_body { OnErr result (self.new.body.items ≡ self.old.body.items) }
    {
        // The payload's room is taken once, so that its bytes do not move again.
        self.body.reserve(missing)?;
        self.body.extend_from_slice(after)?;
        self.head = head;
        Ok(())
    }

    /// Ends the frame with as many of these bytes as it lacks, queues its message and those of the whole frames behind it,
    /// and begins with the rest. Gives the place of the rest, and its fault.
    pub fn end(
        &mut self,
        alloc: Global,
        place: u64,
        head: Head,
        after: &[u8],
        missing: usize,
        queue: &mut VecDeque<Message>,
    ) -> Result<(u64, Option<FrameFault>), AllocError>
        requires head { length head ≡ 14 }
        requires fits { length self.old.body.items + missing ≤ 262144 }
        requires enough { missing ≤ length after.now }
        ensures ok_queue { OnOk result (queue.new.items ≡ queue.old.items
            ++ record { kind = kind_field head; payload = self.old.body.items ++ take missing after.now } ∷ messages (drop missing after.now)) }
        ensures ok_rest { OnOk result (self.new.head ++ self.new.body.items
            ≡ kept (tail (drop missing after.now)) (front_of (tail (drop missing after.now)))) }
        ensures ok_partial { OnOk result (IsPartial self.new.head self.new.body.items) }
        ensures ok_place { IfOk result (λ r. r.0 ≡ capped (place + (14 + length self.old.body.items + missing
            + (length (drop missing after.now) - length (tail (drop missing after.now)))))) }
        ensures ok_fault { IfOk result (λ r. r.1 ≡ fault_at r.0 (front_of (tail (drop missing after.now)))) }
        ensures err_queue { OnErr result (queue.new.items ≡ queue.old.items) }
        ensures err_head { OnErr result (self.new.head ≡ self.old.head) }
        ensures err_body { OnErr result (self.new.body.items ≡ self.old.body.items) }
    {
        let (ends, later) = after.split_at(missing);
        let (fresh, rest) = read_frames(alloc, later)?;
        let size = HEAD + self.body.len() + missing + (later.len() - rest.len());
        let place = place.saturating_add(size as u64);
        let (next, fault) = begin(alloc, place, rest)?;
        self.complete(head, ends, next, queue, fresh)?;
        Ok((place, fault))
    }

    /// Ends the frame with its last bytes, puts its message and the fresh ones into the queue, and begins with the next.
    pub fn complete(
        &mut self,
        head: Head,
        ends: &[u8],
        next: Partial,
        queue: &mut VecDeque<Message>,
        mut fresh: VecDeque<Message>,
    ) -> Result<(), AllocError>
        requires { length head ≡ 14 }
        ensures ok_queue { OnOk result (queue.new.items ≡ queue.old.items
            ++ record { kind = kind_field head; payload = self.old.body.items ++ ends.now } ∷ fresh.items) }
        ensures ok_head { OnOk result (self.new.head ≡ next.head) }
        ensures ok_body { OnOk result (self.new.body.items ≡ next.body.items) }
        ensures err_queue { OnErr result (queue.new.items ≡ queue.old.items) }
        ensures err_head { OnErr result (self.new.head ≡ self.old.head) }
        ensures err_body { OnErr result (self.new.body.items ≡ self.old.body.items) }
    {
        queue.reserve(1 + fresh.len())?;
        self.body.reserve(ends.len())?;
        add(&mut self.body, ends);
        let kind = number_at(head.bytes(), 10);
        let whole = mem::replace(self, next);
        let Partial { head: _, body } = whole;
        queue.push_back_reserved(Message {
            kind,
            payload: List::of(body),
        });
        queue.append(&mut fresh).unwrap();
        Ok(())
    }
}

/// The bytes of a part of a frame.
fn held(alloc: Global, bytes: &[u8]) -> Result<Partial, AllocError>
    requires { front_of bytes.now ≡ Front.Part }
    ensures bytes { IfOk result (λ p. p.head ++ p.body.items ≡ bytes.now) }
    ensures partial { IfOk result (λ p. IsPartial p.head p.body.items) }
{
    let mut partial = Partial::new(alloc);
    let mut head = Head::new();
    let taken = head.fill(bytes);
    let (_, after) = bytes.split_at(taken);
    let missing = missing(head.bytes(), 0);
    partial.go_on(head, after, missing)?;
    Ok(partial)
}

/// The fault at the place of these bytes, which begin no whole frame, and what is kept of them.
pub fn begin(
    alloc: Global,
    place: u64,
    bytes: &[u8],
) -> Result<(Partial, Option<FrameFault>), AllocError>
    requires { (n : ℕ) → front_of bytes.now ≡ Front.Whole n → ⊥ }
    ensures bytes { IfOk result (λ r. r.0.head ++ r.0.body.items ≡ kept bytes.now (front_of bytes.now)) }
    ensures fault { IfOk result (λ r. r.1 ≡ fault_at place (front_of bytes.now)) }
    ensures partial { IfOk result (λ r. IsPartial r.0.head r.0.body.items) }
{
    let fault = fault_of(place, bytes);
    if fault.is_some() {
        return Ok((Partial::new(alloc), fault));
    }
    let partial = held(alloc, bytes)?;
    Ok((partial, None))
}

/// How many bytes the frame lacks at least, whose head has come so far and whose body has this many bytes.
pub fn missing(head: &[u8], body: usize) -> usize
    requires { 14 ≤ length head.now → body ≤ length_field head.now }
    ensures head { length head.now < 14 → result ≡ 14 - length head.now }
    ensures body { 14 ≤ length head.now → result + body ≡ length_field head.now }
{
    if head.len() < HEAD {
        return HEAD - head.len();
    }
    number_at(head, 6) as usize - body
}
