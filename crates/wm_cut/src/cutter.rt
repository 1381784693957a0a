//! The cutter: bytes that were fed and not yet passed.
ghost use Rattle.std.specs.Prelude.{◌≡◌, ◌+◌, ◌<◌, ◌≤◌, ◌++◌, [], drop, length, OnOk, OnErr};
ghost use Rattle.std.specs.Option.{option_copied};
ghost use Rattle.wm_cut.specs.Lines.{behind_line, end_after, end_in, first_line};

use memchr::memchr;
use std::alloc::Global;
use std::marker::Model;
use wm_base::NoMemory;

/// Takes bytes in any pieces and gives their lines, one after another. Contracts see the bytes that were fed and not yet
/// passed.
#[derive(Debug, Drop)]
pub struct Cutter {
    bytes: Vec<u8>,
    at: usize,
    end: Option<usize>,
}

impl Model for Cutter {
    ghost use Rattle.std.specs.Prelude.{◌≡◌, ◌≤◌, ℕ, List, length, drop};
    ghost use Rattle.wm_cut.specs.Lines.{end_in};

    ghost Value = { List ℕ };

    ghost view = { λ c. drop c.at c.bytes.items };

    ghost invariant = { λ c. (c.at ≤ length c.bytes.items) × (c.end ≡ end_in (drop c.at c.bytes.items)) };
}

impl Cutter {
    /// A cutter that was fed nothing. It takes no memory.
    pub fn new(alloc: Global) -> Cutter
        ensures { result ≡ [] }
    {
        Cutter {
            bytes: Vec::new(alloc),
            at: 0,
            end: None,
        }
    }

    /// How many bytes were fed and not yet passed.
    pub fn rest(&self) -> usize
        ensures { result ≡ length self.now }
    {
        self.bytes.len() - self.at
    }

    /// Takes the next piece. After want of memory it is as before.
    pub fn feed(&mut self, piece: &[u8]) -> Result<(), NoMemory>
        ensures ok { OnOk result (self.new ≡ self.old ++ piece.now) }
        ensures err { OnErr result (self.new ≡ self.old) }
    {
        self.settle();
        let before = self.rest();
        self.bytes.extend_from_slice(piece)?;
        self.end = end_after(self.end, before, piece);
        Ok(())
    }

    /// The first line, without its line feed. There is none exactly where no line feed has come.
    #[tactic(auto, using(crate::proofs::CutLemmas::end_within, crate::proofs::CutLemmas::line_of_end, crate::proofs::CutLemmas::no_end))]
    pub fn line(&self) -> Option<&[u8]>
        ensures { option_copied result ≡ first_line self.now }
    {
        let end = self.end?;
        Some(&self.left()[..end])
    }

    /// Lets go of the first line and its line feed, or of all bytes where no line feed has come. It takes no memory.
    pub fn pass(&mut self)
        ensures { self.new ≡ behind_line self.old }
    {
        self.at += self.first_len();
        self.end = end_in(&self.bytes[self.at..]);
    }

    /// How many bytes the first line has with its line feed; all where no line feed has come.
    #[tactic(auto, using(crate::proofs::CutLemmas::end_within, crate::proofs::CutLemmas::behind_end, crate::proofs::CutLemmas::behind_no_end))]
    fn first_len(&self) -> usize
        ensures within { result ≤ length self.now }
        ensures behind { behind_line self.now ≡ drop result self.now }
    {
        let left = self.rest();
        match self.end {
            Some(end) => end + 1,
            None => left,
        }
    }

    /// The bytes that were fed and not yet passed.
    fn left(&self) -> &[u8]
        ensures { result.now ≡ self.now }
    {
        &self.bytes[self.at..]
    }

    /// Moves the bytes that are left to the front, once as many or more were passed: so no more bytes are moved than were
    /// passed.
    fn settle(&mut self)
        ensures { self.new ≡ self.old }
    {
        let left = self.rest();
        if self.at < left {
            return;
        }
        self.bytes.copy_within(self.at.., 0);
        self.bytes.truncate(left);
        self.at = 0;
    }
}

/// How many bytes the first line has.
#[tactic(auto, using(crate::proofs::CutLemmas::end_found))]
fn end_in(bytes: &[u8]) -> Option<usize>
    ensures { result ≡ end_in bytes.now }
{
    memchr(b'\n', bytes)
}

/// The same once the piece came behind so many bytes, whose first line had so many.
#[tactic(auto, using(crate::proofs::CutLemmas::end_within))]
fn end_after(end: Option<usize>, before: usize, piece: &[u8]) -> Option<usize>
    requires { before + length piece.now < 18446744073709551616 }
    ensures { result ≡ end_after end before piece.now }
{
    if end.is_some() {
        return end;
    }
    let end = end_in(piece)?;
    Some(before + end)
}
