//! The lines of cases on transactions.
ghost use Rattle.std.specs.Prelude.{◌≡◌, ◌≤◌, ◌<◌, ◌+◌, ◌^◌, IfOk};
ghost use Rattle.wm_txn.specs.Machine.{last_prefix};

use crate::placed::push_parts;
use crate::telling::tell_case;
use case_data::{Fault, Words};
use std::alloc::{AllocError, Global};
use std::mem;
use wm_arrange::{Arrangement, Placed, PlacedPart};
use wm_base::{Buffer, ConId, List, NoMemory, Size};
use wm_txn::{AckRefusal, BufferRefusal, Txn};

/// How many lines of a case are taken.
const MOST: u64 = 1_000_000;

/// The transactions of a case, and how many entries they took.
#[derive(Drop)]
struct Transactions {
    txn: Txn,
    place: u64,
    ghost rises: { last_prefix txn ≤ place },
    ghost few: { place ≤ 1000000 },
}

/// What an entry brings: the arrangement after it, the window that it mapped, and those that are gone.
#[derive(Drop)]
struct News {
    parts: Vec<Placed>,
    fresh: Option<(ConId, Buffer)>,
    gone: Vec<ConId>,
}

/// Does what the lines of a text say, and appends what comes out.
pub fn play_transactions(alloc: Global, text: &str, out: &mut String) -> Result<(), Fault> {
    let mut transactions = Transactions::start(alloc)?;
    let answer = transactions.take_lines(alloc, text, out);
    drop(transactions);
    answer
}

impl Transactions {
    /// Transactions that begin with an empty arrangement.
    fn start(alloc: Global) -> Result<Transactions, NoMemory> {
        let first = Arrangement {
            parts: List::of(Vec::new(alloc)),
        };
        let txn = Txn::start(alloc, first)?;
        Ok(Transactions { txn, place: 0 })
    }

    fn take_lines(&mut self, alloc: Global, text: &str, out: &mut String) -> Result<(), Fault> {
        for line in text.lines() {
            if !line.is_empty() && !line.starts_with('#') {
                self.take_line(alloc, line, out)?;
            }
        }
        Ok(())
    }

    fn take_line(&mut self, alloc: Global, line: &str, out: &mut String) -> Result<(), Fault> {
        match self.run(&mut Words::of(alloc, line), out) {
            Err(Fault::BadLine) => Ok(writeln!(out, "bad line: {line}")?),
            answer => answer,
        }
    }

    fn run(&mut self, words: &mut Words<'_>, out: &mut String) -> Result<(), Fault> {
        match words.word() {
            "case" => self.begin(words, out),
            "admit" => self.admit(words),
            "deadline" => self.deadline(words),
            word => self.answer(word, words, out),
        }
    }

    /// Does what a call says that answers.
    fn answer(&mut self, word: &str, words: &mut Words<'_>, out: &mut String) -> Result<(), Fault> {
        match word {
            "ack" => self.ack(words, out),
            "buffer" => self.buffer(words, out),
            "tell" => self.tell(words, out),
            "current" => Ok(push_parts(out, self.txn.current())?),
            _ => Err(Fault::BadLine),
        }
    }

    /// Begins a case.
    fn begin(&mut self, words: &mut Words<'_>, out: &mut String) -> Result<(), Fault> {
        let transactions = Transactions::start(words.alloc)?;
        drop(mem::replace(self, transactions));
        tell_case(words, out)
    }

    /// The number of earlier entries. Counts one more.
    fn count(&mut self) -> Result<u64, Fault>
        ensures place { IfOk result (λ place. (place < 2 ^ 48) × (last_prefix self.old.txn ≤ place) × (place + 1 ≡ self.new.place)) }
        ensures same { self.new.txn ≡ self.old.txn }
    {
        if self.place >= MOST {
            return Err(Fault::BadLine);
        }
        let place = self.place;
        self.place += 1;
        Ok(place)
    }

    fn admit(&mut self, words: &mut Words<'_>) -> Result<(), Fault> {
        let News { parts, fresh, gone } = read_news(words)?;
        let place = self.count()?;
        let newest = Arrangement {
            parts: List::of(parts),
        };
        Ok(self.txn.admit(place, newest, fresh, &gone)?)
    }

    fn ack(&mut self, words: &mut Words<'_>, out: &mut String) -> Result<(), Fault> {
        let con = words.con()?;
        let serial = words.serial()?;
        let _place = self.count()?;
        let answer = self.txn.ack(con, serial);
        Ok(push_acked(out, answer)?)
    }

    fn buffer(&mut self, words: &mut Words<'_>, out: &mut String) -> Result<(), Fault> {
        let con = words.con()?;
        let buffer = buffer(words)?;
        let place = self.count()?;
        let answer = self.txn.buffer(place, con, buffer);
        Ok(out.push_str(taken_line(answer))?)
    }

    fn deadline(&mut self, words: &mut Words<'_>) -> Result<(), Fault> {
        let number = words.serial()?;
        let place = self.count()?;
        self.txn.deadline(place, number);
        Ok(())
    }

    /// `tell 4 5`: what has ended and what waits, and of each window what it shows and was asked.
    fn tell(&self, words: &mut Words<'_>, out: &mut String) -> Result<(), Fault> {
        push_state(out, &self.txn)?;
        for _ in 0..9 {
            if words.is_done() {
                break;
            }
            push_window(out, &self.txn, words.con()?)?;
        }
        Ok(())
    }
}

fn push_acked(out: &mut String, answer: Result<(), AckRefusal>) -> Result<(), AllocError> {
    match answer {
        Ok(()) => out.push_str("done\n"),
        Err(AckRefusal::NoView) => out.push_str("no view\n"),
        Err(AckRefusal::BadSerial { asked, last }) => writeln!(out, "bad serial {asked} {last}"),
    }
}

/// The line that says whether a buffer was taken.
fn taken_line(answer: Result<(), BufferRefusal>) -> &'static str {
    match answer {
        Ok(()) => "done\n",
        Err(BufferRefusal::NoView) => "no view\n",
        Err(BufferRefusal::Empty) => "empty\n",
    }
}

fn push_state(out: &mut String, txn: &Txn) -> Result<(), AllocError> {
    write!(
        out,
        "done {}, prefix {}, waiting ",
        txn.done(),
        txn.prefix()
    )?;
    match txn.waiting() {
        Some(waiting) => {
            let (number, least, acked) = (waiting.number, waiting.least.0, waiting.acked);
            writeln!(out, "{number} for {least}, acknowledged {acked}")
        }
        None => writeln!(out, "none"),
    }
}

fn push_window(out: &mut String, txn: &Txn, con: ConId) -> Result<(), AllocError> {
    write!(out, "{} shows ", con.0)?;
    push_shown(out, txn.shown(con))?;
    push_asked(out, txn.asked(con))
}

fn push_shown(out: &mut String, shown: Option<Buffer>) -> Result<(), AllocError> {
    match shown {
        Some(Buffer { ink, size }) => write!(out, "{:06x} {}x{}", ink.0, size.w, size.h),
        None => out.push_str("none"),
    }
}

fn push_asked(out: &mut String, asked: Option<(u64, Size)>) -> Result<(), AllocError> {
    match asked {
        Some((serial, size)) => writeln!(out, ", asked {serial} {}x{}", size.w, size.h),
        None => writeln!(out, ", asked none"),
    }
}

/// A buffer like `00ff00 640x480`.
fn buffer(words: &mut Words<'_>) -> Result<Buffer, Fault> {
    Ok(Buffer {
        ink: words.ink()?,
        size: words.size()?,
    })
}

/// What an entry brings, as `map 4 00ff00 640x480 content 4 0,0 1000x800` or `gone 4`.
fn read_news(words: &mut Words<'_>) -> Result<News, Fault> {
    let mut news = News {
        parts: Vec::new(words.alloc),
        fresh: None,
        gone: Vec::new(words.alloc),
    };
    for _ in 0..100 {
        if words.is_done() {
            break;
        }
        take_news(&mut news, words)?;
    }
    Ok(news)
}

fn take_news(news: &mut News, words: &mut Words<'_>) -> Result<(), Fault> {
    match words.word() {
        "map" => {
            news.fresh = Some(fresh(words)?);
            Ok(())
        }
        "gone" => take_gone(&mut news.gone, words),
        word => take_part(&mut news.parts, word, words),
    }
}

fn take_gone(gone: &mut Vec<ConId>, words: &mut Words<'_>) -> Result<(), Fault> {
    let con = words.con()?;
    Ok(gone.push(con)?)
}

fn take_part(parts: &mut Vec<Placed>, word: &str, words: &mut Words<'_>) -> Result<(), Fault> {
    let part = part(word, words)?;
    Ok(parts.push(part)?)
}

fn fresh(words: &mut Words<'_>) -> Result<(ConId, Buffer), Fault> {
    let con = words.con()?;
    Ok((con, buffer(words)?))
}

/// A part of an arrangement like `content 4 0,0 1000x800`, behind its word.
fn part(word: &str, words: &mut Words<'_>) -> Result<Placed, Fault> {
    let con = words.con()?;
    let rect = words.rect()?;
    let part = kind(word)?;
    Ok(Placed { con, part, rect })
}

fn kind(word: &str) -> Result<PlacedPart, Fault> {
    match word {
        "back" => Ok(PlacedPart::Back),
        "area" => Ok(PlacedPart::Area),
        "content" => Ok(PlacedPart::Content),
        _ => Err(Fault::BadLine),
    }
}
