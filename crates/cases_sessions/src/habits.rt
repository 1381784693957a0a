//! Modelled clients and timers, each asked again and again.
use case_data::{Fault, Words, number_of};
use std::alloc::AllocError;
use wm_actors::Timer;
use wm_habits::{Actor, Habit};

/// From `HABIT|LINE ; LINE`, what a client of this habit says to each line of a server.
pub fn tell_habit(fields: &mut Words<'_>, out: &mut String) -> Result<(), Fault> {
    let alloc = fields.alloc;
    let habit = habit_of(&mut Words::of(alloc, fields.until("|")))?;
    let mut actor = Actor::new(alloc, habit);
    for line in fields.rest().split(" ; ") {
        let said = actor.answer(line)?;
        push_said(line, &said, out)?;
    }
    Ok(())
}

/// The habit of `at-once`, `late LINES`, `never` or `wrong`.
pub fn habit_of(words: &mut Words<'_>) -> Result<Habit, Fault> {
    match words.word() {
        "at-once" => Ok(Habit::AtOnce),
        "late" => Ok(Habit::Late {
            lines: words.number()?,
        }),
        "never" => Ok(Habit::Never),
        "wrong" => Ok(Habit::Wrong),
        _ => Err(Fault::BadLine),
    }
}

/// Writes a line, and what is said to it.
fn push_said(line: &str, said: &[String], out: &mut String) -> Result<(), AllocError> {
    write!(out, "  {line} ->")?;
    for part in said {
        write!(out, " {part};")?;
    }
    out.push_str("\n")
}

/// From `HOLD|CLOCK WAITING ; CLOCK WAITING`, where `-` stands for none that waits, the deadline that a timer gives at each
/// of these numbers of a clock.
pub fn tell_timer(fields: &mut Words<'_>, out: &mut String) -> Result<(), Fault> {
    let alloc = fields.alloc;
    let mut timer = Timer::new(u64::from(number_of(fields.until("|"))?));
    for pair in fields.rest().split(" ; ") {
        let mut words = Words::of(alloc, pair);
        let clock = words.serial()?;
        let due = timer.decide(clock, waiting_of(words.word())?);
        push_due(pair, due, out)?;
    }
    Ok(())
}

/// The number of a transaction that waits, or none for `-`.
fn waiting_of(word: &str) -> Result<Option<u64>, Fault> {
    match word {
        "-" => Ok(None),
        number => Ok(Some(u64::from(number_of(number)?))),
    }
}

/// Writes a pair, and the deadline that is given at it.
fn push_due(pair: &str, due: Option<u64>, out: &mut String) -> Result<(), AllocError> {
    match due {
        Some(number) => write!(out, "  {pair} -> deadline {number}\n"),
        None => write!(out, "  {pair} -> -\n"),
    }
}
