//! What a line of a script says, and what was read so far.
ghost use Rattle.std.specs.Prelude.{◌≡◌, ◌≤◌, IfOk, IfSome, Ok, length};
ghost use Rattle.wm_script.specs.Lines.{is_blank, said_by, said_of, says_nothing, something_of, spoken_at, version_at, IsFitSaid};
ghost use Rattle.wm_script.specs.Script.{at_first, drafted, planned, with_said, IsTaken};
ghost use Rattle.wm_script.specs.declared.said.Said.TheVariants as saids;

use crate::deed_lines::deed_line;
use crate::drafting::take_plan;
use crate::line::Line;
use crate::plan_lines::plan_line;
use crate::said::Said;
use std::alloc::Global;
use wm_base::{Border, List, NoMemory};
use wm_binds::{Draft, push, text_of};
use wm_fields::{at_end, behind, gap, number, word_then};

/// What a line says. `None` exactly where it is outside the grammar.
pub(crate) fn said_of(alloc: Global, text: &[u8]) -> Result<Option<Said>, NoMemory>
    requires { length text.now ≤ 16777216 }
    ensures value { IfOk result (λ said. said ≡ said_of text.now) }
    ensures fit { IfOk result (λ said. IfSome said IsFitSaid) }
{
    if text_of(text).is_none() {
        return Ok(None);
    }
    if says_nothing(text) {
        return Ok(Some(Said::Nothing));
    }
    something_of(alloc, text)
}

/// Whether a line is of spaces alone, or a comment, which begins with `#`.
fn says_nothing(text: &[u8]) -> bool
    ensures { result ≡ says_nothing text.now }
{
    is_blank(text) || text.starts_with(b"#")
}

/// Whether there are spaces alone.
fn is_blank(text: &[u8]) -> bool
    ensures { result ≡ is_blank text.now }
{
    let mut rest = text;
    while let [b' ', after @ ..] = rest {
        rest = after;
    }
    rest.is_empty()
}

/// What a line says that says something.
fn something_of(alloc: Global, text: &[u8]) -> Result<Option<Said>, NoMemory>
    requires { length text.now ≤ 16777216 }
    ensures value { IfOk result (λ said. said ≡ something_of text.now) }
    ensures fit { IfOk result (λ said. IfSome said IsFitSaid) }
{
    if let Some(rest) = word_then(text, b"version") {
        return Ok(version_line(rest));
    }
    if let Some(rest) = behind(text, b"@") {
        return spoken_line(alloc, rest);
    }
    match plan_line(alloc, text)? {
        Some(said) => Ok(Some(said)),
        None => said_by(alloc, 0, text),
    }
}

/// `1`, to the end of the line.
fn version_line(text: &[u8]) -> Option<Said>
    ensures value { result ≡ version_at text.now }
    ensures fit { IfSome result IsFitSaid }
{
    let rest = behind(text, b"1")?;
    at_end(rest, Said::Version)
}

/// `WHO `, and then what the caller of this number does.
fn spoken_line(alloc: Global, text: &[u8]) -> Result<Option<Said>, NoMemory>
    requires { length text.now ≤ 16777216 }
    ensures value { IfOk result (λ said. said ≡ spoken_at text.now) }
    ensures fit { IfOk result (λ said. IfSome said IsFitSaid) }
{
    let Some((who, rest)) = number(text, u32::MAX) else {
        return Ok(None);
    };
    match gap(rest) {
        Some(rest) => said_by(alloc, who, rest),
        None => Ok(None),
    }
}

/// What the caller of this number does.
fn said_by(alloc: Global, who: u32, text: &[u8]) -> Result<Option<Said>, NoMemory>
    requires { length text.now ≤ 16777216 }
    ensures value { IfOk result (λ said. said ≡ said_by who text.now) }
    ensures fit { IfOk result (λ said. IfSome said IsFitSaid) }
{
    match deed_line(alloc, text)? {
        Some(deed) => Ok(Some(Said::Does(Line { who, deed }))),
        None => Ok(None),
    }
}

/// What was read so far: whether a line said something, whether a caller spoke, what the lines gave the plan, and what
/// callers do.
#[derive(Drop)]
pub struct Reading {
    pub opened: bool,
    pub begun: bool,
    pub draft: Draft,
    pub lines: List<Line>,
}

impl Reading {
    /// Before the first line.
    pub(crate) fn new(alloc: Global) -> Reading
        ensures { result ≡ at_first }
    {
        let mut draft = Draft::new(alloc);
        draft.border = Border::Bare;
        Reading {
            opened: false,
            begun: false,
            draft,
            lines: List::of(Vec::new(alloc)),
        }
    }

    /// One more line. `false` exactly where it may not stand there.
    pub(crate) fn take(&mut self, alloc: Global, said: Said) -> Result<bool, NoMemory>
        ensures { IsTaken (with_said self.old said) self.new result }
    {
        match said {
            Said::Nothing => Ok(true),
            Said::Version => Ok(self.open()),
            Said::Does(line) => self.add_line(alloc, line),
            said => self.plan(alloc, said),
        }
    }

    /// The version is the first line that says something.
    fn open(&mut self) -> bool
        ensures { IsTaken (with_said self.old saids.Version) self.new (Ok result) }
    {
        let is_first = !self.opened;
        self.opened = true;
        is_first
    }

    /// A caller does something.
    fn add_line(&mut self, alloc: Global, line: Line) -> Result<bool, NoMemory>
        ensures { IsTaken (with_said self.old (saids.Does line)) self.new result }
    {
        push(alloc, &mut self.lines, line)?;
        self.opened = true;
        self.begun = true;
        Ok(true)
    }

    /// A line of the plan stands before what callers do.
    fn plan(&mut self, alloc: Global, said: Said) -> Result<bool, NoMemory>
        ensures { IsTaken (planned self.old (drafted self.old.draft said)) self.new result }
    {
        if self.begun {
            drop(said);
            return Ok(false);
        }
        self.opened = true;
        take_plan(alloc, &mut self.draft, said)
    }
}
