//! What was read so far, and what a line adds to it.
ghost use Rattle.std.specs.Prelude.{◌≡◌, ◌++◌, ◌∷◌, [], IfOk, OnOk, Ok};
ghost use Rattle.wm_binds.specs.Blocks.{at_top, blank_draft, bound, default_mode, in_bar, in_mode, listed, opened, with_output, IsStep};
ghost use Rattle.wm_binds.specs.Reading.{entered};
ghost use Rattle.wm_binds.specs.declared.draft.LineRefusal.TheVariants as faults;
ghost use Rattle.wm_layouts.specs.Plan.{is_taken};

use crate::config::Bind;
use crate::entry::Entry;
use crate::modes::ModeTable;
use crate::table::BindTable;
use crate::words::{are_same, past_blanks};
use std::alloc::{AllocError, AllocFailed, Global};
use std::mem;
use wm_base::{Border, List, NoMemory as OutOfMemory, OutputPlan, Str, Text};
use wm_saved::SavedLayout;

/// How many outputs a plan has at most.
const MAX_OUTPUTS: usize = 8;

/// How many bytes the lines have at most together, as they are read: as many as an input.
const MAX_READ: usize = 16_777_216;

/// Where a line stands: at the top, in the block of a mode, or in that of a bar.
#[derive(Drop)]
pub enum Block {
    Top,
    Mode(Text),
    Bar,
}

/// What the lines so far give.
#[derive(Drop)]
pub struct Draft {
    pub outputs: List<OutputPlan>,
    pub border: Border,
    pub inner: u32,
    pub outer: u32,
    pub modes: ModeTable,
    pub homes: List<(Text, Text)>,
    pub layouts: List<(Text, SavedLayout)>,
    pub binds: BindTable,
    pub block: Block,
    /// How many bytes of lines may still be read, as they are with their names replaced; of a line that sets a name its
    /// value counts.
    pub room: usize,
}

/// Why a line was refused.
#[derive(Clone, Copy)]
pub enum LineRefusal {
    /// It is outside the grammar.
    Outside,
    /// It has one output more than a plan may have.
    Full,
    NoMemory,
}

impl From<OutOfMemory> for LineRefusal {
    ghost from_gives = { λ _ e. e ≡ faults.NoMemory };

    fn from(_error: OutOfMemory) -> LineRefusal {
        LineRefusal::NoMemory
    }
}

impl From<AllocError> for LineRefusal {
    ghost from_gives = { λ _ e. e ≡ faults.NoMemory };

    fn from(_error: AllocError) -> LineRefusal {
        LineRefusal::NoMemory
    }
}

impl<T: Drop> From<AllocFailed<T>> for LineRefusal {
    ghost from_gives = { λ _ e. e ≡ faults.NoMemory };

    fn from(_error: AllocFailed<T>) -> LineRefusal {
        LineRefusal::NoMemory
    }
}

/// Adds an item at the end.
pub fn push<T: Drop>(alloc: Global, list: &mut List<T>, item: T) -> Result<(), OutOfMemory>
    ensures { OnOk result (list.new ≡ list.old ++ item ∷ []) }
{
    let mut items = mem::replace(list, List::of(Vec::new(alloc))).into_vec();
    items.push(item)?;
    drop(mem::replace(list, List::of(items)));
    Ok(())
}

/// Whether one of the outputs has the name.
fn is_taken(outputs: &[OutputPlan], name: &Text) -> bool
    ensures { result ≡ is_taken name.now outputs.now }
{
    match outputs {
        [] => false,
        [first, rest @ ..] => first.name.as_str() == name.as_str() || is_taken(rest, name),
    }
}

/// The name of the mode that has no block.
fn default_mode(alloc: Global) -> Result<Text, OutOfMemory>
    ensures { IfOk result (λ mode. mode ≡ default_mode) }
{
    match Text::new(alloc, "default") {
        Ok(mode) => Ok(mode),
        Err(_) => Err(OutOfMemory),
    }
}

impl Draft {
    /// Before the first line.
    pub fn new(alloc: Global) -> Draft
        ensures { result ≡ blank_draft }
    {
        Draft {
            outputs: List::of(Vec::new(alloc)),
            border: Border::Normal(2),
            inner: 0,
            outer: 0,
            modes: ModeTable::new(alloc),
            homes: List::of(Vec::new(alloc)),
            layouts: List::of(Vec::new(alloc)),
            binds: BindTable::new(alloc),
            block: Block::Top,
            room: MAX_READ,
        }
    }

    /// A line that sets no name, in the block in which it stands.
    pub(crate) fn enter(&mut self, alloc: Global, entry: Entry) -> Result<(), LineRefusal>
        ensures { IsStep (entered self.old self.old.block entry) self.new result }
    {
        match &self.block {
            Block::Top => self.enter_top(alloc, entry),
            Block::Mode(name) => match name.clone() {
                Ok(mode) => self.enter_mode(alloc, mode, entry),
                Err(_) => Err(LineRefusal::NoMemory),
            },
            Block::Bar => Ok(()),
        }
    }

    /// A line in the block of a bar: it is passed over, unless it ends the block.
    pub(crate) fn pass(&mut self, text: &[u8])
        ensures { self.new ≡ in_bar self.old text.now }
    {
        if are_same(past_blanks(text), b"}") {
            self.block = Block::Top;
        }
    }

    /// A line in the block of this mode.
    fn enter_mode(&mut self, alloc: Global, mode: Text, entry: Entry) -> Result<(), LineRefusal>
        ensures { IsStep (in_mode self.old mode entry) self.new result }
    {
        match entry {
            Entry::Nothing => Ok(()),
            Entry::Key { chord, text } => self.bind(alloc, mode, chord, text),
            Entry::Close => {
                self.block = Block::Top;
                Ok(())
            }
            _ => Err(LineRefusal::Outside),
        }
    }

    /// A line at the top.
    fn enter_top(&mut self, alloc: Global, entry: Entry) -> Result<(), LineRefusal>
        ensures { IsStep (at_top self.old entry) self.new result }
    {
        match entry {
            Entry::Nothing | Entry::Passed => {}
            Entry::Bar => self.block = Block::Bar,
            Entry::Mode(name) => return self.open_mode(alloc, name),
            Entry::Close => return Err(LineRefusal::Outside),
            Entry::Key { chord, text } => {
                let mode = default_mode(alloc)?;
                return self.bind(alloc, mode, chord, text);
            }
            Entry::Border(border) => self.border = border,
            Entry::Inner(width) => self.inner = width,
            Entry::Outer(width) => self.outer = width,
            Entry::Home { name, output } => push(alloc, &mut self.homes, (name, output))?,
            Entry::Output(output) => return self.add_output(alloc, output),
            Entry::Layout { name, layout } => push(alloc, &mut self.layouts, (name, layout))?,
        }
        Ok(())
    }

    /// The chord runs the text in the mode.
    pub fn bind(
        &mut self,
        alloc: Global,
        mode: Text,
        chord: Text,
        text: Str,
    ) -> Result<(), LineRefusal>
        ensures { IsStep (Ok (bound self.old mode chord text)) self.new result }
    {
        self.binds.put(alloc, Bind { mode, chord, text })?;
        Ok(())
    }

    /// There is this mode. It is listed once, and the default one never.
    pub fn add_mode(&mut self, alloc: Global, name: &Text) -> Result<(), OutOfMemory>
        ensures { OnOk result (self.new ≡ listed self.old name.now) }
    {
        if name.as_str() == "default" {
            return Ok(());
        }
        self.modes.put(alloc, name)
    }

    /// The block of the mode begins.
    fn open_mode(&mut self, alloc: Global, name: Text) -> Result<(), LineRefusal>
        ensures { IsStep (Ok (opened self.old name)) self.new result }
    {
        if self.add_mode(alloc, &name).is_err() {
            return Err(LineRefusal::NoMemory);
        }
        self.block = Block::Mode(name);
        Ok(())
    }

    /// One more output, with a name of its own.
    pub fn add_output(&mut self, alloc: Global, output: OutputPlan) -> Result<(), LineRefusal>
        ensures { IsStep (with_output self.old output) self.new result }
    {
        if is_taken(self.outputs.items(), &output.name) {
            return Err(LineRefusal::Outside);
        }
        if self.outputs.items().len() >= MAX_OUTPUTS {
            return Err(LineRefusal::Full);
        }
        push(alloc, &mut self.outputs, output)?;
        Ok(())
    }
}
