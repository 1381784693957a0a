//! The words of a line of data, and what they stand for.
use crate::fault::Fault;
use std::alloc::Global;
use wm_base::{Border, ConId, Edges, Ink, Layout, Rect, Size, Text};

/// The words of a line that are left.
#[derive(Drop)]
pub struct Words<'a> {
    pub alloc: Global,
    rest: &'a str,
}

impl<'a> Words<'a> {
    /// The words of a line.
    pub fn of(alloc: Global, line: &'a str) -> Words<'a> {
        Words { alloc, rest: line }
    }

    /// The next word, empty where none is left.
    pub fn word(&mut self) -> &'a str {
        self.until(" ")
    }

    /// What stands before the next mark of this kind, or all that is left where there is none.
    pub fn until(&mut self, mark: &str) -> &'a str {
        let rest = self.rest;
        match rest.split_once(mark) {
            Some((part, after)) => {
                self.rest = after;
                part
            }
            None => {
                self.rest = "";
                rest
            }
        }
    }

    /// All that is left of the line.
    pub fn rest(&mut self) -> &'a str {
        let rest = self.rest;
        self.rest = "";
        rest
    }

    /// Whether nothing is left of the line.
    pub fn is_done(&self) -> bool {
        self.rest.is_empty()
    }

    /// A number of one word.
    pub fn number(&mut self) -> Result<u32, Fault> {
        number_of(self.word())
    }

    /// The id of a container.
    pub fn con(&mut self) -> Result<ConId, Fault> {
        Ok(ConId(self.number()?))
    }

    /// A number of a transaction.
    pub fn serial(&mut self) -> Result<u64, Fault> {
        Ok(u64::from(self.number()?))
    }

    /// A text that is all that is left of the line.
    pub fn last_text(&mut self) -> Result<Text, Fault> {
        Ok(Text::new(self.alloc, self.rest())?)
    }

    /// A text of one word.
    pub fn text(&mut self) -> Result<Text, Fault> {
        Ok(Text::new(self.alloc, self.word())?)
    }

    /// A size like `30x20`.
    pub fn size(&mut self) -> Result<Size, Fault> {
        let Some((w, h)) = self.word().split_once('x') else {
            return Err(Fault::BadLine);
        };
        Ok(Size {
            w: number_of(w)?,
            h: number_of(h)?,
        })
    }

    /// A rectangle like `10,20 30x40`.
    pub fn rect(&mut self) -> Result<Rect, Fault> {
        let Some((x, y)) = self.word().split_once(',') else {
            return Err(Fault::BadLine);
        };
        let (x, y) = (place(x)?, place(y)?);
        let Size { w, h } = self.size()?;
        Ok(Rect { x, y, w, h })
    }

    /// Widths along the upper, right, lower and left side.
    pub fn edges(&mut self) -> Result<Edges, Fault> {
        Ok(Edges {
            top: self.number()?,
            right: self.number()?,
            bottom: self.number()?,
            left: self.number()?,
        })
    }

    /// A layout: `splith`, `splitv`, `tabbed` or `stacked`.
    pub fn layout(&mut self) -> Result<Layout, Fault> {
        match self.word() {
            "splith" => Ok(Layout::SplitH),
            "splitv" => Ok(Layout::SplitV),
            "tabbed" => Ok(Layout::Tabbed),
            "stacked" => Ok(Layout::Stacked),
            _ => Err(Fault::BadLine),
        }
    }

    /// A border: `none`, `pixel` or `normal` with a width.
    pub fn border(&mut self) -> Result<Border, Fault> {
        match self.word() {
            "none" => Ok(Border::Bare),
            "pixel" => Ok(Border::Pixel(self.number()?)),
            "normal" => Ok(Border::Normal(self.number()?)),
            _ => Err(Fault::BadLine),
        }
    }

    /// An ink in six hexadecimal digits.
    pub fn ink(&mut self) -> Result<Ink, Fault> {
        match u32::from_str_radix(self.word(), 16) {
            Ok(ink) => Ok(Ink(ink)),
            Err(_) => Err(Fault::BadLine),
        }
    }
}

/// The number that a word is.
pub fn number_of(word: &str) -> Result<u32, Fault> {
    match word.parse::<u32>() {
        Ok(number) => Ok(number),
        Err(_) => Err(Fault::BadLine),
    }
}

fn place(word: &str) -> Result<i32, Fault> {
    match word.parse::<i32>() {
        Ok(number) => Ok(number),
        Err(_) => Err(Fault::BadLine),
    }
}
