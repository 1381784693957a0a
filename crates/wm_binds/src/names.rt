//! Names that were set, by their letters: those that begin alike share their beginning.
ghost use Rattle.std.specs.Prelude.{◌≡◌, ◌≤◌, IfOk, IfSome, OnOk, length};
ghost use Rattle.std.specs.Option.{option_map};
ghost use Rattle.wm_binds.specs.Letters.{end, found, put, put_name, spelled};

use std::alloc::Global;
use std::marker::Model;
use wm_base::{List, NoMemory};

/// Names with their values.
#[cycle(names)]
#[derive(Drop)]
pub(crate) struct Names {
    node: Node,
}

/// Nothing, or a letter with the value of the name that ends with it, the letters that follow it, and those that stand
/// in its place.
#[cycle(names)]
#[derive(Drop)]
enum Node {
    End,
    Letter {
        byte: u8,
        value: Option<List<u8>>,
        below: Box<Names>,
        others: Box<Names>,
    },
}

impl Model for Names {
    ghost use Rattle.wm_binds.specs.Letters.{Letters, count};
    ghost use Rattle.wm_binds.specs.LettersCode.{letters_code};

    ghost Value = { Letters };

    ghost coded = { letters_code };

    ghost use Rattle.wm_binds.specs.LettersOf.{letters_of};

    ghost view = { λ names. letters_of names.node };

    ghost size = { count };

    ghost use Rattle.wm_binds.specs.LettersFall.{depth_le-count};

    ghost size_decreases = { λ a h. depth_le-count a.node };
}

impl Names {
    /// No names.
    pub fn new() -> Names
        ensures { result ≡ end }
    {
        Names { node: Node::End }
    }

    /// One name alone, of a first letter and the others.
    fn spelled(alloc: Global, first: u8, rest: &[u8], value: List<u8>) -> Result<Names, NoMemory>
        ensures { IfOk result (λ names. names ≡ spelled first rest.now value) }
    {
        let (value, below) = match rest {
            [] => (Some(value), Names::new()),
            [next, after @ ..] => (None, Names::spelled(alloc, *next, after, value)?),
        };
        let below = Box::new(alloc, below)?;
        let others = Box::new(alloc, Names::new())?;
        Ok(Names {
            node: Node::Letter {
                byte: first,
                value,
                below,
                others,
            },
        })
    }

    /// Sets a name, of a first letter and the others. A value that it had goes.
    fn put(
        &mut self,
        alloc: Global,
        first: u8,
        rest: &[u8],
        value: List<u8>,
    ) -> Result<(), NoMemory>
        ensures { OnOk result (self.new ≡ put first rest.now value self.old) }
    {
        match &mut self.node {
            Node::End => {
                *self = Names::spelled(alloc, first, rest, value)?;
                Ok(())
            }
            Node::Letter {
                byte,
                value: held,
                below,
                others,
            } => {
                if *byte != first {
                    return others.put(alloc, first, rest, value);
                }
                match rest {
                    [] => {
                        *held = Some(value);
                        Ok(())
                    }
                    [next, after @ ..] => below.put(alloc, *next, after, value),
                }
            }
        }
    }

    /// Sets a name, which has letters.
    pub fn put_name(&mut self, alloc: Global, name: &[u8], value: List<u8>) -> Result<(), NoMemory>
        ensures { OnOk result (self.new ≡ put_name name.now value self.old) }
    {
        match name {
            [] => Ok(()),
            [first, rest @ ..] => self.put(alloc, *first, rest, value),
        }
    }

    /// The longest name with which the text begins: its length and its value.
    pub fn longest(&self, text: &[u8]) -> Option<(usize, &[u8])>
        ensures value { option_map (λ name. (name.0, name.1.now)) result ≡ found self.now text.now }
        ensures within { IfSome result (λ name. name.0 ≤ length text.now) }
    {
        match (&self.node, text) {
            (
                Node::Letter {
                    byte,
                    value,
                    below,
                    others,
                },
                [first, after @ ..],
            ) => {
                if byte != first {
                    return others.longest(text);
                }
                match below.longest(after) {
                    Some((length, value)) => Some((length + 1, value)),
                    None => value.as_ref().map(|value| (1, value.items())),
                }
            }
            _ => None,
        }
    }
}
