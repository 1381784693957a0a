//! Copies of an arrangement. A copied text shares its bytes.
ghost use Rattle.std.specs.Prelude.{◌≡◌, IfOk};

use crate::parts::{Arrangement, Placed, PlacedPart};
use std::alloc::{AllocError, Global};
use wm_base::{List, NoMemory};

impl Arrangement {
    /// An equal arrangement.
    pub fn copy(&self, alloc: Global) -> Result<Arrangement, NoMemory>
        ensures { IfOk result (λ copy. copy ≡ self.now) }
    {
        let parts = copy_parts(alloc, self.parts.items())?;
        Ok(Arrangement { parts })
    }
}

fn copy_parts(alloc: Global, parts: &[Placed]) -> Result<List<Placed>, AllocError>
    ensures { IfOk result (λ copy. copy ≡ parts.now) }
{
    let mut copy = Vec::with_capacity(alloc, parts.len())?;
    for part in parts {
        copy.push(part.copy()?)?;
    }
    Ok(List::of(copy))
}

impl Placed {
    fn copy(&self) -> Result<Placed, AllocError>
        ensures { IfOk result (λ copy. copy ≡ self.now) }
    {
        Ok(Placed {
            con: self.con,
            part: self.part.copy()?,
            rect: self.rect,
        })
    }
}

impl PlacedPart {
    fn copy(&self) -> Result<PlacedPart, AllocError>
        ensures { IfOk result (λ copy. copy ≡ self.now) }
    {
        match self {
            PlacedPart::Back => Ok(PlacedPart::Back),
            PlacedPart::Area => Ok(PlacedPart::Area),
            PlacedPart::Title { ink, text } => Ok(PlacedPart::Title {
                ink: *ink,
                text: text.clone()?,
            }),
            PlacedPart::Border { ink } => Ok(PlacedPart::Border { ink: *ink }),
            PlacedPart::Content => Ok(PlacedPart::Content),
        }
    }
}
