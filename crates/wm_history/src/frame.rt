//! Painting an arrangement: what each of its parts shows.
ghost use Rattle.std.specs.Prelude.{◌≡◌, IfOk};
ghost use Rattle.wm_history.specs.Frame.{quads, what_of, window_of};
ghost use Rattle.wm_txn.specs.Machine.{shown_of};

use std::alloc::{AllocError, Global};
use wm_arrange::{Placed, PlacedPart};
use wm_base::Buffer;
use wm_paint::{Quad, What};
use wm_txn::Txn;

/// The quads of the arrangement that is done, each window's content with the buffer that it shows.
pub fn painted(alloc: Global, txn: &Txn) -> Result<Vec<Quad>, AllocError>
    ensures { IfOk result (λ v. v.items ≡ quads (λ v. shown_of v txn.now) txn.now.current.parts) }
{
    let mut quads = Vec::new(alloc);
    let mut rest = txn.current().parts.items();
    while let [placed, after @ ..] = rest {
        if let Some(what) = shown_by(txn, placed)? {
            quads.push(Quad {
                con: placed.con,
                rect: placed.rect,
                what,
            })?;
        }
        rest = after;
    }
    Ok(quads)
}

/// What a part of an arrangement shows.
fn shown_by(txn: &Txn, placed: &Placed) -> Result<Option<What>, AllocError>
    ensures { IfOk result (λ what. what ≡ what_of placed.now.part (shown_of placed.now.con txn.now)) }
{
    match &placed.part {
        PlacedPart::Back => Ok(Some(What::Back)),
        PlacedPart::Area => Ok(None),
        PlacedPart::Title { ink, text } => Ok(Some(What::Title {
            ink: *ink,
            text: text.clone()?,
        })),
        PlacedPart::Border { ink } => Ok(Some(What::Border { ink: *ink })),
        PlacedPart::Content => Ok(window_of(txn.shown(placed.con))),
    }
}

/// What a content shows: its window's buffer, if there is one.
fn window_of(buffer: Option<Buffer>) -> Option<What>
    ensures { result ≡ window_of buffer }
{
    match buffer {
        None => None,
        Some(buffer) => Some(What::Window { buffer }),
    }
}
