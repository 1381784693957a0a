//! Frames as the lines of cases write them: parts with ` | ` between them.
use crate::fields::text_of;
use crate::rects::skip;
use case_data::{Fault, Words};
use wm_base::{Buffer, List};
use wm_paint::{Frame, Quad, What};

/// The frame of a text `NUMBER PREFIX | QUAD | QUAD ..`.
pub fn frame_of(words: &mut Words<'_>) -> Result<Frame, Fault> {
    let number = words.word().parse::<u64>().unwrap_or(0);
    let prefix = words.until(" | ").parse::<u64>().unwrap_or(0);
    Ok(Frame {
        number,
        prefix,
        quads: List::of(quads_of(words)?),
    })
}

fn quads_of(words: &mut Words<'_>) -> Result<Vec<Quad>, Fault> {
    let mut quads = Vec::new(words.alloc);
    for _ in 0..u64::MAX {
        if words.is_done() {
            break;
        }
        let part = words.until(" | ");
        push_quad(&mut quads, &mut Words::of(words.alloc, part))?;
    }
    Ok(quads)
}

fn push_quad(quads: &mut Vec<Quad>, words: &mut Words<'_>) -> Result<(), Fault> {
    let quad = quad_of(words)?;
    Ok(quads.push(quad)?)
}

/// The quad of a text `CON X,Y WxH as KIND ..`.
fn quad_of(words: &mut Words<'_>) -> Result<Quad, Fault> {
    let con = words.con()?;
    let rect = words.rect()?;
    skip(words, "as")?;
    let what = what_of(words)?;
    Ok(Quad { con, rect, what })
}

/// What a quad shows: `back`, `title INK TEXT`, `border INK` or `window INK WxH`.
fn what_of(words: &mut Words<'_>) -> Result<What, Fault> {
    match words.word() {
        "back" => Ok(What::Back),
        "border" => Ok(What::Border { ink: words.ink()? }),
        "title" => title_of(words),
        "window" => window_of(words),
        _ => Err(Fault::BadLine),
    }
}

fn title_of(words: &mut Words<'_>) -> Result<What, Fault> {
    let ink = words.ink()?;
    let text = text_of(words.alloc, words.rest())?;
    Ok(What::Title { ink, text })
}

fn window_of(words: &mut Words<'_>) -> Result<What, Fault> {
    let ink = words.ink()?;
    let size = words.size()?;
    Ok(What::Window {
        buffer: Buffer { ink, size },
    })
}
