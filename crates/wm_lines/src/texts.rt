//! Texts and lines, added to the bytes of a piece.
ghost use Rattle.std.specs.Prelude.{◌≡◌, ◌++◌, OnOk};
ghost use Rattle.wm_paint.specs.FrameText.{new_line};

use wm_base::NoMemory;

/// Adds a text.
pub fn push_text(piece: &mut Vec<u8>, text: &str) -> Result<(), NoMemory>
    ensures { OnOk result (piece.new.items ≡ piece.old.items ++ text.now) }
{
    piece.extend_from_slice(text.as_bytes())?;
    Ok(())
}

/// Adds the bytes and a line feed.
pub fn push_line(piece: &mut Vec<u8>, line: &[u8]) -> Result<(), NoMemory>
    ensures { OnOk result (piece.new.items ≡ piece.old.items ++ (line.now ++ new_line)) }
{
    piece.extend_from_slice(line)?;
    piece.push(b'\n')?;
    Ok(())
}
