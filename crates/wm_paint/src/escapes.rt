//! Texts in a line, with `\"`, `\\` and `\n` for a quotation mark, a backslash and a line feed.
ghost use Rattle.std.specs.Prelude.{◌≡◌, ℕ, ◌<◌, ◌≤◌, ◌++◌, ◌∷◌, [], true, false, length, get_or, string_bytes, OnOk};
ghost use Rattle.wm_paint.specs.Escapes.{escaped, is_special, letter_of};

use std::alloc::AllocError;

/// Writes a text with `\"`, `\\` and `\n` for each quotation mark, backslash and line feed.
pub fn push_escaped(out: &mut String, text: &str) -> Result<(), AllocError>
    ensures { OnOk result (string_bytes out.new ≡ string_bytes out.old ++ escaped text.now) }
{
    let mut rest = text;
    'pieces: loop {
        let (plain, tail) = rest.split_at(plain_length(rest));
        out.push_str(plain)?;
        let [special, ..] = tail.as_bytes() else {
            return Ok(());
        };
        out.push_str(escape_of(*special))?;
        let (_, more) = tail.split_at(1);
        rest = more;
    }
}

/// How many bytes stand before the first quotation mark, backslash or line feed.
fn plain_length(text: &str) -> usize
    ensures within { result ≤ length text.now }
    ensures before { (k : ℕ) → k < result → is_special (get_or text.now k 0) ≡ false }
    ensures found { result < length text.now → is_special (get_or text.now result 0) ≡ true }
{
    for (i, c) in text.as_bytes().iter().enumerate() {
        if *c == b'"' || *c == b'\\' || *c == b'\n' {
            return i;
        }
    }
    text.len()
}

/// What stands for a quotation mark, a backslash or a line feed.
fn escape_of(special: u8) -> &'static str
    requires { is_special special ≡ true }
    ensures { result.now ≡ 92 ∷ letter_of special ∷ [] }
{
    match special {
        b'"' => "\\\"",
        b'\\' => "\\\\",
        _ => "\\n",
    }
}
