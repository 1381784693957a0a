//! A text is split into its lines.
ghost use Rattle.std.specs.Prelude.{◌≡◌, ◌==◌, ◌<◌, ◌≤◌, ◌∷◌, not, length, take_while};
ghost use Rattle.wm_fields.specs.Split.{lines_of};

/// The first line of a text, and what is behind its line feed.
pub fn first_line(text: &[u8]) -> (&[u8], &[u8])
    requires { 0 < length text.now }
    ensures lines { lines_of text.now ≡ result.0.now ∷ lines_of result.1.now }
    ensures shorter { length result.1.now < length text.now }
    ensures within { length result.0.now ≤ length text.now }
{
    let end = line_length(text);
    let (line, rest) = text.split_at(end);
    match rest {
        [_feed, after @ ..] => (line, after),
        [] => (line, rest),
    }
}

/// How many bytes stand before the first line feed.
fn line_length(text: &[u8]) -> usize
    ensures { result ≡ length (take_while (λ c. not (c == 10)) text.now) }
{
    text.iter().take_while(|c| **c != b'\n').count()
}
