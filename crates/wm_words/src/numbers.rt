//! Numbers in texts.
ghost use Rattle.std.specs.Prelude.{◌≡◌, ◌∷◌, [], pos, neg_ℤ};
ghost use Rattle.wm_words.specs.Pieces.{natural, integer, only_number, digits_from};

use crate::words::single;

/// The number that 1 to 10 digits make, at most 4,294,967,295.
#[tactic(auto, unfolding(crate::specs::Pieces::natural, crate::specs::Pieces::digits_from))]
pub fn natural(word: &[u8]) -> Option<u32>
    ensures { result ≡ natural word.now }
{
    if word.is_empty() || word.len() > 10 {
        return None;
    }
    let mut n: u32 = 0;
    let mut rest = word;
    while let [c, more @ ..] = rest {
        n = with_digit(n, *c)?;
        rest = more;
    }
    Some(n)
}

/// Ten times the number and the value of the digit.
#[tactic(auto, unfolding(crate::specs::Pieces::digits_from))]
fn with_digit(n: u32, c: u8) -> Option<u32>
    ensures { result ≡ digits_from n (c ∷ []) }
{
    if c < b'0' || c > b'9' {
        return None;
    }
    u32::try_from(10 * n as u64 + (c - b'0') as u64).ok()
}

/// The number that such digits make, with `-` before them or not.
#[tactic(auto, unfolding(crate::specs::Pieces::integer))]
pub fn integer(word: &[u8]) -> Option<i64>
    ensures { result ≡ integer word.now }
{
    match word {
        [] => None,
        [c, digits @ ..] => {
            if *c == b'-' {
                return natural(digits).map(|n| negative(n));
            }
            natural(word).map(|n| i64::from(n))
        }
    }
}

/// The number as one below 0.
fn negative(n: u32) -> i64
    ensures { result ≡ neg_ℤ (pos n) }
{
    -(n as i64)
}

/// The number that is all of the text.
pub fn only_number(text: &[u8]) -> Option<u32>
    ensures { result ≡ only_number text.now }
{
    natural(single(text)?)
}
