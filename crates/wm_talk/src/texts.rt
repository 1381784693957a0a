//! The texts of payloads.
ghost use Rattle.std.specs.Prelude.{◌≡◌};
ghost use Rattle.std.specs.Option.{option_map};
ghost use Rattle.wm_talk.specs.Calls.{text_of, tick_of};

use std::str;

/// How long a text is at most that all are told, in bytes.
const MOST_TOLD: usize = 4096;

/// The text of these bytes. `None` exactly where they are no UTF-8.
#[tactic(auto, using(crate::proofs::TextLemmas::is_text, crate::proofs::TextLemmas::is_no_text))]
pub fn text_of(bytes: &[u8]) -> Option<&str>
    ensures { option_map (λ text. text.now) result ≡ text_of bytes.now }
{
    match str::from_utf8(bytes) {
        Ok(text) => Some(text),
        Err(_) => None,
    }
}

/// The text of these bytes that can be told to all. `None` exactly where they are no UTF-8, or more than 4,096.
#[tactic(auto, using(crate::proofs::TextLemmas::is_tick, crate::proofs::TextLemmas::is_no_tick, crate::proofs::TextLemmas::is_too_long))]
pub fn tick_of(bytes: &[u8]) -> Option<&str>
    ensures { option_map (λ text. text.now) result ≡ tick_of bytes.now }
{
    match str::from_utf8(bytes) {
        Ok(text) if text.len() <= MOST_TOLD => Some(text),
        _ => None,
    }
}
