//! The fields of a line of a file of cases.

/// The first word of a text, and what stands behind the space after it.
pub fn two_words(text: &str) -> (&str, &str) {
    match text.split_once(' ') {
        Some((word, rest)) => (word, rest),
        None => (text, ""),
    }
}

/// A number at the front of a text, and what stands behind the space after it.
pub fn count_and_text(text: &str) -> Option<(u32, &str)> {
    let (word, rest) = two_words(text);
    match word.parse::<u32>() {
        Ok(count) => Some((count, rest)),
        Err(_) => None,
    }
}
