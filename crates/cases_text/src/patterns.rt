//! Cases of plain patterns: whether a pattern is plain, and whether it is found in a text.
use case_data::{Fault, Words, string_of};
use wm_criteria::{is_plain, plain_search};

/// From `PATTERN => TEXT`, whether the pattern is plain and found in the text.
pub fn tell_plain(words: &mut Words<'_>, out: &mut String) -> Result<(), Fault> {
    let Some((pattern, text)) = words.rest().split_once(" =>") else {
        return Err(Fault::BadLine);
    };
    let pattern = string_of(words.alloc, pattern)?;
    let text = string_of(words.alloc, text.strip_prefix(" ").unwrap_or(text))?;
    Ok(out.push_str(found(pattern.as_str(), text.as_str()))?)
}

/// What comes of searching for a pattern in a text.
fn found(pattern: &str, text: &str) -> &'static str {
    if !is_plain(pattern) {
        return "  not plain\n";
    }
    if plain_search(pattern, text) {
        "  plain and there\n"
    } else {
        "  plain and not there\n"
    }
}
