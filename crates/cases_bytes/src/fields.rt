//! What the lines of cases are made of: fields with `|` between them, and short texts.
use case_data::{Fault, Words, bytes_of, number_of, push_shown, string_of};
use std::alloc::Global;
use wm_base::Text;

/// The bytes of the next field.
pub fn bytes(fields: &mut Words<'_>) -> Result<Vec<u8>, Fault> {
    Ok(bytes_of(fields.alloc, fields.until("|"))?)
}

/// The numbers of the next field, with blanks between them. What is no number counts as 0.
pub fn numbers(fields: &mut Words<'_>) -> Result<Vec<u64>, Fault> {
    let mut numbers = Vec::new(fields.alloc);
    for word in fields.until("|").split_whitespace() {
        numbers.push(word.parse::<u64>().unwrap_or(0))?;
    }
    Ok(numbers)
}

/// The number of the next field.
pub fn number(fields: &mut Words<'_>) -> Result<u32, Fault> {
    number_of(fields.until("|"))
}

/// The number of the last field.
pub fn last_number(fields: &mut Words<'_>) -> Result<u32, Fault> {
    number_of(fields.rest())
}

/// The short text that a text of data stands for.
pub fn text_of(alloc: Global, data: &str) -> Result<Text, Fault> {
    let string = string_of(alloc, data)?;
    Ok(Text::new(alloc, string.as_str())?)
}

/// Writes a line with bytes between `<` and `>`.
pub fn push_bytes(out: &mut String, bytes: &[u8]) -> Result<(), Fault> {
    out.push_str("  ")?;
    push_enclosed(out, bytes)
}

/// Writes bytes between `<` and `>`, with which a line ends.
pub fn push_enclosed(out: &mut String, bytes: &[u8]) -> Result<(), Fault> {
    out.push_str("<")?;
    push_shown(out, bytes)?;
    Ok(out.push_str(">\n")?)
}
