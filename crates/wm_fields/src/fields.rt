//! Fields of a line at the front of a text: numbers, inks, buffers, rectangles and edges.
ghost use Rattle.std.specs.Prelude.{◌≡◌, ◌==◌, ◌+◌, ◌*◌, ◌≤◌, ◌<◌, length, take_while, IfNone, IfSome, Some, if◌then◌else◌, None, nat_le};
ghost use Rattle.std.specs.Char.{is_ascii_digit};
ghost use Rattle.std.specs.Option.{option_copied, option_map};
ghost use Rattle.wm_layouts.specs.Sizes.{IsFitSize};
ghost use Rattle.wm_defs.specs.Hex.{hex_value};
ghost use Rattle.wm_layouts.specs.Plan.{IsFitEdges};
ghost use Rattle.wm_fields.specs.Fields.{behind, buffer_at, coordinate_at, decimal_value, edges_at, gap_at, if_end, ink_at, number_at, rect_at, serial_at, size_at, past_spaces, width_at, with_digit, word_then};

use wm_base::{Buffer, Edges, Ink, Rect, Size};

/// How many digits a number has at most.
const MAX_DIGITS: usize = 20;

/// The greatest side and the greatest edge in pixels.
const MAX_SIDE: u32 = 16384;

/// The greatest place to the right of or below the origin in pixels.
const MAX_PLACE: u32 = 131_071;

/// The greatest place to the left of or above the origin in pixels.
const MIN_PLACE: u32 = 131_072;

/// What follows a word at the front of the text.
pub fn behind<'a>(text: &'a [u8], word: &[u8]) -> Option<&'a [u8]>
    ensures value { option_copied result ≡ behind word.now text.now }
    ensures shorter { IfSome result (λ rest. length rest.now ≤ length text.now) }
{
    text.strip_prefix(word)
}

/// What follows one or more spaces.
pub fn gap(text: &[u8]) -> Option<&[u8]>
    ensures value { option_copied result ≡ gap_at text.now }
    ensures shorter { IfSome result (λ rest. length rest.now ≤ length text.now) }
{
    match text {
        [b' ', after @ ..] => Some(past_spaces(after)),
        _ => None,
    }
}

/// A text without the spaces at its front.
fn past_spaces(text: &[u8]) -> &[u8]
    ensures value { result.now ≡ past_spaces text.now }
    ensures shorter { length result.now ≤ length text.now }
{
    text.split_at(space_count(text)).1
}

/// How many spaces stand at the front.
fn space_count(text: &[u8]) -> usize
    ensures { result ≡ length (take_while (λ c. c == 32) text.now) }
{
    text.iter().take_while(|c| **c == b' ').count()
}

/// What follows this word and the spaces behind it.
pub fn word_then<'a>(text: &'a [u8], word: &[u8]) -> Option<&'a [u8]>
    ensures value { option_copied result ≡ word_then word.now text.now }
    ensures shorter { IfSome result (λ rest. length rest.now ≤ length text.now) }
{
    gap(behind(text, word)?)
}

/// A number of 1 to 20 decimal digits with a value of at most `most`, and what follows it.
pub fn number(text: &[u8], most: u32) -> Option<(u32, &[u8])>
    ensures value { option_map (λ found. (found.0, found.1.now)) result ≡ number_at most text.now }
    ensures within { IfSome result (λ found. found.0 ≤ most) }
{
    let count = digit_count(text);
    if count == 0 || count > MAX_DIGITS {
        return None;
    }
    let (digits, rest) = text.split_at(count);
    let value = decimal(digits, most)?;
    Some((value, rest))
}

/// A number of 1 to 20 decimal digits that fits 64 bits, and what follows it.
pub fn serial(text: &[u8]) -> Option<(u64, &[u8])>
    ensures { option_map (λ found. (found.0, found.1.now)) result ≡ serial_at text.now }
{
    let count = digit_count(text);
    if count == 0 || count > MAX_DIGITS {
        return None;
    }
    let (digits, rest) = text.split_at(count);
    let value = long_decimal(digits)?;
    Some((value, rest))
}

/// The value of decimal digits, where it fits 64 bits.
#[tactic(auto, using(crate::proofs::FieldLemmas::decimal_rises))]
fn long_decimal(digits: &[u8]) -> Option<u64>
    ensures { result ≡ (if nat_le (decimal_value 0 digits.now) 18446744073709551615 then Some (decimal_value 0 digits.now) else None) }
{
    let mut value = 0u64;
    let mut rest = digits;
    while let [digit, after @ ..] = rest {
        value = with_decimal(value, digit.saturating_sub(b'0'))?;
        rest = after;
    }
    Some(value)
}

/// A value with one more decimal digit, where it fits 64 bits.
fn with_decimal(value: u64, digit: u8) -> Option<u64>
    ensures some { IfSome result (λ v. v ≡ value * 10 + digit) }
    ensures none { IfNone result (18446744073709551615 < value * 10 + digit) }
{
    value.checked_mul(10)?.checked_add(u64::from(digit))
}

/// How many decimal digits the text begins with.
fn digit_count(text: &[u8]) -> usize
    ensures { result ≡ length (take_while is_ascii_digit text.now) }
{
    text.iter().take_while(|c| c.is_ascii_digit()).count()
}

/// The value of decimal digits, where it is at most `most`.
#[tactic(auto, using(crate::proofs::FieldLemmas::decimal_rises))]
fn decimal(digits: &[u8], most: u32) -> Option<u32>
    ensures { result ≡ (if nat_le (decimal_value 0 digits.now) most then Some (decimal_value 0 digits.now) else None) }
{
    let most = u64::from(most);
    let mut value = 0u64;
    let mut rest = digits;
    while let [digit, after @ ..] = rest {
        value = value * 10 + u64::from(digit.saturating_sub(b'0'));
        if value > most {
            return None;
        }
        rest = after;
    }
    Some(value as u32)
}

/// A buffer, `INK WxH`, and what follows it.
pub fn buffer(text: &[u8]) -> Option<(Buffer, &[u8])>
    ensures value { option_map (λ found. (found.0, found.1.now)) result ≡ buffer_at text.now }
    ensures fit { IfSome result (λ found. IsFitSize found.0.size) }
{
    let (ink, rest) = ink(text)?;
    let rest = gap(rest)?;
    let (size, rest) = size(rest)?;
    Some((Buffer { ink, size }, rest))
}

/// A width and a height in pixels, `WxH`, and what follows them.
pub fn size(text: &[u8]) -> Option<(Size, &[u8])>
    ensures value { option_map (λ found. (found.0, found.1.now)) result ≡ size_at text.now }
    ensures fit { IfSome result (λ found. IsFitSize found.0) }
{
    let (w, rest) = number(text, MAX_SIDE)?;
    let rest = behind(rest, b"x")?;
    let (h, rest) = number(rest, MAX_SIDE)?;
    Some((Size { w, h }, rest))
}

/// A place and a size in pixels, `X,Y WxH`, and what follows them.
pub fn rect(text: &[u8]) -> Option<(Rect, &[u8])>
    ensures { option_map (λ found. (found.0, found.1.now)) result ≡ rect_at text.now }
{
    let (x, rest) = coordinate(text)?;
    let rest = behind(rest, b",")?;
    let (y, rest) = coordinate(rest)?;
    let rest = gap(rest)?;
    let (size, rest) = size(rest)?;
    let rect = Rect {
        x,
        y,
        w: size.w,
        h: size.h,
    };
    Some((rect, rest))
}

/// A number from -131,072 to 131,071, and what follows it.
pub fn coordinate(text: &[u8]) -> Option<(i32, &[u8])>
    ensures { option_map (λ found. (found.0, found.1.now)) result ≡ coordinate_at text.now }
{
    if let Some(digits) = behind(text, b"-") {
        let (value, rest) = number(digits, MIN_PLACE)?;
        return Some((-(value as i32), rest));
    }
    let (value, rest) = number(text, MAX_PLACE)?;
    Some((value as i32, rest))
}

/// The widths of edges in pixels, ` TOP RIGHT BOTTOM LEFT`, and what follows them.
pub fn edges(text: &[u8]) -> Option<(Edges, &[u8])>
    ensures value { option_map (λ found. (found.0, found.1.now)) result ≡ edges_at text.now }
    ensures fit { IfSome result (λ found. IsFitEdges found.0) }
{
    let (top, rest) = width(text)?;
    let (right, rest) = width(rest)?;
    let (bottom, rest) = width(rest)?;
    let (left, rest) = width(rest)?;
    let edges = Edges {
        top,
        right,
        bottom,
        left,
    };
    Some((edges, rest))
}

/// A width in pixels behind spaces, and what follows it.
fn width(text: &[u8]) -> Option<(u32, &[u8])>
    ensures value { option_map (λ found. (found.0, found.1.now)) result ≡ width_at text.now }
    ensures within { IfSome result (λ found. found.0 ≤ 16384) }
{
    let text = gap(text)?;
    number(text, MAX_SIDE)
}

/// An ink of six hexadecimal digits, and what follows it.
fn ink(text: &[u8]) -> Option<(Ink, &[u8])>
    ensures { option_map (λ found. (found.0.0, found.1.now)) result ≡ ink_at text.now }
{
    let [a, b, c, d, e, f, rest @ ..] = text else {
        return None;
    };
    let value = with_digit(0, *a)?;
    let value = with_digit(value, *b)?;
    let value = with_digit(value, *c)?;
    let value = with_digit(value, *d)?;
    let value = with_digit(value, *e)?;
    let value = with_digit(value, *f)?;
    Some((Ink(value), rest))
}

/// A value with one more hexadecimal digit.
fn with_digit(value: u32, digit: u8) -> Option<u32>
    requires { value < 16777216 }
    ensures value { result ≡ with_digit value (hex_value digit) }
    ensures small { IfSome result (λ v. v < value * 16 + 16) }
{
    let digit = hex_digit(digit)?;
    Some(value * 16 + u32::from(digit))
}

/// The value of a hexadecimal digit, in lower or upper case.
fn hex_digit(digit: u8) -> Option<u8>
    ensures value { result ≡ hex_value digit }
    ensures small { IfSome result (λ n. n < 16) }
{
    match digit {
        b'0'..=b'9' => Some(digit - b'0'),
        b'a'..=b'f' => Some(digit - b'a' + 10),
        b'A'..=b'F' => Some(digit - b'A' + 10),
        _ => None,
    }
}

/// The value, where the text is at its end.
pub fn at_end<T: Drop>(text: &[u8], value: T) -> Option<T>
    ensures value { result ≡ if_end value text.now }
    ensures same { IfSome result (λ found. found ≡ value) }
{
    if text.is_empty() { Some(value) } else { None }
}
