//! Plain patterns: whether a pattern is one, and which texts it matches. Neither takes memory.
ghost use Rattle.std.specs.Prelude.{◌≡◌, ◌<◌, length, IsTrue, IfSome, false, is_some, option_map};
ghost use Rattle.std.specs.Option.{option_map_or};
ghost use Rattle.wm_criteria.specs.Plain.{character, characters, is_last, is_part, is_plain, is_quotable, is_special, plain_search, stands};

/// Whether a character of a pattern is more than itself.
fn is_special(c: u8) -> bool
    ensures { result ≡ is_special c }
{
    matches!(
        c,
        b'\\'
            | b'.'
            | b'+'
            | b'*'
            | b'?'
            | b'('
            | b')'
            | b'|'
            | b'['
            | b']'
            | b'{'
            | b'}'
            | b'^'
            | b'$'
    )
}

/// Whether a character stands for itself behind `\`.
fn is_quotable(c: u8) -> bool
    ensures { result ≡ is_quotable c }
{
    c.is_ascii() && !c.is_ascii_alphanumeric() && c != b'<' && c != b'>'
}

/// Whether the pattern is plain: `^` at most once and only first, `$` at most once and only last, and between them
/// characters that are none of `\.+*?()|[]{}^$`, or `\` before an ASCII character that is no letter, digit, `<` or
/// `>`.
pub fn is_plain(p: &str) -> bool
    ensures { result ≡ is_plain p.now }
{
    match p.as_bytes() {
        [b'^', body @ ..] => are_characters(body),
        body => are_characters(body),
    }
}

/// The character that stands first in a pattern, itself or behind `\`, and what follows it.
fn character(body: &[u8]) -> Option<(u8, &[u8])>
    ensures value { option_map (λ x. (x.0, x.1.now)) result ≡ character body.now }
    ensures shorter { IfSome result (λ x. length x.1.now < length body.now) }
{
    match body {
        [b'\\', c, after @ ..] if is_quotable(*c) => Some((*c, after)),
        [c, after @ ..] if !is_special(*c) => Some((*c, after)),
        _ => None,
    }
}

/// Whether a pattern is one of characters, each itself or behind `\`, and maybe `$` last.
fn are_characters(body: &[u8]) -> bool
    ensures { result ≡ is_some (characters body.now) }
{
    let mut rest = body;
    while let Some((_, after)) = character(rest) {
        rest = after;
    }
    is_last(rest)
}

/// Whether no character is left of a pattern, but maybe `$`.
fn is_last(body: &[u8]) -> bool
    ensures { result ≡ is_last body.now }
{
    match body {
        [] => true,
        [c] => *c == b'$',
        _ => false,
    }
}

/// Whether the plain pattern matches the text: its characters are a part of it, at its beginning where `^` stands
/// and at its end where `$` stands.
pub fn plain_search(p: &str, t: &str) -> bool
    requires { IsTrue (is_plain p.now) }
    ensures { result ≡ plain_search p.now t.now }
{
    match p.as_bytes() {
        [b'^', body @ ..] => stands(body, t.as_bytes()),
        body => is_part(body, t.as_bytes()),
    }
}

/// Whether the characters stand at some place of the text.
fn is_part(body: &[u8], text: &[u8]) -> bool
    requires { IsTrue (is_some (characters body.now)) }
    ensures { result ≡ option_map_or (λ x. is_part x.0 x.1 text.now) (characters body.now) false }
{
    let mut rest = text;
    while !stands(body, rest) {
        let [_, after @ ..] = rest else { return false };
        rest = after;
    }
    true
}

/// Whether the characters stand at the beginning of the text, and at its end too where `$` stands last.
fn stands(body: &[u8], text: &[u8]) -> bool
    requires { IsTrue (is_some (characters body.now)) }
    ensures { result ≡ option_map_or (λ x. stands x.0 x.1 text.now) (characters body.now) false }
{
    let mut wanted = body;
    let mut rest = text;
    while let Some((c, after)) = character(wanted) {
        match rest {
            [first, behind @ ..] if *first == c => rest = behind,
            _ => return false,
        }
        wanted = after;
    }
    wanted.is_empty() || rest.is_empty()
}
