//! Reading criteria: keys between brackets.
ghost use Rattle.std.specs.Prelude.{◌≡◌, ◌&&◌, ◌++◌, ◌∷◌, if◌then◌else◌, ℕ, List, Option, not, [], IfOk, OnOk, option_map, option_copied, option_and_then};
ghost use Rattle.wm_grammar.specs.Criteria.{name_words, flag_words, urgent_words, texted, key_of, value_at, valued_at, key_at, place_of, has_place, ends_key, closed_keys, and_keys, keys_at, criteria_at};
ghost use Rattle.wm_grammar.specs.Fitted.{piece_bytes};
ghost use Rattle.wm_words.specs.Pieces.{choice};
ghost use Rattle.wm_language.specs.declared.batch.Key.{Key};

use crate::reading::{Piece, before_rest, quoted_piece};
use std::alloc::Global;
use wm_base::{NoMemory, Text};
use wm_language::Key;
use wm_words::{Stop, argument, choice, cut, is_text, natural, past, skip, starts, unquote};

/// The name of a key that has a value.
#[derive(Clone, Copy)]
pub enum KeyName {
    Class,
    Instance,
    Role,
    Kind,
    Machine,
    Title,
    Mark,
    Workspace,
    Id,
    Con,
    Urgent,
}

fn name_of(word: &[u8]) -> Option<KeyName>
    ensures { result ≡ choice name_words word.now }
{
    choice!(word;
        b"class" => KeyName::Class,
        b"instance" => KeyName::Instance,
        b"window_role" => KeyName::Role,
        b"window_type" => KeyName::Kind,
        b"machine" => KeyName::Machine,
        b"title" => KeyName::Title,
        b"con_mark" => KeyName::Mark,
        b"workspace" => KeyName::Workspace,
        b"id" => KeyName::Id,
        b"con_id" => KeyName::Con,
        b"urgent" => KeyName::Urgent,
    )
}

fn flag_of(word: &[u8]) -> Option<Key>
    ensures { result ≡ choice flag_words word.now }
{
    choice!(word; b"floating" => Key::Floating, b"tiling" => Key::Tiling, b"all" => Key::All)
}

/// Which urgent window: true is the last.
fn is_latest(word: &[u8]) -> Option<bool>
    ensures { result ≡ choice urgent_words word.now }
{
    choice!(word;
        b"latest" => true,
        b"newest" => true,
        b"last" => true,
        b"recent" => true,
        b"oldest" => false,
        b"first" => false,
    )
}

/// The key of a name and its value.
#[tactic(auto, unfolding(crate::specs::Criteria::key_of))]
fn key_of(alloc: Global, name: KeyName, value: &[u8]) -> Result<Option<Key>, NoMemory>
    ensures { IfOk result (λ o. o ≡ key_of name value.now) }
{
    match name {
        KeyName::Id => Ok(natural(value).map(Key::Id)),
        KeyName::Con => Ok(con_of(value)),
        KeyName::Urgent => Ok(is_latest(value).map(|latest| Key::Urgent { latest })),
        _ => Ok(match argument(alloc, value)? {
            Some(text) => texted(name, text),
            None => None,
        }),
    }
}

/// The key of a name whose value is a text.
fn texted(name: KeyName, text: Text) -> Option<Key>
    ensures { result ≡ texted name text }
{
    match name {
        KeyName::Class => Some(Key::Class(text)),
        KeyName::Instance => Some(Key::Instance(text)),
        KeyName::Role => Some(Key::Role(text)),
        KeyName::Kind => Some(Key::Kind(text)),
        KeyName::Machine => Some(Key::Machine(text)),
        KeyName::Title => Some(Key::Title(text)),
        KeyName::Mark => Some(Key::Mark(text)),
        KeyName::Workspace => Some(Key::Workspace(text)),
        KeyName::Id | KeyName::Con | KeyName::Urgent => None,
    }
}

/// The container of an id, or the focused one.
#[tactic(auto, unfolding(crate::specs::Criteria::key_of))]
fn con_of(value: &[u8]) -> Option<Key>
    ensures { result ≡ key_of KeyName.Con value.now }
{
    if is_text(value, b"__focused__") {
        return Some(Key::Con(None));
    }
    natural(value).map(|n| Key::Con(Some(n)))
}

/// A value, quoted or not, and what follows.
#[tactic(auto, unfolding(crate::specs::Criteria::value_at))]
fn value_at(alloc: Global, text: &[u8]) -> Result<Option<(Piece<'_>, &[u8])>, NoMemory>
    ensures { IfOk result (λ o. option_map (λ x. (piece_bytes x.0, x.1.now)) o ≡ value_at text.now) }
{
    if let [b'"', quoted @ ..] = text {
        return Ok(quoted_piece(unquote(alloc, quoted)?));
    }
    let (found, rest) = cut(text, Stop::Value);
    Ok(if found.is_empty() {
        None
    } else {
        Some((Piece::Plain(found), rest))
    })
}

/// The key of a name, whose value is behind `=`, and what follows.
#[tactic(auto, unfolding(crate::specs::Criteria::valued_at))]
fn valued_at(alloc: Global, name: KeyName, text: &[u8]) -> Result<Option<(Key, &[u8])>, NoMemory>
    ensures { IfOk result (λ o. option_map (λ x. (x.0, x.1.now)) o ≡ valued_at name text.now) }
{
    let Some((value, rest)) = value_at(alloc, text)? else {
        return Ok(None)
    };
    let key = key_of(alloc, name, value.bytes())?;
    Ok(before_rest(key, rest))
}

/// A key, and what follows.
#[tactic(auto, unfolding(crate::specs::Criteria::key_at))]
fn key_at(alloc: Global, text: &[u8]) -> Result<Option<(Key, &[u8])>, NoMemory>
    ensures { IfOk result (λ o. option_map (λ x. (x.0, x.1.now)) o ≡ key_at text.now) }
{
    let (word, rest) = cut(text, Stop::Name);
    if let [b'=', value @ ..] = rest {
        let Some(name) = name_of(word) else {
            return Ok(None)
        };
        return valued_at(alloc, name, value);
    }
    Ok(before_rest(flag_of(word), rest))
}

/// The place of a key among all keys.
fn place_of(key: &Key) -> u8
    ensures { result ≡ place_of key.now }
{
    match key {
        Key::Class(_) => 0,
        Key::Instance(_) => 1,
        Key::Role(_) => 2,
        Key::Kind(_) => 3,
        Key::Machine(_) => 4,
        Key::Title(_) => 5,
        Key::Mark(_) => 6,
        Key::Workspace(_) => 7,
        Key::Id(_) => 8,
        Key::Con(_) => 9,
        Key::Urgent { .. } => 10,
        Key::Floating => 11,
        Key::Tiling => 12,
        Key::All => 13,
    }
}

/// Whether a key of this place is among the keys.
#[tactic(auto, unfolding(crate::specs::Criteria::has_place))]
fn has_place(place: u8, keys: &[Key]) -> bool
    ensures { result ≡ has_place place keys.now }
{
    let mut rest = keys;
    while let [key, more @ ..] = rest {
        if place_of(key) == place {
            return true;
        }
        rest = more;
    }
    false
}

/// Whether a key ends here: at a blank or `]`.
fn ends_key(text: &[u8]) -> bool
    ensures { result ≡ ends_key text.now }
{
    match text {
        [] => false,
        [c, ..] => Stop::Blank.at(*c) || *c == b']',
    }
}

/// The keys behind `[`, and what follows their `]`: one to sixteen, each at most once.
#[tactic(auto, unfolding(crate::specs::Criteria::criteria_at))]
pub fn criteria_at(alloc: Global, text: &[u8]) -> Result<Option<(Vec<Key>, &[u8])>, NoMemory>
    ensures { IfOk result (λ o. option_map (λ x. (x.0.items, x.1.now)) o ≡ criteria_at text.now) }
{
    keys_at(alloc, MOST_KEYS, text)
}

/// How many keys criteria have at most.
const MOST_KEYS: usize = 16;

/// At most so many keys, each at most once, and what follows their `]`.
#[tactic(auto, using(crate::proofs::Loops::keys_steps))]
fn keys_at(alloc: Global, most: usize, text: &[u8]) -> Result<Option<(Vec<Key>, &[u8])>, NoMemory>
    ensures { IfOk result (λ o. option_map (λ x. (x.0.items, x.1.now)) o ≡ keys_at most [] text.now) }
{
    let mut keys = Vec::new(alloc);
    let mut rest = text;
    let mut left = most;
    while left > 0 && !starts(skip(rest), b']') {
        let Some(behind) = add_key(alloc, &mut keys, skip(rest))? else {
            return Ok(None)
        };
        rest = behind;
        left -= 1;
    }
    Ok(closed_keys(keys, skip(rest)))
}

/// Puts the key that stands here behind the others, and gives what follows.
fn add_key<'a>(
    alloc: Global,
    keys: &mut Vec<Key>,
    text: &'a [u8],
) -> Result<Option<&'a [u8]>, NoMemory>
    ensures { IfOk result (λ o. (go : List Key → List ℕ → Option (List Key × List ℕ)) → option_and_then (go keys.new.items) (option_copied o) ≡ option_and_then (and_keys go keys.old.items) (key_at text.now)) }
{
    let Some((key, behind)) = key_at(alloc, text)? else {
        return Ok(None)
    };
    let fits = fits_behind(&key, keys.as_slice(), behind);
    let added = put_fitting(keys, fits, key)?;
    Ok(added.then_some(behind))
}

/// Puts an item behind the others, where it fits. Gives whether it does.
fn put_fitting<T: Drop>(items: &mut Vec<T>, fits: bool, item: T) -> Result<bool, NoMemory>
    ensures fits { IfOk result (λ added. added ≡ fits) }
    ensures items { OnOk result (items.new.items ≡ (if fits then items.old.items ++ item ∷ [] else items.old.items)) }
{
    if fits {
        items.push(item)?;
    }
    Ok(fits)
}

/// The keys, and what follows the `]` that stands here.
fn closed_keys(keys: Vec<Key>, text: &[u8]) -> Option<(Vec<Key>, &[u8])>
    ensures { option_map (λ x. (x.0.items, x.1.now)) result ≡ closed_keys keys.items text.now }
{
    if !starts(text, b']') || keys.is_empty() {
        return None;
    }
    Some((keys, past(text, 1)))
}

/// Whether the key ends where it stops and is none of those before it.
fn fits_behind(key: &Key, keys: &[Key], rest: &[u8]) -> bool
    ensures { result ≡ (ends_key rest.now && not (has_place (place_of key.now) keys.now)) }
{
    ends_key(rest) && !has_place(place_of(key), keys)
}
