//! The patterns of keys and groups.
ghost use Rattle.std.specs.Prelude.{◌≡◌, option_map};
ghost use Rattle.std.specs.List.{list_all};
ghost use Rattle.wm_criteria.specs.Forms.{are_plain};
ghost use Rattle.wm_criteria.specs.Patterns.{key_patterns, keys_of, pattern_of, to_build, unless_focused};
ghost use Rattle.wm_criteria.specs.Plain.{is_plain};

use crate::plain::is_plain;
use wm_base::Text;
use wm_language::{Group, Key};

/// The pattern of a key, where its value is one.
pub fn pattern_of(key: &Key) -> Option<&str>
    ensures { option_map (λ x. x.now) result ≡ pattern_of key.now }
{
    match key {
        Key::Class(text)
        | Key::Instance(text)
        | Key::Role(text)
        | Key::Machine(text)
        | Key::Title(text)
        | Key::Workspace(text) => unless_focused(text),
        Key::Mark(text) => Some(text.as_str()),
        Key::Kind(_) | Key::Id(_) | Key::Con(_) | Key::Urgent { .. } => None,
        Key::Floating | Key::Tiling | Key::All => None,
    }
}

/// The value, where it does not stand for the focused window or workspace.
fn unless_focused(text: &Text) -> Option<&str>
    ensures { option_map (λ x. x.now) result ≡ unless_focused text.now }
{
    let value = text.as_str();
    if value == "__focused__" {
        None
    } else {
        Some(value)
    }
}

/// The pattern of a key, where it is not plain.
pub fn to_build(key: &Key) -> Option<&str>
    ensures { option_map (λ x. x.now) result ≡ to_build key.now }
{
    let pattern = pattern_of(key)?;
    if is_plain(pattern) {
        None
    } else {
        Some(pattern)
    }
}

/// The keys of a group.
pub fn keys_of(group: &Group) -> &[Key]
    ensures { result.now ≡ keys_of group.now }
{
    match &group.criteria {
        Some(criteria) => criteria.keys.items(),
        None => &[],
    }
}

/// Whether every pattern of the groups is plain.
pub fn are_plain(groups: &[Group]) -> bool
    ensures { result ≡ are_plain groups.now }
{
    let mut rest = groups;
    while let [group, after @ ..] = rest {
        if !keys_plain(keys_of(group)) {
            return false;
        }
        rest = after;
    }
    true
}

/// Whether every pattern of the keys is plain.
fn keys_plain(keys: &[Key]) -> bool
    ensures { result ≡ list_all is_plain (key_patterns keys.now) }
{
    let mut rest = keys;
    while let [key, after @ ..] = rest {
        if to_build(key).is_some() {
            return false;
        }
        rest = after;
    }
    true
}
