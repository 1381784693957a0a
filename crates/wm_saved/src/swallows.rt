//! What a placeholder swallows: objects of plain patterns.
ghost use Rattle.std.specs.Prelude.{◌≡◌, [], decimal};
ghost use Rattle.serde_json.specs.View.{items_view, view};
ghost use Rattle.wm_saved.specs.Answers.{below, IsAnswer};
ghost use Rattle.wm_saved.specs.Fields.{items_from};
ghost use Rattle.wm_saved.specs.Swallows.{and_pattern, and_patterns, key_of, pattern_of, properties, swallow_at, swallows_of};

use crate::fields::text_in;
use crate::refusal::{LayoutRefusal, bad, bad_field, below, item_below, or_bad, refused_pattern};
use serde_json::Value;
use std::alloc::Global;
use wm_base::{List, Text};
use wm_criteria::is_plain;
use wm_forest::{Swallow, SwallowKey};

/// Patterns, each with the property that it is held against.
type Keys = List<(SwallowKey, Text)>;

/// The pattern of a key of the object at this path, or none where the key is missing.
fn pattern_of(
    alloc: Global,
    path: &str,
    key: &str,
    value: &Value,
) -> Result<Option<Text>, LayoutRefusal>
    ensures { IsAnswer (pattern_of path.now key.now (view value.now)) result }
{
    let Some(found) = value.get(key) else {
        return Ok(None);
    };
    let pattern = or_bad(alloc, path, key, text_in(alloc, found)?)?;
    if is_plain(pattern.as_str()) {
        Ok(Some(pattern))
    } else {
        Err(refused_pattern(alloc, path, key))
    }
}

/// The key that has the pattern for a property.
fn key_of(kind: SwallowKey) -> &'static str
    ensures { result.now ≡ key_of kind }
{
    match kind {
        SwallowKey::Class => "class",
        SwallowKey::Instance => "instance",
        SwallowKey::Machine => "machine",
        SwallowKey::Title => "title",
        SwallowKey::Role => "window_role",
    }
}

/// Behind other patterns, the one for this property where the object at this path has it.
fn and_pattern(
    alloc: Global,
    keys: Keys,
    path: &str,
    kind: SwallowKey,
    value: &Value,
) -> Result<Keys, LayoutRefusal>
    ensures { IsAnswer (and_pattern keys path.now kind (view value.now)) result }
{
    match pattern_of(alloc, path, key_of(kind), value) {
        Ok(None) => Ok(keys),
        Ok(Some(pattern)) => {
            let mut keys = keys.into_vec();
            keys.push((kind, pattern))?;
            Ok(List::of(keys))
        }
        Err(error) => {
            drop(keys);
            Err(error)
        }
    }
}

/// Behind other patterns, those for these properties that the object at this path has.
#[tactic(auto, unfolding(crate::specs::Swallows::and_patterns))]
fn and_patterns(
    alloc: Global,
    keys: Keys,
    path: &str,
    kinds: &[SwallowKey],
    value: &Value,
) -> Result<Keys, LayoutRefusal>
    ensures { IsAnswer (and_patterns keys path.now kinds.now (view value.now)) result }
{
    match kinds {
        [] => Ok(keys),
        [kind, rest @ ..] => match and_pattern(alloc, keys, path, *kind, value) {
            Ok(more) => and_patterns(alloc, more, path, rest, value),
            Err(error) => Err(error),
        },
    }
}

/// The patterns of the object at this path.
fn patterns(alloc: Global, path: &str, value: &Value) -> Result<Keys, LayoutRefusal>
    ensures { IsAnswer (and_patterns [] path.now properties (view value.now)) result }
{
    let kinds = [
        SwallowKey::Class,
        SwallowKey::Instance,
        SwallowKey::Machine,
        SwallowKey::Title,
        SwallowKey::Role,
    ];
    and_patterns(alloc, List::of(Vec::new(alloc)), path, &kinds, value)
}

/// The patterns of the object at this path, of which there is at least one.
#[tactic(auto, unfolding(crate::specs::Swallows::swallow_at))]
fn swallow_at(alloc: Global, path: &str, value: &Value) -> Result<Swallow, LayoutRefusal>
    ensures { IsAnswer (swallow_at path.now (view value.now)) result }
{
    let keys = patterns(alloc, path, value)?;
    if keys.items().is_empty() {
        return Err(bad(alloc, path));
    }
    Ok(Swallow { keys })
}

/// The swallow at this place of the array at this path.
fn swallow_of(
    alloc: Global,
    path: &str,
    place: usize,
    value: &Value,
) -> Result<Swallow, LayoutRefusal>
    ensures { IsAnswer (swallow_at (below path.now (decimal place)) (view value.now)) result }
{
    let path = item_below(alloc, path, place)?;
    swallow_at(alloc, path.as_str(), value)
}

/// What the array at this path says of swallowing.
fn swallows_at(alloc: Global, path: &str, values: &[Value]) -> Result<List<Swallow>, LayoutRefusal>
    ensures { IsAnswer (items_from swallow_at path.now 0 (items_view values.now)) result }
{
    let mut swallows = Vec::with_capacity(alloc, values.len())?;
    for (place, value) in values.iter().enumerate() {
        swallows.push(swallow_of(alloc, path, place, value)?)?;
    }
    Ok(List::of(swallows))
}

/// What the node at this path swallows.
pub(crate) fn swallows_of(
    alloc: Global,
    path: &str,
    node: &Value,
) -> Result<List<Swallow>, LayoutRefusal>
    ensures { IsAnswer (swallows_of path.now (view node.now)) result }
{
    let Some(value) = node.get("swallows") else {
        return Ok(List::of(Vec::new(alloc)));
    };
    let Some(values) = value.as_array() else {
        return Err(bad_field(alloc, path, "swallows"));
    };
    let path = below(alloc, path, "swallows")?;
    swallows_at(alloc, path.as_str(), values)
}
