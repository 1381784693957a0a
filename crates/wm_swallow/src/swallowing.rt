//! Looking for the placeholder that a window goes to.
ghost use Rattle.std.specs.Prelude.{◌≡◌, ◌≢◌, ◌&&◌, ◌-◌, None, IfOk, OnOk, OnErr};
ghost use Rattle.std.specs.List.{list_all, list_any};
ghost use Rattle.wm_swallow.specs.Swallowing.{entry_matches, has_entry, key_matches, property_of, swallowed, swallower, takes, takes_at};
ghost use Rattle.wm_tree.specs.Sound.{IsSound};

use wm_base::{ConId, NoMemory, Props, Size, Text};
use wm_criteria::{is_plain, plain_search};
use wm_tree::{ConKind, Cursor, NodeKind, Swallow, SwallowKey, Tree, TreeRefusal};

/// Makes the first placeholder that takes the window that window, of the caller with the number `owner` and with these
/// properties and this natural size in pixels, and gives its id: the first, depth first over outputs, workspaces and tiled
/// children, with an entry whose keys all match. It keeps its id, place, share, border and marks. `None` exactly where no
/// placeholder takes the window, and then and after want of memory the tree is as it was.
#[tactic(auto, using(crate::proofs::WalkLemmas::taker_there))]
pub fn swallow(
    tree: &mut Tree,
    props: &Props,
    owner: u32,
    natural: Size,
) -> Result<Option<ConId>, NoMemory>
    ensures found { IfOk result (λ found. found ≡ swallower props.now tree.old) }
    ensures tree { OnOk result (tree.new ≡ swallowed props.now owner natural tree.old) }
    ensures err { OnErr result (tree.new ≡ tree.old) }
    ensures cause { OnErr result (swallower props.now tree.old ≢ None) }
    ensures sound { IsSound tree.old → IsSound tree.new }
{
    let Some(con) = taker(tree.nodes(), props) else {
        return Ok(None);
    };
    match tree.fill(con, props, owner, natural) {
        Ok(()) => Ok(Some(con)),
        Err(TreeRefusal::NoMemory) => Err(NoMemory),
        Err(TreeRefusal::Missing(_) | TreeRefusal::Full { .. }) => unreachable!(),
    }
}

/// The first placeholder of the row, depth first over tiled children, that takes a window with these properties.
fn taker(mut row: Cursor<'_>, props: &Props) -> Option<ConId>
    ensures { result ≡ takes_at props.now row.entry }
{
    while let Some(part) = row.part() {
        if takes(&part.kind, props) {
            return Some(part.id);
        }
        if let Some(found) = taker(row.kids(), props) {
            return Some(found);
        }
        row = row.rest();
    }
    None
}

/// Whether this is a placeholder with an entry that matches the properties.
fn takes(kind: &NodeKind, props: &Props) -> bool
    ensures { result ≡ takes props.now kind.now }
{
    match kind {
        NodeKind::Con(con) => has_entry(&con.kind, props),
        NodeKind::Root { .. } | NodeKind::Output(_) | NodeKind::Space(_) => false,
    }
}

/// Whether this is a placeholder with an entry that matches the properties.
fn has_entry(kind: &ConKind, props: &Props) -> bool
    ensures { result ≡ has_entry props.now kind.now }
{
    match kind {
        ConKind::Placeholder { swallows, .. } => some_matches(swallows.items(), props),
        ConKind::Split { .. } | ConKind::Window { .. } => false,
    }
}

/// Whether one of the entries has only keys that match.
fn some_matches(entries: &[Swallow], props: &Props) -> bool
    ensures { result ≡ list_any (entry_matches props.now) entries.now }
{
    let mut rest = entries;
    while let [entry, after @ ..] = rest {
        if all_match(entry.keys.items(), props) {
            return true;
        }
        rest = after;
    }
    false
}

/// Whether each key matches the properties.
fn all_match(keys: &[(SwallowKey, Text)], props: &Props) -> bool
    ensures { result ≡ list_all (key_matches props.now) keys.now }
{
    let mut rest = keys;
    while let [key, after @ ..] = rest {
        if !key_matches(key, props) {
            return false;
        }
        rest = after;
    }
    true
}

/// Whether the key's text is a plain pattern that is found in its property.
fn key_matches(key: &(SwallowKey, Text), props: &Props) -> bool
    ensures { result ≡ key_matches props.now key.now }
{
    let (which, pattern) = (key.0, key.1.as_str());
    is_plain(pattern) && plain_search(pattern, property_of(which, props).as_str())
}

/// The property that a key is held against.
fn property_of(key: SwallowKey, props: &Props) -> &Text
    ensures { result.now ≡ property_of key props.now }
{
    match key {
        SwallowKey::Class => &props.class,
        SwallowKey::Instance => &props.instance,
        SwallowKey::Role => &props.role,
        SwallowKey::Title => &props.title,
        SwallowKey::Machine => &props.machine,
    }
}
