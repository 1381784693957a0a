//! A container as criteria see it.
ghost use Rattle.std.specs.Prelude.{◌≡◌, option_and_then};
ghost use Rattle.std.specs.Option.{option_copied};
ghost use Rattle.wm_forest.specs.declared.part.NodeKind.TheVariants.{Con};
ghost use Rattle.wm_tree.specs.TreeValue.{TreeValue};
ghost use Rattle.wm_criteria.specs.Holds.{or_scratch, space_name, window, window_kind};
ghost use Rattle.wm_criteria.specs.Subject.{IsAt, IsSubject};

use wm_base::{ConId, Props, Text};
use wm_tree::{ConKind, ConPart, Part, Tree};

/// A container as criteria see it: its properties where it is a window, its marks, the name of its workspace, whether
/// it is in one, and whether it is tiled. In the scratchpad the name is `__i3_scratch`.
#[derive(Clone, Copy)]
pub struct Subject<'a> {
    pub id: ConId,
    pub window: Option<&'a Props>,
    pub marks: &'a [Text],
    pub space: &'a str,
    pub placed: bool,
    pub tiled: bool,
}

impl<'a> Subject<'a> {
    /// What has that id, looked up in the tree.
    pub fn find(tree: &'a Tree, id: ConId) -> Subject<'a>
        ensures id { result.id ≡ id }
        ensures told { IsSubject result tree.now }
    {
        let space = tree.workspace_of(id);
        Subject {
            id,
            window: window(tree, id),
            marks: tree.marks(id),
            space: workspace_name(tree, space),
            placed: space.is_some(),
            tiled: tree.is_tiled(id),
        }
    }

    /// A container that a walk over the tree has reached, in the workspace of this name or in none, in a row of tiled
    /// nodes or not.
    pub fn at(part: &'a Part, con: &'a ConPart, space: Option<&'a Text>, tiled: bool) -> Subject<'a>
        requires { part.now.kind ≡ Con con.now }
        ensures id { result.id ≡ part.now.id }
        ensures told { (t : TreeValue) → IsAt (option_copied space.entry) tiled part.now t → IsSubject result t }
    {
        Subject {
            id: part.id,
            window: window_kind(&con.kind),
            marks: part.marks.items(),
            space: or_scratch(space),
            placed: space.is_some(),
            tiled,
        }
    }
}

/// The properties of the window. `None` exactly where the container is no window.
pub fn window(tree: &Tree, con: ConId) -> Option<&Props>
    ensures { option_copied result ≡ window tree.now con }
{
    window_kind(&tree.container(con)?.kind)
}

/// The properties of a container that is a window. `None` exactly where it is none.
fn window_kind(kind: &ConKind) -> Option<&Props>
    ensures { option_copied result ≡ window_kind kind.now }
{
    match kind {
        ConKind::Window { props, .. } => Some(props),
        ConKind::Split { .. } | ConKind::Placeholder { .. } => None,
    }
}

/// The name of the workspace.
pub fn space_name(tree: &Tree, space: ConId) -> Option<&Text>
    ensures { option_copied result ≡ space_name tree.now space }
{
    Some(&tree.space(space)?.name)
}

/// The name of the workspace, or `__i3_scratch` where there is none.
fn workspace_name(tree: &Tree, space: Option<ConId>) -> &str
    ensures { result.now ≡ or_scratch (option_and_then (λ w. space_name tree.now w) space) }
{
    match space {
        Some(space) => or_scratch(space_name(tree, space)),
        None => or_scratch(None),
    }
}

/// The name, or `__i3_scratch` where there is none.
fn or_scratch(name: Option<&Text>) -> &str
    ensures { result.now ≡ or_scratch (option_copied name.entry) }
{
    match name {
        Some(name) => name.as_str(),
        None => "__i3_scratch",
    }
}
