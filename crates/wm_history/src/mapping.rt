//! A window that comes: its place, and the text that it brings.
ghost use Rattle.wm_tree.specs.Sound as trees;
ghost use Rattle.std.specs.Prelude.{◌≡◌, None, IfErr, IfOk, OnOk};
ghost use Rattle.wm_history.specs.Act.{text_if_some};
ghost use Rattle.wm_history.specs.Effect.{has_no_pixels, limit_of, mapped, mapped_id, raised_unless_full, then_outcome};
ghost use Rattle.wm_history.specs.Opening.{IsCause, IsNewCause};
ghost use Rattle.wm_history.specs.Sizes.{IsFitThen};
ghost use Rattle.wm_forest.specs.Place.{passed_limit};
ghost use Rattle.wm_forest.specs.RootId.{id};
ghost use Rattle.wm_forest.specs.declared.place.NewCon.TheVariants.{Window};
ghost use Rattle.wm_tree.specs.TreeValue.{newcomer_place};
ghost use Rattle.wm_tree.specs.Words.{attached};

use std::alloc::{AllocError, Global};
use wm_apply::{Applied, apply};
use wm_base::{ConId, Limit, List, NoMemory, Props, Size};
use wm_criteria::Prepared;
use wm_floats::fills_alone;
use wm_layouts::Env;
use wm_swallow::swallow;
use wm_tree::{NewCon, Tree, TreeRefusal, copy_props};

/// Runs the text that a map brings, if any, with the window as its subject.
pub fn run_then(
    alloc: Global,
    tree: &mut Tree,
    env: &Env,
    then: &Option<Prepared>,
    window: ConId,
) -> Result<Applied, NoMemory>
    requires built { IsFitThen then.now }
    requires sound { trees.IsSound tree.old }
    ensures tree { OnOk result (tree.new ≡ (then_outcome env.now (text_if_some then.now) window tree.old).tree) }
    ensures mode { IfOk result (λ a. a.mode ≡ (then_outcome env.now (text_if_some then.now) window tree.old).mode) }
    ensures exit { IfOk result (λ a. a.exit ≡ (then_outcome env.now (text_if_some then.now) window tree.old).exit) }
    ensures kills { IfOk result (λ a. a.kills ≡ (then_outcome env.now (text_if_some then.now) window tree.old).kills) }
    ensures sound { trees.IsSound tree.new }
{
    match then {
        Some(text) => apply(alloc, tree, env, text, Some(window)),
        None => Ok(Applied {
            replies: List::of(Vec::new(alloc)),
            mode: None,
            exit: false,
            kills: List::of(Vec::new(alloc)),
        }),
    }
}

/// Why a window is not opened.
#[derive(Clone, Copy)]
pub enum NotOpened {
    /// This limit would be passed.
    Full(Limit),
    NoMemory,
}

impl From<AllocError> for NotOpened {
    ghost use Rattle.std.specs.Prelude.{◌≡◌};
    ghost use Rattle.wm_history.specs.declared.mapping.NotOpened.TheVariants as not_opened;

    ghost from_gives = { λ _ refusal. refusal ≡ not_opened.NoMemory };

    fn from(_error: AllocError) -> NotOpened {
        NotOpened::NoMemory
    }
}

/// Opens a window of the caller in the tree, raises it, unless its workspace has a fullscreen one, and settles the tree.
pub fn open(tree: &mut Tree, who: u32, props: &Props, natural: Size) -> Result<ConId, NotOpened>
    requires { trees.IsSound tree.old }
    ensures tree { OnOk result (tree.new ≡ mapped tree.old who props.now natural) }
    ensures id { IfOk result (λ c. c ≡ mapped_id props.now tree.old) }
    ensures room { OnOk result (limit_of props.now tree.old ≡ None) }
    ensures sound { OnOk result (trees.IsSound tree.new) }
    ensures cause { IfErr result (IsCause props.now tree.old) }
{
    let id = match swallow(tree, props, who, natural) {
        Ok(Some(id)) => id,
        Ok(None) => attach_window(tree, who, props, natural)?,
        Err(NoMemory) => return Err(NotOpened::NoMemory),
    };
    raise_newcomer(tree, id);
    tree.settle();
    Ok(id)
}

/// Puts a new window of the caller where a newcomer goes.
fn attach_window(
    tree: &mut Tree,
    who: u32,
    props: &Props,
    natural: Size,
) -> Result<ConId, NotOpened>
    requires { trees.IsSound tree.old }
    ensures tree { OnOk result (tree.new ≡ attached (newcomer_place tree.old) (Window props.now who natural) tree.old) }
    ensures id { IfOk result (λ c. c ≡ id tree.old.next_id) }
    ensures room { OnOk result (passed_limit (newcomer_place tree.old) tree.old.nodes tree.old.next_id ≡ None) }
    ensures sound { OnOk result (trees.IsSound tree.new) }
    ensures cause { IfErr result (IsNewCause tree.old) }
{
    let window = NewCon::Window {
        props: copy_props(props)?,
        owner: who,
        natural,
    };
    match tree.attach(tree.newcomer_place(), window) {
        Ok(id) => Ok(id),
        Err(TreeRefusal::Full { limit }) => Err(NotOpened::Full(limit)),
        Err(TreeRefusal::Missing(_)) => unreachable!(),
        Err(TreeRefusal::NoMemory) => Err(NotOpened::NoMemory),
    }
}

/// Raises a new container, unless another one of its workspace is fullscreen.
fn raise_newcomer(tree: &mut Tree, id: ConId)
    ensures tree { tree.new ≡ raised_unless_full id tree.old }
    ensures sound { trees.IsSound tree.old → trees.IsSound tree.new }
{
    if fills_alone(tree, id) {
        tree.raise(id);
    }
}

/// Whether a side is 0.
pub fn has_no_pixels(size: Size) -> bool
    ensures { result ≡ has_no_pixels size }
{
    size.w == 0 || size.h == 0
}
