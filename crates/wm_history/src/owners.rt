//! The callers of the open windows.
ghost use Rattle.std.specs.Prelude.{◌≡◌, [], ◌∷◌, None, OnErr, OnOk, if◌then◌else◌};
ghost use Rattle.wm_history.specs.ByWindow.{left_of, value_at};
ghost use Rattle.wm_history.specs.Windows.{is_caller, owner_of, owner_then};
ghost use Rattle.wm_txn.specs.History.{is_fresh};

use wm_base::{Buffer, ConId, NoMemory};
use wm_ids::IdMap;
use wm_tree::{ConKind, Tree};

/// Whether the window is the caller's, by the callers of all open windows.
pub fn is_caller(owners: &IdMap<u32>, who: u32, con: ConId) -> bool
    ensures { result ≡ is_caller who (value_at owners.now con) }
{
    match owners.get(con.0) {
        Some(owner) => *owner == who,
        None => false,
    }
}

/// The caller of a window of the tree.
fn owner_of(tree: &Tree, con: ConId) -> Option<u32>
    ensures { result ≡ owner_of tree.now con }
{
    match &tree.container(con)?.kind {
        ConKind::Window { owner, .. } => Some(*owner),
        ConKind::Split { .. } | ConKind::Placeholder { .. } => None,
    }
}

/// Adds the caller of the window that was opened, where the tree has it. After an `Err` nothing has changed.
pub fn own(
    owners: &mut IdMap<u32>,
    tree: &Tree,
    opened: Option<(ConId, Buffer)>,
) -> Result<(), NoMemory>
    ensures ok { (v : ConId) → OnOk result (value_at owners.new v ≡ owner_then tree.now opened v (value_at owners.old v)) }
    ensures err { OnErr result (owners.new ≡ owners.old) }
{
    let Some((con, _)) = opened else {
        return Ok(());
    };
    let Some(owner) = owner_of(tree, con) else {
        return Ok(());
    };
    owners.insert(con.0, owner)?;
    Ok(())
}

/// Takes the caller of the window that was opened out again.
pub fn disown(owners: &mut IdMap<u32>, opened: Option<(ConId, Buffer)>)
    ensures { (v : ConId) → value_at owners.new v ≡ (if is_fresh v opened then None else value_at owners.old v) }
{
    if let Some((con, _)) = opened {
        forget_owner(owners, con);
    }
}

/// Takes the callers of these windows out.
pub fn forget_owners(owners: &mut IdMap<u32>, gone: &[ConId])
    ensures { (v : ConId) → value_at owners.new v ≡ left_of gone.now v (value_at owners.old v) }
{
    let mut rest = gone;
    while let [con, after @ ..] = rest {
        forget_owner(owners, *con);
        rest = after;
    }
}

/// Takes the caller of the window out.
fn forget_owner(owners: &mut IdMap<u32>, con: ConId)
    ensures { (v : ConId) → value_at owners.new v ≡ left_of (con ∷ []) v (value_at owners.old v) }
{
    owners.remove(con.0);
}
