//! Gaps of workspaces.
ghost use Rattle.std.specs.Prelude.{◌≡◌, true, OnOk};
ghost use Rattle.wm_language.specs.declared.arguments.GapOp.{GapOp};
ghost use Rattle.wm_shared.specs.Does.{DoesExactly, Makes};
ghost use Rattle.wm_shared.specs.Subject.{IsSubject};
ghost use Rattle.wm_sizes.specs.Gaps.{AllGapped, all_gapped, gap_after, gapped, set_gaps_refusal, set_gaps_tree, space_gapped};
ghost use Rattle.wm_tree.specs.TreeValue.{workspace_of};

use wm_base::{ConId, ErrorText, Refusal};
use wm_language::GapOp;
use wm_tree::{GapChange, Tree};

/// How wide a gap is at most, in pixels.
const WIDEST: u32 = 1000;

/// A change of the outer gap (`outer`) or the inner one by so many pixels.
#[derive(Clone, Copy, Debug, PartialEq, Eq)]
pub struct Change {
    pub outer: bool,
    pub op: GapOp,
    pub px: u32,
}

/// The gap after the change, from 0 to 1,000 pixels.
fn gap_after(op: GapOp, gap: u32, px: u32) -> u32
    ensures { result ≡ gap_after op gap px }
{
    let after = match op {
        GapOp::Set => px,
        GapOp::Plus => gap.saturating_add(px),
        GapOp::Minus => gap.saturating_sub(px),
    };
    after.min(WIDEST)
}

impl GapChange for Change {
    ghost word = { gapped };

    /// One of the two gaps changes.
    fn gaps(&self, inner: u32, outer: u32) -> (u32, u32) {
        if self.outer {
            (inner, gap_after(self.op, outer, self.px))
        } else {
            (gap_after(self.op, inner, self.px), outer)
        }
    }
}

/// Changes the gap of the workspace, where it is one.
fn change_space(t: &mut Tree, w: ConId, change: Change)
    ensures { Makes t.old t.new (space_gapped change w) }
{
    if let Some(space) = t.space(w) {
        let (inner, outer) = change.gaps(space.inner, space.outer);
        t.set_gaps(w, inner, outer);
    }
}

/// Changes the gap of all workspaces and of new ones.
#[tactic(auto, using(crate::proofs::AllGapLemmas::all_by))]
fn change_all(t: &mut Tree, change: Change)
    ensures made { Makes t.old t.new (all_gapped change) }
    ensures each { AllGapped change t.old t.new }
{
    t.change_gaps(&change);
    let (border, inner, outer) = t.defaults();
    let (inner, outer) = change.gaps(inner, outer);
    t.set_defaults(border, inner, outer);
}

/// Changes the outer gap (`outer`) or the inner one of the subject's workspace, or of all workspaces and of new ones
/// (`all`), by so many pixels. The gap is held within 0 and 1,000.
pub fn set_gaps(
    t: &mut Tree,
    con: ConId,
    outer: bool,
    all: bool,
    op: GapOp,
    px: u32,
) -> Result<(), Refusal>
    requires { IsSubject t.old con }
    ensures does { DoesExactly t.old t.new result (set_gaps_refusal con)
        (set_gaps_tree con outer all op px) }

    // With `all` the gap of each workspace is changed once.
    ensures each { all ≡ true → OnOk result (AllGapped (record { outer = outer; op = op; px = px }) t.old t.new) }
{
    let Some(w) = t.workspace_of(con) else {
        return Err(Refusal::NoTarget(ErrorText::NoWorkspace));
    };
    let change = Change { outer, op, px };
    if all {
        change_all(t, change);
    } else {
        change_space(t, w, change);
    }
    Ok(())
}
