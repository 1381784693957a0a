//! What holds of the definitions, said of no call.
ghost use Rattle.std.specs.Prelude.{◌≡◌, Some};
ghost use Rattle.wm_base.specs.declared.geometry.Rect.{Rect};
ghost use Rattle.wm_base.specs.declared.ids.ConId.{ConId};
ghost use Rattle.wm_floats.specs.Floating.{earlier, floating_rect};
ghost use Rattle.wm_tree.specs.TreeValue.{TreeValue};

/// A window that floated earlier floats again with the rectangle that it had. With the clauses `floats` and
/// `tiled` of `set_floating`, floating it, tiling it and floating it again gives the first rectangle back.
pub fn floats_as_before()
    ensures { (c : ConId) (r : Rect) (t : TreeValue) → earlier c t ≡ Some r → floating_rect c t ≡ r }
{}
