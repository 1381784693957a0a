//! Definitions on numbers and lists that several crates cite, and their laws.
#![tactic(auto)]

ghost use Rattle.std.specs.Prelude.{◌≡◌, ℕ, ◌+◌, ◌<◌, ◌≤◌, List, sum, length};
ghost use Rattle.wm_defs.specs.Counts.{LAST_COUNT, Rose};
ghost use Rattle.wm_defs.specs.Cut.{cut, cut_at};

/// A count that rose did so for good: a later count, which is no lower, rose too.
pub fn rising_lasts()
    ensures { (old mid new : ℕ) → Rose old mid → mid ≤ new → Rose old new }
{}

/// Below its last value a count rose exactly where it is greater.
pub fn rising_is_growing()
    ensures { (old new : ℕ) → new < LAST_COUNT → Rose old new → old < new }
{}

/// The children of a length cover it from 0 to its end, each beginning where the one before ends.
pub fn cut_covers()
    ensures first { (width : ℕ) (shares : List ℕ) → cut_at width shares 0 ≡ 0 }
    ensures last { (width : ℕ) (shares : List ℕ) → 0 < sum shares →
        cut_at width shares (length shares) ≡ width }
    ensures rises { (width i : ℕ) (shares : List ℕ) →
        cut_at width shares i ≤ cut_at width shares (i + 1) }
    ensures joins { (width i : ℕ) (shares : List ℕ) →
        let child = cut width shares i in child.0 + child.1 ≡ (cut width shares (i + 1)).0 }
{}
