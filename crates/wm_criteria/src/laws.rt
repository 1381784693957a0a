//! Laws on the definitions of plain patterns, and of what criteria match.
ghost use Rattle.std.specs.Prelude.{◌≡◌, ◌++◌, Some, List, ℕ, Bool, true};
ghost use Rattle.wm_criteria.specs.Order.{MatchingIsAll, MatchingIsOnce, MatchingRises};
ghost use Rattle.wm_criteria.specs.Parts.{HasPart, mark, quoted};
ghost use Rattle.wm_criteria.specs.Plain.{Plain, is_found, plain_of};

/// A plain pattern matches exactly the texts that have its characters as a part, at the beginning where `^` stands
/// and at the end where `$` stands.
#[tactic(auto, using(crate::proofs::PartLemmas::found_part, crate::proofs::PartLemmas::part_found))]
pub fn matches_a_part()
    ensures found { (x : Plain) (text : List ℕ) → is_found x text ≡ true → HasPart x text }
    ensures part { (x : Plain) (text : List ℕ) → HasPart x text → is_found x text ≡ true }
{}

/// Every text is asked for by a plain pattern, at the beginning or the end or not: by the text with `\` before each
/// character that is more than itself.
#[tactic(auto, using(crate::proofs::PartLemmas::quoted_plain))]
pub fn any_text_is_asked_for()
    ensures { (first : Bool) (text : List ℕ) (last : Bool) →
        plain_of (mark first 94 ++ (quoted text ++ mark last 36))
        ≡ Some (record { first = first; wanted = text; last = last }) }
{}

/// The containers that criteria match stand by rising id; each container for which all keys hold is there as often as
/// in the tree, and nothing else is there. In a sound tree none is there twice.
#[tactic(auto, using(crate::proofs::OrderLemmas::matching_rises, crate::proofs::OrderLemmas::matching_is_all, crate::proofs::OrderLemmas::matching_is_once))]
pub fn matching_is_in_order()
    ensures rise { MatchingRises }
    ensures all { MatchingIsAll }
    ensures once { MatchingIsOnce }
{}
