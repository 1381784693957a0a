//! Laws of scripts.
ghost use Rattle.std.specs.Prelude.{◌≡◌, ℕ, List, Some, Ok, Err, option_map};
ghost use Rattle.wm_fields.specs.Split.{lines_of};
ghost use Rattle.wm_script.specs.Script.{at_first, reading_from, script, script_of, IsFirstBad};
ghost use Rattle.wm_script.specs.declared.script.Script.{Script};

/// The line that a refusal names is the first one outside the grammar.
pub fn bad_line_is_first()
    ensures { (bytes : List ℕ) (line : ℕ) → script bytes ≡ Err line → IsFirstBad (lines_of bytes) line }
{}

/// A script is read where each of its lines is in the grammar, and is what they say, in their order.
pub fn script_is_its_lines()
    ensures { (bytes : List ℕ) (s : Script) → script bytes ≡ Ok s → option_map script_of (reading_from at_first (lines_of bytes)) ≡ Some s }
{}
