//! Scripts by what their lines say.
ghost use Rattle.std.specs.Prelude.{◌≡◌, ℕ, List, Ok, Err};
ghost use Rattle.wm_fields.specs.Split.{lines_of};
ghost use Rattle.wm_script.specs.Script.{script};
ghost use Rattle.wm_script.specs.declared.script.Script.{Script};
ghost use Rattle.law_script.specs.Scripts.{AreScript, IsFirstOutside};

/// Bytes are read as a script exactly where each of their lines says something that may stand there, and all of them come to it.
pub fn a_script_is_its_lines()
    ensures read { (bytes : List ℕ) (s : Script) → script bytes ≡ Ok s → AreScript (lines_of bytes) s }
    ensures told { (bytes : List ℕ) (s : Script) → AreScript (lines_of bytes) s → script bytes ≡ Ok s }
{}

/// Bytes are refused at a line exactly where it is the first one that is outside the grammar, or says what may not stand there.
pub fn the_first_bad_line_is_the_first_outside()
    ensures read { (bytes : List ℕ) (line : ℕ) → script bytes ≡ Err line → IsFirstOutside (lines_of bytes) line }
    ensures told { (bytes : List ℕ) (line : ℕ) → IsFirstOutside (lines_of bytes) line → script bytes ≡ Err line }
{}
