//! What lines of a script say.
ghost use Rattle.std.specs.Prelude.{◌≡◌, ℕ, List, None, Some};
ghost use Rattle.wm_script.specs.Lines.{said_of};
ghost use Rattle.wm_script.specs.declared.said.Said.{Said};
ghost use Rattle.law_script.specs.Lines.{Says};

/// A line is read to say something exactly where the grammar tells that of it.
pub fn a_line_says_what_the_grammar_tells()
    ensures read { (text : List ℕ) (said : Said) → said_of text ≡ Some said → Says text said }
    ensures told { (text : List ℕ) (said : Said) → Says text said → said_of text ≡ Some said }
{}

/// A line is refused exactly where the grammar tells nothing of it.
pub fn a_line_outside_says_nothing()
    ensures read { (text : List ℕ) → said_of text ≡ None → (said : Said) → ¬ (Says text said) }
    ensures told { (text : List ℕ) → ((said : Said) → ¬ (Says text said)) → said_of text ≡ None }
{}

/// The grammar tells one thing of a line at most.
pub fn a_line_says_one_thing()
    ensures { (text : List ℕ) (a b : Said) → Says text a → Says text b → a ≡ b }
{}
