//! What callers do.
ghost use Rattle.std.specs.Prelude.{◌≡◌, ℕ, List, Some};
ghost use Rattle.std.specs.Str.{IsUtf8};
ghost use Rattle.wm_script.specs.Lines.{deed_of};
ghost use Rattle.wm_script.specs.declared.line.Deed.{Deed};
ghost use Rattle.law_script.specs.Deeds.{SaysDeed};

/// A text in UTF-8 says what a caller does exactly where the grammar tells that of it.
pub fn a_caller_does_what_the_grammar_tells()
    ensures read { (text : List ℕ) (deed : Deed) → deed_of text ≡ Some deed → SaysDeed text deed }
    ensures told { (text : List ℕ) (deed : Deed) → IsUtf8 text → SaysDeed text deed → deed_of text ≡ Some deed }
{}

/// Of a text in UTF-8 the grammar tells one thing at most that a caller does.
pub fn a_caller_does_one_thing()
    ensures { (text : List ℕ) (a b : Deed) → IsUtf8 text → SaysDeed text a → SaysDeed text b → a ≡ b }
{}
