//! Lines that take steps and run no text.
ghost use Rattle.std.specs.Prelude.{◌≡◌, ℕ, List, Some};
ghost use Rattle.wm_history.specs.declared.step.Step.{Step};
ghost use Rattle.wm_lines.specs.Lines.{client_step_of, step_line_of};
ghost use Rattle.law_script.specs.Steps.{SaysOfClient, SaysStep};

/// A line takes a step exactly where the grammar tells that of it.
pub fn a_line_takes_what_the_grammar_tells()
    ensures read { (text : List ℕ) (step : Step) → step_line_of text ≡ Some step → SaysStep text step }
    ensures told { (text : List ℕ) (step : Step) → SaysStep text step → step_line_of text ≡ Some step }
{}

/// The grammar tells one step of a line at most.
pub fn a_line_takes_one_step()
    ensures { (text : List ℕ) (a b : Step) → SaysStep text a → SaysStep text b → a ≡ b }
{}

/// On a client's link a line takes a step exactly where the grammar tells that of it, and a client may take it.
pub fn a_client_takes_what_the_grammar_tells()
    ensures read { (text : List ℕ) (step : Step) → client_step_of text ≡ Some step → SaysOfClient text step }
    ensures told { (text : List ℕ) (step : Step) → SaysOfClient text step → client_step_of text ≡ Some step }
{}
