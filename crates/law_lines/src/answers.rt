//! What a printed answer reads back as.
ghost use Rattle.std.specs.Prelude.{◌≡◌, Some};
ghost use Rattle.wm_history.specs.declared.step.Answer.{Answer};
ghost use Rattle.law_lines.specs.Answers.{answer_of, IsFitAnswer, IsPlain};
ghost use Rattle.wm_lines.specs.Told.{answer_text};

/// The line of an answer that has no replies reads back as that answer, and as no other.
pub fn a_printed_answer_reads_back()
    ensures { (a : Answer) → IsPlain a → answer_of (answer_text a) ≡ Some a }
{}

/// No two answers have one line, those of replies among them: the JSON line of replies tells how many there are, and what each is.
pub fn a_printed_answer_is_no_other()
    ensures { (a b : Answer) → IsFitAnswer a → IsFitAnswer b → answer_text a ≡ answer_text b → a ≡ b }
{}
