//! Laws of the command language: what reads is what is a spelling, and what is printed is one.
ghost use Rattle.std.specs.Prelude.{◌≡◌, ℕ, List, None, ◌⊎◌};
ghost use Rattle.wm_grammar.specs.Readable.{IsReadable};
ghost use Rattle.wm_grammar.specs.Reading.{batch_of, Reads, IsReach};
ghost use Rattle.wm_language.specs.ArgumentForms.{ArgumentForm};
ghost use Rattle.wm_language.specs.Batches.{Spells};
ghost use Rattle.wm_language.specs.Places.{IsFarthest};
ghost use Rattle.wm_language.specs.Slots.{Slot};
ghost use Rattle.wm_language.specs.Spelling.{spelling};
ghost use Rattle.wm_language.specs.WindowForms.{KeywordForm};
ghost use Rattle.wm_language.specs.Written.{CanAllStand, written, alone};
ghost use Rattle.wm_language.specs.declared.batch.Batch.{Batch};
ghost use Rattle.wm_language.specs.declared.command.Command.{Command};

/// A text that reads as a batch is a spelling of it.
pub fn what_reads_is_spelled()
    ensures { (text : List ℕ) (b : Batch) → Reads text b → Spells text b }
{}

/// A text that is a spelling of a batch reads as it.
pub fn what_is_spelled_reads()
    ensures { (text : List ℕ) (b : Batch) → Spells text b → Reads text b }
{}

/// A text that reads as no batch is a spelling of none.
pub fn what_is_refused_spells_nothing()
    ensures { (text : List ℕ) → batch_of text ≡ None → (b : Batch) → Spells text b → ⊥ }
{}

/// A text is a spelling of at most one batch.
pub fn a_text_spells_one_batch_at_most()
    ensures { (text : List ℕ) (a b : Batch) → Spells text a → Spells text b → a ≡ b }
{}

/// The place up to which a text reads is the greatest up to which it is empty, or is a spelling and ends with
/// `;`.
pub fn a_text_reads_as_far_as_it_spells()
    ensures { (text : List ℕ) (n : ℕ) → IsReach text n → IsFarthest text n }
{}

/// A text is a spelling up to one place alone.
pub fn a_text_spells_to_one_place()
    ensures { (text : List ℕ) (m n : ℕ) → IsFarthest text m → IsFarthest text n → m ≡ n }
{}

/// The printed text of a batch that can be printed is a spelling of it.
pub fn what_is_printed_is_spelled()
    ensures { (b : Batch) → IsReadable b → Spells (spelling b) b }
{}

/// A batch that some text is a spelling of can be printed.
pub fn what_is_spelled_can_be_printed()
    ensures { (text : List ℕ) (b : Batch) → Spells text b → IsReadable b }
{}

/// Each form has a text that is a spelling of its command: its keywords in small letters, its arguments quoted,
/// and a blank between its pieces.
pub fn each_form_has_a_spelling()
    ensures { (slots : List Slot) (c : Command) → KeywordForm slots c ⊎ ArgumentForm slots c → CanAllStand slots → Spells (written slots) (alone c) }
{}
