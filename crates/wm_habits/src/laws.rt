//! Laws of modelled clients.
ghost use Rattle.std.specs.Prelude.{◌≡◌, ◌<◌, ◌≤◌, ◌∷◌, ◌++◌, [], ℕ, List, Some};
ghost use Rattle.wm_base.specs.declared.geometry.Size.{Size};
ghost use Rattle.wm_base.specs.declared.ids.ConId.{ConId};
ghost use Rattle.wm_habits.specs.Acting.{after_lines, late_by, opening, says};
ghost use Rattle.wm_habits.specs.Asking.{asked_of};
ghost use Rattle.wm_habits.specs.Late.{asked_before};
ghost use Rattle.wm_habits.specs.Saying.{ack_text, buffer_text, close_text, said_to};
ghost use Rattle.wm_habits.specs.Speaking.{hears, Speaking};
ghost use Rattle.wm_habits.specs.Written.{blue, configure_text, kill_text};
ghost use Rattle.wm_habits.specs.declared.asking.Asked.TheVariants as asked;
ghost use Rattle.wm_habits.specs.declared.habit.Habit.{Habit};
ghost use Rattle.wm_history.specs.declared.client.ClientStep.TheVariants.{Ack, Buffer};
ghost use Rattle.wm_history.specs.declared.step.Step.TheVariants.{Client, Close};
ghost use Rattle.wm_lines.specs.Lines.{client_step_of};

/// What a client says to a line, after whatever lines came, is what its habit says to the line that came as many lines
/// before as the habit is late.
pub fn answers_come_as_late_as_the_habit()
    ensures { (habit : Habit) → (lines : List (List ℕ)) → (line : List ℕ)
        → says (after_lines (opening habit) lines) (asked_of line) ≡ said_to habit (asked_before (late_by habit) (lines ++ (line ∷ []))) }
{}

/// Bytes that are sent in two pieces are heard as one.
pub fn pieces_are_heard_as_one()
    ensures { (s : Speaking) → (bytes more : List ℕ) → hears (hears s bytes) more ≡ hears s (bytes ++ more) }
{}

/// The lines by which a server asks something of a window are read as what they ask.
pub fn what_is_asked_is_read()
    ensures configure { (con : ConId) → (serial : ℕ) → (size : Size) → con.0 < 4294967296 → serial < 18446744073709551616
        → size.w ≤ 16384 → size.h ≤ 16384 → asked_of (configure_text con serial size) ≡ Some (asked.Configure con serial size) }
    ensures kill { (con : ConId) → (number : ℕ) → con.0 < 4294967296 → number < 18446744073709551616
        → asked_of (kill_text con number) ≡ Some (asked.Kill con) }
{}

/// The lines that a client says are lines of clients, and do what they say.
pub fn what_is_said_is_of_clients()
    ensures ack { (con : ConId) → (serial : ℕ) → con.0 < 4294967296 → serial < 18446744073709551616
        → client_step_of (ack_text con serial) ≡ Some (Client (Ack con serial)) }
    ensures buffer { (con : ConId) → (size : Size) → con.0 < 4294967296 → size.w ≤ 16384 → size.h ≤ 16384
        → client_step_of (buffer_text con size) ≡ Some (Client (Buffer con (blue size))) }
    ensures close { (con : ConId) → con.0 < 4294967296 → client_step_of (close_text con) ≡ Some (Close con) }
{}
