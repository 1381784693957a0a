//! Laws of what a client is told over messages and readings of events, one after another.
ghost use Rattle.std.specs.Prelude.{◌≡◌, ◌+◌, ◌≤◌, ◌++◌, ◌∷◌, [], ℕ, List, Some, length, map, true};
ghost use Rattle.std.specs.List.{All};
ghost use Rattle.wm_history.specs.Events.{events};
ghost use Rattle.wm_history.specs.History.{History, Start};
ghost use Rattle.wm_history.specs.Look.{look};
ghost use Rattle.wm_history.specs.declared.look.Query.TheVariants as queries;
ghost use Rattle.wm_history.specs.declared.look.View.{View};
ghost use Rattle.wm_frames.specs.declared.message.Message.{Message};
ghost use Rattle.wm_json.specs.declared.views.EventBody.{EventBody};
ghost use Rattle.wm_talk.specs.Marks.{after_marks, AllAnswer, behind, events_at, events_in, events_over, Mark, read, Rise, told_over};
ghost use Rattle.wm_talk.specs.Talking.{after_events, last_number, NEW, since_of};
ghost use Rattle.wm_talk.specs.Told.{comes_after, event_message, replied, reply_to, told};
ghost use Rattle.wm_talk.specs.declared.got.Got.{Got};
ghost use Rattle.wm_talk.specs.declared.talk.Talk.{Talk};

/// What is told over a longer list begins with what is told over a shorter one, and goes on from where that ended.
pub fn telling_goes_on()
    ensures { (t : Talk) → (marks more : List Mark) → told_over t (marks ++ more) ≡ told_over t marks ++ told_over (after_marks marks t) more }
{}

/// Each event is told at most once, and in order: where each reading has events above the number that it was asked with, by
/// rising number, the numbers of all that are told rise.
pub fn events_are_told_once()
    ensures { (marks : List Mark) → AllAnswer NEW marks → Rise 0 (events_over NEW marks) }
{}

/// What is told of a reading are the messages of events that came after their names were subscribed.
pub fn events_come_after()
    ensures messages { (t : Talk) → (v : View) → told t v ≡ map event_message (events_at t (read v)) }
    ensures after { (t : Talk) → (v : View) → All (λ e. comes_after (since_of t.since e.kind) e.number ≡ true) (events_at t (read v)) }
{}

/// A name stays subscribed, since the same event.
pub fn names_stay()
    ensures { (t : Talk) → (marks : List Mark) → (kind n : ℕ) → since_of t.since kind ≡ Some n
        → since_of (after_marks marks t).since kind ≡ Some n }
{}

/// After ticks were subscribed no reply is followed by the first tick event again.
pub fn the_first_tick_is_told_once()
    ensures { (t : Talk) → (marks : List Mark) → (m : Message) → (g : Got) → (n : ℕ) → t.since.tick ≡ Some n
        → replied (after_marks marks t) m g ≡ reply_to m g }
{}

/// A desk's reading of the events above a number has them by rising number, and, where no more than 4,096 came since, goes up
/// to the last that was told.
pub fn readings_go_to_the_last()
    ensures rise { (start : Start) → (history : History) → (who n : ℕ) → Rise n (events_in (look start history who (queries.Events n))) }
    ensures last { (start : Start) → (history : History) → (who n : ℕ) → n ≤ length (events start history) → length (events start history) ≤ n + 4096
        → last_number n (events_in (look start history who (queries.Events n))) ≡ length (events start history) }
{}

/// Reading events twice tells the same as reading them the second time alone, and leaves the same: so none is left out,
/// however often they are read.
pub fn no_event_is_left_out()
    ensures told { (t : Talk) → (all more : List EventBody) → t.above ≤ length all
        → told_over t (read (behind t.above all) ∷ read (behind (length all) (all ++ more)) ∷ []) ≡ told t (behind t.above (all ++ more)) }
    ensures after { (t : Talk) → (all more : List EventBody) → t.above ≤ length all
        → after_marks (read (behind t.above all) ∷ read (behind (length all) (all ++ more)) ∷ []) t ≡ after_events (behind t.above (all ++ more)) t }
{}
