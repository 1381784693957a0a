//! Laws of what a session tells its link.
ghost use Rattle.std.specs.Prelude.{◌≡◌, ◌++◌, ◌∷◌, ℕ, List};
ghost use Rattle.wm_history.specs.History.{History, Start};
ghost use Rattle.wm_core.specs.declared.asked.Asked.{Asked};
ghost use Rattle.wm_frames.specs.declared.message.Message.{Message};
ghost use Rattle.wm_session.specs.Talks.{part_of, parts_of};
ghost use Rattle.wm_session.specs.Walk.{walk};
ghost use Rattle.wm_talk.specs.Marks.{after_marks, told_over};
ghost use Rattle.wm_talk.specs.Talking.{NEW};
ghost use Rattle.wm_turn.specs.declared.view.Mark.{Mark};

/// What a session tells is what its messages and readings tell, one after another: so what holds of each talk holds of it,
/// that no event is told twice, and none that came before its name was subscribed.
pub fn a_session_tells_as_a_talk()
    ensures told { (start : Start) → (who : ℕ) → (seen : History) → (messages : List Message) → (marks : List (Mark Asked)) →
        (walk start who seen messages marks).told ≡ told_over NEW (parts_of start who seen messages marks) }
    ensures talk { (start : Start) → (who : ℕ) → (seen : History) → (messages : List Message) → (marks : List (Mark Asked)) →
        (walk start who seen messages marks).talk ≡ after_marks (parts_of start who seen messages marks) NEW }
{}

/// What is told by more marks begins with what is told by fewer.
pub fn a_session_goes_on()
    ensures { (start : Start) → (who : ℕ) → (seen : History) → (messages : List Message) → (mark : Mark Asked) → (marks : List (Mark Asked)) →
        (walk start who seen messages (mark ∷ marks)).told
        ≡ (walk start who seen messages marks).told ++ told_over (walk start who seen messages marks).talk (part_of start who seen (walk start who seen messages marks).left mark) }
{}
