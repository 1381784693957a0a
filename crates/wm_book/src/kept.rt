//! Values that a book keeps: desks, and what stands for a desk.
use wm_base::NoMemory;
use wm_core::{Answer, Asked, ClientStep, Desk, Query, State, Step, View};
use wm_layouts::Plan;
use wm_paint::Frame;
use wm_turn::Stands;

/// A value that stands for the steps that were taken on it, and answers each of them as a desk does.
pub trait Kept: Stands<Opening = Plan, Step = Step, Question = Asked> {
    ghost use Rattle.std.specs.Prelude.{◌≡◌, ◌<◌, ℕ, ◌^◌, List, ◌∷◌, length, IfOk, OnErr, OnOk};
    ghost use Rattle.wm_history.specs.Act.{act_of, client_act};
    ghost use Rattle.wm_core.specs.Entries.{history_of};
    ghost use Rattle.wm_history.specs.Frame.{frame};
    ghost use Rattle.wm_history.specs.History.{answer, opening_of};
    ghost use Rattle.wm_history.specs.Look.{look, state};
    ghost use Rattle.wm_history.specs.Sizes.{IsFitStep};
    ghost use Rattle.wm_history.specs.declared.step.Step as steps;
    ghost use Rattle.wm_history.specs.declared.step.Step.TheVariants.{Client};
    ghost use Rattle.wm_turn.specs.declared.view.Entry.{Entry};

    // How many steps were taken.
    ghost count: { Self → ℕ };

    /// Takes one step of the caller with this number. After an `Err` the value is as it was.
    fn step(&mut self, who: u32, step: &Step) -> Result<Answer, NoMemory>
        requires few { count self.old < 2 ^ 48 }
        requires fit { IsFitStep step.now }
        ensures answer { (entries : List (Entry steps.Step)) → Self.stands self.old entries →
            IfOk result (λ a. a ≡ answer (opening_of (Self.opening self.old)) (history_of entries) (record { who = who; act = act_of step.now })) }
        ensures stands { (entries : List (Entry steps.Step)) → Self.stands self.old entries →
            OnOk result (Self.stands self.new (record { who = who; step = Self.form step.now } ∷ entries)) }
        ensures opening { Self.opening self.new ≡ Self.opening self.old }
        ensures err { OnErr result (self.new ≡ self.old) };

    /// Takes one step of a client of the caller with this number, or of a timer. It takes no memory.
    fn answer_client(&mut self, who: u32, step: &ClientStep) -> Answer
        requires few { count self.old < 2 ^ 48 }
        ensures answer { (entries : List (Entry steps.Step)) → Self.stands self.old entries →
            result ≡ answer (opening_of (Self.opening self.old)) (history_of entries) (record { who = who; act = client_act step.now }) }
        ensures stands { (entries : List (Entry steps.Step)) → Self.stands self.old entries →
            Self.stands self.new (record { who = who; step = Self.form (Client step.now) } ∷ entries) }
        ensures opening { Self.opening self.new ≡ Self.opening self.old };

    /// What the caller with this number sees.
    fn look(&self, who: u32, query: &Query) -> Result<View, NoMemory>
        ensures { (entries : List (Entry steps.Step)) → Self.stands self.now entries →
            IfOk result (λ view. view ≡ look (opening_of (Self.opening self.now)) (history_of entries) who query.now) };

    /// The frame of the history.
    fn frame(&self) -> Result<Frame, NoMemory>
        ensures { (entries : List (Entry steps.Step)) → Self.stands self.now entries →
            IfOk result (λ f. f ≡ frame (opening_of (Self.opening self.now)) (history_of entries)) };

    /// How far the history is. It takes no memory.
    fn state(&self) -> State
        ensures { (entries : List (Entry steps.Step)) → Self.stands self.now entries →
            result ≡ state (opening_of (Self.opening self.now)) (history_of entries) };

    // It counts the steps that it stands for.
    ghost counted: { (value : Self) (entries : List (Entry steps.Step)) → Self.stands value entries → count value ≡ length entries };

    // The form of a step says the same to the history.
    ghost says: { (step : steps.Step) → act_of (Self.form step) ≡ act_of step };
}

impl Kept for Desk {
    ghost use Rattle.std.specs.Prelude.{◌≡◌};
    ghost use Rattle.wm_book.specs.Counting.{says_form, counts};

    ghost count = { λ desk. desk.steps };

    fn step(&mut self, who: u32, step: &Step) -> Result<Answer, NoMemory> {
        Desk::step(self, who, step)
    }

    fn answer_client(&mut self, who: u32, step: &ClientStep) -> Answer {
        Desk::answer_client(self, who, step)
    }

    fn look(&self, who: u32, query: &Query) -> Result<View, NoMemory> {
        Desk::look(self, who, query)
    }

    fn frame(&self) -> Result<Frame, NoMemory> {
        Desk::frame(self)
    }

    fn state(&self) -> State {
        Desk::state(self)
    }

    ghost counted = { λ desk entries s. counts desk entries s };

    ghost says = { says_form };
}
