//! Values that stand for a history.
ghost use Rattle.std.specs.Prelude.{List};
ghost use Rattle.wm_turn.specs.declared.view.Entry.{Entry};

/// A value that stands for the steps that were taken on it.
pub trait Stands {
    /// With what a value begins.
    type Opening;

    /// What its callers do.
    type Step;

    /// What its callers ask.
    type Question;

    // The opening of a value.
    ghost opening: { Self → Self.Opening };

    // The form in which a step counts in a history.
    ghost form: { Self.Step → Self.Step };

    // A value stands for this history, the newest entry first, from its opening on.
    ghost stands: { Self → List (Entry Self.Step) → Type 0 };
}
