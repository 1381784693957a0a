//! The door of a desk that several callers share.
use crate::asked::Asked;
use crate::refusals::{ActRefusal, Exhausted};
use std::sync::Wait;
use wm_base::NoMemory;
use wm_history::{Answer, ClientStep, Query, Step, View};
use wm_paint::Frame;

/// A door to a desk. Each caller goes through it with a pass of its own, which knows what its caller has seen of the one
/// history, and has a mark for each of its calls.
pub trait Door {
    ghost use Rattle.std.specs.Prelude.{◌≡◌, false};
    ghost use Rattle.wm_history.specs.Act.{act_of, client_act};
    ghost use Rattle.wm_history.specs.Frame.{frame};
    ghost use Rattle.wm_history.specs.History.{stopped};
    ghost use Rattle.wm_history.specs.Look.{look};
    ghost use Rattle.wm_core.specs.Passes as passes;
    ghost use Rattle.wm_core.specs.Passes.{Acts, ActsAlways, IsLegal, Looked, Looks};
    ghost use Rattle.wm_history.specs.Sizes.{IsFitStep};
    ghost use Rattle.wm_core.specs.declared.asked.Asked.TheVariants as asked;

    /// What a caller goes through the door with.
    type Pass;

    // The pass is one of this door.
    ghost is_of: { Self → Self.Pass → Type 0 };

    // What its caller carries by it.
    ghost carried: { Self.Pass → passes.Pass };

    /// Takes one step of the pass's caller. Where the step is refused it does not stand in the history.
    fn act<R: Wait>(&self, rt: &R, pass: &mut Self::Pass, step: &Step) -> Result<Answer, ActRefusal>
        requires ready { is_of self.now pass.old × ((carried pass.old).turn ≡ false) }
        requires fit { IsFitStep step.now }
        ensures door { is_of self.now pass.new }
        ensures acts { Acts (carried pass.old) (carried pass.new) (act_of step.now) result };

    /// Takes one step of a client of the pass's caller, or of a timer. It takes no memory.
    fn act_client<R: Wait>(
        &self,
        rt: &R,
        pass: &mut Self::Pass,
        step: &ClientStep,
    ) -> Result<Answer, Exhausted>
        requires ready { is_of self.now pass.old × ((carried pass.old).turn ≡ false) }
        ensures door { is_of self.now pass.new }
        ensures acts { ActsAlways (carried pass.old) (carried pass.new) (client_act step.now) result };

    /// What the pass's caller sees.
    fn look<R: Wait>(&self, rt: &R, pass: &mut Self::Pass, query: &Query) -> Result<View, NoMemory>
        requires ready { is_of self.now pass.old × ((carried pass.old).turn ≡ false) }
        ensures door { is_of self.now pass.new }
        ensures looks { Looks (carried pass.old) (carried pass.new) (asked.Query query.now)
            (λ view start seen. view ≡ look start seen (carried pass.old).caller query.now) result };

    /// The frame of the history.
    fn paint<R: Wait>(&self, rt: &R, pass: &mut Self::Pass) -> Result<Frame, NoMemory>
        requires ready { is_of self.now pass.old × ((carried pass.old).turn ≡ false) }
        ensures door { is_of self.now pass.new }
        ensures looks { Looks (carried pass.old) (carried pass.new) asked.Frame (λ painted start seen. painted ≡ frame start seen) result };

    /// Whether a command said that the desk is to stop. It takes no memory.
    fn stopped<R: Wait>(&self, rt: &R, pass: &mut Self::Pass) -> bool
        requires ready { is_of self.now pass.old × ((carried pass.old).turn ≡ false) }
        ensures door { is_of self.now pass.new }
        ensures looked { Looked (carried pass.old) (carried pass.new) asked.Stopped (λ start seen. result ≡ stopped start seen) };

    // The marks of a pass are those of its caller's calls.
    ghost legal: { (door : Self) (pass : Self.Pass) → is_of door pass → IsLegal (carried pass) };
}
