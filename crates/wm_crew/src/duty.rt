//! What a worker does.
use std::alloc::Global;
use std::sync::Wait;
use wm_actors::ActorEnd;

/// What each worker of a crew does with a pass, a listener of such links, and what it keeps.
pub trait Duty<P, A, B, L> {
    ghost use Rattle.std.specs.Prelude.{ℕ};
    ghost use Rattle.wm_actors.specs.declared.ending.ActorEnd.{ActorEnd};

    // What a pass must be before.
    ghost ready: { Self → P → Type 0 };

    // The worker of the door with this number led from this pass, listener and what it kept to these, and ended so.
    ghost does: { Self → ℕ → P → A → B → P → A → B → ActorEnd → Type 0 };

    /// Does the work of the worker of the door with this number. It may wait, and need not return.
    fn perform<R: Wait>(
        &self,
        alloc: Global,
        rt: &R,
        number: usize,
        pass: &mut P,
        listen: &mut A,
        kept: &mut B,
    ) -> ActorEnd
        requires { ready self.now pass.old }
        ensures { does self.now number pass.old listen.old kept.old pass.new listen.new kept.new result };
}
