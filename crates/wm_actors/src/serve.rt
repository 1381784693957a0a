//! What serves a link.
ghost use Rattle.std.specs.Prelude.{◌≡◌, ◌^◌, IfSome, None, Option, Some, false, length};
ghost use Rattle.wm_criteria.specs.Building.{Log};
ghost use Rattle.wm_session.specs.Served.{Stage, stage};
ghost use Rattle.wm_actors.specs.Worked.{IsCarried};
ghost use Rattle.wm_actors.specs.declared.serve.Failure.TheVariants as failures;

use crate::ending::ActorEnd;
use std::alloc::Global;
use std::sync::Wait;
use wm_core::Door;
use wm_ports::Link;

/// Why serving a link ends the worker too.
#[derive(Clone, Copy, Debug, PartialEq, Eq)]
pub enum Failure {
    /// The history takes no more steps.
    Exhausted,
    NoMemory,
}

/// What serves links, one after another, with what it keeps between them.
pub trait Serve<K> {
    ghost use Rattle.wm_actors.specs.declared.serve.Failure.{Failure};

    /// How serving a link ends.
    type End: Copy;

    // The log of the patterns that were refused, by what is kept.
    ghost log: { K → Log };

    // Serving a link led from the first stage to this one, and ended so.
    ghost served: { Stage → Stage → Self.End → Type 0 };

    // The failure that an end is, if it is one.
    ghost fails: { Self.End → Option Failure };

    /// Serves a link, through a door by a pass. It may wait, and need not return.
    fn serve<R: Wait, D: Door, L: Link>(
        &self,
        alloc: Global,
        rt: &R,
        door: &D,
        pass: &mut D::Pass,
        kept: &mut K,
        link: &mut L,
    ) -> Self::End
        requires ready { D.is_of door.now pass.old × ((D.carried pass.old).turn ≡ false) }
        ensures door { D.is_of door.now pass.new }
        ensures carried { IsCarried (D.carried pass.old) (D.carried pass.new) }
        ensures served { served (stage (D.carried pass.old) (L.told link.old) (L.faults link.old) (log kept.old))
            (stage (D.carried pass.new) (L.told link.new) (L.faults link.new) (log kept.new)) result }
        ensures full { fails result ≡ Some failures.Exhausted →
            IfSome (D.carried pass.new).opening (λ plan. length (D.carried pass.new).seen ≡ 2 ^ 48) };

    /// The failure that an end is, if it is one.
    fn failure(&self, end: Self::End) -> Option<Failure>
        ensures { result ≡ fails end };
}

impl From<Failure> for ActorEnd {
    ghost use Rattle.std.specs.Prelude.{◌≡◌};
    ghost use Rattle.wm_actors.specs.Worked.{end_of_failure};

    ghost from_gives = { λ failure e. e ≡ end_of_failure failure };

    fn from(failure: Failure) -> ActorEnd {
        match failure {
            Failure::Exhausted => ActorEnd::Exhausted,
            Failure::NoMemory => ActorEnd::NoMemory,
        }
    }
}
