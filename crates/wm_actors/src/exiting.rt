//! The step `exit` of an actor that failed.
ghost use Rattle.std.specs.Prelude.{◌≡◌, false};
ghost use Rattle.wm_actors.specs.Exits.{Exits, TriedExit};

use crate::ending::ActorEnd;
use std::alloc::Global;
use std::sync::Wait;
use wm_core::{Door, Step};
use wm_criteria::{RegexBuild, prepare};

/// Ends an actor so. Where it was not stopped it says `exit`, so that all end.
pub fn finish<R: Wait, D: Door>(
    alloc: Global,
    rt: &R,
    door: &D,
    pass: &mut D::Pass,
    end: ActorEnd,
) -> ActorEnd
    requires ready { D.is_of door.now pass.old × ((D.carried pass.old).turn ≡ false) }
    ensures door { D.is_of door.now pass.new }
    ensures end { result ≡ end }
    ensures exits { Exits end (D.carried pass.old) (D.carried pass.new) }
{
    if end == ActorEnd::Stopped {
        return end;
    }
    say_exit(alloc, rt, door, pass);
    end
}

/// Takes the step `exit`. Where it is refused, or there is no memory to make it, nothing is done.
fn say_exit<R: Wait, D: Door>(alloc: Global, rt: &R, door: &D, pass: &mut D::Pass)
    requires ready { D.is_of door.now pass.old × ((D.carried pass.old).turn ≡ false) }
    ensures door { D.is_of door.now pass.new }
    ensures tried { TriedExit (D.carried pass.old) (D.carried pass.new) }
{
    let mut build = RegexBuild::new();
    let Ok(prepared) = prepare(alloc, "exit", &mut build) else {
        return;
    };
    let step = Step::Run(prepared);
    let _ = door.act(rt, pass, &step);
    drop(step);
}
