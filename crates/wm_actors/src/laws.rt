//! Laws of what actors do.
ghost use Rattle.std.specs.Prelude.{◌≡◌, IfSome, true};
ghost use Rattle.wm_history.specs.History.{opening_of, stopped};
ghost use Rattle.wm_core.specs.Passes.{Pass};
ghost use Rattle.wm_actors.specs.Exits.{SaidExit};

/// Where an actor has said `exit` the desk is to stop.
#[tactic(auto, using(crate::proofs::ExitLemmas::exit_stops))]
pub fn an_exit_stops()
    ensures { (before now : Pass) → SaidExit before now → IfSome before.opening (λ plan. stopped (opening_of plan) now.seen ≡ true) }
{}
