//! Keys: the binding of a chord in a mode.
ghost use Rattle.std.specs.Prelude.{◌≡◌, MatchOption, None, Some};
ghost use Rattle.std.specs.List.{AllByRecursion};
ghost use Rattle.wm_script.specs.Out.{is_of, last_bind};
ghost use Rattle.wm_script.specs.Playing.{IsShort};

use wm_binds::Bind;

/// The last binding of the chord in the mode.
#[tactic(auto, using(crate::proofs::KeyLemmas::all_behind, crate::proofs::KeyLemmas::found_here, crate::proofs::KeyLemmas::not_here))]
pub fn last_bind<'a>(binds: &'a [Bind], mode: &str, chord: &str) -> Option<&'a Bind>
    requires { AllByRecursion IsShort binds.now }
    ensures bind { MatchOption result (last_bind mode.now chord.now binds.now ≡ None) (λ b. last_bind mode.now chord.now binds.now ≡ Some b.now) }
    ensures short { MatchOption result (Unit {0}) (λ b. IsShort b.now) }
{
    let mut found = None;
    let mut rest = binds;
    while let [bind, after @ ..] = rest {
        if is_of(bind, mode, chord) {
            found = Some(bind);
        }
        rest = after;
    }
    found
}

/// Whether the binding is of this mode and this chord.
fn is_of(bind: &Bind, mode: &str, chord: &str) -> bool
    ensures { result ≡ is_of mode.now chord.now bind.now }
{
    bind.mode.as_str() == mode && bind.chord.as_str() == chord
}
