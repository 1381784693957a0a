//! The mode of a desk.
ghost use Rattle.std.specs.Prelude.{◌≡◌, codes, IfOk};
ghost use Rattle.wm_history.specs.Look.{all_modes};
ghost use Rattle.wm_history.specs.Effect.{mode_after};

use std::alloc::Global;
use std::mem;
use wm_base::{List, NoMemory, Text};
use wm_layouts::Env;

/// The mode in which a desk opens.
pub fn default_mode(alloc: Global) -> Result<Text, NoMemory>
    ensures { IfOk result (λ mode. mode ≡ codes "default") }
{
    match Text::new(alloc, "default") {
        Ok(mode) => Ok(mode),
        Err(_) => Err(NoMemory),
    }
}

/// The modes that can be set, `default` first.
pub fn all_modes(alloc: Global, env: &Env) -> Result<List<Text>, NoMemory>
    ensures { IfOk result (λ modes. modes ≡ all_modes env.now) }
{
    let mut modes = Vec::new(alloc);
    modes.push(default_mode(alloc)?)?;
    let mut rest = env.modes.items();
    while let [mode, after @ ..] = rest {
        modes.push(mode.clone()?)?;
        rest = after;
    }
    Ok(List::of(modes))
}

/// Puts the mode that was set, if any, in the place of the one before.
pub fn set_mode(mode: &mut Text, set: Option<Text>)
    ensures { mode.new ≡ mode_after set mode.old }
{
    if let Some(set) = set {
        drop(mem::replace(mode, set));
    }
}
