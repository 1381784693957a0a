//! The command that sets a mode.
ghost use Rattle.std.specs.Prelude.{◌≡◌, IfOk};
ghost use Rattle.std.specs.Str.{bytes_eq};
ghost use Rattle.std.specs.List.{list_any};
ghost use Rattle.std.specs.Option.{option_or};
ghost use Rattle.wm_apply.specs.Commands.{is_mode, is_unknown_mode, set_mode};

use std::alloc::AllocError;
use wm_base::Text;
use wm_language::Command;
use wm_layouts::Env;

/// The mode in which a desk opens.
const DEFAULT: &str = "default";

/// Whether the mode is one of these.
fn is_listed(mode: &str, modes: &[Text]) -> bool
    ensures { result ≡ list_any (bytes_eq mode.now) modes.now }
{
    let mut rest = modes;
    while let [first, after @ ..] = rest {
        if mode == first.as_str() {
            return true;
        }
        rest = after;
    }
    false
}

/// Whether the mode can be set: `default`, or one of the plan.
fn is_mode(env: &Env, mode: &str) -> bool
    ensures { result ≡ is_mode env.now mode.now }
{
    mode == DEFAULT || is_listed(mode, env.modes.items())
}

/// Whether the command names a mode that cannot be set.
pub fn is_unknown_mode(env: &Env, command: &Command) -> bool
    ensures { result ≡ is_unknown_mode env.now command.now }
{
    match command {
        Command::Mode(mode) => !is_mode(env, mode.as_str()),
        _ => false,
    }
}

/// The mode that the command sets, if any.
pub fn mode_set(env: &Env, command: &Command) -> Result<Option<Text>, AllocError>
    ensures { IfOk result (λ mode. mode ≡ set_mode env.now command.now) }
{
    match command {
        Command::Mode(mode) if is_mode(env, mode.as_str()) => Ok(Some(mode.clone()?)),
        _ => Ok(None),
    }
}

/// Puts the mode that was set, if any, in the place of the one before.
pub fn renew(mode: &mut Option<Text>, set: Option<Text>)
    ensures { mode.new ≡ option_or set mode.old }
{
    if set.is_some() {
        *mode = set;
    }
}
