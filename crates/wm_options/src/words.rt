//! What the words of the server ask for.
ghost use Rattle.std.specs.Prelude.{◌≡◌, [], None, Some, true, false, map, string_bytes, IfOk, IfSome};
ghost use Rattle.clap.specs.Words.{app_of, found_of, rows_of, takes};
ghost use Rattle.wm_options.specs.Options.{AreSpelled, IsInRange, command, options_in, options_of};

use clap::error::ErrorKind;
use clap::{Arg, ArgMatches, Command, value_parser};
use std::alloc::{AllocError, Global};
use wm_base::NoMemory;

/// For how many milliseconds clients are waited for, where the words do not say it.
const HOLD_MS: u64 = 200;

/// What the words ask for.
#[derive(Clone, Copy, Debug, PartialEq, Eq)]
pub struct Options {
    /// For how many milliseconds clients are waited for, 1 to 10,000.
    pub hold_ms: u64,
    /// With how many callers and how many modelled clients to rehearse, 1 to 8, and `None` to serve the doors.
    pub rehearse: Option<u32>,
}

/// What the words ask for: `--hold` and a number of milliseconds from 1 to 10,000, and `--rehearse` and a number from 1 to 8,
/// each at most once. The program's name is not among them. Other words ask for nothing, `Ok(None)`.
pub fn options_of(alloc: Global, words: &[String]) -> Result<Option<Options>, NoMemory>
    ensures asked { IfOk result (λ options. options ≡ options_of (map string_bytes words.now)) }
    ensures refused { IfOk result (λ options. options ≡ None → takes command (map string_bytes words.now) ≡ false) }
    ensures in_range { IfOk result (λ options. IfSome options IsInRange) }
    ensures no_words { words.now ≡ [] → IfOk result (λ options. options ≡ Some (record { hold_ms = 200; rehearse = None })) }
{
    match command(alloc)?.try_get_matches_from(words) {
        Ok(matches) => Ok(Some(options_in(&matches))),
        Err(error) => match error.kind() {
            ErrorKind::OutOfMemory => Err(NoMemory),
            _ => Ok(None),
        },
    }
}

/// The command of the two options.
fn command<'a>(alloc: Global) -> Result<Command<'a>, AllocError>
    ensures { IfOk result (λ made. app_of made ≡ command) }
{
    let hold = Arg::new(alloc, "hold")
        .long("hold")
        .value_parser(value_parser!(u64).range(1..=10_000));
    let rehearse = Arg::new(alloc, "rehearse")
        .long("rehearse")
        .value_parser(value_parser!(u32).range(1..=8));
    Command::new(alloc, "i3desk")
        .no_binary_name(true)
        .disable_help_flag(true)
        .arg(hold)?
        .arg(rehearse)
}

/// The options that the matches give.
fn options_in(matches: &ArgMatches<'_>) -> Options
    requires { AreSpelled (rows_of (found_of matches.now)) }
    ensures asked { result ≡ options_in (rows_of (found_of matches.now)) }
    ensures in_range { IsInRange result }
{
    Options {
        hold_ms: matches.get_one::<u64>("hold").unwrap_or(HOLD_MS),
        rehearse: matches.get_one::<u32>("rehearse"),
    }
}
