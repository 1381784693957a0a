//! What a configuration gives: a plan, and bindings.
ghost use Rattle.std.specs.Prelude.{◌≡◌, IfOk};
ghost use Rattle.wm_binds.specs.Reading.{config, IsRead};
ghost use Rattle.wm_binds.specs.declared.config.ConfigRefusal.TheVariants as refusals;
ghost use Rattle.wm_layouts.specs.Plan.{IsSound};

use crate::reading::read_config;
use std::alloc::{AllocError, Global};
use thiserror::Error;
use wm_base::{Limit, List, NoMemory as OutOfMemory, Str, Text};
use wm_layouts::Plan;

/// A command for a chord of keys in a mode.
#[derive(Debug, Drop)]
pub struct Bind {
    pub mode: Text,
    pub chord: Text,
    pub text: Str,
}

/// The plan with which a desktop starts, and its bindings in order.
#[derive(Debug, Drop)]
pub struct Config {
    pub plan: Plan,
    pub binds: List<Bind>,
}

/// Why a text is no configuration.
#[derive(Clone, Copy, Debug, PartialEq, Eq, Error)]
pub enum ConfigRefusal {
    /// This line, counted from 1, is the first one outside the grammar.
    #[error("bad configuration, line {line}")]
    BadLine { line: u64 },

    /// This line, counted from 1, is the first one that passes this limit.
    #[error("full {}, line {line}", .limit.word())]
    Full { line: u64, limit: Limit },

    /// Memory ran out.
    #[error("no memory")]
    NoMemory,
}

impl From<OutOfMemory> for ConfigRefusal {
    ghost from_gives = { λ _ e. e ≡ refusals.NoMemory };

    fn from(_error: OutOfMemory) -> ConfigRefusal {
        ConfigRefusal::NoMemory
    }
}

impl From<AllocError> for ConfigRefusal {
    ghost from_gives = { λ _ e. e ≡ refusals.NoMemory };

    fn from(_error: AllocError) -> ConfigRefusal {
        ConfigRefusal::NoMemory
    }
}

impl Config {
    /// The configuration that a text is. Otherwise `BadLine` names the first line outside the grammar, or `Full` the
    /// first that has one output more than a plan may have, whichever comes first.
    pub fn read(alloc: Global, text: &str) -> Result<Config, ConfigRefusal>
        ensures read { IsRead (config text.now) result }
        ensures sound { IfOk result (λ config. IsSound config.plan) }
    {
        read_config(alloc, text.as_bytes())
    }

    /// The same of bytes; a line that is no UTF-8 is outside the grammar.
    pub fn read_bytes(alloc: Global, bytes: &[u8]) -> Result<Config, ConfigRefusal>
        ensures read { IsRead (config bytes.now) result }
        ensures sound { IfOk result (λ config. IsSound config.plan) }
    {
        read_config(alloc, bytes)
    }
}
