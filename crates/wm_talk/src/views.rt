//! What is seen, as JSON.
ghost use Rattle.std.specs.Prelude.{◌≡◌, IfOk, codes};
ghost use Rattle.serde_json.specs.View.{view};
ghost use Rattle.wm_talk.specs.Told.{text_object, view_json};
ghost use Rattle.wm_talk.specs.Values.{text_data};

use serde_json::{Value, json};
use std::alloc::{AllocError, Global};
use wm_base::NoMemory;
use wm_core::View;
use wm_json::{compact, texts_json};
use wm_written::{node_json, outputs_json, workspaces_json};

/// The JSON of what is seen; empty where no message looks at it.
pub fn view_json(alloc: Global, view: &View) -> Result<Vec<u8>, NoMemory>
    ensures { IfOk result (λ bytes. bytes.items ≡ view_json view.now) }
{
    match view {
        View::Tree(node) => node_json(alloc, node),
        View::Workspaces(spaces) => workspaces_json(alloc, spaces.items()),
        View::Outputs(outputs) => outputs_json(alloc, outputs.items()),
        View::Marks(marks) => texts_json(alloc, marks.items()),
        View::Modes(modes) => texts_json(alloc, modes.items()),
        View::Mode(mode) => name_json(alloc, mode.as_str()),
        View::Config(config) => config_json(alloc, config.as_str()),
        _ => Ok(Vec::new(alloc)),
    }
}

/// The object of a name.
fn name_value(alloc: Global, name: &str) -> Result<Value, AllocError>
    ensures { IfOk result (λ v. view v ≡ text_data (codes "name") name.now) }
{
    json!(in alloc; {"name": name})
}

/// The JSON of the object of a name.
fn name_json(alloc: Global, name: &str) -> Result<Vec<u8>, NoMemory>
    ensures { IfOk result (λ bytes. bytes.items ≡ text_object (codes "name") name.now) }
{
    let value = name_value(alloc, name)?;
    compact(alloc, &value)
}

/// The object of a configuration.
fn config_value(alloc: Global, config: &str) -> Result<Value, AllocError>
    ensures { IfOk result (λ v. view v ≡ text_data (codes "config") config.now) }
{
    json!(in alloc; {"config": config})
}

/// The JSON of the object of a configuration.
fn config_json(alloc: Global, config: &str) -> Result<Vec<u8>, NoMemory>
    ensures { IfOk result (λ bytes. bytes.items ≡ text_object (codes "config") config.now) }
{
    let value = config_value(alloc, config)?;
    compact(alloc, &value)
}
