//! Cases of configurations: what they give, or which line is refused.
use case_data::{Fault, Words, string_of};
use wm_base::OutputPlan;
use wm_binds::{Bind, Config};
use wm_layouts::{Env, Plan};

/// What a configuration gives: its plan and its bindings, or the line that is refused.
pub fn tell_config(words: &mut Words<'_>, out: &mut String) -> Result<(), Fault> {
    let text = string_of(words.alloc, words.rest())?;
    match Config::read(words.alloc, text.as_str()) {
        Ok(config) => {
            let done = tell_given(&config, out);
            drop(config);
            done
        }
        Err(refusal) => Ok(write!(out, "  {refusal}\n")?),
    }
}

fn tell_given(config: &Config, out: &mut String) -> Result<(), Fault> {
    tell_plan(&config.plan, out)?;
    tell_env(&config.plan.env, out)?;
    for bind in config.binds.items() {
        tell_bind(bind, out)?;
    }
    Ok(())
}

fn tell_plan(plan: &Plan, out: &mut String) -> Result<(), Fault> {
    for output in plan.outputs.items() {
        tell_output(output, out)?;
    }
    write!(
        out,
        "  {:?}, gaps {} and {}\n",
        plan.border, plan.inner, plan.outer
    )?;
    Ok(())
}

fn tell_output(output: &OutputPlan, out: &mut String) -> Result<(), Fault> {
    let rect = output.rect;
    let name = output.name.as_str();
    write!(
        out,
        "  output {name} {},{} {}x{}\n",
        rect.x, rect.y, rect.w, rect.h
    )?;
    Ok(())
}

fn tell_env(env: &Env, out: &mut String) -> Result<(), Fault> {
    for mode in env.modes.items() {
        write!(out, "  mode {}\n", mode.as_str())?;
    }
    for home in env.homes.items() {
        write!(out, "  {} on {}\n", home.0.as_str(), home.1.as_str())?;
    }
    for layout in env.layouts.items() {
        let trees = layout.1.trees.items().len();
        write!(out, "  layout {} of {trees}\n", layout.0.as_str())?;
    }
    Ok(())
}

fn tell_bind(bind: &Bind, out: &mut String) -> Result<(), Fault> {
    let mode = bind.mode.as_str();
    let chord = bind.chord.as_str();
    write!(out, "  {mode}: {chord} runs {}\n", bind.text.as_str())?;
    Ok(())
}
