//! The texts of windows.
use crate::fault::Fault;
use std::alloc::{AllocError, Global};
use wm_base::{Props, Text};

/// A short text.
pub fn text(alloc: Global) -> Result<Text, Fault> {
    match Text::new(alloc, "w") {
        Ok(text) => Ok(text),
        Err(_) => Err(Fault::Refused),
    }
}

/// The properties of a window, each the same text.
pub fn props(alloc: Global) -> Result<Props, Fault> {
    let text = text(alloc)?;
    let (class, instance, role) = three(&text)?;
    let (kind, machine, title) = three(&text)?;
    Ok(Props {
        class,
        instance,
        role,
        kind,
        machine,
        title,
    })
}

fn three(text: &Text) -> Result<(Text, Text, Text), AllocError> {
    Ok((text.clone()?, text.clone()?, text.clone()?))
}
