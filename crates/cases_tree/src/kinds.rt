//! What a container is, as a part of its line.
use crate::telling::layout_word;
use std::alloc::AllocError;
use wm_base::{Props, Size};
use wm_tree::{ConKind, Swallow, SwallowKey};

/// The words of properties, in their order.
const PROPERTIES: [&str; 6] = ["class", "instance", "role", "kind", "machine", "title"];

/// Appends what a container is.
pub fn push_kind(out: &mut String, kind: &ConKind) -> Result<(), AllocError> {
    match kind {
        ConKind::Split { layout, last_split } => {
            let (layout, last) = (layout_word(*layout), layout_word(*last_split));
            write!(out, "split {layout} last {last}")
        }
        ConKind::Window {
            props,
            owner,
            natural,
        } => {
            push_window(out, *owner, *natural)?;
            push_props(out, props)
        }
        ConKind::Placeholder { props, swallows } => {
            push_placeholder(out, props, swallows.items())
        }
    }
}

fn push_window(out: &mut String, owner: u32, natural: Size) -> Result<(), AllocError> {
    let Size { w, h } = natural;
    write!(out, "window of {owner} {w}x{h}")
}

fn push_placeholder(
    out: &mut String,
    props: &Props,
    swallows: &[Swallow],
) -> Result<(), AllocError> {
    out.push_str("placeholder")?;
    push_props(out, props)?;
    push_swallows(out, swallows)
}

/// The properties: one text where all are equal.
fn push_props(out: &mut String, props: &Props) -> Result<(), AllocError> {
    let texts = [
        props.class.as_str(),
        props.instance.as_str(),
        props.role.as_str(),
        props.kind.as_str(),
        props.machine.as_str(),
        props.title.as_str(),
    ];
    if are_all(texts, texts[0]) {
        return write!(out, " \"{}\"", texts[0]);
    }
    push_named(out, texts)
}

fn are_all(texts: [&str; 6], same: &str) -> bool {
    for text in texts {
        if text != same {
            return false;
        }
    }
    true
}

fn push_named(out: &mut String, texts: [&str; 6]) -> Result<(), AllocError> {
    for at in 0..6 {
        write!(out, " {} \"{}\"", PROPERTIES[at], texts[at])?;
    }
    Ok(())
}

fn push_swallows(out: &mut String, swallows: &[Swallow]) -> Result<(), AllocError> {
    for swallow in swallows {
        out.push_str(" swallows")?;
        for (key, text) in swallow.keys.items() {
            write!(out, " {} \"{}\"", key_word(*key), text.as_str())?;
        }
    }
    Ok(())
}

fn key_word(key: SwallowKey) -> &'static str {
    match key {
        SwallowKey::Class => "class",
        SwallowKey::Instance => "instance",
        SwallowKey::Role => "role",
        SwallowKey::Title => "title",
        SwallowKey::Machine => "machine",
    }
}
