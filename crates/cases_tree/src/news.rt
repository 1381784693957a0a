//! Containers to be made, as lines of data name them.
use case_data::{Fault, Words};
use std::alloc::Global;
use wm_base::{List, Props, Size, Text};
use wm_tree::{NewCon, Swallow, SwallowKey};

/// The properties with these texts, in the order of class, instance, role, kind, machine and title.
fn props(alloc: Global, texts: [&str; 6]) -> Result<Props, Fault> {
    let [class, instance, role, kind, machine, title] = texts;
    let (class, instance) = pair(alloc, class, instance)?;
    let (role, kind) = pair(alloc, role, kind)?;
    let (machine, title) = pair(alloc, machine, title)?;
    Ok(Props {
        class,
        instance,
        role,
        kind,
        machine,
        title,
    })
}

fn pair(alloc: Global, first: &str, second: &str) -> Result<(Text, Text), Fault> {
    let first = Text::new(alloc, first)?;
    Ok((first, Text::new(alloc, second)?))
}

/// The properties that six words say, in the order of class, instance, role, kind, machine and title; or one word
/// for all; or none, for `w`.
pub fn props_words(words: &mut Words<'_>) -> Result<Props, Fault> {
    let texts = six(words);
    props(words.alloc, texts)
}

fn six<'a>(words: &mut Words<'a>) -> [&'a str; 6] {
    if words.is_done() {
        return ["w"; 6];
    }
    let class = words.word();
    if words.is_done() {
        return [class; 6];
    }
    let (instance, role, kind) = (words.word(), words.word(), words.word());
    [class, instance, role, kind, words.word(), words.word()]
}

/// A window of caller 9 with this natural size: `30x20`, or none for that, and its properties.
pub fn window(words: &mut Words<'_>) -> Result<NewCon, Fault> {
    Ok(NewCon::Window {
        props: props_words(words)?,
        owner: 9,
        natural: Size { w: 30, h: 20 },
    })
}

/// A placeholder, with the patterns that the words name, as `class term title top`.
pub fn placeholder(words: &mut Words<'_>) -> Result<NewCon, Fault> {
    let swallows = swallows(words)?;
    let props = props(words.alloc, [""; 6])?;
    Ok(NewCon::Placeholder { props, swallows })
}

/// The patterns that the words name: one list of them, or none.
fn swallows(words: &mut Words<'_>) -> Result<List<Swallow>, Fault> {
    let mut swallows = Vec::new(words.alloc);
    if !words.is_done() {
        swallows.push(swallow(words)?)?;
    }
    Ok(List::of(swallows))
}

fn swallow(words: &mut Words<'_>) -> Result<Swallow, Fault> {
    let mut keys = Vec::new(words.alloc);
    for _ in 0..8 {
        if words.is_done() {
            break;
        }
        keys.push(key_text(words)?)?;
    }
    Ok(Swallow {
        keys: List::of(keys),
    })
}

fn key_text(words: &mut Words<'_>) -> Result<(SwallowKey, Text), Fault> {
    let key = key(words.word())?;
    Ok((key, words.text()?))
}

fn key(word: &str) -> Result<SwallowKey, Fault> {
    match word {
        "class" => Ok(SwallowKey::Class),
        "instance" => Ok(SwallowKey::Instance),
        "role" => Ok(SwallowKey::Role),
        "title" => Ok(SwallowKey::Title),
        "machine" => Ok(SwallowKey::Machine),
        _ => Err(Fault::BadLine),
    }
}
