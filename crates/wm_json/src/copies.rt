//! Copies of words, texts and properties. A copied text shares its bytes, a copied word does not.
ghost use Rattle.std.specs.Prelude.{◌≡◌, IfOk};

use std::alloc::{AllocError, Global};
use wm_base::{List, Props, Str, Text};

/// An equal word.
pub fn copy_str(alloc: Global, word: &Str) -> Result<Str, AllocError>
    ensures { IfOk result (λ copy. copy ≡ word.now) }
{
    Ok(Str::of(String::from_str(alloc, word.as_str())?))
}

/// An equal text, where there is one.
pub(crate) fn copy_text_if(text: &Option<Text>) -> Result<Option<Text>, AllocError>
    ensures { IfOk result (λ copy. copy ≡ text.now) }
{
    match text {
        Some(text) => Ok(Some(text.clone()?)),
        None => Ok(None),
    }
}

/// The same texts.
pub fn copy_texts(alloc: Global, texts: &[Text]) -> Result<List<Text>, AllocError>
    ensures { IfOk result (λ copy. copy ≡ texts.now) }
{
    let mut copy = Vec::with_capacity(alloc, texts.len())?;
    for text in texts {
        copy.push(text.clone()?)?;
    }
    Ok(List::of(copy))
}

fn copy_three(a: &Text, b: &Text, c: &Text) -> Result<(Text, Text, Text), AllocError>
    ensures { IfOk result (λ copy. (copy.0 ≡ a.now) × (copy.1 ≡ b.now) × (copy.2 ≡ c.now)) }
{
    Ok((a.clone()?, b.clone()?, c.clone()?))
}

fn copy_props(props: &Props) -> Result<Props, AllocError>
    ensures { IfOk result (λ copy. copy ≡ props.now) }
{
    let (class, instance, role) = copy_three(&props.class, &props.instance, &props.role)?;
    let (kind, machine, title) = copy_three(&props.kind, &props.machine, &props.title)?;
    Ok(Props {
        class,
        instance,
        role,
        kind,
        machine,
        title,
    })
}

/// Equal properties, where there are any.
pub(crate) fn copy_props_if(props: &Option<Props>) -> Result<Option<Props>, AllocError>
    ensures { IfOk result (λ copy. copy ≡ props.now) }
{
    match props {
        Some(props) => Ok(Some(copy_props(props)?)),
        None => Ok(None),
    }
}
