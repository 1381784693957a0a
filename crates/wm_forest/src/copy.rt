//! Copies of nodes and of what they say. A copied text shares its bytes.
ghost use Rattle.std.specs.Prelude.{◌≡◌, ◌++◌, ◌∷◌, [], IfOk};
ghost use Rattle.wm_forest.specs.Row.{alone, row_of};
ghost use Rattle.wm_forest.specs.declared.part.ConKind.TheVariants.{Placeholder};

use crate::part::{ConKind, ConPart, NodeKind, OutputPart, Part, SpacePart, Swallow, SwallowKey};
use crate::row::{Cell, Row};
use std::alloc::{AllocError, Global};
use wm_base::{List, Props, Text};

/// Equal properties.
pub fn copy_props(props: &Props) -> Result<Props, AllocError>
    ensures { IfOk result (λ copy. copy ≡ props.now) }
{
    let (class, instance, role) = copy_three(&props.class, &props.instance, &props.role)?;
    let (kind, machine, title) = copy_three(&props.kind, &props.machine, &props.title)?;
    Ok(Props {
        class,
        instance,
        role,
        kind,
        machine,
        title,
    })
}

fn copy_three(a: &Text, b: &Text, c: &Text) -> Result<(Text, Text, Text), AllocError>
    ensures { IfOk result (λ copy. (copy.0 ≡ a.now) × (copy.1 ≡ b.now) × (copy.2 ≡ c.now)) }
{
    Ok((a.clone()?, b.clone()?, c.clone()?))
}

fn copy_texts(alloc: Global, texts: &[Text]) -> Result<List<Text>, AllocError>
    ensures { IfOk result (λ copy. copy ≡ texts.now) }
{
    let mut copy = Vec::with_capacity(alloc, texts.len())?;
    for text in texts {
        copy.push(text.clone()?)?;
    }
    Ok(List::of(copy))
}

/// The texts, and one more behind them.
pub fn copy_texts_and(alloc: Global, texts: &[Text], last: &Text) -> Result<List<Text>, AllocError>
    ensures { IfOk result (λ copy. copy ≡ texts.now ++ last.now ∷ []) }
{
    let mut copy = copy_texts(alloc, texts)?.into_vec();
    copy.push(last.clone()?)?;
    Ok(List::of(copy))
}

fn copy_keys(alloc: Global, keys: &[(SwallowKey, Text)]) -> Result<Swallow, AllocError>
    ensures { IfOk result (λ copy. copy.keys ≡ keys.now) }
{
    let mut copy = Vec::with_capacity(alloc, keys.len())?;
    for key in keys {
        copy.push((key.0, key.1.clone()?))?;
    }
    Ok(Swallow {
        keys: List::of(copy),
    })
}

fn copy_swallows(alloc: Global, swallows: &[Swallow]) -> Result<List<Swallow>, AllocError>
    ensures { IfOk result (λ copy. copy ≡ swallows.now) }
{
    let mut copy = Vec::with_capacity(alloc, swallows.len())?;
    for swallow in swallows {
        copy.push(copy_keys(alloc, swallow.keys.items())?)?;
    }
    Ok(List::of(copy))
}

fn copy_placeholder(
    alloc: Global,
    props: &Props,
    swallows: &List<Swallow>,
) -> Result<ConKind, AllocError>
    ensures { IfOk result (λ copy. copy ≡ Placeholder props.now swallows.now) }
{
    let swallows = copy_swallows(alloc, swallows.items())?;
    match copy_props(props) {
        Ok(props) => Ok(ConKind::Placeholder { props, swallows }),
        Err(error) => {
            drop(swallows);
            Err(error)
        }
    }
}

impl ConKind {
    fn copy(&self, alloc: Global) -> Result<ConKind, AllocError>
        ensures { IfOk result (λ copy. copy ≡ self.now) }
    {
        match self {
            ConKind::Split { layout, last_split } => Ok(ConKind::Split {
                layout: *layout,
                last_split: *last_split,
            }),
            ConKind::Window {
                props,
                owner,
                natural,
            } => Ok(ConKind::Window {
                props: copy_props(props)?,
                owner: *owner,
                natural: *natural,
            }),
            ConKind::Placeholder { props, swallows } => copy_placeholder(alloc, props, swallows),
        }
    }
}

impl NodeKind {
    fn copy(&self, alloc: Global) -> Result<NodeKind, AllocError>
        ensures { IfOk result (λ copy. copy ≡ self.now) }
    {
        match self {
            NodeKind::Root { current } => Ok(NodeKind::Root { current: *current }),
            NodeKind::Output(output) => Ok(NodeKind::Output(OutputPart {
                name: output.name.clone()?,
                rect: output.rect,
                reserved: output.reserved,
                shown: output.shown,
            })),
            NodeKind::Space(space) => Ok(NodeKind::Space(SpacePart {
                name: space.name.clone()?,
                layout: space.layout,
                last_split: space.last_split,
                inner: space.inner,
                outer: space.outer,
            })),
            NodeKind::Con(con) => Ok(NodeKind::Con(ConPart {
                state: con.state,
                share: con.share,
                title_format: con.title_format.clone()?,
                kind: con.kind.copy(alloc)?,
            })),
        }
    }
}

impl Part {
    fn copy(&self, alloc: Global) -> Result<Part, AllocError>
        ensures { IfOk result (λ copy. copy ≡ self.now) }
    {
        let marks = copy_texts(alloc, self.marks.items())?;
        let kind = self.kind.copy(alloc)?;
        Ok(Part {
            id: self.id,
            kind,
            marks,
        })
    }
}

impl Cell {
    /// An equal node with what is below it and none behind it.
    #[cycle(copy)]
    fn copied(&self, alloc: Global) -> Result<Box<Cell>, AllocError>
        ensures { IfOk result (λ cell. row_of cell.value ≡ alone self.now) }
    {
        let mut copy = Cell::of(alloc, self.part.copy(alloc)?)?;
        copy.set_kids(self.kids.copy(alloc)?);
        copy.set_floats(self.floats.copy(alloc)?);
        Ok(copy)
    }
}

impl Row {
    /// An equal row.
    #[cycle(copy)]
    pub fn copy(&self, alloc: Global) -> Result<Row, AllocError>
        ensures { IfOk result (λ row. row ≡ self.now) }
    {
        let mut done = Row::new();
        let mut row = self;
        while let Some(cell) = &row.first {
            done.push(cell.copied(alloc)?);
            row = &cell.rest;
        }
        let mut copy = Row::new();
        copy.hang(done);
        Ok(copy)
    }
}
