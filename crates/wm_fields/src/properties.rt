//! Properties of a window on a line.
ghost use Rattle.std.specs.Prelude.{◌≡◌, ◌≤◌, [], codes, IfOk, length};
ghost use Rattle.std.specs.Option.{option_map};
ghost use Rattle.wm_fields.specs.Properties.{field_at, none_given, once, or_text, properties_at, property_at, props_of, window_at, with_property};

use crate::fields::{behind, gap};
use crate::quoted::quoted_text;
use std::alloc::{AllocError, Global};
use wm_base::{NoMemory, Props, Text, TextRefusal};

/// How many properties there are.
const FIELDS: u32 = 6;

/// A property.
#[derive(Clone, Copy, Debug, PartialEq, Eq)]
pub(crate) enum Field {
    Class,
    Instance,
    Role,
    Kind,
    Machine,
    Title,
}

/// The properties that a line gives.
#[derive(Debug, Drop)]
pub(crate) struct Given {
    class: Option<Text>,
    instance: Option<Text>,
    role: Option<Text>,
    kind: Option<Text>,
    machine: Option<Text>,
    title: Option<Text>,
}

impl Given {
    /// No properties.
    pub fn none() -> Given
        ensures { result ≡ none_given }
    {
        Given {
            class: None,
            instance: None,
            role: None,
            kind: None,
            machine: None,
            title: None,
        }
    }

    /// These properties with one more. `None` exactly where it was given before.
    fn with(self, field: Field, text: Text) -> Option<Given>
        ensures { result ≡ with_property field text self }
    {
        let mut given = self;
        let before = given.replace(field, text);
        if before.is_none() {
            return Some(given);
        }
        drop(given);
        None
    }

    /// Takes the text as this property, and gives the one that it had.
    fn replace(&mut self, field: Field, text: Text) -> Option<Text>
        ensures { once result self.new ≡ with_property field text self.old }
    {
        match field {
            Field::Class => self.class.replace(text),
            Field::Instance => self.instance.replace(text),
            Field::Role => self.role.replace(text),
            Field::Kind => self.kind.replace(text),
            Field::Machine => self.machine.replace(text),
            Field::Title => self.title.replace(text),
        }
    }

    /// The properties of a window: what was not given is empty, and its kind is `normal`.
    pub fn props(self, alloc: Global) -> Result<Props, NoMemory>
        ensures { IfOk result (λ props. props ≡ props_of self) }
    {
        let props = self.copy(alloc);
        drop(self);
        props
    }

    /// The same. The texts are copied, which moves no bytes.
    fn copy(&self, alloc: Global) -> Result<Props, NoMemory>
        ensures { IfOk result (λ props. props ≡ props_of self.now) }
    {
        let (class, instance, role) = self.copy_first(alloc)?;
        let kind = self.copy_kind(alloc)?;
        let (machine, title) = self.copy_last(alloc)?;
        Ok(Props {
            class,
            instance,
            role,
            kind,
            machine,
            title,
        })
    }

    /// The class, the instance and the role.
    fn copy_first(&self, alloc: Global) -> Result<(Text, Text, Text), NoMemory>
        ensures { IfOk result (λ c. c ≡ (or_text self.now.class [], or_text self.now.instance [], or_text self.now.role [])) }
    {
        let none = word(alloc, "")?;
        let class = or_text(&self.class, &none)?;
        let instance = or_text(&self.instance, &none)?;
        let role = or_text(&self.role, &none)?;
        Ok((class, instance, role))
    }

    /// The machine and the title.
    fn copy_last(&self, alloc: Global) -> Result<(Text, Text), NoMemory>
        ensures { IfOk result (λ c. c ≡ (or_text self.now.machine [], or_text self.now.title [])) }
    {
        let none = word(alloc, "")?;
        let machine = or_text(&self.machine, &none)?;
        let title = or_text(&self.title, &none)?;
        Ok((machine, title))
    }

    /// The kind.
    fn copy_kind(&self, alloc: Global) -> Result<Text, NoMemory>
        ensures { IfOk result (λ kind. kind ≡ or_text self.now.kind (codes "normal")) }
    {
        let normal = word(alloc, "normal")?;
        Ok(or_text(&self.kind, &normal)?)
    }
}

/// The properties of a window, each behind spaces and at most once, to the end of the text.
pub fn window_properties(alloc: Global, text: &[u8]) -> Result<Option<Props>, NoMemory>
    ensures { IfOk result (λ props. props ≡ window_at text.now) }
{
    match more_properties(alloc, Given::none(), text, FIELDS)? {
        Some(given) => Ok(Some(given.props(alloc)?)),
        None => Ok(None),
    }
}

/// These properties with at most `most` others, which reach to the end of the text.
fn more_properties(
    alloc: Global,
    given: Given,
    text: &[u8],
    most: u32,
) -> Result<Option<Given>, NoMemory>
    ensures { IfOk result (λ all. all ≡ properties_at most given text.now) }
{
    if text.is_empty() {
        return Ok(Some(given));
    }
    if most == 0 {
        drop(given);
        return Ok(None);
    }
    match property(alloc, given, text)? {
        Some((given, rest)) => more_properties(alloc, given, rest, most - 1),
        None => Ok(None),
    }
}

/// These properties with one more, which stands behind spaces, and what follows it.
fn property(alloc: Global, given: Given, text: &[u8]) -> Result<Option<(Given, &[u8])>, NoMemory>
    ensures { IfOk result (λ more. option_map (λ found. (found.0, found.1.now)) more ≡ property_at given text.now) }
{
    let Some(text) = gap(text) else {
        drop(given);
        return Ok(None);
    };
    let Some((field, text)) = named_field(text) else {
        drop(given);
        return Ok(None);
    };
    let (said, rest) = match quoted_text(alloc, text) {
        Ok(Some(found)) => found,
        Ok(None) => {
            drop(given);
            return Ok(None);
        }
        Err(fault) => {
            drop(given);
            return Err(fault);
        }
    };
    match given.with(field, said) {
        Some(given) => Ok(Some((given, rest))),
        None => Ok(None),
    }
}

/// The word of a property with its `=`, and what follows it.
fn named_field(text: &[u8]) -> Option<(Field, &[u8])>
    ensures { option_map (λ found. (found.0, found.1.now)) result ≡ field_at text.now }
{
    if let Some(rest) = behind(text, b"class=") {
        return Some((Field::Class, rest));
    }
    if let Some(rest) = behind(text, b"instance=") {
        return Some((Field::Instance, rest));
    }
    if let Some(rest) = behind(text, b"role=") {
        return Some((Field::Role, rest));
    }
    if let Some(rest) = behind(text, b"kind=") {
        return Some((Field::Kind, rest));
    }
    if let Some(rest) = behind(text, b"machine=") {
        return Some((Field::Machine, rest));
    }
    let rest = behind(text, b"title=")?;
    Some((Field::Title, rest))
}

/// A copy of the text, or of the other where there is none.
fn or_text(text: &Option<Text>, other: &Text) -> Result<Text, AllocError>
    ensures { IfOk result (λ whole. whole ≡ or_text text.now other.now) }
{
    match text {
        Some(text) => text.clone(),
        None => other.clone(),
    }
}

/// A short text.
fn word(alloc: Global, text: &str) -> Result<Text, NoMemory>
    requires { length text.now ≤ 1024 }
    ensures { IfOk result (λ word. word ≡ text.now) }
{
    match Text::new(alloc, text) {
        Ok(word) => Ok(word),
        Err(TextRefusal::TooLong { len: _ }) => unreachable!(),
        Err(TextRefusal::NoMemory) => Err(NoMemory),
    }
}
