//! What each key asks of a container.
ghost use Rattle.std.specs.Prelude.{◌≡◌, option_map, Some, IfOk};
ghost use Rattle.std.specs.List.{list_any};
ghost use Rattle.std.specs.Option.{option_copied};
ghost use Rattle.wm_base.specs.declared.properties.Props.{Props};
ghost use Rattle.wm_language.specs.declared.batch.Key.TheVariants.{Con};
ghost use Rattle.wm_forest.specs.Change.{is_id};
ghost use Rattle.wm_tree.specs.TreeValue.{shown};
ghost use Rattle.wm_criteria.specs.Holds.{asks, end_id, focused_property, is_text, key_holds, space_name, window_asks};
ghost use Rattle.wm_criteria.specs.Patterns.{to_build, unless_focused, unless_plain};
ghost use Rattle.wm_criteria.specs.Searching.{searches};
ghost use Rattle.wm_criteria.specs.Subject.{IsSubject};

use crate::focus::Focus;
use crate::form::Form;
use crate::plain::{is_plain, plain_search};
use crate::property::Property;
use crate::subject::Subject;
use std::alloc::Global;
use wm_base::{ConId, NoMemory, Props, Text};
use wm_language::Key;

/// The word that stands for the focused window's property, or the focused workspace's name.
const FOCUSED: &str = "__focused__";

/// Whether the key holds for the container. Its form is the one of its pattern, where that has to be built.
pub fn key_holds(
    focus: &Focus<'_>,
    key: &Key,
    form: &Form,
    subject: &Subject<'_>,
) -> Result<bool, NoMemory>
    requires form { form.now ≡ to_build key.now }
    requires told { IsSubject subject.now focus.now.tree.now }
    ensures { IfOk result (λ b. b ≡ key_holds focus.now.tree.now subject.now.id key.now) }
{
    match key {
        Key::Class(x) => window_asks(focus, Property::Class, x, form, subject),
        Key::Instance(x) => window_asks(focus, Property::Instance, x, form, subject),
        Key::Role(x) => window_asks(focus, Property::Role, x, form, subject),
        Key::Kind(x) => Ok(is_of_kind(subject.window, x)),
        Key::Machine(x) => window_asks(focus, Property::Machine, x, form, subject),
        Key::Title(x) => window_asks(focus, Property::Title, x, form, subject),
        Key::Mark(x) => some_mark(focus.alloc, x, form, subject.marks),
        Key::Workspace(x) => workspace_asks(focus, x, form, subject.space),
        Key::Id(n) => Ok(subject.window.is_some() && subject.id.0 == *n),
        Key::Con(n) => Ok(is_con(focus, *n, subject.id)),
        Key::Urgent { latest } => Ok(is_end(focus.tree.urgent_ids(), *latest, subject.id)),
        Key::Floating => Ok(subject.window.is_some() && subject.placed && !subject.tiled),
        Key::Tiling => Ok(subject.window.is_some() && subject.tiled),
        Key::All => Ok(subject.window.is_some()),
    }
}

/// Whether the pattern matches the text. Its form is there where it is not plain.
fn search(alloc: Global, pattern: &str, form: &Form, text: &str) -> Result<bool, NoMemory>
    requires { form.now ≡ unless_plain (Some pattern.now) }
    ensures { IfOk result (λ b. b ≡ searches pattern.now text.now) }
{
    if is_plain(pattern) {
        Ok(plain_search(pattern, text))
    } else {
        form.search(alloc, text)
    }
}

/// Whether this is the container of that id, or the focused one where no id is asked for.
fn is_con(focus: &Focus<'_>, id: Option<u32>, con: ConId) -> bool
    ensures { result ≡ key_holds focus.now.tree.now con (Con id) }
{
    match id {
        Some(id) => con.0 == id,
        None => con == focus.con,
    }
}

/// Whether there is a text, and it is this one.
fn is_text(given: Option<&Text>, text: &str) -> bool
    ensures { result ≡ is_text (option_copied given.entry) text.now }
{
    match given {
        Some(given) => given.as_str() == text,
        None => false,
    }
}

/// The property of the focused window.
fn focused_property<'a>(focus: &Focus<'a>, which: Property) -> Option<&'a Text>
    ensures { option_copied result ≡ focused_property which focus.now.tree.now }
{
    let props = focus.window?;
    Some(which.of(props))
}

/// Whether this is a window with a property as it is asked for.
fn window_asks(
    focus: &Focus<'_>,
    which: Property,
    value: &Text,
    form: &Form,
    subject: &Subject<'_>,
) -> Result<bool, NoMemory>
    requires form { form.now ≡ unless_plain (unless_focused value.now) }
    requires told { IsSubject subject.now focus.now.tree.now }
    ensures { IfOk result (λ b. b ≡ window_asks which value.now focus.now.tree.now subject.now.id) }
{
    let Some(props) = subject.window else {
        return Ok(false);
    };
    let own = which.of(props).as_str();
    if value.as_str() == FOCUSED {
        Ok(is_text(focused_property(focus, which), own))
    } else {
        search(focus.alloc, value.as_str(), form, own)
    }
}

/// Whether this is a window of that kind.
fn is_of_kind(window: Option<&Props>, kind: &Text) -> bool
    ensures { result ≡ is_text (option_map (λ (p : Props). p.kind) (option_copied window.entry)) kind.now }
{
    match window {
        Some(props) => props.kind.as_str() == kind.as_str(),
        None => false,
    }
}

/// Whether some of the marks matches.
fn some_mark(alloc: Global, pattern: &Text, form: &Form, marks: &[Text]) -> Result<bool, NoMemory>
    requires { form.now ≡ unless_plain (Some pattern.now) }
    ensures { IfOk result (λ b. b ≡ list_any (searches pattern.now) marks.now) }
{
    let mut rest = marks;
    while let [mark, after @ ..] = rest {
        if search(alloc, pattern.as_str(), form, mark.as_str())? {
            return Ok(true);
        }
        rest = after;
    }
    Ok(false)
}

/// Whether the name of the container's workspace is as it is asked for.
fn workspace_asks(
    focus: &Focus<'_>,
    value: &Text,
    form: &Form,
    name: &str,
) -> Result<bool, NoMemory>
    requires { form.now ≡ unless_plain (unless_focused value.now) }
    ensures { IfOk result (λ b. b ≡ asks value.now (space_name focus.now.tree.now (shown focus.now.tree.now)) name.now) }
{
    if value.as_str() == FOCUSED {
        Ok(is_text(focus.space, name))
    } else {
        search(focus.alloc, value.as_str(), form, name)
    }
}

/// Whether this is the last of the ids, or the first.
fn is_end(ids: &[ConId], latest: bool, con: ConId) -> bool
    ensures { result ≡ is_id con (end_id latest ids.now) }
{
    let found = if latest { ids.last() } else { ids.first() };
    match found {
        Some(id) => con == *id,
        None => false,
    }
}
