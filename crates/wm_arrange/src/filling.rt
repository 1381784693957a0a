//! Filling in a title format: the properties in place of their names.
ghost use Rattle.std.specs.Prelude.{◌≡◌, ◌++◌, ◌∷◌, ◌≤◌, ◌<◌, ◌==◌, false, length, string_bytes, MatchOption, OnOk};
ghost use Rattle.std.specs.List.{starts_with};
ghost use Rattle.wm_arrange.specs.TitleText.{filled, IsAtSign, IsBehind};

use wm_base::{NoMemory, Props};

/// Adds the format with `%title`, `%class`, `%instance` and `%machine` replaced.
pub fn fill(text: &mut String, format: &str, props: &Props) -> Result<(), NoMemory>
    ensures { OnOk result (string_bytes text.new ≡ string_bytes text.old ++ filled props.now format.now) }
{
    let mut rest = format;
    while let Some((before, after)) = at_sign(rest, props) {
        text.push_str(before)?;
        let (value, behind) = value_at(after, props);
        text.push_str(value)?;
        rest = behind;
    }
    text.push_str(rest)?;
    Ok(())
}

/// What stands before the first percent sign and behind it. `None` where there is none.
fn at_sign<'a>(format: &'a str, _props: &Props) -> Option<(&'a str, &'a str)>
    ensures { MatchOption result (filled _props.now format.now ≡ format.now) (λ x. IsAtSign _props.now format.now x.0.now x.1.now) }
{
    format.split_once('%')
}

/// What stands for a percent sign with the property's name behind it, and what is behind that.
fn value_at<'a>(after: &'a str, props: &'a Props) -> (&'a str, &'a str)
    ensures value { filled props.now (37 ∷ after.now) ≡ result.0.now ++ filled props.now result.1.now }
    ensures shorter { length result.1.now ≤ length after.now }
{
    if let Some(behind) = behind_name(after, "title") {
        return (props.title.as_str(), behind);
    }
    if let Some(behind) = behind_name(after, "class") {
        return (props.class.as_str(), behind);
    }
    if let Some(behind) = behind_name(after, "instance") {
        return (props.instance.as_str(), behind);
    }
    if let Some(behind) = behind_name(after, "machine") {
        return (props.machine.as_str(), behind);
    }
    ("%", after)
}

/// What is behind a name at the beginning of the text.
fn behind_name<'a>(text: &'a str, name: &str) -> Option<&'a str>
    ensures { MatchOption result (starts_with (λ a b. a == b) text.now name.now ≡ false) (λ x. IsBehind text.now name.now x.now) }
{
    text.strip_prefix(name)
}
