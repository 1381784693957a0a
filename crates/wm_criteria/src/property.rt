//! The properties of windows that patterns are held against.
ghost use Rattle.std.specs.Prelude.{◌≡◌};
ghost use Rattle.wm_criteria.specs.Holds.{property_of};

use wm_base::{Props, Text};

/// A property of windows.
#[derive(Clone, Copy)]
pub enum Property {
    Class,
    Instance,
    Role,
    Machine,
    Title,
}

impl Property {
    /// The window's property.
    pub fn of(self, props: &Props) -> &Text
        ensures { result.now ≡ property_of self props.now }
    {
        match self {
            Property::Class => &props.class,
            Property::Instance => &props.instance,
            Property::Role => &props.role,
            Property::Machine => &props.machine,
            Property::Title => &props.title,
        }
    }
}
