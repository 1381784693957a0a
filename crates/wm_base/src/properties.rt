//! The properties of a window.
use crate::text::Text;

/// What a client says of its window: class, instance, role, kind, machine and title.
#[derive(Debug, Drop)]
pub struct Props {
    pub class: Text,
    pub instance: Text,
    pub role: Text,
    pub kind: Text,
    pub machine: Text,
    pub title: Text,
}
