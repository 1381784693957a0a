//! The keys of a group, ready to be held against the containers of a tree.
ghost use Rattle.wm_criteria.specs.Searching.{AreFormsOf, AreFormsOf-prop};

use crate::focus::Focus;
use crate::form::Form;
use wm_language::Key;

/// The keys of a group with the forms of their patterns, and the tree whose containers they are held against.
#[derive(Drop)]
pub struct Asked<'a> {
    pub focus: Focus<'a>,
    pub keys: &'a [Key],
    pub forms: &'a [Form],
    pub ghost fitting: { AreFormsOf keys.now forms.now } by { AreFormsOf-prop keys.now forms.now },
}
