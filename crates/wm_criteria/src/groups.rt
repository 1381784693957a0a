//! Which containers the criteria of a group match.
ghost use Rattle.std.specs.Prelude.{◌≡◌, None, IfOk, IsTrue};
ghost use Rattle.wm_criteria.specs.Holds.{holds};
ghost use Rattle.wm_criteria.specs.Prepared.{is_built};
ghost use Rattle.wm_criteria.specs.Searching.{AreFormsOf, first_form, forms_at, forms_behind, group_keys};
ghost use Rattle.wm_criteria.specs.Subject.{IsSubject};

use crate::asked::Asked;
use crate::focus::Focus;
use crate::form::Form;
use crate::holds::key_holds;
use crate::patterns::keys_of;
use crate::prepared::Prepared;
use crate::subject::Subject;
use crate::verdict::Verdict;
use std::alloc::Global;
use wm_base::{ConId, List, NoMemory};
use wm_language::Key;
use wm_tree::Tree;

/// Whether all keys of the group hold for the container. The group is one of a text that is ready and built, and has
/// criteria; the container is in the tree.
pub fn matches(
    alloc: Global,
    tree: &Tree,
    p: &Prepared,
    group: usize,
    con: ConId,
) -> Result<bool, NoMemory>
    requires { IsTrue (is_built p.now) }
    ensures { IfOk result (λ b. b ≡ holds tree.now (group_keys p.now.verdict group) con) }
{
    let asked = p.asked(alloc, tree, group);
    keys_hold(&asked, &Subject::find(tree, con))
}

/// Whether all keys hold for the container, up to the first that does not.
pub fn keys_hold(asked: &Asked<'_>, subject: &Subject<'_>) -> Result<bool, NoMemory>
    requires { IsSubject subject.now asked.now.focus.tree.now }
    ensures { IfOk result (λ b. b ≡ holds asked.now.focus.tree.now asked.now.keys.now subject.now.id) }
{
    let none = Form::none();
    let mut forms = asked.forms;
    let mut rest = asked.keys;
    while let [key, after @ ..] = rest {
        if !key_holds(&asked.focus, key, first_form(forms, &none), subject)? {
            return Ok(false);
        }
        forms = forms_behind(forms);
        rest = after;
    }
    Ok(true)
}

/// The first of the forms, or this one where there is none.
fn first_form<'a>(forms: &'a [Form], none: &'a Form) -> &'a Form
    requires { none.now ≡ None }
    ensures { result.now ≡ first_form forms.now }
{
    match forms {
        [form, ..] => form,
        [] => none,
    }
}

/// The forms behind the first one.
fn forms_behind(forms: &[Form]) -> &[Form]
    ensures { result.now ≡ forms_behind forms.now }
{
    match forms {
        [_, after @ ..] => after,
        [] => forms,
    }
}

impl Prepared {
    /// The keys of a group, ready to be held against the containers of the tree.
    pub(crate) fn asked<'a>(&'a self, alloc: Global, tree: &'a Tree, group: usize) -> Asked<'a>
        requires { IsTrue (is_built self.now) }
        ensures tree { result.focus.tree.now ≡ tree.now }
        ensures keys { result.keys.now ≡ group_keys self.now.verdict group }
    {
        Asked {
            focus: Focus::of(alloc, tree),
            keys: self.keys(group),
            forms: self.group_forms(group),
        }
    }

    /// The keys of a group. There are none where the group is not there.
    fn keys(&self, group: usize) -> &[Key]
        ensures { result.now ≡ group_keys self.now.verdict group }
    {
        match &self.verdict {
            Verdict::Ready(batch) => match batch.groups.items().get(group) {
                Some(group) => keys_of(group),
                None => &[],
            },
            Verdict::Bad { .. } | Verdict::PatternRefused { .. } => &[],
        }
    }

    /// The forms of a group's keys, in their places. There are none where no pattern of the text has to be built.
    fn group_forms(&self, group: usize) -> &[Form]
        requires { IsTrue (is_built self.now) }
        ensures { AreFormsOf (group_keys self.now.verdict group) result.now }
    {
        match &self.forms {
            Some(forms) => forms_at(forms.items(), group),
            None => &[],
        }
    }
}

/// The forms of a group. There are none where the group is not there.
fn forms_at(forms: &[List<Form>], group: usize) -> &[Form]
    ensures { result.now ≡ forms_at forms.now group }
{
    match forms.get(group) {
        Some(forms) => forms.items(),
        None => &[],
    }
}
