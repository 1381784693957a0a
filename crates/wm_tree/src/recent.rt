//! A walk along the ids of a tree by recency.
ghost use Rattle.std.specs.Prelude.{◌≡◌, ◌∷◌, [], MatchOption, length};

use std::marker::Model;
use wm_base::ConId;

/// The ids of workspaces and containers that are still to come, the most recent first. Contracts see them as a list.
#[derive(Drop)]
pub struct Recent<'a> {
    ids: &'a [ConId],
}

impl<'a> Model for Recent<'a> {
    ghost use Rattle.std.specs.Prelude.{List};
    ghost use Rattle.std.specs.Coded.{coded_list};
    ghost use Rattle.wm_base.specs.contracts.ids.ConId.{the_row};
    ghost use Rattle.wm_base.specs.declared.ids.ConId.{ConId};

    ghost Value = { List ConId };

    ghost coded = { coded_list the_row.coded };

    ghost view = { λ recent. recent.ids.now };
}

impl<'a> Recent<'a> {
    /// A walk along these ids.
    pub(crate) fn along(ids: &'a [ConId]) -> Recent<'a>
        ensures { result ≡ ids.now }
    {
        Recent { ids }
    }

    /// A second walk along the ids that are left.
    pub fn again(&self) -> Recent<'a>
        ensures { result ≡ self.now }
    {
        Recent { ids: self.ids }
    }

    /// The next id. `None` exactly where none is left.
    pub fn next(&mut self) -> Option<ConId>
        ensures { MatchOption result ((self.old ≡ []) × (self.new ≡ [])) (λ id. self.old ≡ id ∷ self.new) }
    {
        let [first, after @ ..] = self.ids else {
            return None;
        };
        self.ids = after;
        Some(*first)
    }

    /// How many ids are left.
    pub fn len(&self) -> usize
        ensures { result ≡ length self.now }
    {
        self.ids.len()
    }
}
