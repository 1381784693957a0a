//! Giving several nodes of a row other shares.
ghost use Rattle.std.specs.Prelude.{◌≡◌};
ghost use Rattle.wm_forest.specs.Shares.{first_shared, left_behind, shared, shares_word};

use crate::edit::Edit;
use crate::kind::KindEdit;
use crate::part::Part;
use crate::row::Row;
use wm_base::ConId;

/// A child of a container: its id and its share.
#[derive(Clone, Copy, Debug, PartialEq, Eq)]
pub struct Sibling {
    pub id: ConId,
    pub share: u32,
}

/// Other shares for those children of a node that are listed, in the order in which they stand.
#[derive(Drop)]
pub struct SetShares<'a>(pub &'a [Sibling]);

impl<'a> Edit for SetShares<'a> {
    ghost word = { λ x. shares_word x.0.now };

    fn edit(self, row: &mut Row) {
        if let Some(cell) = &mut row.first {
            cell.kids.set_shares(self.0);
        }
    }
}

impl Row {
    /// Gives the nodes of the row that are listed, in the order in which they stand, the shares listed.
    fn set_shares(&mut self, siblings: &[Sibling])
        ensures { self.new ≡ shared siblings.now self.old }
    {
        let mut left = siblings;
        let mut done = Row::new();
        while let Some(mut cell) = self.pop() {
            left = take_share(&mut cell.part, left);
            done.push(cell);
        }
        self.hang(done);
    }
}

/// Gives the node the first share listed, where that is its own. What is left is for the nodes behind it.
fn take_share<'a>(part: &mut Part, siblings: &'a [Sibling]) -> &'a [Sibling]
    ensures part { part.new ≡ first_shared siblings.now part.old }
    ensures left { result.now ≡ left_behind siblings.now part.old.id }
{
    match siblings {
        [first, after @ ..] if first.id == part.id => {
            KindEdit::Share(first.share).make(&mut part.kind);
            after
        }
        [..] => siblings,
    }
}
