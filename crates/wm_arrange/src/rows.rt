//! Rows of nodes.
ghost use Rattle.std.specs.Prelude.{◌≡◌, ◌≤◌};
ghost use Rattle.wm_forest.specs.Counts.{row_length};
ghost use Rattle.wm_forest.specs.Look.{node_in};
ghost use Rattle.wm_arrange.specs.Gaps.{is_last};

use wm_base::ConId;
use wm_tree::Cursor;

/// How many nodes a row has.
pub fn count(row: &Cursor<'_>) -> u32
    requires { row_length row.now ≤ 256 }
    ensures { result ≡ row_length row.now }
{
    let Some(_) = row.part() else {
        return 0;
    };
    let mut n = 1;
    let mut left = row.rest();
    while let Some(_) = left.part() {
        n += 1;
        left = left.rest();
    }
    n
}

/// Whether a row has no node.
pub fn is_end(row: &Cursor<'_>) -> bool
    ensures { result ≡ is_last row.now }
{
    row.part().is_none()
}

/// The row from the node on. It is at its end where the node is not in the row.
pub fn row_from<'a>(row: Cursor<'a>, id: ConId) -> Cursor<'a>
    ensures { result ≡ node_in id row.entry }
{
    let mut left = row;
    while let Some(part) = left.part() {
        if part.id == id {
            return left;
        }
        left = left.rest();
    }
    left
}
