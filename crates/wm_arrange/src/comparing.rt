//! Comparing arrangements.
ghost use Rattle.std.specs.Prelude.{◌≡◌, ◌↔◌, IsTrue};
ghost use Rattle.wm_arrange.specs.Same.{same_part, same_parts, same_placed};

use crate::parts::{Arrangement, Placed, PlacedPart};

impl Arrangement {
    /// Whether the other arrangement has the same parts in the same order.
    pub fn same(&self, other: &Arrangement) -> bool
        ensures value { result ≡ same_parts self.now.parts other.now.parts }
        ensures equal { IsTrue result ↔ (self.now.parts ≡ other.now.parts) }
    {
        same_parts(self.parts.items(), other.parts.items())
    }
}

fn same_parts(parts: &[Placed], others: &[Placed]) -> bool
    ensures { result ≡ same_parts parts.now others.now }
{
    let mut left = (parts, others);
    while let ([placed, rest @ ..], [other, other_rest @ ..]) = left {
        if !same_placed(placed, other) {
            return false;
        }
        left = (rest, other_rest);
    }
    left.0.is_empty() && left.1.is_empty()
}

fn same_placed(placed: &Placed, other: &Placed) -> bool
    ensures { result ≡ same_placed placed.now other.now }
{
    placed.con == other.con && same_part(&placed.part, &other.part) && placed.rect == other.rect
}

fn same_part(part: &PlacedPart, other: &PlacedPart) -> bool
    ensures { result ≡ same_part part.now other.now }
{
    match (part, other) {
        (PlacedPart::Back, PlacedPart::Back)
        | (PlacedPart::Area, PlacedPart::Area)
        | (PlacedPart::Content, PlacedPart::Content) => true,
        (
            PlacedPart::Title { ink, text },
            PlacedPart::Title {
                ink: other_ink,
                text: other_text,
            },
        ) => ink == other_ink && text.as_str() == other_text.as_str(),
        (PlacedPart::Border { ink }, PlacedPart::Border { ink: other_ink }) => ink == other_ink,
        _ => false,
    }
}
