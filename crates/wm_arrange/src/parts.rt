//! The parts of an arrangement.
ghost use Rattle.std.specs.Prelude.{◌≡◌};
ghost use Rattle.wm_arrange.specs.Sizes.{content_size, is_content};

use wm_base::{ConId, Ink, List, Rect, Size, Text};

/// What a placed part is: the ground of a workspace, the area of a workspace or container, the title of a container,
/// the border of a window, or the content of a window.
#[derive(Debug, Drop)]
pub enum PlacedPart {
    Back,
    Area,
    Title { ink: Ink, text: Text },
    Border { ink: Ink },
    Content,
}

/// A part of a workspace or container at a rectangle in pixels.
#[derive(Debug, Drop)]
pub struct Placed {
    pub con: ConId,
    pub part: PlacedPart,
    pub rect: Rect,
}

/// The parts of all outputs' shown workspaces, in the order in which they lie on each other.
#[derive(Debug, Drop)]
pub struct Arrangement {
    pub parts: List<Placed>,
}

impl Arrangement {
    /// The size of the window's content in pixels. `None` exactly where the id has no content.
    pub fn size(&self, con: ConId) -> Option<Size>
        ensures { result ≡ content_size con self.now.parts }
    {
        let mut rest = self.parts.items();
        while let [placed, after @ ..] = rest {
            if placed.con == con && placed.part.is_content() {
                let Rect { w, h, .. } = placed.rect;
                return Some(Size { w, h });
            }
            rest = after;
        }
        None
    }
}

impl PlacedPart {
    fn is_content(&self) -> bool
        ensures { result ≡ is_content self.now }
    {
        match self {
            PlacedPart::Content => true,
            PlacedPart::Back
            | PlacedPart::Area
            | PlacedPart::Title { .. }
            | PlacedPart::Border { .. } => false,
        }
    }
}
