//! Rectangles and sizes in pixels, directions and axes.
ghost use Rattle.std.specs.Prelude.{◌≡◌, ◌↔◌, ℤ, IfSome, IfNone};
ghost use Rattle.wm_base.specs.declared.geometry.Edges.{Edges};
ghost use Rattle.wm_base.specs.declared.geometry.Rect.{Rect};
ghost use Rattle.wm_base.specs.Rect.{inset, HasPixel, IsWithinEdges, IsNear, IsNearSpan, IsSmallEdges, IsCommon, IsApart, IsOverlap};

/// A place in pixels from the upper left corner, and a width and a height in pixels.
#[derive(Clone, Copy, Debug, PartialEq, Eq, Hash)]
pub struct Rect {
    pub x: i32,
    pub y: i32,
    pub w: u32,
    pub h: u32,
}

/// The rectangle without pixels at 0,0, where nothing is.
pub const NOWHERE: Rect = Rect {
    x: 0,
    y: 0,
    w: 0,
    h: 0,
};

/// A width and a height in pixels.
#[derive(Clone, Copy, Debug, PartialEq, Eq, Hash)]
pub struct Size {
    pub w: u32,
    pub h: u32,
}

/// Widths in pixels along the four sides of a rectangle.
#[derive(Clone, Copy, Debug, PartialEq, Eq, Hash)]
pub struct Edges {
    pub top: u32,
    pub right: u32,
    pub bottom: u32,
    pub left: u32,
}

/// A direction on the screen.
#[derive(Clone, Copy, Debug, PartialEq, Eq, Hash)]
pub enum Dir {
    Left,
    Right,
    Up,
    Down,
}

/// An axis of the screen: from left to right, or from above to below.
#[derive(Clone, Copy, Debug, PartialEq, Eq, Hash)]
pub enum Axis {
    Across,
    Down,
}

impl Rect {
    /// The rectangle with each side moved inwards. A width or a height that would fall below 0 is 0.
    pub fn inset(self, edges: Edges) -> Rect
        requires near { IsNear self }
        requires small { IsSmallEdges edges }
        ensures { result ≡ inset self edges }
    {
        Rect {
            x: self.x + edges.left as i32,
            y: self.y + edges.top as i32,
            w: self.w.saturating_sub(edges.left + edges.right),
            h: self.h.saturating_sub(edges.top + edges.bottom),
        }
    }

    /// The pixels that both have, or a rectangle of width and height 0 at this one's place where they have none
    /// in common. Places are in pixels.
    pub fn overlap(self, other: Rect) -> Rect
        requires near { IsNear self }
        requires other_near { IsNear other }
        ensures { IsOverlap self other result }
    {
        let across = common(self.x, self.w, other.x, other.w);
        let down = common(self.y, self.h, other.y, other.h);
        match (across, down) {
            (Some((x, w)), Some((y, h))) => Rect { x, y, w, h },
            _ => Rect {
                x: self.x,
                y: self.y,
                w: 0,
                h: 0,
            },
        }
    }
}

/// The places that two spans have in common: the first one, and how many there are.
fn common(start: i32, length: u32, other: i32, other_length: u32) -> Option<(i32, u32)>
    requires near { IsNearSpan start length }
    requires other_near { IsNearSpan other other_length }
    ensures common { IfSome result (λ s. IsCommon start length other other_length s.0 s.1) }
    ensures apart { IfNone result (IsApart start length other other_length) }
{
    let gap = start.abs_diff(other);
    let (first, count) = if start <= other {
        (other, length.saturating_sub(gap).min(other_length))
    } else {
        (start, other_length.saturating_sub(gap).min(length))
    };
    if count > 0 {
        Some((first, count))
    } else {
        None
    }
}

/// Moving the sides inwards keeps exactly the pixels that are as far from each side as its edge is wide.
pub fn inset_pixels()
    ensures { (r : Rect) (e : Edges) (x y : ℤ) →
        HasPixel (inset r e) x y ↔ IsWithinEdges r e x y }
{}
