//! Canvases: an area of pixels in memory, which frames are painted on.
use crate::frame::Frame;
use crate::paint::paint_quads;
use crate::pixels::{BLACK, offset, push_inks};
use std::alloc::Global;
use std::marker::Model;
use wm_base::{Ink, NoMemory, Rect};

/// The pixels of an area, row by row from above.
#[derive(Debug, Drop)]
pub struct Canvas {
    alloc: Global,
    area: Rect,
    inks: Vec<Ink>,
}

impl Model for Canvas {
    ghost use Rattle.std.specs.Prelude.{◌≡◌, length};
    ghost use Rattle.wm_paint.specs.CanvasValue.{CanvasValue, IsArea, count};

    ghost Value = { CanvasValue };

    ghost view = { λ c. record { area = c.area; inks = c.inks.items } };

    ghost invariant = { λ c. IsArea c.area × (length c.inks.items ≡ count c.area) };
}

impl Canvas {
    ghost use Rattle.std.specs.Prelude.{◌≡◌, ℤ, IfOk, IsOk};
    ghost use Rattle.wm_paint.specs.CanvasValue.{IsArea, blank, drawn, picture, pixel, ppm};

    /// A black canvas over an area. Sides are at most 16,384 pixels, and places from -131,072 to 131,071.
    pub fn new(alloc: Global, area: Rect) -> Result<Canvas, NoMemory>
        requires { IsArea area }
        ensures { IfOk result (λ canvas. canvas ≡ blank area) }
    {
        let mut inks = Vec::new(alloc);
        inks.resize(area.w as usize * area.h as usize, BLACK)?;
        Ok(Canvas { alloc, area, inks })
    }

    /// The ink of the pixel at a place, in the coordinates of the area; `None` outside of it.
    pub fn pixel(&self, x: i32, y: i32) -> Option<Ink>
        ensures { result ≡ pixel self.now x y }
    {
        let column = offset(x, self.area.x, self.area.w)?;
        let row = offset(y, self.area.y, self.area.h)?;
        Some(self.inks[row * self.area.w as usize + column])
    }

    /// The pixels as a portable pixmap: a head, and three bytes a pixel, rows from above.
    pub fn ppm(&self) -> Result<Vec<u8>, NoMemory>
        ensures { IfOk result (λ bytes. bytes.items ≡ ppm self.now) }
    {
        let mut head = String::new(self.alloc);
        write!(head, "P6\n{} {}\n255\n", self.area.w, self.area.h)?;
        let mut bytes = Vec::new(self.alloc);
        bytes.extend_from_slice(head.as_bytes())?;
        push_inks(&mut bytes, &self.inks)?;
        Ok(bytes)
    }

    /// Paints black, and then the quads of a frame in order, each clipped to the area. Want of memory does not
    /// come.
    pub fn draw(&mut self, frame: &Frame) -> Result<(), NoMemory>
        ensures done { IsOk result }
        ensures drawn { self.new ≡ drawn self.old.area frame.now.quads }
        ensures pixels { (x y : ℤ) → pixel self.new x y ≡ picture self.old.area frame.now.quads x y }
    {
        let inks = self.inks.as_mut_slice();
        inks.fill(BLACK);
        paint_quads(inks, self.area, frame.quads.items());
        Ok(())
    }
}
