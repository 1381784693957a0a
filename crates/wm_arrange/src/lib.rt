//! The arrangement of a tree: where each output's workspace has its parts, in whole pixels.
#![tactic(auto)]

mod areas;
mod arranging;
mod borders;
mod children;
mod choosing;
mod comparing;
mod copying;
mod covering;
mod cutting;
mod filling;
mod finding;
mod listing;
mod lots;
mod parts;
mod places;
mod placing;
mod rows;
mod scene;
mod texts;
mod titles;

pub use arranging::arrange;
pub use covering::{areas_cover_once, arranged_areas_cover_once};
pub use cutting::cut;
pub use finding::area_of;
pub use listing::id_set;
pub use parts::{Arrangement, Placed, PlacedPart};
pub use places::places_of;
pub use texts::title_text;
