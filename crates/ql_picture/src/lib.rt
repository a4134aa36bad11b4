// The picture of a history: the coordinates of everything, the shapes that are drawn there, and their text in SVG.
// The one contract: a picture has one dot for each effect that is drawn, in order, each in the column of its event and
// in the row of its session and replica; columns go from left to right; and its text is that of each shape in order,
// with every label escaped.
#![tactic(auto)]

mod attribute;
mod axes;
mod dots;
mod element;
mod escape;
mod events;
mod grid;
mod kind;
mod lanes;
mod legend;
mod marks;
mod pen;
mod picture;
mod scene;
mod shape;
mod sight;
mod spans;
mod svg;
mod transactions;
mod travel;
mod visibility;

pub use attribute::Attribute;
pub use element::Tag;
pub use grid::{Grid, grid_of};
pub use kind::{Kind, Style};
pub use lanes::Lane;
pub use marks::{Marked, marks_of};
pub use picture::Picture;
pub use scene::{Scene, picture_of};
pub use shape::{Dot, Point, Shape};
pub use svg::svg_text;
