use crate::kind::Style;

/// A point of a picture, in pixels from its left and from its top.
#[derive(Clone, Copy)]
pub struct Point {
    pub x: u32,
    pub y: u32,
}

/// A shape other than the dot of an effect.
#[derive(Drop)]
pub enum Shape {
    Rect {
        style: Style,
        corner: Point,
        size: Point,
    },
    Line {
        style: Style,
        from: Point,
        to: Point,
    },
    /// A cubic Bezier curve with two control points.
    Curve {
        style: Style,
        from: Point,
        first: Point,
        second: Point,
        to: Point,
    },
    /// A text whose base line goes through the point.
    Label {
        style: Style,
        at: Point,
        text: Vec<u8>,
    },
}

/// The dot of an effect: a circle around its point, with a text that is shown on hover.
pub struct Dot {
    pub style: Style,
    pub at: Point,
    pub title: Vec<u8>,
}

// Written out, so that a crate above proves one call for it.
impl Drop for Dot {
    fn drop(self) {
        let Dot {
            style: _,
            at: _,
            title: _,
        } = self;
    }
}
