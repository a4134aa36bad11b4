use crate::shape::{Dot, Shape};

/// A picture: its width and height, the shapes under its dots, the dots of effects, and the shapes above them,
/// each list from the lowest shape to the highest.
pub struct Picture {
    pub width: u32,
    pub height: u32,
    pub under: Vec<Shape>,
    pub dots: Vec<Dot>,
    pub above: Vec<Shape>,
}

// Written out, so that a crate above proves one call for it.
impl Drop for Picture {
    fn drop(self) {
        let Picture {
            width: _,
            height: _,
            under: _,
            dots: _,
            above: _,
        } = self;
    }
}
