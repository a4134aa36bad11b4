use crate::axes::MOST_SHOWN;
use crate::kind::{Kind, Style};
use crate::shape::{Point, Shape};
use ql_base::{NoMemory, push_bytes};
use std::alloc::Global;

// How many bytes of a longer text are kept.
const KEPT: usize = 28;

/// The shapes drawn so far, from the lowest to the highest.
#[derive(Drop)]
pub(crate) struct Pen {
    pub shapes: Vec<Shape>,
}

/// A style without a colour of its own.
pub(crate) fn plain(kind: Kind) -> Style {
    Style { kind, colour: 0 }
}

pub(crate) fn point(x: u32, y: u32) -> Point {
    Point { x, y }
}

impl Pen {
    pub(crate) fn new(alloc: Global) -> Pen {
        Pen {
            shapes: Vec::new(alloc),
        }
    }

    pub(crate) fn rect(
        &mut self,
        style: Style,
        corner: Point,
        size: Point,
    ) -> Result<(), NoMemory> {
        self.shapes.push(Shape::Rect {
            style,
            corner,
            size,
        })?;
        Ok(())
    }

    pub(crate) fn line(&mut self, kind: Kind, from: Point, to: Point) -> Result<(), NoMemory> {
        let style = plain(kind);
        self.shapes.push(Shape::Line { style, from, to })?;
        Ok(())
    }

    /// A curve with its two control points.
    pub(crate) fn curve(
        &mut self,
        style: Style,
        ends: [Point; 2],
        controls: [Point; 2],
    ) -> Result<(), NoMemory> {
        self.shapes.push(Shape::Curve {
            style,
            from: ends[0],
            first: controls[0],
            second: controls[1],
            to: ends[1],
        })?;
        Ok(())
    }

    /// A text, shortened where it is long.
    pub(crate) fn label(
        &mut self,
        alloc: Global,
        kind: Kind,
        at: Point,
        text: &[u8],
    ) -> Result<(), NoMemory> {
        if text.is_empty() {
            return Ok(());
        }
        let text = shown(alloc, text)?;
        let style = plain(kind);
        self.shapes.push(Shape::Label { style, at, text })?;
        Ok(())
    }

    /// A line of text below the picture, in full.
    pub(crate) fn note(&mut self, alloc: Global, at: Point, text: &[u8]) -> Result<(), NoMemory> {
        let text = Vec::from_slice(alloc, text)?;
        let style = plain(Kind::Note);
        self.shapes.push(Shape::Label { style, at, text })?;
        Ok(())
    }
}

// As much of a text as fits, with dots for the rest.
fn shown(alloc: Global, text: &[u8]) -> Result<Vec<u8>, NoMemory> {
    if text.len() <= MOST_SHOWN {
        return Ok(Vec::from_slice(alloc, text)?);
    }
    let count = KEPT.min(text.len());
    let mut prefix = Vec::from_slice(alloc, &text[..count])?;
    push_bytes(&mut prefix, b"..")?;
    Ok(prefix)
}
