ghost use Rattle.std.specs.Prelude.{[], ◌≡◌, ◌++◌, IfOk, OnOk, decimal};
ghost use Rattle.std.specs.List.{flat_map};
ghost use Rattle.ql_picture.specs.Elements.{element_text};
ghost use Rattle.ql_picture.specs.Svg.{dot_text, ends, shape_text, sides, sides_text, sized, svg_name, svg_text, view_text};

use crate::attribute::Attribute;
use crate::element::{Head, Tag, push_element};
use crate::kind::Style;
use crate::picture::Picture;
use crate::shape::{Dot, Point, Shape};
use ql_base::{NoMemory, push_bytes, push_number};
use std::alloc::Global;

// The radius of a dot, in pixels.
const RADIUS: u32 = 11;

/// The text of a picture in SVG, after a style sheet for its classes, which is passed as SVG elements.
pub fn svg_text(alloc: Global, sheet: &[u8], picture: &Picture) -> Result<Vec<u8>, NoMemory>
    ensures { IfOk result (λ text. text.items ≡ svg_text sheet.now picture.now) }
{
    let mut text = Vec::new(alloc);
    push_size(&mut text, picture.width, picture.height)?;
    push_bytes(&mut text, sheet)?;
    push_shapes(&mut text, &picture.under)?;
    push_dots(&mut text, &picture.dots)?;
    push_shapes(&mut text, &picture.above)?;
    push_bytes(&mut text, b"</svg>\n")?;
    Ok(text)
}

fn push_size(out: &mut Vec<u8>, width: u32, height: u32) -> Result<(), NoMemory>
    ensures { OnOk result (out.new.items ≡ out.old.items ++ sized width height) }
{
    push_name(out)?;
    push_sides(out, width, height)?;
    push_view(out, width, height)
}

fn push_sides(out: &mut Vec<u8>, width: u32, height: u32) -> Result<(), NoMemory>
    ensures { OnOk result (out.new.items ≡ out.old.items ++ sides_text width height) }
{
    push_behind(out, b" width=\"", width)?;
    push_behind(out, b"\" height=\"", height)
}

fn push_view(out: &mut Vec<u8>, width: u32, height: u32) -> Result<(), NoMemory>
    ensures { OnOk result (out.new.items ≡ out.old.items ++ view_text width height) }
{
    push_behind(out, b"\" viewBox=\"0 0 ", width)?;
    push_behind(out, b" ", height)?;
    push_bytes(out, b"\">\n")
}

#[tactic(auto, unfolding(crate::specs::Svg::svg_name))]
// The name of the outermost element, with its namespace.
fn push_name(out: &mut Vec<u8>) -> Result<(), NoMemory>
    ensures { OnOk result (out.new.items ≡ out.old.items ++ svg_name) }
{
    push_bytes(out, b"<svg xmlns=\"http://www.w3.org/2000/svg\"")
}

// A text, and a number after it.
fn push_behind(out: &mut Vec<u8>, before: &[u8], number: u32) -> Result<(), NoMemory>
    ensures { OnOk result (out.new.items ≡ out.old.items ++ (before.now ++ decimal number)) }
{
    push_bytes(out, before)?;
    push_number(out, number)
}

fn push_shapes(out: &mut Vec<u8>, shapes: &[Shape]) -> Result<(), NoMemory>
    ensures { OnOk result (out.new.items ≡ out.old.items ++ flat_map shape_text shapes.now) }
{
    for shape in shapes {
        push_shape(out, shape)?;
    }
    Ok(())
}

fn push_dots(out: &mut Vec<u8>, dots: &[Dot]) -> Result<(), NoMemory>
    ensures { OnOk result (out.new.items ≡ out.old.items ++ flat_map dot_text dots.now) }
{
    for dot in dots {
        push_dot(out, dot)?;
    }
    Ok(())
}

fn push_shape(out: &mut Vec<u8>, shape: &Shape) -> Result<(), NoMemory>
    ensures { OnOk result (out.new.items ≡ out.old.items ++ shape_text shape.now) }
{
    match shape {
        Shape::Rect {
            style,
            corner,
            size,
        } => push_figure(out, Tag::Rect, *style, &sides(*corner, *size)),
        Shape::Line { style, from, to } => {
            push_figure(out, Tag::Line, *style, &ends(*from, *to))
        }
        Shape::Curve {
            style,
            from,
            first,
            second,
            to,
        } => {
            let d = Attribute::D {
                from: *from,
                first: *first,
                second: *second,
                to: *to,
            };
            push_figure(out, Tag::Path, *style, &[d])
        }
        Shape::Label { style, at, text } => {
            let head = Head {
                tag: Tag::Text,
                style: *style,
            };
            push_element(out, head, &[Attribute::X(at.x), Attribute::Y(at.y)], text)
        }
    }
}

// An element without a text.
fn push_figure(
    out: &mut Vec<u8>,
    tag: Tag,
    style: Style,
    attributes: &[Attribute],
) -> Result<(), NoMemory>
    ensures { OnOk result (out.new.items ≡ out.old.items ++ element_text tag style attributes.now []) }
{
    push_element(out, Head { tag, style }, attributes, b"")
}

fn sides(corner: Point, size: Point) -> [Attribute; 4]
    ensures { result ≡ sides corner size }
{
    [
        Attribute::X(corner.x),
        Attribute::Y(corner.y),
        Attribute::Width(size.x),
        Attribute::Height(size.y),
    ]
}

fn ends(from: Point, to: Point) -> [Attribute; 4]
    ensures { result ≡ ends from to }
{
    [
        Attribute::X1(from.x),
        Attribute::Y1(from.y),
        Attribute::X2(to.x),
        Attribute::Y2(to.y),
    ]
}

fn push_dot(out: &mut Vec<u8>, dot: &Dot) -> Result<(), NoMemory>
    ensures { OnOk result (out.new.items ≡ out.old.items ++ dot_text dot.now) }
{
    let head = Head {
        tag: Tag::Circle,
        style: dot.style,
    };
    let attributes = [
        Attribute::Cx(dot.at.x),
        Attribute::Cy(dot.at.y),
        Attribute::R(RADIUS),
    ];
    push_element(out, head, &attributes, &dot.title)
}
