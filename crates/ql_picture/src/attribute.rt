ghost use Rattle.std.specs.Prelude.{◌≡◌, ◌++◌, OnOk, codes, decimal};
ghost use Rattle.std.specs.List.{flat_map};
ghost use Rattle.ql_picture.specs.Attributes.{attribute_text, curve_text, point_text};

use crate::shape::Point;
use ql_base::{NoMemory, push_bytes, push_number};

/// A named number, or the points of a curve.
#[derive(Clone, Copy)]
pub enum Attribute {
    X(u32),
    Y(u32),
    Width(u32),
    Height(u32),
    X1(u32),
    Y1(u32),
    X2(u32),
    Y2(u32),
    Cx(u32),
    Cy(u32),
    R(u32),
    D {
        from: Point,
        first: Point,
        second: Point,
        to: Point,
    },
}

/// Appends attributes in order.
pub(crate) fn push_attributes(out: &mut Vec<u8>, attributes: &[Attribute]) -> Result<(), NoMemory>
    ensures { OnOk result
        (out.new.items ≡ out.old.items ++ flat_map attribute_text attributes.now) }
{
    for attribute in attributes {
        push_attribute(out, *attribute)?;
    }
    Ok(())
}

fn push_attribute(out: &mut Vec<u8>, attribute: Attribute) -> Result<(), NoMemory>
    ensures { OnOk result (out.new.items ≡ out.old.items ++ attribute_text attribute) }
{
    match attribute {
        Attribute::X(n) => push_named(out, b" x=\"", n),
        Attribute::Y(n) => push_named(out, b" y=\"", n),
        Attribute::Width(n) => push_named(out, b" width=\"", n),
        Attribute::Height(n) => push_named(out, b" height=\"", n),
        Attribute::X1(n) => push_named(out, b" x1=\"", n),
        Attribute::Y1(n) => push_named(out, b" y1=\"", n),
        Attribute::X2(n) => push_named(out, b" x2=\"", n),
        Attribute::Y2(n) => push_named(out, b" y2=\"", n),
        Attribute::Cx(n) => push_named(out, b" cx=\"", n),
        Attribute::Cy(n) => push_named(out, b" cy=\"", n),
        Attribute::R(n) => push_named(out, b" r=\"", n),
        Attribute::D {
            from,
            first,
            second,
            to,
        } => push_curve(out, from, first, second, to),
    }
}

fn push_named(out: &mut Vec<u8>, name: &[u8], number: u32) -> Result<(), NoMemory>
    ensures { OnOk result (out.new.items ≡ out.old.items ++ (name.now ++ decimal number ++ codes "\"")) }
{
    push_bytes(out, name)?;
    push_number(out, number)?;
    push_bytes(out, b"\"")
}

fn push_curve(
    out: &mut Vec<u8>,
    from: Point,
    first: Point,
    second: Point,
    to: Point,
) -> Result<(), NoMemory>
    ensures { OnOk result (out.new.items ≡ out.old.items ++ curve_text from first second to) }
{
    push_point(out, b" d=\"M", from)?;
    push_point(out, b"C", first)?;
    push_point(out, b" ", second)?;
    push_point(out, b" ", to)?;
    push_bytes(out, b"\"")
}

fn push_point(out: &mut Vec<u8>, before: &[u8], point: Point) -> Result<(), NoMemory>
    ensures { OnOk result (out.new.items ≡ out.old.items ++ (before.now ++ point_text point)) }
{
    push_bytes(out, before)?;
    push_number(out, point.x)?;
    push_bytes(out, b" ")?;
    push_number(out, point.y)
}
