ghost use Rattle.std.specs.Prelude.{◌≡◌, ◌++◌, OnOk};
ghost use Rattle.ql_picture.specs.Elements.{closing, element_text, middle, opening};

use crate::attribute::{Attribute, push_attributes};
use crate::escape::push_escaped;
use crate::kind::{Style, push_style};
use ql_base::{NoMemory, push_bytes};

/// The elements that a picture has.
#[derive(Clone, Copy)]
pub enum Tag {
    Rect,
    Line,
    Path,
    Text,
    /// A circle with a title.
    Circle,
}

/// An element without its text.
#[derive(Clone, Copy)]
pub(crate) struct Head {
    pub tag: Tag,
    pub style: Style,
}

/// Appends an element.
pub(crate) fn push_element(
    out: &mut Vec<u8>,
    head: Head,
    attributes: &[Attribute],
    text: &[u8],
) -> Result<(), NoMemory>
    ensures { OnOk result
        (out.new.items ≡ out.old.items
        ++ element_text head.tag head.style attributes.now text.now) }
{
    push_bytes(out, opening(head.tag))?;
    push_style(out, head.style)?;
    push_bytes(out, b"\"")?;
    push_attributes(out, attributes)?;
    push_bytes(out, middle(head.tag))?;
    push_escaped(out, text)?;
    push_bytes(out, closing(head.tag))
}

fn opening(tag: Tag) -> &'static [u8]
    ensures { result.now ≡ opening tag }
{
    match tag {
        Tag::Rect => b"<rect class=\"",
        Tag::Line => b"<line class=\"",
        Tag::Path => b"<path class=\"",
        Tag::Text => b"<text class=\"",
        Tag::Circle => b"<circle class=\"",
    }
}

fn middle(tag: Tag) -> &'static [u8]
    ensures { result.now ≡ middle tag }
{
    match tag {
        Tag::Rect | Tag::Line | Tag::Path | Tag::Text => b">",
        Tag::Circle => b"><title>",
    }
}

fn closing(tag: Tag) -> &'static [u8]
    ensures { result.now ≡ closing tag }
{
    match tag {
        Tag::Rect => b"</rect>\n",
        Tag::Line => b"</line>\n",
        Tag::Path => b"</path>\n",
        Tag::Text => b"</text>\n",
        Tag::Circle => b"</title></circle>\n",
    }
}
