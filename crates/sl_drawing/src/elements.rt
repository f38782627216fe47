//! The elements of SVG, written to the end of a text. After an `Err`, which is want of memory, a part of an element may stand there.
//!
//! What is written of a schedule is escaped: no byte of it is taken for a tag or an entity, and each byte that isn't printable ASCII stands as
//! a question mark, but for the line feed.

ghost use Rattle.sl_drawing.specs.Elements as elements;
ghost use Rattle.std.specs.Prelude.{OnOk, ◌++◌, ◌≡◌};

use crate::classes::{Class, Symbol, class_text, symbol_text};
use crate::style::{HEAD, TAIL};
use sl_text::number::push_number;
use std::alloc::AllocError;

/// A byte as it stands in an element.
#[tactic(auto, unfolding(crate::specs::Elements::escaped_byte))]
fn push_escaped_byte(out: &mut Vec<u8>, byte: u8) -> Result<(), AllocError>
    ensures { OnOk result (out.new.items ≡ out.old.items ++ elements.escaped_byte byte) }
{
    match byte {
        b'&' => out.extend_from_slice(b"&amp;"),
        b'<' => out.extend_from_slice(b"&lt;"),
        b'>' => out.extend_from_slice(b"&gt;"),
        _ => {
            if byte == b'\n' || b' ' <= byte && byte <= b'~' {
                out.extend_from_slice(&[byte])
            } else {
                out.extend_from_slice(b"?")
            }
        }
    }
}

/// Adds a text, escaped.
fn push_escaped(out: &mut Vec<u8>, text: &[u8]) -> Result<(), AllocError>
    ensures { OnOk result (out.new.items ≡ out.old.items ++ elements.escaped text.now) }
{
    for byte in text {
        push_escaped_byte(out, *byte)?;
    }
    Ok(())
}

/// Adds an attribute that is a number.
fn push_attribute(out: &mut Vec<u8>, front: &[u8], value: u64) -> Result<(), AllocError>
    ensures { OnOk result (out.new.items ≡ out.old.items ++ elements.attribute_text front.now value) }
{
    out.extend_from_slice(front)?;
    push_number(out, value)?;
    out.extend_from_slice(b"'")
}

/// A rectangle: its left upper corner, and how wide and high it is.
#[derive(Clone, Copy)]
pub struct Area {
    pub x: u64,
    pub y: u64,
    pub width: u64,
    pub height: u64,
}

/// Adds where a rectangle stands.
fn push_area(out: &mut Vec<u8>, area: Area) -> Result<(), AllocError>
    ensures { OnOk result (out.new.items ≡ out.old.items ++ elements.area_text area) }
{
    push_attribute(out, b" x='", area.x)?;
    push_attribute(out, b" y='", area.y)?;
    push_attribute(out, b" width='", area.width)?;
    push_attribute(out, b" height='", area.height)
}

/// Adds the front of a tag with its class.
fn push_tag(out: &mut Vec<u8>, front: &[u8], class: Class) -> Result<(), AllocError>
    ensures { OnOk result (out.new.items ≡ out.old.items ++ elements.tag_text front.now class) }
{
    out.extend_from_slice(front)?;
    out.extend_from_slice(class_text(class))?;
    out.extend_from_slice(b"'")
}

/// Adds a rectangle.
#[tactic(auto, unfolding(crate::specs::Elements::element_text))]
pub fn push_rect(out: &mut Vec<u8>, class: Class, area: Area) -> Result<(), AllocError>
    ensures { OnOk result (out.new.items ≡ out.old.items ++ elements.element_text (elements.Rect class area)) }
{
    push_tag(out, b"<rect class='", class)?;
    push_area(out, area)?;
    out.extend_from_slice(b"/>\n")
}

/// Adds a rectangle with a title.
#[tactic(auto, unfolding(crate::specs::Elements::element_text))]
pub fn push_titled(
    out: &mut Vec<u8>,
    class: Class,
    area: Area,
    title: &[u8],
) -> Result<(), AllocError>
    ensures { OnOk result (out.new.items ≡ out.old.items ++ elements.element_text (elements.Titled class area title.now)) }
{
    push_tag(out, b"<rect class='", class)?;
    push_area(out, area)?;
    out.extend_from_slice(b"><title>")?;
    push_escaped(out, title)?;
    out.extend_from_slice(b"</title></rect>\n")
}

/// Adds a label that begins there, on this line.
#[tactic(auto, unfolding(crate::specs::Elements::element_text))]
pub fn push_label(
    out: &mut Vec<u8>,
    class: Class,
    x: u64,
    y: u64,
    text: &[u8],
) -> Result<(), AllocError>
    ensures { OnOk result (out.new.items ≡ out.old.items ++ elements.element_text (elements.Label class x y text.now)) }
{
    push_tag(out, b"<text class='", class)?;
    push_attribute(out, b" x='", x)?;
    push_attribute(out, b" y='", y)?;
    out.extend_from_slice(b">")?;
    push_escaped(out, text)?;
    out.extend_from_slice(b"</text>\n")
}

/// Adds the front of a sign's tag, with its name.
fn push_use(out: &mut Vec<u8>, front: &[u8], symbol: Symbol) -> Result<(), AllocError>
    ensures { OnOk result (out.new.items ≡ out.old.items ++ elements.use_text front.now symbol) }
{
    out.extend_from_slice(front)?;
    out.extend_from_slice(symbol_text(symbol))?;
    out.extend_from_slice(b"'")
}

/// Adds a sign that stands there.
#[tactic(auto, unfolding(crate::specs::Elements::element_text))]
pub fn push_symbol(out: &mut Vec<u8>, symbol: Symbol, x: u64, y: u64) -> Result<(), AllocError>
    ensures { OnOk result (out.new.items ≡ out.old.items ++ elements.element_text (elements.Sign symbol x y)) }
{
    push_use(out, b"<use href='#", symbol)?;
    push_attribute(out, b" x='", x)?;
    push_attribute(out, b" y='", y)?;
    out.extend_from_slice(b"/>\n")
}

/// Adds the front of a picture's tag.
#[tactic(auto, unfolding(crate::specs::Elements::svg_text))]
fn push_svg(out: &mut Vec<u8>) -> Result<(), AllocError>
    ensures { OnOk result (out.new.items ≡ out.old.items ++ elements.svg_text) }
{
    out.extend_from_slice(b"<svg xmlns='http://www.w3.org/2000/svg' viewBox='0 0 ")
}

/// Adds what a picture shows: its numbers from the left upper corner on.
fn push_view(out: &mut Vec<u8>, width: u64, height: u64) -> Result<(), AllocError>
    ensures { OnOk result (out.new.items ≡ out.old.items ++ elements.view_text width height) }
{
    push_svg(out)?;
    push_number(out, width)?;
    push_attribute(out, b" ", height)
}

/// Adds the front of a picture so wide and so high.
#[tactic(auto, unfolding(crate::specs::Elements::front_text))]
pub fn push_front(out: &mut Vec<u8>, width: u64, height: u64) -> Result<(), AllocError>
    ensures { OnOk result (out.new.items ≡ out.old.items ++ elements.front_text width height) }
{
    push_view(out, width, height)?;
    push_attribute(out, b" width='", width)?;
    push_attribute(out, b" height='", height)?;
    out.extend_from_slice(b">\n")
}

/// Adds the front of what stands so far below the top of a picture: all that is written behind it, to its own end, is moved down by so much.
#[tactic(auto, unfolding(crate::specs::Elements::lowered_text))]
pub fn push_lowered(out: &mut Vec<u8>, y: u64) -> Result<(), AllocError>
    ensures { OnOk result (out.new.items ≡ out.old.items ++ elements.lowered_text y) }
{
    push_attribute(out, b"<svg y='", y)?;
    out.extend_from_slice(b">\n")
}

/// Adds the head.
#[tactic(auto, unfolding(crate::specs::Elements::head_text))]
pub fn push_head(out: &mut Vec<u8>) -> Result<(), AllocError>
    ensures { OnOk result (out.new.items ≡ out.old.items ++ elements.head_text) }
{
    out.extend_from_slice(HEAD)
}

/// Adds the end of a picture, or of what stands below its top.
pub fn push_tail(out: &mut Vec<u8>) -> Result<(), AllocError>
    ensures { OnOk result (out.new.items ≡ out.old.items ++ elements.tail_text) }
{
    out.extend_from_slice(TAIL)
}
