//! The caption: lines of a text that stand above a picture, which is moved down by as much.

ghost use Rattle.sl_picture.specs.Captions as captions;
ghost use Rattle.std.specs.Prelude.{OnOk, length, ◌++◌, ◌<◌, ◌≡◌};

use crate::layout::Layout;
use sl_drawing::{
    Area, Class, letters, plus, push_front, push_head, push_label, push_lowered, push_rect, times,
};
use sl_text::Bytes;
use std::alloc::AllocError;

/// How far the lines stand below each other.
const LINE: u64 = 14;

/// How high a caption is.
fn caption_height(caption: &[Bytes]) -> u64
    ensures { result ≡ captions.caption_height caption.now }
{
    times(caption.len() as u64, LINE)
}

/// A width, or what a line needs where that is more.
fn wider_line(width: u64, line: &Bytes) -> u64
    ensures { result ≡ captions.wider_line width line.now }
{
    width.max(plus(20, letters(line.len())))
}

/// A width that has room for each line, and at least this one.
fn caption_width(caption: &[Bytes], least: u64) -> u64
    ensures { result ≡ captions.caption_width caption.now least }
{
    caption
        .iter()
        .fold(least, |width, line| wider_line(width, line))
}

/// All that is covered by a picture of this layout and its caption.
fn sheet_of(layout: &Layout, caption: &[Bytes]) -> Area
    ensures { result ≡ captions.sheet_of layout.now caption.now }
{
    Area {
        x: 0,
        y: 0,
        width: caption_width(caption, layout.width),
        height: plus(layout.height, caption_height(caption)),
    }
}

/// Adds the front of a picture of this size, the head, and its ground.
fn push_sheet(out: &mut Vec<u8>, sheet: Area) -> Result<(), AllocError>
    ensures { OnOk result (out.new.items ≡ out.old.items ++ captions.sheet_text sheet) }
{
    push_front(out, sheet.width, sheet.height)?;
    push_head(out)?;
    push_rect(out, Class::Ground, sheet)
}

/// Adds a line by its index.
fn push_line(out: &mut Vec<u8>, caption: &[Bytes], index: usize) -> Result<(), AllocError>
    requires { index < length caption.now }
    ensures { OnOk result (out.new.items ≡ out.old.items ++ captions.line_at caption.now index) }
{
    let y = plus(times(index as u64, LINE), 12);
    push_label(out, Class::Plain, 10, y, caption[index].as_slice())
}

/// Adds each line.
fn push_caption(out: &mut Vec<u8>, caption: &[Bytes]) -> Result<(), AllocError>
    ensures { OnOk result (out.new.items ≡ out.old.items ++ captions.caption_text caption.now) }
{
    for index in 0..caption.len() {
        push_line(out, caption, index)?;
    }
    Ok(())
}

/// Adds all that stands above a picture of this layout, and the front of what stands below that.
pub(crate) fn push_above(
    out: &mut Vec<u8>,
    layout: &Layout,
    caption: &[Bytes],
) -> Result<(), AllocError>
    ensures { OnOk result (out.new.items ≡ out.old.items ++ captions.above_text layout.now caption.now) }
{
    push_sheet(out, sheet_of(layout, caption))?;
    push_caption(out, caption)?;
    push_lowered(out, caption_height(caption))
}
