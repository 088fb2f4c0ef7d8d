//! The markup of a picture: rectangles and texts.

ghost use Rattle.std.specs.Prelude.{◌≡◌, ◌++◌, OnOk};
ghost use Rattle.ncc_picture.specs.Marks.{attribute, bare, between, entities, entity, rect, rect_of, text_at, titled};

use ncc_places::push_wide;
use std::alloc::AllocError;

/// Adds a byte of a text, or what stands for it.
fn push_entity(out: &mut Vec<u8>, byte: u8) -> Result<(), AllocError>
    ensures { OnOk result (out.new.items ≡ out.old.items ++ entity byte) }
{
    if byte == b'&' {
        return out.extend_from_slice(b"&amp;");
    }
    if byte == b'<' {
        return out.extend_from_slice(b"&lt;");
    }
    if byte == b'>' {
        return out.extend_from_slice(b"&gt;");
    }
    if byte == b'"' {
        return out.extend_from_slice(b"&quot;");
    }
    out.push(byte)?;
    Ok(())
}

/// Adds a text.
fn push_entities(out: &mut Vec<u8>, text: &[u8]) -> Result<(), AllocError>
    ensures { OnOk result (out.new.items ≡ out.old.items ++ entities text.now) }
{
    for byte in text {
        push_entity(out, *byte)?;
    }
    Ok(())
}

/// Adds a number by its name.
#[tactic(auto, unfolding(crate::specs::Marks::attribute))]
pub fn push_attribute(out: &mut Vec<u8>, name: &[u8], n: u128) -> Result<(), AllocError>
    ensures { OnOk result (out.new.items ≡ out.old.items ++ attribute name.now n) }
{
    out.extend_from_slice(name)?;
    out.extend_from_slice(b"=\"")?;
    push_wide(out, n)?;
    out.extend_from_slice(b"\"")?;
    Ok(())
}

/// Adds a rectangle up to its numbers.
#[tactic(auto, unfolding(crate::specs::Marks::rect_of))]
fn push_rect_of(out: &mut Vec<u8>, class: &[u8]) -> Result<(), AllocError>
    ensures { OnOk result (out.new.items ≡ out.old.items ++ rect_of class.now) }
{
    out.extend_from_slice(b"<rect")?;
    out.extend_from_slice(b" class=\"")?;
    out.extend_from_slice(class)?;
    out.extend_from_slice(b"\"")?;
    Ok(())
}

/// Adds a rectangle up to the end of its numbers.
#[tactic(auto, unfolding(crate::specs::Marks::rect))]
pub fn push_rect(
    out: &mut Vec<u8>,
    class: &[u8],
    x: u128,
    y: u128,
    width: u128,
    height: u128,
) -> Result<(), AllocError>
    ensures { OnOk result (out.new.items ≡ out.old.items ++ rect class.now x y width height) }
{
    push_rect_of(out, class)?;
    push_attribute(out, b" x", x)?;
    push_attribute(out, b" y", y)?;
    push_attribute(out, b" width", width)?;
    push_attribute(out, b" height", height)
}

/// Adds the end of a rectangle without words.
pub fn push_bare(out: &mut Vec<u8>) -> Result<(), AllocError>
    ensures { OnOk result (out.new.items ≡ out.old.items ++ bare) }
{
    out.extend_from_slice(b"/>\n")
}

/// Adds a text between two pieces of markup.
#[tactic(auto, unfolding(crate::specs::Marks::between))]
fn push_between(out: &mut Vec<u8>, start: &[u8], text: &[u8], end: &[u8]) -> Result<(), AllocError>
    ensures { OnOk result (out.new.items ≡ out.old.items ++ between start.now text.now end.now) }
{
    out.extend_from_slice(start)?;
    push_entities(out, text)?;
    out.extend_from_slice(end)?;
    Ok(())
}

/// Adds the words of a rectangle, and its end.
pub fn push_titled(out: &mut Vec<u8>, title: &[u8]) -> Result<(), AllocError>
    ensures { OnOk result (out.new.items ≡ out.old.items ++ titled title.now) }
{
    push_between(out, b"><title>", title, b"</title></rect>\n")
}

/// Adds a text that begins here.
#[tactic(auto, unfolding(crate::specs::Marks::text_at))]
pub fn push_text_at(out: &mut Vec<u8>, x: u128, y: u128, text: &[u8]) -> Result<(), AllocError>
    ensures { OnOk result (out.new.items ≡ out.old.items ++ text_at x y text.now) }
{
    out.extend_from_slice(b"<text")?;
    push_attribute(out, b" x", x)?;
    push_attribute(out, b" y", y)?;
    push_between(out, b">", text, b"</text>\n")
}
