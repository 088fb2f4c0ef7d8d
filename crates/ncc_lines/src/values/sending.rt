//! Sending the text of values, piece by piece.

ghost use Rattle.std.specs.Prelude.{◌≤◌, ◌++◌, length};
ghost use Rattle.std.specs.List.{flat_map};
ghost use Rattle.ncc_lines.specs.Words.{chars_word, values_text};
ghost use Rattle.ncc_lines.specs.Sends.{Sends, Blames};

use crate::page::{send, turn_page};
use crate::send_error::SendError;
use crate::style::FloatStyle;
use crate::values::printed::{PIECE, Printed};
use ncc_header::{Sink, Values};
use ncc_values::Char;

/// Sends the text of a few values.
fn send_piece<T: Printed, W: Sink>(
    piece: &[T],
    style: FloatStyle,
    page: &mut Vec<u8>,
    sink: &mut W,
) -> Result<(), SendError>
    requires { length piece.now ≤ PIECE }
    ensures sent { Sends (W.put sink.old) (W.put sink.new)
        (page.old.items ++ flat_map (T.text style) piece.now) page.new.items result }
    ensures count { Blames (W.failures sink.old) (W.failures sink.new) result }
{
    T::print_all(piece, style, page)?;
    turn_page(page, sink)
}

/// Sends the text of values, piece by piece.
fn send_pieces<T: Printed, W: Sink>(
    values: &[T],
    style: FloatStyle,
    page: &mut Vec<u8>,
    sink: &mut W,
) -> Result<(), SendError>
    ensures sent { Sends (W.put sink.old) (W.put sink.new)
        (page.old.items ++ flat_map (T.text style) values.now) page.new.items result }
    ensures count { Blames (W.failures sink.old) (W.failures sink.new) result }
{
    let mut rest = values;
    while !rest.is_empty() {
        let (piece, after) = rest.split_at(rest.len().min(PIECE));
        send_piece(piece, style, page, sink)?;
        rest = after;
    }
    Ok(())
}

/// Sends a text as one word.
fn send_chars<W: Sink>(chars: &[Char], page: &mut Vec<u8>, sink: &mut W) -> Result<(), SendError>
    ensures sent { Sends (W.put sink.old) (W.put sink.new)
        (page.old.items ++ chars_word chars.now) page.new.items result }
    ensures count { Blames (W.failures sink.old) (W.failures sink.new) result }
{
    if chars.is_empty() {
        return Ok(());
    }
    send(b" ", page, sink)?;
    send_pieces(chars, FloatStyle::Bits, page, sink)
}

/// Sends what values add to a line.
pub fn send_values<W: Sink>(
    values: &Values,
    style: FloatStyle,
    page: &mut Vec<u8>,
    sink: &mut W,
) -> Result<(), SendError>
    ensures sent { Sends (W.put sink.old) (W.put sink.new)
        (page.old.items ++ values_text style values.now) page.new.items result }
    ensures count { Blames (W.failures sink.old) (W.failures sink.new) result }
{
    match values {
        Values::Bytes(items) => send_pieces(items.as_slice(), style, page, sink),
        Values::Chars(items) => send_chars(items.as_slice(), page, sink),
        Values::Shorts(items) => send_pieces(items.as_slice(), style, page, sink),
        Values::Ints(items) => send_pieces(items.as_slice(), style, page, sink),
        Values::Floats(items) => send_pieces(items.as_slice(), style, page, sink),
        Values::Doubles(items) => send_pieces(items.as_slice(), style, page, sink),
        Values::UBytes(items) => send_pieces(items.as_slice(), style, page, sink),
        Values::UShorts(items) => send_pieces(items.as_slice(), style, page, sink),
        Values::UInts(items) => send_pieces(items.as_slice(), style, page, sink),
        Values::Int64s(items) => send_pieces(items.as_slice(), style, page, sink),
        Values::UInt64s(items) => send_pieces(items.as_slice(), style, page, sink),
    }
}
