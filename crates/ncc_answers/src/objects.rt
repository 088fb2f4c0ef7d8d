//! Sending what is shown of a file as an object. It takes no memory.

ghost use Rattle.std.specs.Prelude.{◌≡◌, ◌++◌, ◌∷◌, [], codes, true, false};
ghost use Rattle.std.specs.Str.{is_utf8};
ghost use Rattle.ncc_values.specs.Failures.{Counts};
ghost use Rattle.ncc_schema.specs.Device.{WritesAll};
ghost use Rattle.ncc_lines.specs.Words.{byte_digits as digits_of_byte};
ghost use Rattle.ncc_answers.specs.Shown.{closing, members_of, object_line, opening, path_value, piece, pieces, status_text};

use crate::answer::Answer;
use crate::sending::digit;
use ncc_header::{Device, Sink, write_all};
use ncc_lines::byte_digits;

/// Sends two texts.
fn send_two<W: Sink>(first: &[u8], second: &[u8], sink: &mut W) -> Result<(), Device>
    ensures bytes { WritesAll (W.put sink.old) (W.put sink.new) result (first.now ++ second.now) }
    ensures count { Counts (W.failures sink.old) (W.failures sink.new) result }
{
    write_all(sink, first)?;
    write_all(sink, second)
}

/// Sends three texts.
fn send_three<W: Sink>(
    first: &[u8],
    second: &[u8],
    third: &[u8],
    sink: &mut W,
) -> Result<(), Device>
    ensures bytes { WritesAll (W.put sink.old) (W.put sink.new) result (first.now ++ (second.now ++ third.now)) }
    ensures count { Counts (W.failures sink.old) (W.failures sink.new) result }
{
    write_all(sink, first)?;
    send_two(second, third, sink)
}

/// Sends a byte of a text in quotation marks.
fn send_character<W: Sink>(byte: u8, sink: &mut W) -> Result<(), Device>
    ensures bytes { WritesAll (W.put sink.old) (W.put sink.new) result (piece true byte) }
    ensures count { Counts (W.failures sink.old) (W.failures sink.new) result }
{
    if byte == b'"' || byte == b'\\' {
        return write_all(sink, &[b'\\', byte]);
    }
    if byte < 32 {
        return send_two(b"\\u00", &byte_digits(byte), sink);
    }
    write_all(sink, &[byte])
}

/// Sends a byte of a text, or of bytes that are none.
fn send_piece<W: Sink>(is_text: bool, byte: u8, sink: &mut W) -> Result<(), Device>
    ensures bytes { WritesAll (W.put sink.old) (W.put sink.new) result (piece is_text byte) }
    ensures count { Counts (W.failures sink.old) (W.failures sink.new) result }
{
    if is_text {
        return send_character(byte, sink);
    }
    write_all(sink, &byte_digits(byte))
}

/// Sends all bytes of a path.
fn send_pieces<W: Sink>(is_text: bool, path: &[u8], sink: &mut W) -> Result<(), Device>
    ensures bytes { WritesAll (W.put sink.old) (W.put sink.new) result (pieces is_text path.now) }
    ensures count { Counts (W.failures sink.old) (W.failures sink.new) result }
{
    for byte in path {
        send_piece(is_text, *byte, sink)?;
    }
    Ok(())
}

/// What stands before the bytes of a path.
fn opening(is_text: bool) -> &'static [u8]
    ensures { result.now ≡ opening is_text }
{
    if is_text { b"\"" } else { b"{\"hex\":\"" }
}

/// What stands after them.
fn closing(is_text: bool) -> &'static [u8]
    ensures { result.now ≡ closing is_text }
{
    if is_text { b"\"" } else { b"\"}" }
}

/// Whether bytes are a text.
fn is_text(path: &[u8]) -> bool
    ensures { result ≡ is_utf8 path.now }
{
    match std::str::from_utf8(path) {
        Ok(_) => true,
        Err(_) => false,
    }
}

/// Sends a path that is a text, or that is none, as a value.
fn send_as<W: Sink>(is_text: bool, path: &[u8], sink: &mut W) -> Result<(), Device>
    ensures bytes { WritesAll (W.put sink.old) (W.put sink.new) result
        (opening is_text ++ (pieces is_text path.now ++ closing is_text)) }
    ensures count { Counts (W.failures sink.old) (W.failures sink.new) result }
{
    write_all(sink, opening(is_text))?;
    send_pieces(is_text, path, sink)?;
    write_all(sink, closing(is_text))
}

/// Sends a path as a value.
fn send_path_value<W: Sink>(path: &[u8], sink: &mut W) -> Result<(), Device>
    ensures bytes { WritesAll (W.put sink.old) (W.put sink.new) result (path_value path.now) }
    ensures count { Counts (W.failures sink.old) (W.failures sink.new) result }
{
    send_as(is_text(path), path, sink)
}

/// The members of an answer.
fn members(answer: Answer, text: &[u8]) -> &[u8]
    ensures { result.now ≡ members_of answer text.now }
{
    match answer {
        Answer::Passed => text,
        Answer::Refused => text,
        Answer::Device => b"\"verdict\":\"error\",\"error\":\"device\"",
        Answer::Memory => b"\"verdict\":\"error\",\"error\":\"memory\"",
    }
}

/// Sends the path of an object.
fn send_file<W: Sink>(path: &[u8], sink: &mut W) -> Result<(), Device>
    ensures bytes { WritesAll (W.put sink.old) (W.put sink.new) result (codes "{\"file\":" ++ path_value path.now) }
    ensures count { Counts (W.failures sink.old) (W.failures sink.new) result }
{
    write_all(sink, b"{\"file\":")?;
    send_path_value(path, sink)
}

/// Sends the status and the members of an object.
fn send_answer<W: Sink>(answer: Answer, text: &[u8], sink: &mut W) -> Result<(), Device>
    ensures bytes { WritesAll (W.put sink.old) (W.put sink.new) result
        ((codes ",\"status\":" ++ status_text answer)
        ++ (codes "," ++ (members_of answer text.now ++ codes "}\n"))) }
    ensures count { Counts (W.failures sink.old) (W.failures sink.new) result }
{
    send_two(b",\"status\":", digit(answer), sink)?;
    send_three(b",", members(answer, text), b"}\n", sink)
}

/// Sends an answer as an object in one line.
pub(crate) fn send_object<W: Sink>(
    path: &[u8],
    answer: Answer,
    text: &[u8],
    sink: &mut W,
) -> Result<(), Device>
    ensures bytes { WritesAll (W.put sink.old) (W.put sink.new) result (object_line answer text.now path.now) }
    ensures count { Counts (W.failures sink.old) (W.failures sink.new) result }
{
    send_file(path, sink)?;
    send_answer(answer, text, sink)
}
