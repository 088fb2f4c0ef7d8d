//! Lines of a few words and a number, put out word by word: they take no memory.

ghost use Rattle.std.specs.Prelude.{◌++◌, codes, decimal};
ghost use Rattle.ncc_values.specs.Failures.{Counts};
ghost use Rattle.ncc_schema.specs.Device.{WritesAll};
ghost use Rattle.ncc_lines.specs.Texts.{at_line};

use itoa::Buffer;
use ncc_header::{Device, Sink, write_all};

/// Puts out a number and a line feed.
fn put_number<W: Sink>(number: u64, sink: &mut W) -> Result<(), Device>
    ensures bytes { WritesAll (W.put sink.old) (W.put sink.new) result (decimal number ++ codes "\n") }
    ensures count { Counts (W.failures sink.old) (W.failures sink.new) result }
{
    let mut buffer = Buffer::new();
    write_all(sink, buffer.format(number).as_bytes())?;
    write_all(sink, b"\n")
}

/// Puts out a word, a number and a line feed.
pub fn put_numbered<W: Sink>(word: &[u8], number: u64, sink: &mut W) -> Result<(), Device>
    ensures bytes { WritesAll (W.put sink.old) (W.put sink.new) result (word.now ++ (decimal number ++ codes "\n")) }
    ensures count { Counts (W.failures sink.old) (W.failures sink.new) result }
{
    write_all(sink, word)?;
    put_number(number, sink)
}

/// Puts out a word and the offset at which it is.
fn put_found<W: Sink>(word: &str, offset: u64, sink: &mut W) -> Result<(), Device>
    ensures bytes { WritesAll (W.put sink.old) (W.put sink.new) result
        (word.now ++ (codes " at " ++ (decimal offset ++ codes "\n"))) }
    ensures count { Counts (W.failures sink.old) (W.failures sink.new) result }
{
    write_all(sink, word.as_bytes())?;
    put_numbered(b" at ", offset, sink)
}

/// Puts out the line of what is at an offset: its head and the word that names it.
pub fn put_at<W: Sink>(head: &[u8], word: &str, offset: u64, sink: &mut W) -> Result<(), Device>
    ensures bytes { WritesAll (W.put sink.old) (W.put sink.new) result (at_line head.now word.now offset) }
    ensures count { Counts (W.failures sink.old) (W.failures sink.new) result }
{
    write_all(sink, head)?;
    put_found(word, offset, sink)
}
