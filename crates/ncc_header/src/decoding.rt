//! Decoding a header from a slice.

ghost use Rattle.std.specs.Prelude.{◌≡◌, ◌≤◌, length, Ok, Err};
ghost use Rattle.ncc_header.specs.declared.fault.Fault.{Fault as TheFault};
ghost use Rattle.ncc_schema.specs.declared.schema.Header.{Header as TheHeader};
ghost use Rattle.ncc_header.specs.Answers.{Begins, Stops, Answers, OrMemory};

use crate::decoder::Decoder;
use crate::fault::HeaderError;
use ncc_schema::Header;
use std::alloc::Global;

/// Decodes the header at the front of the input, of at most `limit` bytes. It never answers Device.
pub fn decode(alloc: Global, input: &[u8], limit: u64) -> Result<Header, HeaderError>
    ensures answers { Answers input.now limit result }
    ensures header { (h : TheHeader) → Begins input.now limit h → OrMemory result (Ok h) }
    ensures few { length input.now ≤ 8 → result ≡ Err HeaderError.Memory → ⊥ }
    ensures fault { (f : TheFault) → Stops input.now limit f → OrMemory result (Err (HeaderError.Fault f)) }
{
    let mut decoder = Decoder::new(alloc, limit);
    match decoder.feed(input) {
        Ok(_fed) => decoder.finish(),
        Err(error) => Err(error),
    }
}
