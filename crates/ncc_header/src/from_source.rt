//! Reading a header from a source.

ghost use Rattle.std.specs.Prelude.{◌≡◌, ◌+◌, ◌≤◌, ◌<◌, ℕ, List, [], length, Err, IfSome, IfOk, IfErr, OnOk};
ghost use Rattle.ncc_schema.specs.Device.{AsksFew, LosesAtMost};
ghost use Rattle.ncc_header.specs.Answers.{Begins, AnswersOf, CountsAs, IsLeft};
ghost use Rattle.ncc_header.specs.Decoder.{Took, HasFailed, limit_of};
ghost use Rattle.ncc_header.specs.FromSource.{HasFed, FailsFeeding, HasRead, IsOver};

use crate::decoder::Decoder;
use crate::fault::HeaderError;
use ncc_schema::{Header, Source};
use std::alloc::Global;

/// How many bytes are read at once.
const PIECE: u64 = 4096;

/// Reads once, and feeds what was read to the decoder.
fn read_piece<R: Source>(
    source: &mut R,
    decoder: &mut Decoder,
    room: &mut [u8],
) -> Result<usize, HeaderError>
    requires took { (bytes : List ℕ) × Took decoder.old bytes }
    requires fresh { ¬ HasFailed decoder.old HeaderError.Memory }
    ensures ok { IfOk result (λ n.
        HasFed (R.left source.old) (R.left source.new) decoder.old decoder.new (length room.old) n) }
    ensures err { IfErr result (FailsFeeding (R.left source.old) (R.left source.new) decoder.old (length room.old)) }
    ensures count { CountsAs (R.failures source.old) (R.failures source.new) result }
    ensures calls { R.calls source.new ≤ R.calls source.old + 1 }
{
    let n = source.read(room)?;
    let (front, _unused) = room.split_at(n);
    match decoder.feed(front) {
        Ok(_fed) => Ok(n),
        Err(error) => Err(error),
    }
}

/// Reads until the decoder expects no more bytes, or the source is at its end.
fn read_wanted<R: Source>(
    source: &mut R,
    decoder: &mut Decoder,
    limit: u64,
) -> Result<(), HeaderError>
    requires took { Took decoder.old [] }
    requires fresh { ¬ HasFailed decoder.old HeaderError.Memory }
    requires limit { limit_of decoder.old ≡ limit }
    ensures ok { IfOk result (λ _. (taken : ℕ)
        × HasRead (R.left source.old) (R.left source.new) decoder.new limit taken
        × IsOver (R.left source.new) decoder.new limit) }
    ensures err { IfErr result (λ e. IfSome (R.left source.old) (λ input. AnswersOf input limit (Err e))) }
    ensures fresh { OnOk result (¬ HasFailed decoder.new HeaderError.Memory) }
    ensures memory { result ≡ Err HeaderError.Memory → IfSome (R.left source.old) (λ input. 8 < length input) }
    ensures most { LosesAtMost (R.left source.old) (R.left source.new) limit }
    ensures count { CountsAs (R.failures source.old) (R.failures source.new) result }
    ensures calls { AsksFew (R.left source.old) (R.left source.new) (R.calls source.old) (R.calls source.new) }
{
    let mut piece = [0; PIECE as usize];
    let mut taken = 0;
    let mut wanted = decoder.expects();
    while wanted > 0 {
        let room = &mut piece[..wanted.min(PIECE) as usize];
        let n = read_piece(source, decoder, room)?;
        taken += n as u64;
        wanted = if n > 0 { decoder.expects() } else { 0 };
    }
    Ok(())
}

/// Reads the header at the front of a source, of at most `limit` bytes. Where there is one, exactly
/// its bytes are read: a source is asked for as many bytes as are surely still to come, 4,096 at most. Of a
/// source that tells its bytes no byte past the limit is read, whatever the answer, and it is called at most once more
/// than bytes are read.
pub fn read_header<R: Source>(
    alloc: Global,
    source: &mut R,
    limit: u64,
) -> Result<Header, HeaderError>
    ensures answers { IfSome (R.left source.old) (λ input. AnswersOf input limit result) }
    ensures exactly { IfSome (R.left source.old) (λ input. IfOk result (λ h. IsLeft (R.left source.new) input h)) }
    ensures real { IfOk result (λ h. (bytes : List ℕ) × Begins bytes limit h) }
    ensures most { LosesAtMost (R.left source.old) (R.left source.new) limit }
    ensures few { IfSome (R.left source.old) (λ input. length input ≤ 8 → result ≡ Err HeaderError.Memory → ⊥) }
    ensures count { CountsAs (R.failures source.old) (R.failures source.new) result }
    ensures calls { AsksFew (R.left source.old) (R.left source.new) (R.calls source.old) (R.calls source.new) }
{
    let mut decoder = Decoder::new(alloc, limit);
    match read_wanted(source, &mut decoder, limit) {
        Ok(()) => decoder.finish(),
        Err(met) => Err(met),
    }
}
