//! The log of a store: what was called, and what each write replaced.

ghost use Rattle.std.specs.Prelude.{◌≡◌, ◌≤◌, [], ◌∷◌, ◌++◌, length, take, drop, IfOk, OnOk, OnErr};
ghost use Rattle.ncc_store.specs.Bytes.{AreBytes};
ghost use Rattle.ncc_store.specs.Store.{written};
ghost use Rattle.ncc_store.specs.Log.{LogsWrite};
ghost use Rattle.ncc_store.specs.declared.log.Call.TheVariants.{Sync};

use crate::log::Call;
use crate::putting::put;
use std::alloc::{AllocError, Global};

/// Copies the `count` bytes from `start` on, or those that there are.
fn copy_at(alloc: Global, bytes: &[u8], start: usize, count: usize) -> Result<Vec<u8>, AllocError>
    requires { start ≤ length bytes.now }
    ensures { IfOk result (λ copy. copy.items ≡ take count (drop start bytes.now)) }
{
    let rest = &bytes[start..];
    if count < rest.len() {
        rest[..count].to_vec(alloc)
    } else {
        rest.to_vec(alloc)
    }
}

/// Logs a write with what it replaces. After an `Err` nothing is changed.
fn log_write(
    calls: &mut Vec<Call>,
    replaced: &mut Vec<Vec<u8>>,
    call: Call,
    gone: Vec<u8>,
) -> Result<(), AllocError>
    ensures calls { OnOk result (calls.new.items ≡ calls.old.items ++ call ∷ []) }
    ensures replaced { OnOk result (replaced.new.items ≡ replaced.old.items ++ gone ∷ []) }
    ensures same_calls { OnErr result (calls.new.items ≡ calls.old.items) }
    ensures same_replaced { OnErr result (replaced.new.items ≡ replaced.old.items) }
{
    calls.push(call)?;
    if replaced.push(gone).is_err() {
        let _ = calls.pop();
        return Err(AllocError);
    }
    Ok(())
}

/// Writes and logs the write. After an `Err` nothing is changed.
pub(crate) fn write_logged(
    alloc: Global,
    bytes: &mut Vec<u8>,
    calls: &mut Vec<Call>,
    replaced: &mut Vec<Vec<u8>>,
    place: u64,
    piece: &[u8],
) -> Result<(), AllocError>
    requires { place ≤ length bytes.old.items }
    ensures written { OnOk result (bytes.new.items ≡ written bytes.old.items place piece.now) }
    ensures logged { OnOk result (LogsWrite place piece.now (take (length piece.now) (drop place bytes.old.items))
        calls.old.items calls.new.items replaced.old.items replaced.new.items) }
    ensures are_bytes { AreBytes bytes.old.items → AreBytes bytes.new.items }
    ensures same_bytes { OnErr result (bytes.new.items ≡ bytes.old.items) }
    ensures same_calls { OnErr result (calls.new.items ≡ calls.old.items) }
    ensures same_replaced { OnErr result (replaced.new.items ≡ replaced.old.items) }
{
    let start = place as usize;
    let gone = copy_at(alloc, bytes, start, piece.len())?;
    let copy = piece.to_vec(alloc)?;
    log_write(calls, replaced, Call::Write(place, copy), gone)?;
    if put(bytes, start, piece).is_err() {
        let _ = calls.pop();
        let _ = replaced.pop();
        return Err(AllocError);
    }
    Ok(())
}

/// Logs a sync. After an `Err` nothing is changed.
pub(crate) fn sync_logged(calls: &mut Vec<Call>) -> Result<(), AllocError>
    ensures logged { OnOk result (calls.new.items ≡ calls.old.items ++ Sync ∷ []) }
    ensures same { OnErr result (calls.new.items ≡ calls.old.items) }
{
    calls.push(Call::Sync)?;
    Ok(())
}
