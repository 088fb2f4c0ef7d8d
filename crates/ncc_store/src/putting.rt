//! Bytes put over those of a vector.

ghost use Rattle.std.specs.Prelude.{◌≡◌, ◌+◌, ◌≤◌, length, IsOk, OnOk, OnErr};
ghost use Rattle.ncc_store.specs.Bytes.{AreBytes};
ghost use Rattle.ncc_store.specs.Store.{written};

use std::alloc::AllocError;

/// What a slice of bytes holds are bytes. Nothing is looked for.
pub(crate) fn are_bytes(bytes: &[u8])
    ensures { AreBytes bytes.now }
{}

/// Puts the piece over the bytes, as `put` does.
fn put_over(bytes: &mut Vec<u8>, place: usize, piece: &[u8]) -> Result<(), AllocError>
    requires { place ≤ length bytes.old.items }
    ensures ok { OnOk result (bytes.new.items ≡ written bytes.old.items place piece.now) }
    ensures err { OnErr result (bytes.new.items ≡ bytes.old.items) }
    ensures inside { place + length piece.now ≤ length bytes.old.items → IsOk result }
{
    let inside = bytes.len() - place;
    if piece.len() <= inside {
        bytes[place..place + piece.len()].copy_from_slice(piece);
        return Ok(());
    }
    bytes.extend_from_slice(&piece[inside..])?;
    bytes[place..place + inside].copy_from_slice(&piece[..inside]);
    Ok(())
}

/// Puts the piece at a place, over the bytes that are there and past their end. After an `Err` nothing is changed.
pub(crate) fn put(bytes: &mut Vec<u8>, place: usize, piece: &[u8]) -> Result<(), AllocError>
    requires { place ≤ length bytes.old.items }
    ensures ok { OnOk result (bytes.new.items ≡ written bytes.old.items place piece.now) }
    ensures err { OnErr result (bytes.new.items ≡ bytes.old.items) }
    ensures inside { place + length piece.now ≤ length bytes.old.items → IsOk result }
    ensures are_bytes { AreBytes bytes.new.items }
{
    let put = put_over(bytes, place, piece);
    are_bytes(bytes.as_slice());
    put
}
