//! Words with what stands before and after them.

ghost use Rattle.std.specs.Prelude.{◌≡◌, ◌++◌, OnOk, codes};

use std::alloc::AllocError;

/// Adds words after what stands before them, and a line feed.
pub fn push_words(out: &mut Vec<u8>, before: &[u8], words: &str) -> Result<(), AllocError>
    ensures { OnOk result (out.new.items ≡ out.old.items ++ (before.now ++ (words.now ++ codes "\n"))) }
{
    out.extend_from_slice(before)?;
    out.extend_from_slice(words.as_bytes())?;
    out.extend_from_slice(b"\n")?;
    Ok(())
}
