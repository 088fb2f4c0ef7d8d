//! Adding an item to a list of which the header says how many follow.

ghost use Rattle.std.specs.Prelude.{◌≡◌, ◌+◌, ◌<◌, [], ◌∷◌, ◌++◌, min, OnOk, OnErr};
ghost use Rattle.std.specs.Vec.{vec_len, vec_capacity};

use std::alloc::AllocError;

/// For how many more there is room with the first item. A number that a header says makes none alone.
const AHEAD: u64 = 32;

/// For how many items there is room with the first one, which so many follow.
#[inline]
fn ahead(left: u64) -> usize
    ensures { result ≡ 1 + min left 32 }
{
    1 + left.min(AHEAD) as usize
}

/// Makes room for an item that so many follow.
pub fn make_room<T>(items: &mut Vec<T>, left: u64) -> Result<(), AllocError>
    ensures same { items.new.items ≡ items.old.items }
    ensures len { vec_len items.new ≡ vec_len items.old }
    ensures room { OnOk result (vec_len items.new < vec_capacity items.new) }
{
    if items.is_empty() {
        items.reserve(ahead(left))?;
    }
    items.reserve(1)
}

/// Adds an item that so many follow, or where there is no memory none.
pub fn push_item<T: Drop>(items: &mut Vec<T>, item: T, left: u64) -> Result<(), AllocError>
    ensures ok { OnOk result (items.new.items ≡ items.old.items ++ item ∷ []) }
    ensures err { OnErr result (items.new.items ≡ items.old.items) }
{
    make_room(items, left)?;
    items.push_reserved(item);
    Ok(())
}
