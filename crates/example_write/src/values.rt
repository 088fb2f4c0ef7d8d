//! Values as the calls take them.

use ncc::{InlineList, Seq, Values, XType};
use std::alloc::{AllocError, Global};

pub fn text(alloc: Global, bytes: &[u8]) -> Result<Values, AllocError> {
    let mut chars = Values::new(alloc, XType::Char);
    chars.push_from(bytes)?;
    Ok(chars)
}

pub fn shorts(alloc: Global, items: &[i16]) -> Result<Values, AllocError> {
    Ok(Values::Shorts(InlineList::from_slice(alloc, items)?))
}

pub fn ints(alloc: Global, items: &[i32]) -> Result<Values, AllocError> {
    Ok(Values::Ints(InlineList::from_slice(alloc, items)?))
}

pub fn numbers(alloc: Global, items: &[u64]) -> Result<Seq<u64>, AllocError> {
    Ok(Seq::from_vec(items.to_vec(alloc)?))
}
