//! Files in words, and selections.

use ncc_header::Seq;
use ncc_slab::Slab;
use std::alloc::{AllocError, Global};

/// The variable int m(y, x), with y of length 2 and x of length 3, and its values 1 to 6.
pub const INTS: [u32; 30] = [
    0x43444601, 0, 0x0a, 2, 1, 0x79000000, 2, 1, 0x78000000, 3, 0, 0, 0x0b, 1, 1, 0x6d000000, 2, 0,
    1, 0, 0, 4, 24, 96, 1, 2, 3, 4, 5, 6,
];

/// All of it.
pub const INTS_TEXT: &str = "y,x,m\n0,0,1\n0,1,2\n0,2,3\n1,0,4\n1,1,5\n1,2,6\n";

/// The variable char c(y, x), with y of length 3 and x of length 5, and the texts `ab`, NUL, `c`, NUL; five NULs; and a
/// comma, a double quote, a backslash, a space and ff.
pub const TEXTS: [u32; 28] = [
    0x43444601, 0, 0x0a, 2, 1, 0x79000000, 3, 1, 0x78000000, 5, 0, 0, 0x0b, 1, 1, 0x63000000, 2, 0,
    1, 0, 0, 2, 16, 96, 0x61620063, 0, 0x00002c22, 0x5c20ff00,
];

/// A selection of these starts, counts and strides.
pub fn slab(alloc: Global, lists: [&[u64]; 3]) -> Result<Slab, AllocError> {
    Ok(Slab {
        start: Seq::from_vec(lists[0].to_vec(alloc)?),
        count: Seq::from_vec(lists[1].to_vec(alloc)?),
        stride: Seq::from_vec(lists[2].to_vec(alloc)?),
    })
}
