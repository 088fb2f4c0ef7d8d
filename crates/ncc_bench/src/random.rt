//! Numbers and text from a seed.

ghost use Rattle.std.specs.Prelude.{◌<◌};

use std::alloc::{AllocError, Global};

/// A stream of numbers (splitmix64, by Steele, Lea and Flood).
#[derive(Clone, Copy, Debug)]
pub struct Random {
    state: u64,
}

impl Random {
    pub fn new(seed: u64) -> Random {
        Random { state: seed }
    }

    pub fn next(&mut self) -> u64 {
        self.state = self.state.wrapping_add(0x9E37_79B9_7F4A_7C15);
        let mut mixed = self.state;
        mixed = (mixed ^ (mixed >> 30)).wrapping_mul(0xBF58_476D_1CE4_E5B9);
        mixed = (mixed ^ (mixed >> 27)).wrapping_mul(0x94D0_49BB_1331_11EB);
        mixed ^ (mixed >> 31)
    }

    /// A number below this one.
    pub fn below(&mut self, end: usize) -> usize
        requires { 0 < end }
        ensures { result < end }
    {
        (self.next() % end as u64) as usize
    }
}

/// Adds so many bytes, by pieces of up to 8,192 from random places of a block of 16,384.
fn push_pieces(
    out: &mut Vec<u8>,
    random: &mut Random,
    block: &[u8],
    count: usize,
) -> Result<(), AllocError> {
    let mut left = count;
    for _ in 0..count {
        let start = 8 * random.below(1_024);
        let size = left.min(8_192);
        if size == 0 || start + size > block.len() {
            break;
        }
        out.extend_from_slice(&block[start..start + size])?;
        left -= size;
    }
    Ok(())
}

/// Adds so many random bytes, a multiple of 8.
pub fn push_random(out: &mut Vec<u8>, random: &mut Random, count: usize) -> Result<(), AllocError> {
    let mut block = Vec::new(*out.allocator());
    for _ in 0..2_048 {
        block.extend_from_slice(&random.next().to_be_bytes())?;
    }
    push_pieces(out, random, &block, count)
}

/// Adds so many bytes of floats of 128 to 256, each with all its digits.
pub fn push_floats(out: &mut Vec<u8>, random: &mut Random, count: usize) -> Result<(), AllocError> {
    let mut block = Vec::new(*out.allocator());
    for _ in 0..4_096 {
        let bits = 0x4300_0000 | (random.next() & 0x007F_FFFF) as u32;
        block.extend_from_slice(&bits.to_be_bytes())?;
    }
    push_pieces(out, random, &block, count)
}

/// Adds so many bytes of doubles of 1 to 2, each with all its digits.
pub fn push_doubles(
    out: &mut Vec<u8>,
    random: &mut Random,
    count: usize,
) -> Result<(), AllocError> {
    let mut block = Vec::new(*out.allocator());
    for _ in 0..2_048 {
        let bits = 0x3FF0_0000_0000_0000 | (random.next() >> 12);
        block.extend_from_slice(&bits.to_be_bytes())?;
    }
    push_pieces(out, random, &block, count)
}

/// Text out of which pieces are taken.
#[derive(Drop)]
pub struct Prose {
    text: Vec<u8>,
}

const LETTERS: [u8; 32] = *b"etaoinshrdlucmfwypvbgk ETA 01239";

impl Prose {
    pub fn new(alloc: Global, random: &mut Random) -> Result<Prose, AllocError> {
        let mut text = Vec::new(alloc);
        for _ in 0..65_536 {
            text.push(LETTERS[random.below(32)])?;
        }
        Ok(Prose { text })
    }

    /// A piece of so many bytes, at most 65,535.
    pub fn piece(&self, random: &mut Random, count: usize) -> &[u8] {
        if count < self.text.len() {
            let start = random.below(self.text.len() - count);
            &self.text[start..start + count]
        } else {
            &self.text
        }
    }
}
