//! A digest of what was answered.

use ncc_engines::Answer;

/// A digest of bytes and numbers, in their order.
#[derive(Clone, Copy, Debug)]
pub struct Digest {
    state: u64,
}

const FACTOR: u64 = 0x9E37_79B9_7F4A_7C15;

fn mixed(state: u64, word: u64) -> u64 {
    let product = (state ^ word).wrapping_mul(FACTOR);
    product ^ (product >> 29)
}

fn word_of(bytes: &[u8]) -> u64 {
    match bytes.first_chunk::<8>() {
        Some(word) => u64::from_le_bytes(*word),
        None => 0,
    }
}

impl Digest {
    pub fn new() -> Digest {
        Digest { state: 1 }
    }

    pub fn number(&mut self, number: u64) {
        self.state = mixed(self.state, number);
    }

    /// Takes bytes, and how many they are. Four words are taken side by side.
    pub fn bytes(&mut self, bytes: &[u8]) {
        let mut lanes = [1u64, 2, 3, 4];
        let blocks = bytes.len() / 32;
        for block in 0..blocks {
            let at = 32 * block;
            lanes[0] = mixed(lanes[0], word_of(&bytes[at..at + 8]));
            lanes[1] = mixed(lanes[1], word_of(&bytes[at + 8..at + 16]));
            lanes[2] = mixed(lanes[2], word_of(&bytes[at + 16..at + 24]));
            lanes[3] = mixed(lanes[3], word_of(&bytes[at + 24..at + 32]));
        }
        for lane in lanes {
            self.number(lane);
        }
        for byte in &bytes[32 * blocks..] {
            self.number(*byte as u64);
        }
        self.number(bytes.len() as u64);
    }

    pub fn answer(&mut self, answer: Answer) {
        self.number(match answer {
            Answer::Passed => 0,
            Answer::Refused => 1,
            Answer::Device => 2,
            Answer::Memory => 3,
        });
    }

    pub fn state(&self) -> u64 {
        self.state
    }
}
