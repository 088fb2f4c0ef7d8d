//! Bytes of files, made field by field: no code that is timed makes them.

use itoa::Buffer;
use ncc_values::Version;
use std::alloc::{AllocError, Global};

/// Where the begin field of a variable stands, the bytes of its slab, and whether it has records.
#[derive(Clone, Copy, Debug)]
struct Slot {
    place: usize,
    vsize: u64,
    has_records: bool,
}

/// A header that grows.
#[derive(Drop)]
pub struct Maker {
    version: Version,
    records: u64,
    bytes: Vec<u8>,
    lengths: Vec<u64>,
    slots: Vec<Slot>,
}

/// The bytes of an element of the type with this code.
fn size_of(code: u32) -> u64 {
    match code {
        1 | 2 => 1,
        3 => 2,
        6 => 8,
        _ => 4,
    }
}

/// Adds a word and a number.
pub fn push_numbered(out: &mut Vec<u8>, word: &[u8], number: u64) -> Result<(), AllocError> {
    out.extend_from_slice(word)?;
    let mut buffer = Buffer::new();
    out.extend_from_slice(buffer.format(number).as_bytes())
}

impl Maker {
    /// A header of this version, with so many records.
    pub fn new(alloc: Global, version: Version, records: u64) -> Result<Maker, AllocError> {
        let mut maker = Maker {
            version,
            records,
            bytes: Vec::new(alloc),
            lengths: Vec::new(alloc),
            slots: Vec::new(alloc),
        };
        maker.bytes.extend_from_slice(b"CDF")?;
        maker.bytes.push(version.byte())?;
        maker.count(records)?;
        Ok(maker)
    }

    fn word(&mut self, word: u32) -> Result<(), AllocError> {
        self.bytes.extend_from_slice(&word.to_be_bytes())
    }

    fn count(&mut self, count: u64) -> Result<(), AllocError> {
        if self.version == Version::V5 {
            self.bytes.extend_from_slice(&count.to_be_bytes())
        } else {
            self.word((count & 0xFFFF_FFFF) as u32)
        }
    }

    fn pad(&mut self) -> Result<(), AllocError> {
        let behind = self.bytes.len() % 4;
        if behind != 0 {
            for _ in behind..4 {
                self.bytes.push(0)?;
            }
        }
        Ok(())
    }

    fn list(&mut self, tag: u32, items: u64) -> Result<(), AllocError> {
        self.word(if items == 0 { 0 } else { tag })?;
        self.count(items)
    }

    pub fn dims(&mut self, items: u64) -> Result<(), AllocError> {
        self.list(10, items)
    }

    pub fn attrs(&mut self, items: u64) -> Result<(), AllocError> {
        self.list(12, items)
    }

    pub fn vars(&mut self, items: u64) -> Result<(), AllocError> {
        self.list(11, items)
    }

    fn name(&mut self, name: &[u8]) -> Result<(), AllocError> {
        self.count(name.len() as u64)?;
        self.bytes.extend_from_slice(name)?;
        self.pad()
    }

    pub fn dim(&mut self, name: &[u8], length: u64) -> Result<(), AllocError> {
        self.lengths.push(length)?;
        self.name(name)?;
        self.count(length)
    }

    /// An attribute of the type with this code, by the bytes of its values.
    pub fn attr(&mut self, name: &[u8], code: u32, values: &[u8]) -> Result<(), AllocError> {
        self.name(name)?;
        self.word(code)?;
        self.count(values.len() as u64 / size_of(code).max(1))?;
        self.bytes.extend_from_slice(values)?;
        self.pad()
    }

    /// The name and the dimensions of a variable; its attributes come next.
    pub fn begin_var(&mut self, name: &[u8], dims: &[u64]) -> Result<(), AllocError> {
        self.name(name)?;
        self.count(dims.len() as u64)?;
        for dim in dims {
            self.count(*dim)?;
        }
        Ok(())
    }

    /// The type, the size and a place for the begin of the variable over these dimensions.
    pub fn end_var(&mut self, code: u32, dims: &[u64]) -> Result<(), AllocError> {
        let mut size = size_of(code);
        let mut has_records = false;
        for dim in dims {
            match self.lengths.get(*dim as usize) {
                Some(0) => has_records = true,
                Some(length) => size = size.wrapping_mul(*length),
                None => {}
            }
        }
        let vsize = size.wrapping_add(3) & !3;
        self.word(code)?;
        self.count(vsize)?;
        self.slots.push(Slot {
            place: self.bytes.len(),
            vsize,
            has_records,
        })?;
        if self.version != Version::V1 {
            self.word(0)?;
        }
        self.word(0)
    }

    /// Writes the begin of a variable.
    fn set_begin(&mut self, place: usize, begin: u64) {
        let place = if self.version == Version::V1 {
            place
        } else {
            place.wrapping_add(4)
        };
        if place < self.bytes.len() && self.bytes.len() - place >= 4 {
            let low = ((begin & 0xFFFF_FFFF) as u32).to_be_bytes();
            self.bytes[place..place + 4].copy_from_slice(&low);
        }
    }

    /// Places the variables of one kind from here on, and tells where they end.
    fn place_all(&mut self, has_records: bool, from: u64, descending: bool) -> u64 {
        let mut begin = from;
        let count = self.slots.len();
        for index in 0..count {
            let at = if descending { count - 1 - index } else { index };
            if let Some(slot) = self.slots.get(at) {
                let slot = *slot;
                if slot.has_records == has_records {
                    self.set_begin(slot.place, begin);
                    begin = begin.wrapping_add(slot.vsize);
                }
            }
        }
        begin
    }

    /// The header, and the length of its file: all variables are placed, one right after the other.
    pub fn finish(self, descending: bool) -> (Vec<u8>, u64) {
        let mut maker = self;
        let header = maker.bytes.len() as u64;
        let fixed = maker.place_all(false, header, descending);
        let end = maker.place_all(true, fixed, descending);
        let record = end.wrapping_sub(fixed);
        let length = fixed.wrapping_add(record.wrapping_mul(maker.records));
        let Maker {
            version: _,
            records: _,
            bytes,
            lengths: _,
            slots: _,
        } = maker;
        (bytes, length)
    }
}
