//! Files of a few variables in CDF-5, as tables of numbers.

use ncc_check::{NcFile, open};
use ncc_store::{FuseStore, MemStore, Store};
use std::alloc::{AllocError, Global};

/// The greatest length of a header here.
const LIMIT: u64 = 1 << 20;

/// The calls that a store passes before it fails.
const MANY: u64 = 1_000_000;

/// A name of one letter, with its padding.
const NAME: [u8; 12] = [0, 0, 0, 0, 0, 0, 0, 1, b'v', 0, 0, 0];

/// A variable: its dimensions by their numbers, the code of its type, and how far after the header it begins.
pub type Var = (&'static [u64], u32, u64);

/// A file of a few variables.
#[derive(Clone, Copy)]
pub struct File {
    pub records: u64,
    /// The lengths of the dimensions: 0 is that of the records.
    pub lengths: &'static [u64],
    pub vars: &'static [Var],
    pub data: &'static [u8],
    /// So many bytes after the data tell their places.
    pub places: u64,
}

/// A piece of a header.
#[derive(Clone, Copy)]
enum Piece {
    Name,
    Word(u32),
    Long(u64),
}

use Piece::{Long, Name, Word};

fn put(bytes: &mut Vec<u8>, piece: Piece) -> Result<(), AllocError> {
    match piece {
        Name => bytes.extend_from_slice(&NAME),
        Word(number) => bytes.extend_from_slice(&number.to_be_bytes()),
        Long(number) => bytes.extend_from_slice(&number.to_be_bytes()),
    }
}

fn put_all(bytes: &mut Vec<u8>, pieces: &[Piece]) -> Result<(), AllocError> {
    for piece in pieces {
        put(bytes, *piece)?;
    }
    Ok(())
}

fn put_dims(bytes: &mut Vec<u8>, lengths: &[u64]) -> Result<(), AllocError> {
    put_all(bytes, &[Word(10), Long(lengths.len() as u64)])?;
    for length in lengths {
        put_all(bytes, &[Name, Long(*length)])?;
    }
    Ok(())
}

/// Adds a variable to a header of this length.
fn put_var(bytes: &mut Vec<u8>, header: u64, var: Var) -> Result<(), AllocError> {
    let (dims, code, behind) = var;
    put_all(bytes, &[Name, Long(dims.len() as u64)])?;
    for dim in dims {
        put(bytes, Long(*dim))?;
    }
    let begin = header.wrapping_add(behind);
    put_all(bytes, &[Word(0), Long(0), Word(code), Long(0), Long(begin)])
}

/// The length in bytes of a header.
pub fn header_length(lengths: &[u64], vars: &[Var]) -> u64 {
    let mut length = (lengths.len() as u64).wrapping_mul(20).wrapping_add(48);
    for var in vars {
        let rank = var.0.len() as u64;
        length = length.wrapping_add(rank.wrapping_mul(8)).wrapping_add(52);
    }
    length
}

/// Adds a header.
pub fn put_header(
    bytes: &mut Vec<u8>,
    records: u64,
    lengths: &[u64],
    vars: &[Var],
) -> Result<(), AllocError> {
    put_all(bytes, &[Word(0x4344_4605), Long(records)])?;
    put_dims(bytes, lengths)?;
    put_all(
        bytes,
        &[Word(0), Long(0), Word(11), Long(vars.len() as u64)],
    )?;
    let length = header_length(lengths, vars);
    for var in vars {
        put_var(bytes, length, *var)?;
    }
    Ok(())
}

/// Adds bytes that tell their places: modulo 251, with the two lowest bits turned.
pub fn put_places(bytes: &mut Vec<u8>, count: u64) -> Result<(), AllocError> {
    for _ in 0..count {
        let place = bytes.len();
        bytes.push((place % 251) as u8 ^ 3)?;
    }
    Ok(())
}

fn put_file(bytes: &mut Vec<u8>, file: &File) -> Result<(), AllocError> {
    put_header(bytes, file.records, file.lengths, file.vars)?;
    bytes.extend_from_slice(file.data)?;
    put_places(bytes, file.places)
}

/// The bytes of a file.
pub fn bytes_of(alloc: Global, file: &File) -> Result<Vec<u8>, AllocError> {
    let mut bytes = Vec::new(alloc);
    put_file(&mut bytes, file)?;
    Ok(bytes)
}

/// The file that a store holds.
fn file_over<S: Store + Drop>(alloc: Global, store: S) -> Result<NcFile<S>, AllocError> {
    match open(alloc, store, LIMIT) {
        Ok(file) => Ok(file),
        Err(_) => Err(AllocError),
    }
}

/// The open file of these bytes.
pub fn opened(alloc: Global, bytes: Vec<u8>) -> Result<NcFile<MemStore>, AllocError> {
    file_over(alloc, MemStore::new(bytes))
}

/// The open file of a table.
pub fn open_file(alloc: Global, file: &File) -> Result<NcFile<MemStore>, AllocError> {
    opened(alloc, bytes_of(alloc, file)?)
}

/// The open file of these bytes, over a store that passes so many calls of reading. To open a file takes two.
pub fn fused(
    alloc: Global,
    bytes: Vec<u8>,
    calls: u64,
) -> Result<NcFile<FuseStore<MemStore>>, AllocError> {
    let store = FuseStore::new(MemStore::new(bytes), calls.wrapping_add(2));
    file_over(alloc, store)
}

/// The same over a store that counts the calls.
pub fn counted(alloc: Global, bytes: Vec<u8>) -> Result<NcFile<FuseStore<MemStore>>, AllocError> {
    fused(alloc, bytes, MANY)
}

/// The calls of reading that a store counted.
pub fn calls_of(file: NcFile<FuseStore<MemStore>>) -> u64 {
    MANY.wrapping_sub(file.into_store().left())
}
