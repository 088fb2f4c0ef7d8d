//! What is found of a file, with its header, whether it passes or not.

ghost use Rattle.std.specs.Prelude.{◌≡◌, ℕ, ◌≤◌, length, IsTrue, IfOk, IfErr, Err};
ghost use Rattle.ncc_store.specs.Reading.{ReadsOnly};
ghost use Rattle.ncc_layout.specs.Sizes.{AreSizes};
ghost use Rattle.ncc_layout.specs.Placed.{Holds, file_length_of};
ghost use Rattle.ncc_layout.specs.Extents.{record_count};
ghost use Rattle.ncc_layout.specs.Rules.{IsPlaced};
ghost use Rattle.ncc_header.specs.Answers.{Begins};
ghost use Rattle.ncc_schema.specs.Schema.{places_of};
ghost use Rattle.ncc_check.specs.declared.examining.Unsound.TheVariants as unsound;
ghost use Rattle.ncc_check.specs.Checks.{Finds, FindsRecords};
ghost use Rattle.ncc_check.specs.Examining.{IsRead, IsUnsound, KnowsSizes, RefusesLayout, UnsoundCounts, refusal_from, unread};
ghost use Rattle.ncc_check.specs.FromStore.{calls_for, IsBegun, ReadsFew};
ghost use Rattle.ncc_check.specs.Judging.{RefusedLayout};

use crate::fault::{FileFault, Refusal};
use crate::judging::{placed_of, record_count_of, sizes_of};
use crate::reading::header_of;
use ncc_header::{Fault, Header};
use ncc_layout::{LayoutFault, Placed, Sizes};
use ncc_store::{Device, Store, laws as store_laws};
use std::alloc::Global;

/// A file that passes: its header, the sizes of its variables, and the number of its records.
#[derive(Drop)]
pub struct CountedFile {
    pub header: Header,
    pub sizes: Sizes,
    pub records: u64,
}

/// A file that passes, to be opened: its variables are at their places.
#[derive(Drop)]
pub struct PlacedFile {
    pub header: Header,
    pub sizes: Sizes,
    pub placed: Placed,
}

/// A file whose layout has a fault: its header, its length, the fault, and the sizes of its variables, if none is too
/// large.
#[derive(Drop)]
pub struct Unplaced {
    pub header: Header,
    pub file_length: u64,
    pub fault: LayoutFault,
    pub sizes: Option<Sizes>,
}

/// Why a file isn't known to pass.
#[derive(Drop)]
pub enum Unsound {
    Header(Fault),
    Layout(Unplaced),
    Device,
    Memory,
}

impl From<Device> for Unsound {
    ghost from_gives = { λ _ e. e ≡ unsound.Device };

    fn from(_e: Device) -> Unsound {
        Unsound::Device
    }
}

impl From<Unsound> for Refusal {
    ghost from_gives = { λ from e. e ≡ refusal_from from };

    fn from(unsound: Unsound) -> Refusal {
        match unsound {
            Unsound::Header(fault) => Refusal::Fault(FileFault::Header(fault)),
            Unsound::Layout(found) => Refusal::Fault(FileFault::Layout(found.fault)),
            Unsound::Device => Refusal::Device,
            Unsound::Memory => Refusal::Memory,
        }
    }
}

/// Why a header isn't read.
fn unread(refusal: Refusal) -> Unsound
    ensures { result ≡ unread refusal }
{
    match refusal {
        Refusal::Fault(FileFault::Header(fault)) => Unsound::Header(fault),
        Refusal::Device => Unsound::Device,
        _ => Unsound::Memory,
    }
}

/// A file whose layout has this fault, with the sizes of its variables, if these are known.
fn unplaceable(refusal: Refusal, header: Header, file_length: u64, sizes: Option<Sizes>) -> Unsound
    requires refused { RefusedLayout header file_length refusal }
    requires sizes { KnowsSizes header refusal sizes }
    ensures { RefusesLayout header file_length result }
{
    match refusal {
        Refusal::Fault(FileFault::Layout(fault)) => Unsound::Layout(Unplaced {
            header,
            file_length,
            fault,
            sizes,
        }),
        _ => Unsound::Memory,
    }
}

/// The sizes of the variables of this header, unless one is too large.
fn with_sizes(alloc: Global, header: Header, file_length: u64) -> Result<(Header, Sizes), Unsound>
    requires { IsBegun header }
    ensures header { IfOk result (λ x. x.0 ≡ header) }
    ensures sizes { IfOk result (λ x. AreSizes header.schema x.1) }
    ensures refuses { IfErr result (RefusesLayout header file_length) }
{
    match sizes_of(alloc, &header) {
        Ok(sizes) => Ok((header, sizes)),
        Err(refusal) => Err(unplaceable(refusal, header, file_length, None)),
    }
}

/// What is found of a file of this length with this header.
fn place_header(alloc: Global, header: Header, file_length: u64) -> Result<PlacedFile, Unsound>
    requires { IsBegun header }
    ensures header { IfOk result (λ x. x.header ≡ header) }
    ensures placed { IfOk result (λ x. IsPlaced header.schema (places_of header.places) header.length file_length) }
    ensures holds { IfOk result
        (λ x. Holds header.schema (places_of header.places) header.length file_length x.placed) }
    ensures sizes { IfOk result (λ x. AreSizes header.schema x.sizes) }
    ensures refuses { IfErr result (RefusesLayout header file_length) }
{
    let (header, sizes) = with_sizes(alloc, header, file_length)?;
    match placed_of(alloc, &header, &sizes, file_length) {
        Ok(placed) => Ok(PlacedFile {
            header,
            sizes,
            placed,
        }),
        Err(refusal) => Err(unplaceable(refusal, header, file_length, Some(sizes))),
    }
}

/// What is found of a file of this length with this header, without a list of its variables at their places.
fn judge_header(alloc: Global, header: Header, file_length: u64) -> Result<CountedFile, Unsound>
    requires { IsBegun header }
    ensures header { IfOk result (λ x. x.header ≡ header) }
    ensures placed { IfOk result (λ x. IsPlaced header.schema (places_of header.places) header.length file_length) }
    ensures records { IfOk result (λ x. x.records ≡ record_count header.schema (places_of header.places) file_length) }
    ensures sizes { IfOk result (λ x. AreSizes header.schema x.sizes) }
    ensures refuses { IfErr result (RefusesLayout header file_length) }
{
    let (header, sizes) = with_sizes(alloc, header, file_length)?;
    match record_count_of(alloc, &header, &sizes, file_length) {
        Ok(records) => Ok(CountedFile {
            header,
            sizes,
            records,
        }),
        Err(refusal) => Err(unplaceable(refusal, header, file_length, Some(sizes))),
    }
}

/// The header of a file in a store, and the length of the file; or why no header was read.
fn header_and_length<S: Store>(
    alloc: Global,
    store: &mut S,
    limit: u64,
) -> Result<(Header, u64), Unsound>
    ensures begins { IsTrue S.tells_bytes
        → IfOk result (λ x. Begins (S.bytes store.old) limit x.0 × (x.1 ≡ length (S.bytes store.old))) }
    ensures begun { IfOk result (λ x. IsBegun x.0) }
    ensures refuses { IsTrue S.tells_bytes → IfErr result (IsUnsound (S.bytes store.old) limit) }
    ensures few { IsTrue S.tells_bytes → length (S.bytes store.old) ≤ 8 → result ≡ Err Unsound.Memory → ⊥ }
    ensures read { IfErr result IsRead }
    ensures store { ReadsOnly S.Store store.old store.new (λ a b. UnsoundCounts a b result) S.tells_bytes
        (calls_for (length (S.bytes store.old)) limit) limit }
    ensures settled { IsTrue S.tells_bytes → ReadsFew S.Store store.old store.new (S.bytes store.old) limit 1 }
{
    store_laws::unmoved_calls_join::<S>();
    let file_length = store.len()?;
    match header_of(alloc, store, limit, file_length) {
        Ok(header) => Ok((header, file_length)),
        Err(refusal) => Err(unread(refusal)),
    }
}

/// The header of a file in a store, and its number of records; or its first fault, with the header if that was read.
pub fn judge<S: Store>(alloc: Global, store: &mut S, limit: u64) -> Result<CountedFile, Unsound>
    ensures finds { IsTrue S.tells_bytes
        → IfOk result (λ x. FindsRecords (S.bytes store.old) limit x.header x.records) }
    ensures refuses { IsTrue S.tells_bytes → IfErr result (IsUnsound (S.bytes store.old) limit) }
    ensures few { IsTrue S.tells_bytes → length (S.bytes store.old) ≤ 8 → result ≡ Err Unsound.Memory → ⊥ }
    ensures counted { IfOk result
        (λ x. (file : ℕ) × (x.records ≡ record_count x.header.schema (places_of x.header.places) file)) }
    ensures begun { IfOk result (λ x. IsBegun x.header) }
    ensures sizes { IfOk result (λ x. AreSizes x.header.schema x.sizes) }
    ensures read { IfErr result IsRead }
    ensures store { ReadsOnly S.Store store.old store.new (λ a b. UnsoundCounts a b result) S.tells_bytes
        (calls_for (length (S.bytes store.old)) limit) limit }
    ensures settled { IsTrue S.tells_bytes → ReadsFew S.Store store.old store.new (S.bytes store.old) limit 1 }
{
    let (header, file_length) = header_and_length(alloc, store, limit)?;
    judge_header(alloc, header, file_length)
}

/// The header of a file in a store, and its variables at their places; or its first fault, with the header if that was
/// read.
pub fn examine<S: Store>(alloc: Global, store: &mut S, limit: u64) -> Result<PlacedFile, Unsound>
    ensures finds { IsTrue S.tells_bytes → IfOk result (λ x. Finds (S.bytes store.old) limit x.header x.placed) }
    ensures refuses { IsTrue S.tells_bytes → IfErr result (IsUnsound (S.bytes store.old) limit) }
    ensures few { IsTrue S.tells_bytes → length (S.bytes store.old) ≤ 8 → result ≡ Err Unsound.Memory → ⊥ }
    ensures laid { IfOk result (λ x. Holds x.header.schema (places_of x.header.places) x.header.length
        (file_length_of x.placed) x.placed) }
    ensures begun { IfOk result (λ x. IsBegun x.header) }
    ensures sizes { IfOk result (λ x. AreSizes x.header.schema x.sizes) }
    ensures read { IfErr result IsRead }
    ensures store { ReadsOnly S.Store store.old store.new (λ a b. UnsoundCounts a b result) S.tells_bytes
        (calls_for (length (S.bytes store.old)) limit) limit }
    ensures settled { IsTrue S.tells_bytes → ReadsFew S.Store store.old store.new (S.bytes store.old) limit 1 }
{
    let (header, file_length) = header_and_length(alloc, store, limit)?;
    place_header(alloc, header, file_length)
}
