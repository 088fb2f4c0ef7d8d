//! An open file.

ghost use Rattle.std.specs.Prelude.{◌≡◌, ◌≤◌, ◌+◌, max, false, length, take, drop, IsTrue, OnOk};
ghost use Rattle.ncc_values.specs.Failures.{Counts};
ghost use Rattle.ncc_layout.specs.Placed.{records_of_file, file_length_of};
ghost use Rattle.ncc_check.specs.Checks.{StandsIn};
ghost use Rattle.ncc_check.specs.Told.{tells_header};

use crate::append_error::AppendError;
use crate::next_place::{next_record, place_of_next, put_count};
use crate::staging::add_image;
use ncc_header::laws::rewritten_count_is_begun;
use ncc_header::{Count, Schema};
use ncc_layout::Placed;
use ncc_layout::laws::{one_more_is_placed, placed_file_keeps_all_rules};
use ncc_store::{Device, Store};

/// The offset of the count field: after the magic bytes and the version.
const COUNT_AT: u64 = 4;

/// A file that passed, over the store that holds it.
#[derive(Drop)]
pub struct NcFile<S: Store> {
    store: S,
    schema: Schema,
    placed: Placed,
    must_reopen: bool,
    // A header that the bytes begin with, where they are told, has this schema, and its variables are at these places.
    ghost stands: { ∥ StandsIn (tells_header S.tells_bytes must_reopen) (S.bytes store) schema placed ∥₁ },
    ghost long: { IsTrue S.tells_bytes → file_length_of placed ≤ length (S.bytes store) },
}

impl<S: Store> NcFile<S> {
    ghost use Rattle.ncc_check.specs.Appending.{IsAppendable, TakesRecord};
    ghost use Rattle.ncc_check.specs.declared.append_error.AppendError.TheVariants as AppendError;
    ghost use Rattle.ncc_layout.specs.Placed.{record_size_of_file};
    ghost use Rattle.std.specs.Prelude.{true, Err, IfErr, OnErr};
    ghost use Rattle.ncc_check.specs.Files.{ReadsFile, store_of, schema_of, placed_of, must_reopen};
    ghost use Rattle.ncc_check.specs.Writes.{AddsRecord, CallsForRecord, CallsStore, SettlesFile};

    /// A file that passed.
    pub(crate) fn new(store: S, schema: Schema, placed: Placed) -> NcFile<S>
        requires stands { StandsIn S.tells_bytes (S.bytes store) schema placed }
        requires long { IsTrue S.tells_bytes → file_length_of placed ≤ length (S.bytes store) }
        ensures store { store_of result ≡ store }
        ensures schema { schema_of result ≡ schema }
        ensures placed { placed_of result ≡ placed }
        ensures fresh { must_reopen result ≡ false }
    {
        NcFile {
            store,
            schema,
            placed,
            must_reopen: false,
        }
    }

    /// What its header says but for the places.
    pub fn schema(&self) -> &Schema
        ensures { result.now ≡ schema_of self.now }
    {
        &self.schema
    }

    /// Its variables at their places.
    pub fn placed(&self) -> &Placed
        ensures { result.now ≡ placed_of self.now }
    {
        &self.placed
    }

    /// The number of records.
    pub fn records(&self) -> u64
        ensures { result ≡ records_of_file (placed_of self.now) }
    {
        self.placed.records()
    }

    /// Fills `out` with the bytes of the file from `place` on. It allocates nothing.
    pub fn fetch(&mut self, place: u64, out: &mut [u8]) -> Result<(), Device>
        requires { place + length out.old ≤ file_length_of (placed_of self.old) }
        ensures told { IsTrue S.tells_bytes
            → OnOk result (out.new ≡ take (length out.old) (drop place (S.bytes (store_of self.old)))) }
        ensures file { ReadsFile self.old self.new (λ a b. Counts a b result) true 1 (place + length out.old) }
    {
        self.store.read_at(place, out)
    }

    /// Whether one more record can be added. It is refused as Reopen, NoRecordVariable, NotPacked, Streaming, CountFull
    /// in this order.
    pub fn appendable(&self) -> Result<(), AppendError>
        ensures { IsAppendable (must_reopen self.now) (schema_of self.now) (placed_of self.now) result }
    {
        if self.must_reopen {
            return Err(AppendError::Reopen);
        }
        match place_of_next(&self.schema, &self.placed) {
            Ok(_) => Ok(()),
            Err(refused) => Err(refused),
        }
    }

    /// Adds a record of these bytes, in two steps, of at most three and two calls of the store: zeros for up to three
    /// bytes that are missing, the record, and a sync; then the number of records, and a sync. After a failure of the device,
    /// and after a stop at any moment, the old records stand or the new one too; then it answers Reopen for good, and
    /// reads go on as before.
    pub fn append_image(&mut self, image: &[u8]) -> Result<(), AppendError>
        requires takes { TakesRecord (schema_of self.old) (placed_of self.old) }
        requires image { length image.now ≡ record_size_of_file (placed_of self.old) }
        ensures reopen { must_reopen self.old ≡ true → (result ≡ Err AppendError.Reopen) × (self.new ≡ self.old) }
        ensures answer { must_reopen self.old ≡ false → IfErr result (λ e. e ≡ AppendError.Device) }
        ensures ended { OnErr result (must_reopen self.new ≡ true) }
        ensures adds { AddsRecord self.old self.new result image.now }
        ensures calls { CallsForRecord self.old self.new result }
    {
        placed_file_keeps_all_rules();
        one_more_is_placed();
        rewritten_count_is_begun();
        if self.must_reopen {
            return Err(AppendError::Reopen);
        }
        let next = match next_record(self.schema.version, &self.placed) {
            Some(next) => next,
            None => unreachable!(),
        };
        let width = self.schema.version.count_width();
        let mut count = [0; 8];
        put_count(self.schema.version, next.count, &mut count[..width]);
        let size = self.placed.file_length();
        match add_image(
            &mut self.store,
            size,
            next.place,
            image,
            COUNT_AT,
            &count[..width],
        ) {
            Ok(()) => {
                self.placed.one_more(next.length);
                self.schema.count = Count::Known(next.count);
                Ok(())
            }
            Err(_) => {
                self.must_reopen = true;
                Err(AppendError::Device)
            }
        }
    }

    /// Brings to the disk what isn't there yet, by one sync; the bytes stay. It is refused as Reopen where the file must
    /// be opened anew. After a failure of the device it must be.
    pub fn settle(&mut self) -> Result<(), AppendError>
        ensures reopen { must_reopen self.old ≡ true → (result ≡ Err AppendError.Reopen) × (self.new ≡ self.old) }
        ensures answer { must_reopen self.old ≡ false → IfErr result (λ e. e ≡ AppendError.Device) }
        ensures settles { SettlesFile self.old self.new result }
        ensures calls { CallsStore self.old self.new result 1 }
    {
        if self.must_reopen {
            return Err(AppendError::Reopen);
        }
        match self.store.sync() {
            Ok(()) => return Ok(()),
            Err(_) => self.must_reopen = true,
        }
        Err(AppendError::Device)
    }

    /// The store, with all that was done to it.
    pub fn into_store(self) -> S
        ensures { result ≡ store_of self }
    {
        self.store
    }
}
