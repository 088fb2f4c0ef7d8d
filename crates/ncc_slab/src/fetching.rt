//! Fetching the elements of a selection, a stretch of adjoining ones by one call.

ghost use Rattle.std.specs.Prelude.{◌≡◌, ◌≢◌, ◌⊎◌, ◌+◌, ◌-◌, ◌*◌, ◌<◌, ◌≤◌, ◌^◌, ◌/◌, ℕ, length, take, true, min, IsTrue, IfOk, IfSome, OnOk, OnErr};
ghost use Rattle.ncc_values.specs.Failures.{Counts};
ghost use Rattle.ncc_values.specs.Values.{type_of, count_of};
ghost use Rattle.ncc_values.specs.XType.{size_of};
ghost use Rattle.ncc_layout.specs.Placed.{file_length_of};
ghost use Rattle.ncc_check.specs.Files.{ReadsFile, store_of, placed_of};
ghost use Rattle.ncc_slab.specs.Answers.{buffer_length, part_count, PartCounts};
ghost use Rattle.ncc_slab.specs.Grids.{grid_place, grid_count, grid_places, grid_rest, EndBy, IsDenseFrom, IsRun};
ghost use Rattle.ncc_slab.specs.Selected.{bytes_at_places, AddsPlaces};
ghost use Rattle.ncc_slab.specs.Stretches.{stretches, part_stretches, all_stretches};
ghost use Rattle.ncc_slab.specs.Apart.{places_apart};

use crate::fault::SlabFault;
use crate::grid::{Grid, Run};
use crate::reading::BUFFER;
use ncc_check::NcFile;
use ncc_store::{Device, Store, laws as store_laws};
use ncc_values::Values;

/// How many elements from the n-th on, at most so many, lie one after another, where those of this run do, and the run
/// after them, where they are fewer.
pub fn stretch(
    grid: &Grid,
    dense: Option<usize>,
    step: u64,
    size: u64,
    n: u64,
    run: Run,
    most: u64,
) -> (u64, Run)
    requires ends { (length : ℕ) × (length < 2 ^ 64) × EndBy length size grid.now }
    requires there { n + most ≤ grid_count grid.now }
    requires dense { IfSome dense (IsDenseFrom step grid.now) }
    requires run { IsRun step grid.now n run }
    requires within { run.count ≤ most }
    requires one { (step ≡ size) ⊎ (run.count ≡ 1) }
    ensures some { 0 < result.0 }
    ensures most { result.0 ≤ most }
    ensures adjoin { (i : ℕ) → i < result.0 → grid_place grid.now (n + i) ≡ run.place + i * size }
    ensures longest { (result.0 ≡ most) ⊎ (grid_place grid.now (n + result.0) ≢ run.place + result.0 * size) }
    ensures next { result.0 < most → IsRun step grid.now (n + result.0) result.1 }
    ensures within { result.0 < most → result.0 + result.1.count ≤ most }
{
    let mut count = run.count;
    while count < most {
        let next = grid.run(dense, n + count, most - count);
        if next.place != run.place + count * size {
            return (count, next);
        }
        if step != size && next.count > 1 {
            // The first of these adjoins, and the second doesn't.
            let place = next.place + step;
            let left = next.count - 1;
            return (count + 1, Run { place, count: left });
        }
        count += next.count;
    }
    (most, run)
}

/// Fills `out` with elements that lie at even distances, each by a call of its own.
fn fetch_apart<S: Store>(
    file: &mut NcFile<S>,
    place: u64,
    step: u64,
    size: usize,
    count: u64,
    out: &mut [u8],
) -> Result<(), Device>
    requires ends { (i : ℕ) → i < count → place + i * step + size ≤ file_length_of (placed_of file.old) }
    requires fits { file_length_of (placed_of file.old) < 2 ^ 64 }
    requires room { length out.old ≡ count * size }
    ensures told { IsTrue S.tells_bytes → OnOk result (out.new
        ≡ bytes_at_places (S.bytes (store_of file.old)) size (places_apart place step count)) }
    ensures file { ReadsFile file.old file.new (λ a b. Counts a b result) true
        count (file_length_of (placed_of file.old)) }
{
    store_laws::unmoved_calls_join::<S>();
    let mut done = 0;
    while done < count {
        let begin = done as usize * size;
        let end = (done + 1) as usize * size;
        file.fetch(place + done * step, &mut out[begin..end])?;
        done += 1;
    }
    Ok(())
}

/// Fills `out` with elements from the n-th on.
fn fetch_elements<S: Store>(
    file: &mut NcFile<S>,
    grid: &Grid,
    size: usize,
    first: u64,
    count: u64,
    out: &mut [u8],
) -> Result<(), Device>
    requires ends { EndBy (file_length_of (placed_of file.old)) size grid.now }
    requires there { first + count ≤ grid_count grid.now }
    requires room { length out.old ≡ count * size }
    ensures told { IsTrue S.tells_bytes → OnOk result (out.new
        ≡ bytes_at_places (S.bytes (store_of file.old)) size (take count (grid_rest grid.now first))) }
    ensures file { ReadsFile file.old file.new (λ a b. Counts a b result) true
        (stretches size (take count (grid_rest grid.now first)))
        (file_length_of (placed_of file.old)) }
{
    store_laws::unmoved_calls_join::<S>();
    if count == 0 {
        return Ok(());
    }
    let step = grid.step();
    let dense = grid.dense_from(step);
    let mut run = grid.run(dense, first, count);
    let mut done = 0;
    while done < count {
        if step != size as u64 && run.count > 1 {
            // Each but the last of these is followed by one that doesn't adjoin.
            let apart = run.count - 1;
            let begin = done as usize * size;
            let end = (done + apart) as usize * size;
            fetch_apart(file, run.place, step, size, apart, &mut out[begin..end])?;
            done += apart;
            run = Run {
                place: run.place + apart * step,
                count: 1,
            };
            continue;
        }
        let (more, next) = stretch(
            grid,
            dense,
            step,
            size as u64,
            first + done,
            run,
            count - done,
        );
        let begin = done as usize * size;
        let end = (done + more) as usize * size;
        file.fetch(run.place, &mut out[begin..end])?;
        done += more;
        run = next;
    }
    Ok(())
}

/// Adds the next part of the values, those of 65,536 bytes or all that are left, and tells how many. The buffer has
/// room for them. After an `Err` the values are as they were.
pub fn add_part<S: Store>(
    file: &mut NcFile<S>,
    grid: &Grid,
    first: u64,
    buffer: &mut [u8],
    values: &mut Values,
) -> Result<u64, SlabFault>
    requires ends { EndBy (file_length_of (placed_of file.old)) (size_of (type_of values.old)) grid.now }
    requires there { first ≤ grid_count grid.now }
    requires room { min (grid_count grid.now - first) (buffer_length / size_of (type_of values.old))
        * size_of (type_of values.old) ≤ length buffer.old }
    ensures took { IfOk result (λ n. n ≡ part_count (size_of (type_of values.old)) (grid_rest grid.now first)) }
    ensures told { IsTrue S.tells_bytes → IfOk result (λ n. AddsPlaces (S.bytes (store_of file.old))
        (size_of (type_of values.old)) (take n (grid_rest grid.now first)) values.old values.new) }
    ensures typed { type_of values.new ≡ type_of values.old }
    ensures counted { IfOk result (λ n. count_of values.new ≡ count_of values.old + n) }
    ensures err { OnErr result (values.new ≡ values.old) }
    ensures file { ReadsFile file.old file.new (λ a b. PartCounts a b result) true
        (part_stretches (size_of (type_of values.old)) (grid_rest grid.now first))
        (file_length_of (placed_of file.old)) }
{
    let size = values.xtype().size();
    let room = (BUFFER / size) as u64;
    let count = (grid.count() - first).min(room);
    let part = &mut buffer[..count as usize * size];
    fetch_elements(file, grid, size, first, count, part)?;
    values.push_from(part)?;
    Ok(count)
}

/// Adds all values of a selection, part by part.
#[tactic(auto, using(crate::proofs::Calls::none_read))]
pub fn add_all<S: Store>(
    file: &mut NcFile<S>,
    grid: &Grid,
    buffer: &mut [u8],
    values: &mut Values,
) -> Result<(), SlabFault>
    requires ends { EndBy (file_length_of (placed_of file.old)) (size_of (type_of values.old)) grid.now }
    requires room { min (grid_count grid.now) (buffer_length / size_of (type_of values.old))
        * size_of (type_of values.old) ≤ length buffer.old }
    ensures told { IsTrue S.tells_bytes → OnOk result (AddsPlaces (S.bytes (store_of file.old))
        (size_of (type_of values.old)) (grid_places grid.now) values.old values.new) }
    ensures typed { type_of values.new ≡ type_of values.old }
    ensures counted { OnOk result (count_of values.new ≡ count_of values.old + grid_count grid.now) }
    ensures file { ReadsFile file.old file.new (λ a b. PartCounts a b result) true
        (all_stretches (size_of (type_of values.old)) (grid_places grid.now))
        (file_length_of (placed_of file.old)) }
{
    store_laws::unmoved_calls_join::<S>();
    let mut taken = 0;
    while taken < grid.count() {
        taken += add_part(file, grid, taken, buffer, values)?;
    }
    Ok(())
}
