//! What holds of the file of every dataset, each law the contract of a function that does nothing.

pub mod adding;

ghost use Rattle.std.specs.Prelude.{◌≡◌, ℕ, ◌*◌, List, [], length};
ghost use Rattle.ncc_values.specs.Numbers.{IsBytes};
ghost use Rattle.ncc_values.specs.XType.{size_of};
ghost use Rattle.ncc_schema.specs.declared.schema.Schema.{Schema};
ghost use Rattle.ncc_schema.specs.declared.schema.Var.{Var};
ghost use Rattle.ncc_build.specs.Fill.{fills};
ghost use Rattle.ncc_build.specs.File.{padding_in, padding_bytes, header_of};
ghost use Rattle.ncc_check.specs.Files.{schema_of, placed_of};
ghost use Rattle.ncc_write.specs.Records.{HasSizes};
ghost use Rattle.ncc_write.specs.Writing.{IsWhole, written};
ghost use Rattle.ncc_write.specs.Laws.{FileIsPlaced, FilePasses, FileHolds, FileLength, DatasetTold, OneDataset, CountIsRewritten};
ghost use Rattle.ncc_write.specs.Laws.{WrittenInFull, BytesAreData, CompleteWhenTaken, WrittenStays};
ghost use Rattle.ncc_write.specs.Laws.{OutIsInFiles, TakingGrows, NextIsBehind};
ghost use Rattle.ncc_write.specs.Laws.{FillingGoesOn, FillingEnds, TakingAllCompletes};

use ncc_check::NcFile;
use ncc_check::laws::open_file_stands;
use ncc_header::laws::{canonical_is_unmarked, header_is_begun, one_header};
use ncc_layout::laws::{
    standard_places_are_aligned, standard_places_are_in_turn, standard_places_keep_all_rules,
};
use ncc_schema::laws::canonical_header;
use ncc_store::Store;

/// What a writer writes for all values of a dataset is its file.
pub fn written_in_full()
    ensures { WrittenInFull }
{}

/// A dataset is told by the bytes of its values in writing order.
pub fn dataset_told()
    ensures { DatasetTold }
{}

/// As many bytes as the values of a schema have are the values of one dataset.
pub fn bytes_are_data()
    ensures { BytesAreData }
{}

/// No value comes next exactly where the bytes of all have been taken.
pub fn complete_when_taken()
    ensures { CompleteWhenTaken }
{}

/// What is written stays, whatever more is taken.
pub fn written_stays()
    ensures { WrittenStays }
{}

/// What went out of what is written is a front of the file of every dataset whose values begin with
/// what was taken.
pub fn out_is_in_files()
    ensures { OutIsInFiles }
{}

/// A writer that takes some of the elements that are left of a slab writes their bytes, and with the
/// last of them the slab's padding.
pub fn taking_grows()
    ensures { TakingGrows }
{}

/// The first slab comes first, and after a slab that is full the one after it in writing order.
pub fn next_is_behind()
    ensures { NextIsBehind }
{}

/// Filling in all that is left is filling in what is left of the next slab, and so on, until nothing
/// is left.
pub fn filling_goes_on()
    ensures onward { FillingGoesOn }
    ensures ends { FillingEnds }
{}

/// Fill values are bytes, as many as their elements have, and padding is whole ones.
pub fn fills_are_whole()
    ensures bytes { (n : ℕ) (x : Var) → IsBytes (fills n x) }
    ensures long { (n : ℕ) (x : Var) → length (fills n x) ≡ n * size_of x.xtype }
    ensures padding { (s : Schema) (x : Var) → length (padding_bytes s x) ≡ padding_in s x }
{}

/// A writer that has taken nothing has written the header.
pub fn header_is_first()
    ensures whole { (s : Schema) → IsWhole s [] }
    ensures written { (s : Schema) → written s [] ≡ header_of s }
{}

/// A file is as long as the sizes of its schema say.
pub fn file_length()
    ensures { FileLength }
{}

/// The file of a dataset holds it: the bytes of each element are those of its value.
pub fn file_holds()
    ensures { FileHolds }
{}

/// Bytes hold one dataset of a schema at most, where each variable has a place.
pub fn one_dataset()
    ensures { OneDataset }
{}

/// The file of a dataset passes the check, with its schema and the standard placement, where the version can tell all
/// sizes and begins; and without a note, where a builder gave the schema.
pub fn file_passes()
    ensures placed { FileIsPlaced }
    ensures unnoted { FilePasses }
{
    canonical_header();
    canonical_is_unmarked();
    header_is_begun();
    one_header();
    standard_places_keep_all_rules();
    standard_places_are_in_turn();
    standard_places_are_aligned();
}

/// What is written once the bytes of all values were taken, of a schema that was built, is a completed
/// file: it passes without a note, and holds what was taken.
pub fn taking_all_completes()
    ensures { TakingAllCompletes }
{
    file_passes();
}

/// Where the count field of a canonical header, after its first four bytes, is written again, the header is that of
/// the schema with that count.
pub fn count_is_rewritten()
    ensures { CountIsRewritten }
{}

/// The sizes of an open file's variables, and of a record, are those of its schema.
pub fn open_file_has_sizes<S: Store>(file: &NcFile<S>)
    ensures { HasSizes (schema_of file.now) (placed_of file.now) }
{
    open_file_stands(file);
}
