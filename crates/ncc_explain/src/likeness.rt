//! What a file looks like that doesn't begin with the letters of a netCDF classic file.

ghost use Rattle.std.specs.Prelude.{◌≡◌, ◌++◌, OnOk};
ghost use Rattle.ncc_explain.specs.Likeness.{likeness, likeness_line, lines_like};

use crate::adding::push_words;
use std::alloc::AllocError;

/// The format whose files begin with these three bytes, as a number; empty where it is none of these.
pub fn likeness(letters: u64) -> &'static str
    ensures { result.now ≡ likeness letters }
{
    match letters {
        0x894844 => "HDF5, as a netCDF-4 file does",
        0x0e0313 => "HDF4",
        0x475249 => "GRIB",
        0x425546 => "BUFR",
        0x1f8b08 => "a file packed by gzip",
        0x425a68 => "a file packed by bzip2",
        0xfd377a => "a file packed by xz",
        0x28b52f => "a file packed by zstd",
        0x504b03 => "a zip archive",
        0x3c2144 => "a web page",
        _ => "",
    }
}

/// Adds the line of what a file looks like.
#[tactic(auto, unfolding(crate::specs::Likeness::likeness_line))]
fn push_line(out: &mut Vec<u8>, words: &str) -> Result<(), AllocError>
    ensures { OnOk result (out.new.items ≡ out.old.items ++ likeness_line words.now) }
{
    push_words(out, b"    it looks like ", words)
}

/// Adds what a file looks like that begins with these three bytes, if that is known.
pub fn push_likeness(out: &mut Vec<u8>, letters: u64) -> Result<(), AllocError>
    ensures { OnOk result (out.new.items ≡ out.old.items ++ lines_like (likeness letters)) }
{
    let words = likeness(letters);
    if words.is_empty() {
        return Ok(());
    }
    push_line(out, words)
}
