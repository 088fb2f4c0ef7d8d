//! Rows that end with a text.

ghost use Rattle.std.specs.Prelude.{◌≡◌, ◌+◌, ◌-◌, ◌<◌, [], ◌∷◌, ◌++◌, length, map, take, get_or, OnOk};
ghost use Rattle.ncc_slab.specs.Selection.{index_lists};
ghost use Rattle.ncc_csv.specs.Word.{word_text};
ghost use Rattle.ncc_csv.specs.Rows.{row_line, IsBetween, Adds, HasIndices};
ghost use Rattle.ncc_csv.specs.Texts.{without_end_nuls};
ghost use Rattle.ncc_csv.specs.TextRuns.{numbered_row};

use crate::heads::set_heads;
use crate::word::Word;
use csv::{Error, Writer};
use ncc_lines::push_text;
use ncc_slab::Slab;
use std::alloc::AllocError;
use std::io::Write;

/// A text without the NULs at its end.
fn without_end_nuls(text: &[u8]) -> &[u8]
    ensures { result.now ≡ without_end_nuls text.now }
{
    let mut end = text.len();
    while end > 0 && text[end - 1] == 0 {
        end -= 1;
    }
    text.split_at(end).0
}

/// A field of a row of indices and a text.
fn field<'a>(heads: &'a [Word], text: &'a [u8], k: usize) -> &'a [u8]
    requires { k < length heads.now + 1 }
    ensures { result.now ≡ get_or (map word_text heads.now ++ text.now ∷ []) k [] }
{
    if k < heads.len() {
        return heads[k].as_slice();
    }
    text
}

/// Adds a row of indices and a text.
fn put_text_row<W: Write + Drop>(
    w: &mut Writer<W>,
    heads: &[Word],
    text: &[u8],
) -> Result<(), Error>
    requires { IsBetween w.old }
    ensures { OnOk result (Adds W.contents w.old w.new
        (row_line (map word_text heads.now ++ text.now ∷ []))) }
{
    for k in 0..heads.len() + 1 {
        w.write_field(field(heads, text, k))?;
    }
    w.end_record()
}

/// Adds the row with this number, by its text in `shown`.
pub fn put_numbered_row<W: Write + Drop>(
    w: &mut Writer<W>,
    heads: &mut [Word],
    slab: &Slab,
    number: u64,
    text: &[u8],
    shown: &mut Vec<u8>,
) -> Result<(), AllocError>
    requires between { IsBetween w.old }
    requires ranked { length heads.old ≡ length slab.now.count - 1 }
    requires fits { HasIndices slab.now }
    requires there { number < length (index_lists (take (length heads.old) slab.now.count)) }
    ensures { OnOk result (Adds W.contents w.old w.new (row_line (numbered_row slab.now number text.now))) }
{
    set_heads(heads, slab, number);
    shown.clear();
    push_text(shown, without_end_nuls(text))?;
    match put_text_row(w, heads, shown) {
        Ok(()) => Ok(()),
        Err(_) => Err(AllocError),
    }
}
