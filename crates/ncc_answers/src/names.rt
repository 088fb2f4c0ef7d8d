//! Lists of the names of files.

ghost use Rattle.std.specs.Prelude.{◌≡◌, ◌<◌, ◌≤◌, ◌+◌, [], ◌∷◌, length, take, drop, IsOk, IfOk};
ghost use Rattle.ncc_answers.specs.Names.{AreNames, IsName};

use ncc_values::Seq;
use std::alloc::{AllocError, Global};

/// The names of files, and whether the last of them was cut.
#[derive(Drop)]
pub struct FileNames {
    pub names: Seq<Seq<u8>>,
    pub is_cut: bool,
}

/// How many bytes stand before the first NUL byte, or in all where there is none.
fn name_length(list: &[u8]) -> usize
    ensures within { result ≤ length list.now }
    ensures name { IsName (take result list.now) }
    ensures ends { result < length list.now → drop result list.now ≡ 0 ∷ drop (result + 1) list.now }
{
    let mut i = 0;
    while i < list.len() {
        if list[i] == 0 {
            return i;
        }
        i += 1;
    }
    i
}

/// The names of a list in which each has a NUL byte after it.
pub fn names_in(alloc: Global, list: &[u8]) -> Result<FileNames, AllocError>
    ensures names { IfOk result (λ n. AreNames list.now n.names n.is_cut) }
    ensures none { list.now ≡ [] → IsOk result }
{
    let mut names = Vec::new(alloc);
    let mut rest = list;
    while !rest.is_empty() {
        let (name, after) = rest.split_at(name_length(rest));
        names.push(Seq::from_vec(name.to_vec(alloc)?))?;
        let Some((_, next)) = after.split_first() else {
            return Ok(FileNames {
                names: Seq::from_vec(names),
                is_cut: true,
            });
        };
        rest = next;
    }
    Ok(FileNames {
        names: Seq::from_vec(names),
        is_cut: false,
    })
}
