//! Why a file can't be opened, read or written, in words.

ghost use Rattle.std.specs.Prelude.{◌<◌, ◌≤◌, length};

use ncc_lines::byte_digits;
use ncc_store::FileStore;
use std::io::{ErrorKind, Write};

/// Why the system refused something.
#[derive(Clone, Copy, Debug, PartialEq, Eq)]
pub enum Reason {
    Missing,
    /// A part of the path before its last is a file.
    NoFolder,
    Folder,
    Special,
    Denied,
    Exists,
    /// The part of a new file has a name that is there already.
    PartExists,
    /// The part of a new file can't be removed.
    PartStays,
    Full,
    ReadOnly,
    /// A file would be larger than the file system, or a limit of the system, takes.
    TooLarge,
    /// A short piece was written in part.
    Part,
    /// A file ended before the length that the system gave for it.
    Short,
    /// Links lead to one another, or through too many.
    Loop,
    /// A name is longer than the system takes.
    LongName,
    /// Another program has the lock of a file that is to be written.
    Locked,
    /// The name isn't UTF-8, which the library of the system's calls wants.
    NoText,
    /// The list of names has no NUL byte after this one.
    CutName,
    /// Nobody reads the output any more.
    Closed,
    Other,
}

/// What stands after the name of a new file in the name of its part.
pub const PART: &[u8] = b".part";

/// What failed, and why.
#[derive(Clone, Copy)]
pub struct Trouble<'a> {
    pub name: &'a [u8],
    pub reason: Reason,
}

/// The reason of an error of the system.
pub fn reason_of(kind: ErrorKind) -> Reason {
    match kind {
        ErrorKind::NotFound => Reason::Missing,
        ErrorKind::NotADirectory => Reason::NoFolder,
        ErrorKind::IsADirectory => Reason::Folder,
        ErrorKind::PermissionDenied => Reason::Denied,
        ErrorKind::AlreadyExists => Reason::Exists,
        ErrorKind::StorageFull => Reason::Full,
        ErrorKind::QuotaExceeded => Reason::Full,
        ErrorKind::ReadOnlyFilesystem => Reason::ReadOnly,
        ErrorKind::FileTooLarge => Reason::TooLarge,
        ErrorKind::WriteZero => Reason::Part,
        ErrorKind::UnexpectedEof => Reason::Short,
        ErrorKind::FilesystemLoop => Reason::Loop,
        ErrorKind::InvalidFilename => Reason::LongName,
        ErrorKind::BrokenPipe => Reason::Closed,
        _ => Reason::Other,
    }
}

/// Why a call of a file failed last.
pub fn reason_in(store: &FileStore) -> Reason {
    match store.fault() {
        Some(kind) => reason_of(kind),
        None => Reason::Other,
    }
}

/// A reason in words.
fn words(reason: Reason) -> &'static str {
    match reason {
        Reason::Missing => "no such file or folder",
        Reason::NoFolder => "a file stands in the path where a folder should",
        Reason::Folder => "is a folder",
        Reason::Special => "is a pipe or device, not a file",
        Reason::Denied => "permission denied",
        Reason::Exists | Reason::PartExists => "exists already",
        Reason::PartStays => "can't be removed",
        Reason::Full => "no space left",
        Reason::ReadOnly => "read-only file system",
        Reason::TooLarge => "would be too large a file",
        Reason::Part => "written only in part: no space left, or a limit was reached",
        Reason::Short => "ends before its length",
        Reason::Loop => "too many symbolic links",
        Reason::LongName => "the name is too long",
        Reason::Locked => "is being written",
        Reason::NoText => "the name isn't UTF-8",
        Reason::CutName => "no NUL byte stands after this name in the list",
        Reason::Closed => "nobody reads it",
        Reason::Other => "can't be read or written",
    }
}

/// How many bytes of a name are shown where it is told why something failed.
const SHOWN: usize = 200;

/// A place in a name, or the one before where a character of UTF-8 goes on there.
fn before_middle(name: &[u8], place: usize) -> usize
    requires { place < length name.now }
    ensures { result ≤ place }
{
    if place > 0 && name[place] & 0xc0 == 0x80 {
        place - 1
    } else {
        place
    }
}

/// A name without its end, where it is long. No character of UTF-8 is cut in two.
fn front_of(name: &[u8]) -> &[u8] {
    if name.len() <= SHOWN {
        return name;
    }
    let end = before_middle(name, before_middle(name, before_middle(name, SHOWN)));
    name.split_at(end).0
}

/// Whether a byte of a name is shown by its number: one that moves a terminal's cursor, or the backslash of such a number.
fn is_escaped(byte: u8) -> bool {
    byte < b' ' || byte == 0x7f || byte == b'\\'
}

/// Writes what a name begins with, up to the first byte that is escaped and with that, and gives the rest.
fn tell_run<'a, E: Write>(name: &'a [u8], err: &mut E) -> &'a [u8] {
    let end = name.iter().position(|byte| is_escaped(*byte));
    let (plain, after) = name.split_at(end.unwrap_or(name.len()));
    let _ = err.write_all(plain);
    match after.split_first() {
        Some((escaped, rest)) => {
            let _ = err.write_all(b"\\x");
            let _ = err.write_all(&byte_digits(*escaped));
            rest
        }
        None => after,
    }
}

/// Writes a name or a word onto one line, as far as that can be written: of a long one its front alone.
pub fn tell_name<E: Write>(name: &[u8], err: &mut E) {
    let front = front_of(name);
    let mut rest = front;
    for _ in front {
        if rest.is_empty() {
            break;
        }
        rest = tell_run(rest, err);
    }
    if front.len() < name.len() {
        let _ = err.write_all(b"...");
    }
}

/// Says on `err` why something failed, as far as that can be written.
pub fn tell_trouble<E: Write>(trouble: Trouble<'_>, err: &mut E) {
    let _ = err.write_all(b"ncc: ");
    tell_name(trouble.name, err);
    if matches!(trouble.reason, Reason::PartExists | Reason::PartStays) {
        let _ = err.write_all(PART);
    }
    let _ = err.write_all(b": ");
    let _ = err.write_all(words(trouble.reason).as_bytes());
    let _ = err.write_all(b"\n");
}
