//! Conversions into a target that keeps its files, and may fail.

use crate::kept::{Fault, Kept};
use ncc_engines::Answer;
use ncc_header::{FuseSink, WriteSink};
use ncc_lines::Unshown;
use ncc_making::{Entry, Target, convert_store};
use ncc_store::{FuseStore, MemStore};
use ncc_values::Version;
use std::alloc::{AllocError, Global};
use std::process::Abort;
use std::test::*;
use test_files::{FIXED, FIXED_IN_CDF_5, bytes_of};

/// What comes of converting the file of these words, where the store fails after so many calls, and the output after
/// so many: the answer, and what was printed.
fn converted(
    alloc: Global,
    target: &mut Kept,
    words: &[u32],
    version: Version,
    (calls, writes): (u64, u64),
) -> Result<(Answer, Vec<u8>), AllocError> {
    let store = FuseStore::new(MemStore::new(bytes_of(alloc, words)?), calls);
    let mut sink = FuseSink::new(WriteSink::new(Vec::new(alloc)), writes, 65_536);
    let (_, answer) = convert_store(alloc, store, 1024, version, target, &mut sink, &mut Unshown);
    Ok((answer, sink.into_inner().into_inner()))
}

/// What a conversion leaves: its answer, how many parts were made, whether the whole file is there, and what stands
/// under the names.
#[derive(Clone, Copy)]
struct Left {
    answer: Answer,
    makes: u64,
    is_there: bool,
    part: Entry,
    name: Entry,
}

const WHOLE: Left = Left {
    answer: Answer::Passed,
    makes: 1,
    is_there: true,
    part: Entry::Absent,
    name: Entry::Made,
};

/// Only the line couldn't be written.
const UNTOLD: Left = Left {
    answer: Answer::Device,
    ..WHOLE
};

const NONE: Left = Left {
    is_there: false,
    name: Entry::Absent,
    ..UNTOLD
};

const UNMADE: Left = Left { makes: 0, ..NONE };

const PART: Left = Left {
    part: Entry::Stuck,
    ..NONE
};

const NAME: Left = Left {
    name: Entry::Stuck,
    ..UNTOLD
};

/// What is printed, where that can be.
fn line_of(answer: Answer) -> &'static str {
    match answer {
        Answer::Passed => "ok CDF-5\n",
        _ => "",
    }
}

fn expect_left<R: Abort>(rt: &R, target: &Kept, left: Left, whole: &[u8]) {
    assert_eq!(rt; target.makes(), left.makes);
    assert_eq!(rt; target.named().is_some(), left.is_there);
    assert!(rt; !left.is_there || target.named() == Some(whole));
    assert_eq!(rt; target.made().part, left.part);
    assert_eq!(rt; target.made().name, left.name);
    assert!(rt; left.name != Entry::Made || target.is_settled());
}

/// A check takes two calls of the store, and the values a third; the line is one call of the output.
#[test]
fn files_that_are_made(rt: HostRuntime) -> Result<(), Fail> {
    use Fault::*;
    let whole = bytes_of(rt.alloc(), &FIXED_IN_CDF_5)?;
    for (faults, calls, left) in [
        ([Nothing, Nothing], (3, 1), WHOLE),
        ([Refusing, Nothing], (3, 1), WHOLE),
        ([Nothing, Nothing], (3, 0), UNTOLD),
        ([Nothing, Nothing], (2, 1), NONE),
        ([Nothing, Nothing], (1, 1), UNMADE),
        ([Making, Nothing], (3, 1), UNMADE),
        ([Settling, Nothing], (3, 1), NONE),
        ([Linking, Nothing], (3, 1), NONE),
        ([Refusing, Claiming], (3, 1), NONE),
        ([Refusing, Renaming], (3, 1), NONE),
        ([Refusing, Folder], (3, 1), NONE),
        ([Folder, Nothing], (3, 1), NONE),
        ([RemovingPart, Nothing], (3, 1), PART),
        ([RemovingPart, Nothing], (2, 1), PART),
        ([Folder, RemovingName], (3, 1), NAME),
    ] {
        let mut target = Kept::new(rt.alloc(), faults);
        let (found, told) = converted(rt.alloc(), &mut target, &FIXED, Version::V5, calls)?;
        assert_eq!(rt; found, left.answer);
        assert!(rt; told.as_slice() == line_of(found).as_bytes());
        expect_left(&rt, &target, left, &whole);
    }
    Ok(())
}

/// A file that has the name stays, and no value is read for it: a check takes two calls of the store.
#[test]
fn names_that_are_taken(rt: HostRuntime) -> Result<(), Fail> {
    let mut target = Kept::holding(rt.alloc(), bytes_of(rt.alloc(), &[7])?)?;
    let (found, told) = converted(rt.alloc(), &mut target, &FIXED, Version::V5, (2, 1))?;
    assert_eq!(rt; found, Answer::Device);
    assert!(rt; told.is_empty());
    assert_eq!(rt; target.makes(), 0);
    assert!(rt; target.named() == Some([0, 0, 0, 7].as_slice()));
    Ok(())
}

/// A file without a variable, of 2^31 records, which a header of CDF-1 doesn't count; and one that is cut short.
/// The line of the one is put out by one call, that of the other by 5.
#[test]
fn files_that_are_not_made(rt: HostRuntime) -> Result<(), Fail> {
    let records = [0x43444605, 0, 0x80000000, 0, 0, 0, 0, 0, 0, 0, 0, 0];
    for (words, version, writes, answer, line) in [
        (
            &records[..],
            Version::V1,
            1,
            Answer::Refused,
            "refused CountForVersion\n",
        ),
        (&records[..], Version::V1, 0, Answer::Device, ""),
        (
            &records[..2],
            Version::V5,
            5,
            Answer::Refused,
            "fault EndsEarly at 4\n",
        ),
        (&records[..2], Version::V5, 0, Answer::Device, ""),
    ] {
        let mut target = Kept::new(rt.alloc(), [Fault::Nothing, Fault::Nothing]);
        let (found, told) = converted(rt.alloc(), &mut target, words, version, (10, writes))?;
        assert_eq!(rt; found, answer);
        assert!(rt; told.as_slice() == line.as_bytes());
        assert_eq!(rt; target.makes(), 0);
        assert!(rt; target.named().is_none());
    }
    Ok(())
}
