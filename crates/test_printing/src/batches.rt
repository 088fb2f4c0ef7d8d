//! What several files in one call print: in lines, in brief, as objects.

ghost use Rattle.std.specs.Prelude.{◌≤◌, ◌==◌, ◌≡◌, true, length, Some, None, IfOk, if◌then◌else◌};
ghost use Rattle.ncc_values.specs.Failures.{last_count};

use ncc_answers::{Form, Work, names_in};
use ncc_batch::{Shelf, answer_all};
use ncc_engines::Answer;
use ncc_header::{FuseSink, Seq, WriteSink};
use ncc_json::Wording;
use ncc_lines::FloatStyle;
use ncc_store::MemStore;
use ncc_values::count_failure;
use std::alloc::{AllocError, Global};
use std::test::*;
use test_files::{EMPTY, LIMIT, bytes_of};

/// A path of one byte is that of a whole file, one of two bytes of a file that is cut; there is no other.
#[derive(Drop)]
struct Two<'a> {
    alloc: Global,
    whole: Vec<u8>,
    cut: Vec<u8>,
    paths: &'a [Seq<u8>],
    last_is_whole: bool,
    told: u64,
    failures: u64,
    ghost counted: { failures ≤ last_count },
}

impl<'a> Two<'a> {
    fn new(alloc: Global, paths: &'a [Seq<u8>]) -> Result<Two<'a>, AllocError>
        ensures { IfOk result (λ t. t.paths.now ≡ paths.now) }
    {
        let whole = bytes_of(alloc, &EMPTY)?;
        let cut = whole.split_at(30.min(whole.len())).0.to_vec(alloc)?;
        Ok(Two {
            alloc,
            whole,
            cut,
            paths,
            last_is_whole: false,
            told: 0,
            failures: 0,
        })
    }
}

impl<'a> Shelf for Two<'a> {
    type File = MemStore;

    ghost tells = { true };

    ghost file = { λ s path. if length path == 1 then Some s.whole.items
        else (if length path == 2 then Some s.cut.items else None) };

    ghost left = { λ s. s.paths.now };

    ghost held = { λ s. if s.last_is_whole then s.whole.items else s.cut.items };

    ghost failures = { λ s. s.failures };

    ghost at_most_last = { λ s. s.counted };

    fn open(&mut self, path: &[u8]) -> Option<MemStore> {
        if let Some((_, rest)) = self.paths.split_first() {
            self.paths = rest;
        }
        self.last_is_whole = path.len() == 1;
        let copy = if path.len() == 1 {
            self.whole.to_vec(self.alloc)
        } else if path.len() == 2 {
            self.cut.to_vec(self.alloc)
        } else {
            Err(AllocError)
        };
        match copy {
            Ok(bytes) => Some(MemStore::new(bytes)),
            Err(_) => {
                count_failure(&mut self.failures);
                None
            }
        }
    }

    fn close(&mut self, _opened: MemStore, failed: bool) {
        if failed {
            count_failure(&mut self.failures);
        }
    }

    fn tell(&mut self, _path: &[u8], _answer: Answer) {
        self.told = self.told.saturating_add(1);
    }
}

/// What each of three files is asked, and what is printed of them.
const ROWS: [(Work, Form, Answer, &str); 7] = [
    (
        Work::Check {
            limit: LIMIT,
            strict: false,
        },
        Form::Lines,
        Answer::Device,
        "a: ok CDF-1 records 0 variables 0\nbb: fault EndsEarly at 28\nd: ok CDF-1 records 0 variables 0\n",
    ),
    (
        Work::Check {
            limit: LIMIT,
            strict: true,
        },
        Form::Brief,
        Answer::Device,
        "0\tok CDF-1 records 0 variables 0\ta\n1\tfault EndsEarly at 28\tbb\n3\terror device\tccc\n0\tok CDF-1 records 0 variables 0\td\n",
    ),
    (
        Work::List {
            limit: LIMIT,
            style: FloatStyle::Decimal,
            wording: Wording::Words,
        },
        Form::Lines,
        Answer::Device,
        "a: format CDF-1\na: records 0\nbb: fault EndsEarly at 28\nd: format CDF-1\nd: records 0\n",
    ),
    (
        Work::List {
            limit: 31,
            style: FloatStyle::Bits,
            wording: Wording::Words,
        },
        Form::Brief,
        Answer::Device,
        "1\tfault HeaderTooLong at 28\ta\n1\tfault HeaderTooLong at 28\tbb\n3\terror device\tccc\n1\tfault HeaderTooLong at 28\td\n",
    ),
    (
        Work::Layout {
            limit: LIMIT,
            wording: Wording::Words,
        },
        Form::Lines,
        Answer::Device,
        "a: file 32\na: header 0 32\na: after 0\nbb: fault EndsEarly at 28\nd: file 32\nd: header 0 32\nd: after 0\n",
    ),
    (
        Work::List {
            limit: LIMIT,
            style: FloatStyle::Bits,
            wording: Wording::Members,
        },
        Form::Object,
        Answer::Device,
        "{\"file\":\"a\",\"status\":0,\"version\":1,\"numrecs\":0,\"header_length\":32,\"dimensions\":[],\"attributes\":[],\"variables\":[]}\n{\"file\":\"bb\",\"status\":1,\"verdict\":\"fault\",\"fault\":\"EndsEarly\",\"offset\":28}\n{\"file\":\"ccc\",\"status\":3,\"verdict\":\"error\",\"error\":\"device\"}\n{\"file\":\"d\",\"status\":0,\"version\":1,\"numrecs\":0,\"header_length\":32,\"dimensions\":[],\"attributes\":[],\"variables\":[]}\n",
    ),
    (
        Work::Explain {
            limit: LIMIT,
            strict: false,
            wording: Wording::Members,
        },
        Form::Object,
        Answer::Device,
        "{\"file\":\"a\",\"status\":0,\"verdict\":\"ok\",\"version\":1,\"records\":0,\"variables\":0,\"notes\":[]}\n{\"file\":\"bb\",\"status\":1,\"verdict\":\"fault\",\"fault\":\"EndsEarly\",\"offset\":28,\"in\":\"the list of variables\",\"file_length\":30,\"rule\":\"the file ends inside the header [The Format in Detail]\"}\n{\"file\":\"ccc\",\"status\":3,\"verdict\":\"error\",\"error\":\"device\"}\n{\"file\":\"d\",\"status\":0,\"verdict\":\"ok\",\"version\":1,\"records\":0,\"variables\":0,\"notes\":[]}\n",
    ),
];

#[test]
fn several_files(rt: HostRuntime) -> Result<(), Fail> {
    let alloc = rt.alloc();
    let names = b"a\0bb\0ccc\0d".as_slice();
    let list = names_in(alloc, names)?;
    assert!(rt; list.is_cut);
    for (work, form, answer, text) in ROWS {
        let mut shelf = Two::new(alloc, list.names.as_slice())?;
        let mut sink = WriteSink::new(Vec::new(alloc));
        let found = answer_all(
            alloc,
            &mut shelf,
            list.names.as_slice(),
            work,
            form,
            &mut sink,
        );
        assert!(rt; found == Ok(answer));
        assert!(rt; sink.into_inner().as_slice() == text.as_bytes(), "{text}");
        assert_eq!(rt; shelf.told, 4);
    }
    Ok(())
}

/// An output that fails ends the run; what went out is a front of what goes out else.
#[test]
fn outputs_of_several_files_that_fail(rt: HostRuntime) -> Result<(), Fail> {
    let alloc = rt.alloc();
    let names = b"a\0bb\0ccc\0d".as_slice();
    let list = names_in(alloc, names)?;
    for (work, form, _, text) in ROWS {
        for calls in 0..8 {
            let mut shelf = Two::new(alloc, list.names.as_slice())?;
            let mut sink = FuseSink::new(WriteSink::new(Vec::new(alloc)), calls, 5);
            let found = answer_all(
                alloc,
                &mut shelf,
                list.names.as_slice(),
                work,
                form,
                &mut sink,
            );
            assert!(rt; found.is_err());
            let out = sink.into_inner().into_inner();
            assert!(rt; text.as_bytes().starts_with(&out));
        }
    }
    Ok(())
}
