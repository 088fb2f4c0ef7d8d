//! Selections as rows, by the engine of `csv`.

use crate::archive::LIMIT;
use crate::digest::Digest;
use crate::fields::{field, labels, stations};
use crate::random::{Prose, Random};
use anyhow::Result;
use ncc_csv::Pick;
use ncc_engines::csv_engine;
use ncc_header::{Seq, WriteSink};
use ncc_lines::{FloatStyle, Unshown};
use ncc_store::MemStore;
use ncc_values::Version;
use std::alloc::{AllocError, Global};

/// All of a variable.
pub fn whole() -> Pick {
    Pick {
        start: None,
        count: None,
        stride: None,
    }
}

/// Numbers, one for each dimension.
pub fn numbers(alloc: Global, numbers: [u64; 3]) -> Result<Option<Seq<u64>>, AllocError> {
    Ok(Some(Seq::from_vec(numbers.to_vec(alloc)?)))
}

/// What a file is, and the room for its rows.
#[derive(Drop)]
struct Shown {
    store: MemStore,
    text: Vec<u8>,
}

/// Digests the rows of a selection.
fn select(
    alloc: Global,
    shown: Shown,
    name: &[u8],
    pick: Pick,
    style: FloatStyle,
    digest: &mut Digest,
) -> Shown {
    let Shown { store, text } = shown;
    let mut sink = WriteSink::new(text);
    let texts = name == b"label".as_slice();
    let (store, answer) = csv_engine(
        alloc,
        store,
        LIMIT,
        name,
        pick,
        style,
        texts,
        &mut sink,
        &mut Unshown,
    );
    digest.answer(answer);
    let mut text = sink.into_inner();
    digest.bytes(&text);
    text.clear();
    Shown { store, text }
}

fn drop_shown(shown: Shown) -> Vec<u8> {
    let Shown { store: _, text } = shown;
    text
}

/// Floats over time, latitude and longitude: all, every second point, one latitude, and points over all times.
fn floats(
    alloc: Global,
    random: &mut Random,
    text: Vec<u8>,
    digest: &mut Digest,
) -> Result<Vec<u8>, AllocError> {
    let bytes = field(alloc, random, 5, [400, 30, 50])?;
    let mut shown = Shown {
        store: MemStore::new(bytes),
        text,
    };
    shown = select(alloc, shown, b"field", whole(), FloatStyle::Bits, digest);
    shown = select(alloc, shown, b"field", whole(), FloatStyle::Decimal, digest);
    for style in [FloatStyle::Bits, FloatStyle::Decimal] {
        let every_second = Pick {
            start: None,
            count: None,
            stride: numbers(alloc, [1, 1, 2])?,
        };
        shown = select(alloc, shown, b"field", every_second, style, digest);
    }
    let latitude = Pick {
        start: numbers(alloc, [0, 7, 0])?,
        count: numbers(alloc, [400, 1, 50])?,
        stride: None,
    };
    shown = select(
        alloc,
        shown,
        b"field",
        latitude,
        FloatStyle::Decimal,
        digest,
    );
    for point in 0..30 {
        let over_all_times = Pick {
            start: numbers(alloc, [0, point, random.next() % 50])?,
            count: numbers(alloc, [400, 1, 1])?,
            stride: None,
        };
        shown = select(
            alloc,
            shown,
            b"field",
            over_all_times,
            FloatStyle::Decimal,
            digest,
        );
    }
    Ok(drop_shown(shown))
}

/// Shorts and doubles, whole.
fn others(
    alloc: Global,
    random: &mut Random,
    text: Vec<u8>,
    digest: &mut Digest,
) -> Result<Vec<u8>, AllocError> {
    let mut text = text;
    for (code, style) in [(3, FloatStyle::Bits), (6, FloatStyle::Decimal)] {
        let bytes = field(alloc, random, code, [100, 30, 50])?;
        let shown = Shown {
            store: MemStore::new(bytes),
            text,
        };
        text = drop_shown(select(alloc, shown, b"field", whole(), style, digest));
    }
    Ok(text)
}

/// Record variables, each one of 31, and texts.
fn columns(
    alloc: Global,
    random: &mut Random,
    prose: &Prose,
    text: Vec<u8>,
    digest: &mut Digest,
) -> Result<Vec<u8>, AllocError> {
    let bytes = stations(alloc, random, Version::V2, 20_000, 1)?;
    let mut shown = Shown {
        store: MemStore::new(bytes),
        text,
    };
    for name in [
        b"sensor_3",
        b"sensor_9",
        b"sensor_0",
        b"sensor_7",
        b"sensor_6",
    ] {
        shown = select(alloc, shown, name, whole(), FloatStyle::Bits, digest);
    }
    let text = drop_shown(shown);
    let shown = Shown {
        store: MemStore::new(labels(alloc, random, prose, 5_000)?),
        text,
    };
    Ok(drop_shown(select(alloc, shown, b"label", whole(), FloatStyle::Bits, digest)))
}

/// So many rounds, each of other files.
pub fn rows(alloc: Global, count: u64, random: &mut Random, digest: &mut Digest) -> Result<()> {
    let prose = Prose::new(alloc, random)?;
    let mut text = Vec::new(alloc);
    for _ in 0..count {
        text = floats(alloc, random, text, digest)?;
        text = others(alloc, random, text, digest)?;
        text = columns(alloc, random, &prose, text, digest)?;
    }
    Ok(())
}
