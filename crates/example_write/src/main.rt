//! Writes a small grid, checks its file, and reads a row of it back. The words are the file and its version, 1, 2
//! or 5; without a file it stays in memory.
#![tactic(auto)]

mod grid;
mod values;

use anyhow::{Context, Result};
use ncc::{FileStore, MemStore, NcFile, Store, Values, Version, WriteSink, check, open};
use std::{env, fs};

/// The longest header that is read.
const LIMIT: u64 = 65_536;

/// Prints what a check says of a file.
fn show_report<S: Store>(rt: &(impl Print + AllocGlobal), store: &mut S) -> Result<()> {
    let report = check(rt.alloc(), store, LIMIT)?;
    println!(rt; "{} records, {} notes", report.records, report.notes.len())?;
    Ok(())
}

/// Prints a row of an open file.
fn show_row<S: Store>(rt: &(impl Print + AllocGlobal), file: &mut NcFile<S>) -> Result<()> {
    if let Values::Shorts(row) = grid::first_row(rt.alloc(), file)? {
        println!(rt; "temperature {:?}", row.as_slice())?;
    }
    Ok(())
}

/// Checks a file, opens it, and reads a row of it.
fn show<S: Store + Drop>(rt: &(impl Print + AllocGlobal), store: S) -> Result<()> {
    let mut store = store;
    show_report(rt, &mut store)?;
    let mut file = open(rt.alloc(), store, LIMIT).map_err(|(_, refusal)| refusal)?;
    show_row(rt, &mut file)
}

/// The version that a word names.
fn version_of(word: &str) -> Option<Version> {
    match word {
        "1" => Some(Version::V1),
        "2" => Some(Version::V2),
        "5" => Some(Version::V5),
        _ => None,
    }
}

fn main(rt: HostRuntime) -> Result<()> {
    let words: Vec<String> = env::args(&rt)?.collect(rt.alloc())?;
    let word = words.get(2).map_or("1", |word| word.as_str());
    let version = version_of(word).context("the versions are 1, 2 and 5")?;
    if let Some(path) = words.get(1) {
        let file = fs::create(&rt, path.as_str())?;
        grid::write(rt.alloc(), version, WriteSink::new(file))?;
        return show(&rt, FileStore::open(&rt, path.as_str(), false)?);
    }
    let sink = grid::write(rt.alloc(), version, WriteSink::new(Vec::new(rt.alloc())))?;
    show(&rt, MemStore::new(sink.into_inner()))
}
