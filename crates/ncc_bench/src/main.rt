//! Jobs that are timed: `ncc_bench JOB COUNT SEED` makes inputs of the job from the seed, has them read or written so
//! many times over, each time others, and prints a digest of all answers.
#![tactic(auto)]

mod archive;
mod conversions;
mod digest;
mod fields;
mod headers;
mod maker;
mod random;
mod rows;
mod slabs;
mod writing;

use crate::digest::Digest;
use crate::random::Random;
use anyhow::{Context, Result};
use std::alloc::Global;
use std::env;

/// Does a job.
fn run(alloc: Global, job: &str, count: u64, seed: u64) -> Result<Digest> {
    let mut random = Random::new(seed);
    let mut digest = Digest::new();
    match job {
        "archive" => archive::archive(alloc, count, &mut random, &mut digest)?,
        "headers" => headers::headers(alloc, count, &mut random, &mut digest)?,
        "rows" => rows::rows(alloc, count, &mut random, &mut digest)?,
        "slabs" => slabs::slabs(alloc, count, &mut random, &mut digest)?,
        "conversions" => conversions::conversions(alloc, count, &mut random, &mut digest)?,
        "writing" => writing::writing(alloc, count, &mut random, &mut digest)?,
        _ => anyhow::bail!("there is no such job"),
    }
    Ok(digest)
}

fn number(words: &[String], index: usize) -> Result<u64> {
    let word = words.get(index).context("JOB COUNT SEED are wanted")?;
    let number = word.as_str().parse::<u64>().ok();
    number.context("COUNT and SEED are numbers")
}

fn main(rt: HostRuntime) -> Result<()> {
    let words: Vec<String> = env::args(&rt)?.collect(rt.alloc())?;
    let job = words.get(1).context("JOB COUNT SEED are wanted")?;
    let digest = run(
        rt.alloc(),
        job.as_str(),
        number(&words, 2)?,
        number(&words, 3)?,
    )?;
    println!(rt; "{} {:016x}", job.as_str(), digest.state())?;
    Ok(())
}
