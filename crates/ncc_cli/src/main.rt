//! `ncc`: checks, lists, reads, extends and converts netCDF classic files.
#![tactic(auto)]

use ncc_engines::Answer;
use ncc_run::{Terminals, finish, run};
use ncc_tasks::read_words;
use std::io::IsTerminal;
use std::process::ExitCode;

fn main(rt: HostRuntime) -> ExitCode {
    let Ok(line) = read_words(&rt, rt.alloc()) else {
        return ExitCode::from(finish(Answer::Memory, &mut rt.stderr()));
    };
    let terminals = Terminals {
        out: rt.stdout().is_terminal(),
        err: rt.stderr().is_terminal(),
    };
    let status = run(
        &rt,
        &line,
        &mut rt.stdin(),
        &mut rt.stdout(),
        &mut rt.stderr(),
        terminals,
    );
    ExitCode::from(status)
}
