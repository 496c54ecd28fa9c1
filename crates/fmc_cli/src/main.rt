//! The program `fmc`: reads standard input, writes one text to standard output, and ends with the
//! status of the exit.
#![tactic(auto)]

use fm_io::{StdSink, StdSource};
use fm_pool::Pool;
use fm_pool_table::Team;
use fm_workers::Plain;
use fmc::{exit_of_call, words};
use std::process::ExitCode;

fn main(rt: HostRuntime) -> ExitCode {
    let alloc = rt.alloc();
    let mut source = StdSource::new(rt.stdin());
    let mut sink = StdSink::new(rt.stdout());
    let words = words(&rt);
    let gate = Plain;
    let team = Team {
        pool: Pool { gate, rt, alloc },
    };
    let exit = exit_of_call(alloc, words, &mut source, &mut sink, &team);
    ExitCode::from(exit.status())
}
