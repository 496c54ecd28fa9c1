//! The program `fmc` with threads that take turns without a lock.
#![tactic(auto)]

mod team;

use crate::team::HubTeam;
use fm_hub_pool::HubPool;
use fm_io::{StdSink, StdSource};
use fm_workers::Plain;
use fmc::{exit_of_call, words};
use std::process::ExitCode;

fn main(rt: HostRuntime) -> ExitCode {
    let alloc = rt.alloc();
    let mut source = StdSource::new(rt.stdin());
    let mut sink = StdSink::new(rt.stdout());
    let words = words(&rt);
    let gate = Plain;
    let team = HubTeam {
        pool: HubPool { gate, rt, alloc },
    };
    let exit = exit_of_call(alloc, words, &mut source, &mut sink, &team);
    ExitCode::from(exit.status())
}
