//! Programs, as a kind of source of what runs as stack code.

ghost use Rattle.fm_proc_simulation.specs.Corresponds.{Corresponds, IsLive};
ghost use Rattle.fm_run.specs.Programs.{play_of};
ghost use Rattle.fm_table.specs.Coded.{program_coded};

use fm_base::NoMemory;
use fm_mean::Outcome;
use fm_proc_simulation::{outcome, program_stacks};
use fm_procs::CodeProcs;
use fm_rules::Program;
use fm_run_code::{CodeNet, Coded};
use std::alloc::Global;

/// Programs.
#[derive(Drop)]
pub(crate) struct Programs;

/// The processes and channels of a program's code, and the pieces that they made.
pub(crate) type Compiled = CodeNet<Programs>;

impl Coded for Programs {
    type Source = Program;

    ghost play = { play_of };

    ghost Corresponds = { Corresponds };

    ghost IsLive = { IsLive };

    ghost is_coded = { program_coded };

    fn first_stacks(alloc: Global, source: &Program) -> Result<CodeProcs, NoMemory> {
        program_stacks(alloc, source)
    }

    fn outcome(
        alloc: Global,
        source: &Program,
        stacks: &CodeProcs,
        used: u64,
    ) -> Result<Outcome, NoMemory> {
        outcome(alloc, stacks, source, used)
    }
}
