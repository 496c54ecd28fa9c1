//! What a run of a program shows when it has ended.

ghost use Rattle.std.specs.Prelude.{◌≡◌, Some, [], IfOk};
ghost use Rattle.fm_finmap.specs.Rows.{place_at};
ghost use Rattle.fm_procs.specs.Kept.{AreKept};
ghost use Rattle.fm_procs.specs.Readings.{state_of};
ghost use Rattle.fm_proc_simulation.specs.Shown.{outcome_by};

use crate::variables::shown_all;
use fm_base::NoMemory;
use fm_mean::Outcome;
use fm_procs::CodeProcs;
use fm_rules::Program;
use fm_shown::{outcome_with, process_of};
use std::alloc::Global;

/// What a run shows when it has ended at this cost in turns: output, faults and waits in path order, the
/// variables of main, and who holds the open writers.
pub fn outcome(
    alloc: Global,
    stacks: &CodeProcs,
    program: &Program,
    used: u64,
) -> Result<Outcome, NoMemory>
    requires kept { AreKept stacks.now.entries }
    requires main { place_at stacks.now.entries.rows 0 ≡ Some [] }
    ensures { IfOk result (λ o. o ≡ outcome_by program.now used (state_of stacks.now)) }
{
    let variables = shown_all(alloc, program, process_of(&stacks.entries, 0))?;
    outcome_with(alloc, stacks, variables, used)
}
