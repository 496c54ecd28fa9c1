//! Runs of the program of a source: under the caller's choices, and as workers play it.

ghost use Rattle.std.specs.Prelude.{◌≡◌, ◌≤◌, [], length, IfOk, IfErr, true};
ghost use Rattle.fm_base.specs.Verdict.{IsRefusal};
ghost use Rattle.fm_verdict.specs.Verdict.{IsBroken};
ghost use Rattle.fm_run.specs.Programs.{IsRun};
ghost use Rattle.fmc.specs.Outcomes.{source_limit};
ghost use Rattle.fmc.specs.Reply.{IsFairlySpent, IsRunBy, IsRunOf, IsTableOf, is_spent_by};

use fm_base::{CheckFail, NoMemory, Setup};
use fm_front::front;
use fm_rules::Program;
use fm_run::{Ending, Run};
use fm_table::{Table, run_on, run_table};
use fm_workers::Workers;
use std::alloc::Global;
use std::sync::Arc;

// The table of a program before its first piece.
fn new_table(alloc: Global, program: &Arc<Program>, setup: Setup) -> Result<Table, NoMemory>
    ensures { IfOk result (λ t. IsTableOf program.now.value setup t) }
{
    let shared = Arc::try_clone(program)?;
    Table::new(alloc, shared, setup)
}

// Whether a table is one of this program and setup.
fn is_own(table: &Table, program: &Program, setup: &Setup) -> bool
    ensures { result ≡ true → (table.now.program ≡ program.now) × (table.now.setup ≡ setup.now) }
{
    table.same(program, setup)
}

// The table that workers gave back, if it is one of this program and setup; else a new one. Nobody is out.
fn driven<W: Workers<Table>>(
    alloc: Global,
    program: &Arc<Program>,
    setup: Setup,
    workers: &W,
) -> Result<Table, NoMemory>
    requires { W.crosses }
    ensures { IfOk result (λ t. IsTableOf program.now.value setup t) }
{
    let lent = new_table(alloc, program, setup)?;
    let Some(mut table) = workers.drive(lent, setup.workers) else {
        return new_table(alloc, program, setup);
    };
    table.recall();
    if is_own(&table, program, &setup) {
        return Ok(table);
    }
    new_table(alloc, program, setup)
}

fn is_spent(ending: &Ending) -> bool
    ensures { result ≡ is_spent_by ending.now }
{
    match ending {
        Ending::Ended(_) => false,
        Ending::Spent => true,
    }
}

// Whether a run may be told: it ended, or its program is deterministic, so that no schedule ends within the turns.
fn may_be_told(program: &Program, played: &Run) -> bool
    ensures { result ≡ true → IsFairlySpent program.now played.now }
{
    if is_spent(&played.ending) {
        program.deterministic()
    } else {
        true
    }
}

/// The run of a program that workers play, which goes on by turns where they stop. Where it is spent and the program
/// isn't deterministic, it is given up, and the program is played from its first state by turns alone: so its schedule
/// is fair.
fn run_by_workers<W: Workers<Table>>(
    alloc: Global,
    program: Arc<Program>,
    setup: Setup,
    workers: &W,
) -> Result<Run, NoMemory>
    requires { W.crosses }
    ensures runs { IfOk result (λ r. IsRun program.value setup.turns r) }
    ensures fair { IfOk result (λ r. IsFairlySpent program.value r) }
{
    let table = driven(alloc, &program, setup, workers)?;
    let played = run_on(alloc, table)?;
    if may_be_told(&program, &played) {
        return Ok(played);
    }
    drop(played);
    run_table(alloc, program, setup, &[])
}

/// A run of the program of a source of these bytes that workers play. Refused by the least rule that the source breaks.
pub fn run_source<W: Workers<Table>>(
    alloc: Global,
    bytes: &[u8],
    setup: Setup,
    workers: &W,
) -> Result<Run, CheckFail>
    requires crosses { W.crosses }
    requires size { length bytes.now ≤ source_limit }
    ensures run { IfOk result (λ run. IsRunOf bytes.now setup.turns [] run) }
    ensures refused { IfErr result (IsRefusal (IsBroken bytes.now)) }
{
    let program = front(alloc, bytes)?;
    let shared = Arc::new(alloc, program)?;
    Ok(run_by_workers(alloc, shared, setup, workers)?)
}

/// A run of the program of a source of these bytes, under these choices. Refused by the least rule that the source
/// breaks.
pub fn run_chosen(
    alloc: Global,
    bytes: &[u8],
    choices: &[u64],
    setup: Setup,
) -> Result<Run, CheckFail>
    requires { length bytes.now ≤ source_limit }
    ensures run { IfOk result (λ run. IsRunBy bytes.now setup.turns setup.slice choices.now run) }
    ensures refused { IfErr result (IsRefusal (IsBroken bytes.now)) }
{
    let program = front(alloc, bytes)?;
    let shared = Arc::new(alloc, program)?;
    Ok(run_table(alloc, shared, setup, choices)?)
}
