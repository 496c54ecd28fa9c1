//! A run from its first piece to its end.

ghost use Rattle.std.specs.Prelude.{◌≡◌, ◌+◌, ◌≤◌, ℕ, List, [], Some, length, slice_get, IfOk};
ghost use Rattle.fm_run.specs.Orders.{chosen};
ghost use Rattle.fm_run.specs.Programs.{Follows, IsRun};
ghost use Rattle.fm_table.specs.Told.{IsEndingOf, IsIdle};

use crate::table::Table;
use fm_base::{NoMemory, Setup};
use fm_rules::Program;
use fm_run::{Ending, Run};
use std::alloc::Global;
use std::sync::Arc;

// The choice at this place, and the first one where the choices are used up.
fn choice_at(choices: &[u64], place: usize) -> u64
    ensures { (able : List ℕ) → chosen (Some result) able ≡ chosen (slice_get choices.now place) able }
{
    match choices.get(place) {
        Some(choice) => *choice,
        None => 0,
    }
}

// How a table ended in which no piece can be made.
fn ending_of(alloc: Global, table: &Table) -> Result<Ending, NoMemory>
    requires idle { IsIdle table.now }
    requires alone { table.now.out ≡ [] }
    ensures { IfOk result (λ e. IsEndingOf table.now e) }
{
    if table.is_spent() {
        return Ok(Ending::Spent);
    }
    let outcome = table.outcome(alloc)?;
    Ok(Ending::Ended(outcome))
}

// The run of a table in which no piece can be made.
fn run_of(alloc: Global, table: Table) -> Result<Run, NoMemory>
    requires idle { IsIdle table }
    requires alone { table.out ≡ [] }
    ensures run { IfOk result (λ r. IsRun table.program table.setup.turns r) }
    ensures history { IfOk result (λ r. r.history.items ≡ table.history) }
    ensures entries { IfOk result (λ r. length r.history.items ≤ table.setup.turns + 1) }
{
    table.promise();
    let ending = ending_of(alloc, &table)?;
    let (history, paths) = table.parts();
    let history = history.into_vec(alloc)?;
    Ok(Run {
        history,
        paths,
        ending,
    })
}

/// Plays a program from its first state until no process can step, or until its turns are spent. Piece `i` goes to the
/// process at place `choices[i]`, modulo their number, among those that can step, and to the first one when the choices
/// are used up. The schedule has at most one entry more than the turns.
pub fn run_table(
    alloc: Global,
    program: Arc<Program>,
    setup: Setup,
    choices: &[u64],
) -> Result<Run, NoMemory>
    ensures run { IfOk result (λ r. IsRun program.value setup.turns r) }
    ensures follows { IfOk result (λ r. Follows program.value setup.slice choices.now r.history.items) }
    ensures entries { IfOk result (λ r. length r.history.items ≤ setup.turns + 1) }
{
    let mut table = Table::new(alloc, program, setup)?;
    let mut goes_on = true;
    'pieces: while goes_on {
        let choice = choice_at(choices, table.history().len());
        goes_on = table.turn(alloc, choice)?;
    }
    run_of(alloc, table)
}

/// Plays a table on, whose pieces nobody makes outside, until no process can step or its turns are spent: each piece
/// goes to the first process that is ready.
pub fn run_on(alloc: Global, begun: Table) -> Result<Run, NoMemory>
    requires { begun.out ≡ [] }
    ensures { IfOk result (λ r. IsRun begun.program begun.setup.turns r) }
{
    let mut table = begun;
    let mut goes_on = true;
    'pieces: while goes_on {
        goes_on = table.turn(alloc, 0)?;
    }
    run_of(alloc, table)
}
