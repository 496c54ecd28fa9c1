//! The text of a run over trees.

ghost use Rattle.std.specs.Prelude.{◌≡◌, ◌≤◌, length, IfOk, IfErr};
ghost use Rattle.fm_base.specs.Verdict.{IsRefusal};
ghost use Rattle.fm_verdict.specs.Verdict.{IsBroken};
ghost use Rattle.fmc_rows.specs.TreeText.{IsTextOf, ending_text};

use fm_base::{CheckFail, NoMemory};
use fm_front::front;
use fm_plain_net::TreeNet;
use fm_report::{report, spent_text};
use fm_run::{Ending, run_program};
use std::alloc::Global;

fn ending_text(alloc: Global, ending: &Ending, turns: u64, vars: bool) -> Result<Vec<u8>, NoMemory>
    ensures { IfOk result (λ v. v.items ≡ ending_text turns vars ending.now) }
{
    match ending {
        Ending::Ended(outcome) => report(alloc, outcome, vars),
        Ending::Spent => spent_text(alloc, turns),
    }
}

/// The text that the runner over trees writes for a source: its report, or that it was spent. Refused as `fmc run`
/// refuses.
pub(crate) fn tree_text(
    alloc: Global,
    source: &[u8],
    turns: u64,
    slice: u32,
    vars: bool,
) -> Result<Vec<u8>, CheckFail>
    requires size { length source.now ≤ 1_000_000 }
    requires some { 1 ≤ slice }
    ensures text { IfOk result (λ v. IsTextOf source.now turns vars v.items) }
    ensures refused { IfErr result (IsRefusal (IsBroken source.now)) }
{
    let program = front(alloc, source)?;
    let run = run_program::<TreeNet>(alloc, &program, &[], turns, slice)?;
    let text = ending_text(alloc, &run.ending, turns, vars)?;
    Ok(text)
}
