//! The whole text of a run.

ghost use Rattle.std.specs.Prelude.{◌≡◌, ◌++◌, Bool, IfOk, OnOk, map};
ghost use Rattle.std.specs.List.{flat_map};
ghost use Rattle.fm_net.specs.Machine.{State};
ghost use Rattle.fm_rules.specs.declared.program.Program.{Program};
ghost use Rattle.fm_mean.specs.Process.{Proc};
ghost use Rattle.fm_mean.specs.Telling.{TellsEach};
ghost use Rattle.fm_mean.specs.declared.outcome.Outcome as shown;
ghost use Rattle.fm_report.specs.Lines.{NamesEach};
ghost use Rattle.fm_report.specs.Report.{report_text, spent_text, wait_line};
ghost use Rattle.fm_wait.specs.Waits.{waits_for};

use crate::line::{push_turns, push_wait};
use crate::several::push_each;
use fm_base::{NoMemory, Path, Seq};
use fm_mean::{FaultAt, Outcome, OutputLine, ShownVariable};
use fm_wait::waits;
use std::alloc::Global;

/// Puts the lines of the waits last.
fn push_waits(
    alloc: Global,
    out: &mut Vec<u8>,
    outcome: &Outcome,
    on: &[Option<Path>],
) -> Result<(), NoMemory>
    requires { on.now ≡ map (waits_for outcome.now) outcome.now.waits }
    ensures { OnOk result
        (out.new.items ≡ out.old.items ++ flat_map (λ w. wait_line w (waits_for outcome.now w)) outcome.now.waits) }
{
    let waits = outcome.waits.as_slice();
    'waits: for k in 0..waits.len() {
        push_wait(alloc, out, &waits[k], &on[k])?;
    }
    Ok(())
}

/// The report of a run: the lines of output; where `vars` asks for them, the variables of main;
/// the faults; the waits, each with whom it is for; the cycles; and, with the variables, the cost in
/// turns. In proportion to the report and the outcome, but for the look-ups of `waits`.
pub fn report(alloc: Global, outcome: &Outcome, vars: bool) -> Result<Vec<u8>, NoMemory>
    ensures { IfOk result (λ v. v.items ≡ report_text vars outcome.now) }
{
    let found = waits(alloc, outcome)?;
    let mut out = Vec::new(alloc);
    push_each::<OutputLine>(alloc, &mut out, outcome.lines.as_slice())?;
    if vars {
        push_each::<ShownVariable>(alloc, &mut out, outcome.variables.as_slice())?;
    }
    push_each::<FaultAt>(alloc, &mut out, outcome.faults.as_slice())?;
    push_waits(alloc, &mut out, outcome, found.on.as_slice())?;
    push_each::<Seq<Path>>(alloc, &mut out, found.cycles.as_slice())?;
    if vars {
        push_turns(alloc, &mut out, outcome.used)?;
    }
    Ok(out)
}

/// Where an outcome tells of each process of a state that hasn't ended, its report has a line for each of them.
pub fn reports_name_each()
    ensures { (p : Program) (s : State Proc) (o : shown.Outcome) (vars : Bool)
        → TellsEach p s o → NamesEach p s o (report_text vars o) }
{}

/// The text of a run that was spent.
pub fn spent_text(alloc: Global, turns: u64) -> Result<Vec<u8>, NoMemory>
    ensures { IfOk result (λ v. v.items ≡ spent_text turns) }
{
    let mut text = Vec::from_slice(alloc, b"spent ")?;
    text.extend_from_slice(turns.to_string(alloc)?.as_bytes())?;
    text.push(b'\n')?;
    Ok(text)
}
