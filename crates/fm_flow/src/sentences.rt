//! The least line of statements that may deadlock.

ghost use Rattle.std.specs.Prelude.{◌≡◌, false, OnOk, IfOk};
ghost use Rattle.fm_plain_frame.specs.Units.{unit_of};
ghost use Rattle.fm_flow_law.specs.Flow.{channel_ports, given, is_once, is_processes, is_simple, started};
ghost use Rattle.fm_flow.specs.Marks.{marked};
ghost use Rattle.fm_flow.specs.Units.{is_risky_unit};
ghost use Rattle.fm_flow.specs.Walks.{foreign_from, is_foreign_at, is_risky_at, is_shared_at, risky_from, sent_from, shared_from};

use crate::marks::{all_flags, any_flag, comes_again, mark_all};
use crate::ports::{channel_out, channel_ports, given};
use fm_base::{Line, NoMemory};
use fm_call_graph::{flag_at, lower_if};
use fm_plain_frame::{UnitView, unit_named};
use fm_tree::{Entry, Simple, Stmt};
use std::alloc::Global;

#[tactic(auto, unfolding(fm_flow_law::specs::Flow::is_simple))]
fn is_simple(stmt: &Stmt) -> bool
    ensures { result ≡ is_simple stmt.now }
{
    match stmt {
        Stmt::Simple(Simple::Assignment(_, _)) => true,
        Stmt::Simple(Simple::Print(_)) => true,
        Stmt::Simple(Simple::Write(_, _)) => true,
        Stmt::Simple(Simple::Continue) => true,
        Stmt::Simple(Simple::Channel { .. }) => true,
        Stmt::Simple(Simple::Stop) => true,
        Stmt::Processes => true,
        Stmt::ProcessCall(_, _) => true,
        Stmt::EndProcesses => true,
        Stmt::End => true,
        _ => false,
    }
}

#[tactic(auto, unfolding(fm_flow_law::specs::Flow::is_processes))]
fn is_processes(stmt: &Stmt) -> bool
    ensures { result ≡ is_processes stmt.now }
{
    match stmt {
        Stmt::Processes => true,
        _ => false,
    }
}

#[tactic(auto, unfolding(fm_flow_law::specs::Flow::is_once))]
fn is_once(stmt: &Stmt) -> bool
    ensures { result ≡ is_once stmt.now }
{
    match stmt {
        Stmt::Processes => true,
        Stmt::Simple(Simple::Channel { .. }) => true,
        _ => false,
    }
}

fn is_foreign_at(met: bool, stmt: &Stmt) -> bool
    ensures { result ≡ is_foreign_at met stmt.now }
{
    !is_simple(stmt) || is_once(stmt) && met
}

/// The least line of a statement that isn't allowed, or one that is known.
pub(crate) fn foreign_from(best: Option<Line>, body: &[Entry]) -> Option<Line>
    ensures { result ≡ foreign_from false best body.now }
{
    let mut best = best;
    let mut met = false;
    'entries: for entry in body {
        best = lower_if(is_foreign_at(met, &entry.stmt), best, entry.line);
        met = met || is_processes(&entry.stmt);
    }
    best
}

fn mark_given(
    alloc: Global,
    unit: &UnitView<'_>,
    stmt: &Stmt,
    met: &mut Vec<bool>,
) -> Result<(), NoMemory>
    ensures { OnOk result (met.new.items ≡ marked met.old.items (given (unit_of unit.now) stmt.now)) }
{
    let ports = given(alloc, unit, stmt)?;
    mark_all(met, ports.as_slice());
    Ok(())
}

/// Sets the flags of the variables that the calls give.
pub(crate) fn mark_sent(
    alloc: Global,
    unit: &UnitView<'_>,
    body: &[Entry],
    met: &mut Vec<bool>,
) -> Result<(), NoMemory>
    ensures { OnOk result (met.new.items ≡ sent_from (unit_of unit.now) met.old.items body.now) }
{
    'entries: for entry in body {
        mark_given(alloc, unit, &entry.stmt, met)?;
    }
    Ok(())
}

fn is_shared_at(
    alloc: Global,
    unit: &UnitView<'_>,
    sent: &[bool],
    met: &[bool],
    stmt: &Stmt,
) -> Result<bool, NoMemory>
    ensures { IfOk result (λ shared. shared ≡ is_shared_at (unit_of unit.now) sent.now met.now stmt.now) }
{
    let ports = channel_ports(alloc, unit, stmt)?;
    let outs = channel_out(alloc, unit, stmt)?;
    Ok(any_flag(met, ports.as_slice()) || !all_flags(sent, outs.as_slice()))
}

fn meet_channel(
    alloc: Global,
    unit: &UnitView<'_>,
    sent: &[bool],
    stmt: &Stmt,
    met: &mut Vec<bool>,
) -> Result<bool, NoMemory>
    ensures shared { IfOk result (λ shared. shared ≡ is_shared_at (unit_of unit.now) sent.now met.old.items stmt.now) }
    ensures met { OnOk result (met.new.items ≡ marked met.old.items (channel_ports (unit_of unit.now) stmt.now)) }
{
    let shared = is_shared_at(alloc, unit, sent, met, stmt)?;
    let ports = channel_ports(alloc, unit, stmt)?;
    mark_all(met, ports.as_slice());
    Ok(shared)
}

/// The least line of a CHANNEL whose port another CHANNEL has too or whose outport goes to no process, or one that is
/// known.
pub(crate) fn shared_from(
    alloc: Global,
    unit: &UnitView<'_>,
    sent: &[bool],
    met: Vec<bool>,
    best: Option<Line>,
    body: &[Entry],
) -> Result<Option<Line>, NoMemory>
    ensures { IfOk result (λ line. line ≡ shared_from (unit_of unit.now) sent.now met.items best body.now) }
{
    let mut best = best;
    let mut met = met;
    'entries: for entry in body {
        let shared = meet_channel(alloc, unit, sent, &entry.stmt, &mut met)?;
        best = lower_if(shared, best, entry.line);
    }
    Ok(best)
}

#[tactic(auto, unfolding(fm_flow_law::specs::Flow::started))]
fn starts_risky(unit: &UnitView<'_>, risks: &[bool], stmt: &Stmt) -> bool
    ensures { result ≡ is_risky_unit risks.now (started unit.now.program.now stmt.now) }
{
    match stmt {
        Stmt::ProcessCall(name, _) => match unit_named(unit.program(), name) {
            None => false,
            Some((number, _)) => flag_at(risks, number as usize),
        },
        _ => false,
    }
}

fn meet_call(
    alloc: Global,
    unit: &UnitView<'_>,
    risks: &[bool],
    stmt: &Stmt,
    met: &mut Vec<bool>,
) -> Result<bool, NoMemory>
    ensures risky { IfOk result
        (λ risky. risky ≡ is_risky_at unit.now.program.now (unit_of unit.now) risks.now met.old.items stmt.now) }
    ensures met { OnOk result (met.new.items ≡ marked met.old.items (given (unit_of unit.now) stmt.now)) }
{
    let ports = given(alloc, unit, stmt)?;
    let again = comes_again(met, ports.as_slice());
    Ok(again || starts_risky(unit, risks, stmt))
}

/// The least line of a call that gives a port again or whose process keeps an outport or makes channels or processes,
/// or one that is known.
pub(crate) fn risky_from(
    alloc: Global,
    unit: &UnitView<'_>,
    risks: &[bool],
    met: Vec<bool>,
    best: Option<Line>,
    body: &[Entry],
) -> Result<Option<Line>, NoMemory>
    ensures { IfOk result
        (λ line. line ≡ risky_from unit.now.program.now (unit_of unit.now) risks.now met.items best body.now) }
{
    let mut best = best;
    let mut met = met;
    'entries: for entry in body {
        let risky = meet_call(alloc, unit, risks, &entry.stmt, &mut met)?;
        best = lower_if(risky, best, entry.line);
    }
    Ok(best)
}
