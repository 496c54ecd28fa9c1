//! Which units keep an outport, or make channels or processes.

ghost use Rattle.std.specs.Prelude.{◌≡◌, ◌++◌, ◌&&◌, [], not, map, slice_index_or, OnOk, IfOk};
ghost use Rattle.fm_mean.specs.Calls.{is_formal};
ghost use Rattle.fm_flow_law.specs.Flow.{is_making, is_outport, keeps_outport};
ghost use Rattle.fm_flow.specs.Units.{any_making, arcs_from, call_arc, is_risky, making_arcs, risks_from, TellsRisks, unit_arcs};

use crate::arcs::{graph_by, is_together, node};
use crate::ports::is_outport;
use fm_base::{NoMemory, Seq};
use fm_call_graph::all_calls;
use fm_graph::components;
use fm_rules::{Call, Program};
use fm_symbols::{UnitNames, Variable};
use fm_tree::{Entry, Simple, Stmt, Unit};
use std::alloc::Global;

#[tactic(auto, unfolding(fm_flow_law::specs::Flow::is_making))]
fn is_making(stmt: &Stmt) -> bool
    ensures { result ≡ is_making stmt.now }
{
    match stmt {
        Stmt::Simple(Simple::Channel { .. }) => true,
        Stmt::Simple(Simple::Merger(_, _)) => true,
        Stmt::Processes => true,
        Stmt::ProcessCall(_, _) => true,
        Stmt::ProcessDo(_) => true,
        _ => false,
    }
}

fn any_making(body: &[Entry]) -> bool
    ensures { result ≡ any_making body.now }
{
    'entries: for entry in body {
        if is_making(&entry.stmt) {
            return true;
        }
    }
    false
}

fn is_kept(variable: &Variable) -> bool
    ensures { result ≡ (is_outport variable.now.kind && is_formal variable.now.formal && not variable.now.input) }
{
    is_outport(&variable.kind) && variable.formal != 0 && !variable.input
}

fn keeps_outport(variables: &[Variable]) -> bool
    ensures { result ≡ keeps_outport variables.now }
{
    'variables: for variable in variables {
        if is_kept(variable) {
            return true;
        }
    }
    false
}

fn add_making(node: usize, makes: bool, arcs: &mut Seq<(usize, usize)>) -> Result<(), NoMemory>
    ensures { OnOk result (arcs.new ≡ arcs.old ++ making_arcs node makes) }
{
    arcs.push((0, node))?;
    if makes {
        arcs.push((node, 0))?;
    }
    Ok(())
}

fn add_calls(from: usize, calls: &[Call], arcs: &mut Seq<(usize, usize)>) -> Result<(), NoMemory>
    ensures { OnOk result (arcs.new ≡ arcs.old ++ map (call_arc from) calls.now) }
{
    'calls: for call in calls {
        arcs.push((from, node(call.target, 1)?))?;
    }
    Ok(())
}

fn add_unit(
    from: usize,
    unit: &Unit,
    calls: &[Call],
    arcs: &mut Seq<(usize, usize)>,
) -> Result<(), NoMemory>
    ensures { OnOk result (arcs.new ≡ arcs.old ++ unit_arcs from unit.now calls.now) }
{
    add_making(from, any_making(unit.body.as_slice()), arcs)?;
    add_calls(from, calls, arcs)
}

fn calls_at(calls: &[Seq<Call>], number: usize) -> &[Call]
    ensures { result.now ≡ slice_index_or calls.now number [] }
{
    match calls.get(number) {
        None => &[],
        Some(calls) => calls.as_slice(),
    }
}

fn unit_arcs(
    alloc: Global,
    units: &[Unit],
    calls: &[Seq<Call>],
) -> Result<Seq<(usize, usize)>, NoMemory>
    ensures { IfOk result (λ arcs. arcs ≡ arcs_from calls.now 0 units.now) }
{
    let mut arcs = Seq::new(alloc);
    'units: for number in 0..units.len() {
        let calls = calls_at(calls, number);
        add_unit(node(number, 1)?, &units[number], calls, &mut arcs)?;
    }
    Ok(arcs)
}

/// Whether a unit has an outport that it may keep, or it or a unit that it reaches makes channels or processes.
fn is_risky(names: &[usize], number: usize, unit: &UnitNames) -> Result<bool, NoMemory>
    ensures { IfOk result (λ risky. risky ≡ is_risky names.now number unit.now) }
{
    let node = node(number, 1)?;
    Ok(keeps_outport(unit.variables.as_slice()) || is_together(names, 0, node))
}

fn risks_from(alloc: Global, names: &[usize], units: &[UnitNames]) -> Result<Seq<bool>, NoMemory>
    ensures { IfOk result (λ risks. risks ≡ risks_from names.now 0 units.now) }
{
    let mut risks = Seq::new(alloc);
    'units: for number in 0..units.len() {
        risks.push(is_risky(names, number, &units[number])?)?;
    }
    Ok(risks)
}

/// For each unit whether it is risky to start it.
pub(crate) fn risks(alloc: Global, program: &Program) -> Result<Seq<bool>, NoMemory>
    ensures { IfOk result (TellsRisks program.now) }
{
    let units = program.units().units.as_slice();
    let calls = all_calls(alloc, true, units, program.context())?;
    let arcs = unit_arcs(alloc, units, calls.as_slice())?;
    let graph = graph_by(alloc, node(units.len(), 1)?, arcs.as_slice())?;
    let names = components(alloc, &graph)?;
    risks_from(alloc, &names, program.names().units.as_slice())
}
