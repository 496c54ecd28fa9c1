//! Calls from which channels lead back to themselves.

ghost use Rattle.std.specs.Prelude.{◌≡◌, ◌++◌, length, OnOk, IfOk};
ghost use Rattle.fm_graph.specs.Graph.{IsComponents};
ghost use Rattle.fm_plain_frame.specs.Units.{unit_of};
ghost use Rattle.fm_flow_law.specs.Flow.{given};
ghost use Rattle.fm_flow.specs.Walks.{arcs_back, arcs_to, body_arcs, entry_arcs, IsRingSearch, leads_back, rings_from, wires};

use crate::arcs::{graph_by, is_together, node};
use crate::ports::{channel_in, channel_out, given};
use fm_base::{Line, NoMemory, Seq};
use fm_call_graph::lower_if;
use fm_graph::components;
use fm_plain_frame::UnitView;
use fm_tree::{Entry, Stmt};
use std::alloc::Global;

fn add_arcs_to(
    base: usize,
    from: usize,
    ports: &[usize],
    arcs: &mut Seq<(usize, usize)>,
) -> Result<(), NoMemory>
    ensures { OnOk result (arcs.new ≡ arcs.old ++ arcs_to base from ports.now) }
{
    'ports: for port in ports {
        arcs.push((from, node(base, *port)?))?;
    }
    Ok(())
}

fn add_arcs_back(
    base: usize,
    to: usize,
    ports: &[usize],
    arcs: &mut Seq<(usize, usize)>,
) -> Result<(), NoMemory>
    ensures { OnOk result (arcs.new ≡ arcs.old ++ arcs_back base to ports.now) }
{
    'ports: for port in ports {
        arcs.push((node(base, *port)?, to))?;
    }
    Ok(())
}

/// Where the nodes of outports and those of inports begin.
#[derive(Clone, Copy)]
struct Bases {
    outs: usize,
    ins: usize,
}

fn add_entry(
    alloc: Global,
    unit: &UnitView<'_>,
    bases: Bases,
    place: usize,
    stmt: &Stmt,
    arcs: &mut Seq<(usize, usize)>,
) -> Result<(), NoMemory>
    ensures { OnOk result (arcs.new ≡ arcs.old ++ entry_arcs (unit_of unit.now) bases.outs bases.ins place stmt.now) }
{
    let ports = given(alloc, unit, stmt)?;
    let outs = channel_out(alloc, unit, stmt)?;
    let ins = channel_in(alloc, unit, stmt)?;
    add_arcs_to(bases.outs, place, ports.as_slice(), arcs)?;
    add_arcs_back(bases.ins, place, ports.as_slice(), arcs)?;
    add_arcs_back(bases.outs, place, outs.as_slice(), arcs)?;
    add_arcs_to(bases.ins, place, ins.as_slice(), arcs)
}

fn body_arcs(
    alloc: Global,
    unit: &UnitView<'_>,
    bases: Bases,
    body: &[Entry],
) -> Result<Seq<(usize, usize)>, NoMemory>
    ensures { IfOk result (λ arcs. arcs ≡ body_arcs (unit_of unit.now) bases.outs bases.ins 0 body.now) }
{
    let mut arcs = Seq::new(alloc);
    'places: for place in 0..body.len() {
        add_entry(alloc, unit, bases, place, &body[place].stmt, &mut arcs)?;
    }
    Ok(arcs)
}

fn leads_back(names: &[usize], outs: usize, place: usize, ports: &[usize]) -> Result<bool, NoMemory>
    ensures { IfOk result (λ back. back ≡ leads_back names.now outs place ports.now) }
{
    'ports: for port in ports {
        if is_together(names, place, node(outs, *port)?) {
            return Ok(true);
        }
    }
    Ok(false)
}

/// Whether an entry is a call from which channels lead back to itself.
fn is_ring(
    alloc: Global,
    unit: &UnitView<'_>,
    names: &[usize],
    outs: usize,
    place: usize,
    stmt: &Stmt,
) -> Result<bool, NoMemory>
    ensures { IfOk result (λ ring. ring ≡ leads_back names.now outs place (given (unit_of unit.now) stmt.now)) }
{
    let ports = given(alloc, unit, stmt)?;
    leads_back(names, outs, place, ports.as_slice())
}

fn rings_from(
    alloc: Global,
    unit: &UnitView<'_>,
    names: &[usize],
    best: Option<Line>,
    body: &[Entry],
) -> Result<Option<Line>, NoMemory>
    ensures { IfOk result (λ line. line ≡ rings_from (unit_of unit.now) names.now (length body.now) 0 best body.now) }
{
    let mut best = best;
    'places: for place in 0..body.len() {
        let ring = is_ring(alloc, unit, names, body.len(), place, &body[place].stmt)?;
        best = lower_if(ring, best, body[place].line);
    }
    Ok(best)
}

/// The names of the components of the graph of calls, ports and channels.
fn ring_names(alloc: Global, unit: &UnitView<'_>) -> Result<Vec<usize>, NoMemory>
    ensures { IfOk result (λ names. IsComponents (wires (unit_of unit.now)) names.items) }
{
    let body = unit.tree().body.as_slice();
    let outs = body.len();
    let ins = node(outs, unit.variables().len())?;
    let count = node(ins, unit.variables().len())?;
    let arcs = body_arcs(alloc, unit, Bases { outs, ins }, body)?;
    let graph = graph_by(alloc, count, arcs.as_slice())?;
    components(alloc, &graph)
}

/// The least line of a call from which channels lead back to itself, or one that is known.
pub(crate) fn least_ring(
    alloc: Global,
    unit: &UnitView<'_>,
    best: Option<Line>,
) -> Result<Option<Line>, NoMemory>
    ensures { IfOk result (IsRingSearch (unit_of unit.now) best) }
{
    let body = unit.tree().body.as_slice();
    let names = ring_names(alloc, unit)?;
    rings_from(alloc, unit, &names, best, body)
}
