//! Declarations of ports over which ports go.

ghost use Rattle.std.specs.Prelude.{◌≡◌, None, IfOk};
ghost use Rattle.fm_tree.specs.PortReading.{kind_of};
ghost use Rattle.fm_nodes_plain.specs.Carriers.{carries_ports, declares_carrier, is_port, IsFirstCarrierOf};
ghost use Rattle.fm_nodes_plain.specs.Search.{carriers_from, carriers_in, carriers_in_unit};

use fm_base::{Line, NoMemory};
use fm_call_graph::{all_calls, flag_at, graph_of, lower_if};
use fm_graph::reached;
use fm_rules::main_of;
use fm_symbols::Context;
use fm_tree::{Kind, Placed, PortType, Stmt, Unit};
use std::alloc::Global;

fn is_port(kind: &Kind) -> bool
    ensures { result ≡ is_port (kind_of kind.now) }
{
    match kind {
        Kind::Integer | Kind::Logical => false,
        Kind::In(_) | Kind::Out(_) => true,
    }
}

fn carries_ports(port_type: &PortType) -> bool
    ensures { result ≡ carries_ports port_type.now }
{
    'fields: for field in port_type.as_slice() {
        if is_port(&field.kind) {
            return true;
        }
    }
    false
}

#[tactic(auto, unfolding(crate::specs::Carriers::declares_carrier))]
fn declares_carrier(stmt: &Stmt) -> bool
    ensures { result ≡ declares_carrier stmt.now }
{
    match stmt {
        Stmt::Inport(port_type, _) => carries_ports(port_type),
        Stmt::Outport(port_type, _) => carries_ports(port_type),
        _ => false,
    }
}

fn carriers_in(best: Option<Line>, specs: &[Placed]) -> Option<Line>
    ensures { result ≡ carriers_in best specs.now }
{
    let mut best = best;
    'specs: for placed in specs {
        best = lower_if(declares_carrier(&placed.stmt), best, placed.line);
    }
    best
}

fn carriers_in_unit(flag: bool, best: Option<Line>, unit: &Unit) -> Option<Line>
    ensures { result ≡ carriers_in_unit flag best unit.now }
{
    if flag {
        carriers_in(best, unit.specs.as_slice())
    } else {
        best
    }
}

fn carriers_from(flags: &[bool], units: &[Unit]) -> Option<Line>
    ensures { result ≡ carriers_from flags.now 0 None units.now }
{
    let mut best = None;
    'units: for unit in 0..units.len() {
        best = carriers_in_unit(flag_at(flags, unit), best, &units[unit]);
    }
    best
}

/// The least line of a declaration of ports over which ports go, in a unit that the PROGRAM reaches.
pub(crate) fn first_carrier(
    alloc: Global,
    units: &[Unit],
    context: &Context,
) -> Result<Option<Line>, NoMemory>
    ensures { IfOk result (IsFirstCarrierOf units.now context.now) }
{
    let main = match main_of(units) {
        Some(main) => main,
        None => return Ok(None),
    };
    let calls = all_calls(alloc, true, units, context)?;
    let graph = graph_of(alloc, calls.as_slice())?;
    let flags = reached(alloc, graph.as_slice(), main)?;
    Ok(carriers_from(&flags, units))
}
