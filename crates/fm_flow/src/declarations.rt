//! Declarations of ports that are arrays, or whose messages have ports.

ghost use Rattle.std.specs.Prelude.{◌≡◌, ◌||◌, OnOk, IfOk};
ghost use Rattle.std.specs.FinMap.{empty};
ghost use Rattle.fm_tree.specs.PortReading.{fields_of, kind_of};
ghost use Rattle.fm_flow_law.specs.Flow.{any_bounded, is_bounded, is_field_port, sends_ports};
ghost use Rattle.fm_flow.specs.Walks.{any_key, is_wide_by, ports_from, wide_from, with_port};

use crate::ports::is_port;
use fm_base::{Line, NoMemory};
use fm_call_graph::lower_if;
use fm_finmap::NameMap;
use fm_symbols::Variable;
use fm_tree::{Bound, Decl, Field, Kind, Placed, PortType, Stmt};
use std::alloc::Global;

fn is_field_port(kind: &Kind) -> bool
    ensures { result ≡ is_field_port (kind_of kind.now) }
{
    is_port(kind)
}

fn any_field_port(fields: &[Field]) -> bool
    ensures { result ≡ sends_ports (fields_of fields.now) }
{
    'fields: for field in fields {
        if is_field_port(&field.kind) {
            return true;
        }
    }
    false
}

/// Whether messages of a type have ports.
fn sends_ports(port_type: &PortType) -> bool
    ensures { result ≡ sends_ports port_type.now }
{
    any_field_port(port_type.as_slice())
}

fn is_bounded(bounds: &[Bound]) -> bool
    ensures { result ≡ is_bounded bounds.now }
{
    !bounds.is_empty()
}

fn any_bounded(decls: &[Decl]) -> bool
    ensures { result ≡ any_bounded decls.now }
{
    'decls: for decl in decls {
        if is_bounded(decl.bounds.as_slice()) {
            return true;
        }
    }
    false
}

fn add_port(alloc: Global, variable: &Variable, ports: &mut NameMap<bool>) -> Result<(), NoMemory>
    ensures { OnOk result (ports.new ≡ with_port ports.old variable.now) }
{
    if is_port(&variable.kind) {
        ports.insert(variable.name.copy(alloc)?, true)?;
    }
    Ok(())
}

/// The names of the variables that are ports.
pub(crate) fn port_names(alloc: Global, variables: &[Variable]) -> Result<NameMap<bool>, NoMemory>
    ensures { IfOk result (λ ports. ports ≡ ports_from empty variables.now) }
{
    let mut ports = NameMap::new(alloc);
    'variables: for variable in variables {
        add_port(alloc, variable, &mut ports)?;
    }
    Ok(ports)
}

fn any_port(ports: &NameMap<bool>, decls: &[Decl]) -> bool
    ensures { result ≡ any_key ports.now decls.now }
{
    'decls: for decl in decls {
        if ports.contains_key(&decl.name) {
            return true;
        }
    }
    false
}

fn is_wide_port(port_type: &PortType, decls: &[Decl]) -> bool
    ensures { result ≡ (sends_ports port_type.now || any_bounded decls.now) }
{
    sends_ports(port_type) || any_bounded(decls)
}

#[tactic(auto, unfolding(crate::specs::Walks::is_wide_by))]
fn is_wide(ports: &NameMap<bool>, stmt: &Stmt) -> bool
    ensures { result ≡ is_wide_by ports.now stmt.now }
{
    match stmt {
        Stmt::Inport(port_type, decls) => is_wide_port(port_type, decls.as_slice()),
        Stmt::Outport(port_type, decls) => is_wide_port(port_type, decls.as_slice()),
        Stmt::Dimension(decls) => any_port(ports, decls.as_slice()),
        _ => false,
    }
}

/// The least line of such a declaration, or one that is known.
pub(crate) fn wide_from(
    ports: &NameMap<bool>,
    best: Option<Line>,
    declarations: &[Placed],
) -> Option<Line>
    ensures { result ≡ wide_from ports.now best declarations.now }
{
    let mut best = best;
    'declarations: for declaration in declarations {
        best = lower_if(is_wide(ports, &declaration.stmt), best, declaration.line);
    }
    best
}
