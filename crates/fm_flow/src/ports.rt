//! The ports that statements of the PROGRAM name, by their places among its variables.

ghost use Rattle.std.specs.Prelude.{◌≡◌, ◌++◌, map, OnOk, IfOk};
ghost use Rattle.std.specs.List.{flat_map};
ghost use Rattle.fm_plain_frame.specs.Units.{unit_of, variable_read};
ghost use Rattle.fm_flow_law.specs.Flow.{channel_in, channel_out, channel_ports, given, is_outport, is_port, port_in, port_named, port_with};

use fm_base::{Name, NoMemory, Seq};
use fm_plain_frame::{UnitView, arguments_in};
use fm_symbols::Variable;
use fm_tree::{Expr, ExprNode, Kind, Simple, Stmt};
use std::alloc::Global;

/// Whether a kind is that of a port.
pub(crate) fn is_port(kind: &Kind) -> bool
    ensures { result ≡ is_port kind.now }
{
    match kind {
        Kind::Integer => false,
        Kind::Logical => false,
        Kind::In(_) => true,
        Kind::Out(_) => true,
    }
}

/// Whether a kind is that of an outport.
pub(crate) fn is_outport(kind: &Kind) -> bool
    ensures { result ≡ is_outport kind.now }
{
    match kind {
        Kind::Integer => false,
        Kind::Logical => false,
        Kind::In(_) => false,
        Kind::Out(_) => true,
    }
}

fn add_variable(variable: Option<(u32, &Variable)>, ports: &mut Seq<usize>) -> Result<(), NoMemory>
    ensures { OnOk result (ports.new ≡ ports.old ++ port_with (variable_read variable.entry)) }
{
    match variable {
        None => Ok(()),
        Some((place, variable)) => {
            if is_port(&variable.kind) {
                ports.push(place as usize)?;
            }
            Ok(())
        }
    }
}

fn add_named(unit: &UnitView<'_>, name: &Name, ports: &mut Seq<usize>) -> Result<(), NoMemory>
    ensures { OnOk result (ports.new ≡ ports.old ++ port_named (unit_of unit.now) name.now) }
{
    add_variable(unit.variable(name), ports)
}

fn add_argument(unit: &UnitView<'_>, tree: &Expr, ports: &mut Seq<usize>) -> Result<(), NoMemory>
    ensures { OnOk result (ports.new ≡ ports.old ++ port_in (unit_of unit.now) tree.now) }
{
    match &tree.node {
        ExprNode::Named(name) => add_named(unit, name, ports),
        ExprNode::Number(_) => Ok(()),
        ExprNode::Truth(_) => Ok(()),
        ExprNode::Ref(_, _) => Ok(()),
        ExprNode::Paren(_) => Ok(()),
        ExprNode::Signed(_, _) => Ok(()),
        ExprNode::Not(_) => Ok(()),
        ExprNode::Binary(_, _, _) => Ok(()),
    }
}

fn ports_in(alloc: Global, unit: &UnitView<'_>, arguments: &[Expr]) -> Result<Seq<usize>, NoMemory>
    ensures { IfOk result (λ ports. ports ≡ flat_map (port_in (unit_of unit.now)) arguments.now) }
{
    let mut ports = Seq::new(alloc);
    'arguments: for argument in arguments {
        add_argument(unit, argument, &mut ports)?;
    }
    Ok(ports)
}

/// The ports that a PROCESSCALL gives.
#[tactic(auto, unfolding(fm_flow_law::specs::Flow::given))]
pub(crate) fn given(alloc: Global, unit: &UnitView<'_>, stmt: &Stmt) -> Result<Seq<usize>, NoMemory>
    ensures { IfOk result (λ ports. ports ≡ given (unit_of unit.now) stmt.now) }
{
    match stmt {
        Stmt::ProcessCall(_, part) => ports_in(alloc, unit, arguments_in(part)),
        _ => Ok(Seq::new(alloc)),
    }
}

#[tactic(auto, unfolding(fm_flow_law::specs::Flow::channel_in))]
fn add_channel_in(unit: &UnitView<'_>, stmt: &Stmt, ports: &mut Seq<usize>) -> Result<(), NoMemory>
    ensures { OnOk result (ports.new ≡ ports.old ++ channel_in (unit_of unit.now) stmt.now) }
{
    match stmt {
        Stmt::Simple(Simple::Channel { inport, .. }) => add_named(unit, &inport.name, ports),
        _ => Ok(()),
    }
}

#[tactic(auto, unfolding(fm_flow_law::specs::Flow::channel_out))]
fn add_channel_out(unit: &UnitView<'_>, stmt: &Stmt, ports: &mut Seq<usize>) -> Result<(), NoMemory>
    ensures { OnOk result (ports.new ≡ ports.old ++ channel_out (unit_of unit.now) stmt.now) }
{
    match stmt {
        Stmt::Simple(Simple::Channel { outport, .. }) => add_named(unit, &outport.name, ports),
        _ => Ok(()),
    }
}

/// The inport of a CHANNEL.
pub(crate) fn channel_in(
    alloc: Global,
    unit: &UnitView<'_>,
    stmt: &Stmt,
) -> Result<Seq<usize>, NoMemory>
    ensures { IfOk result (λ ports. ports ≡ channel_in (unit_of unit.now) stmt.now) }
{
    let mut ports = Seq::new(alloc);
    add_channel_in(unit, stmt, &mut ports)?;
    Ok(ports)
}

/// The outport of a CHANNEL.
pub(crate) fn channel_out(
    alloc: Global,
    unit: &UnitView<'_>,
    stmt: &Stmt,
) -> Result<Seq<usize>, NoMemory>
    ensures { IfOk result (λ ports. ports ≡ channel_out (unit_of unit.now) stmt.now) }
{
    let mut ports = Seq::new(alloc);
    add_channel_out(unit, stmt, &mut ports)?;
    Ok(ports)
}

/// The ports of a CHANNEL.
pub(crate) fn channel_ports(
    alloc: Global,
    unit: &UnitView<'_>,
    stmt: &Stmt,
) -> Result<Seq<usize>, NoMemory>
    ensures { IfOk result (λ ports. ports ≡ channel_ports (unit_of unit.now) stmt.now) }
{
    let mut ports = Seq::new(alloc);
    add_channel_in(unit, stmt, &mut ports)?;
    add_channel_out(unit, stmt, &mut ports)?;
    Ok(ports)
}
