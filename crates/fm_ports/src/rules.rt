//! The rules on the ports of a statement.

ghost use Rattle.std.specs.Prelude.{◌≡◌, map, option_map};
ghost use Rattle.std.specs.List.{list_any};
ghost use Rattle.std.specs.FinMap.{get};
ghost use Rattle.std.specs.List.{slice_get};
ghost use Rattle.fm_symbols.specs.declared.symbol.Direction.TheVariants.{Out};
ghost use Rattle.fm_tree.specs.PortReading.{fields_of};
ghost use Rattle.fm_rules.specs.JudgedStatements.{type_of, variable_type};
ghost use Rattle.fm_rules.specs.PortFitting.{break_formals, breaks_formal, fit_fields, lacks_ports, messages_differ};
ghost use Rattle.fm_rules.specs.PortRules.{actuals_break, breaks_call, breaks_fields, breaks_message, breaks_move, breaks_rank, breaks_type, breaks_unit, call_in, in_simple, lacks_direction, location_in, message_at, simple_in};

use crate::fitting::{
    fits_field, fits_formal, is_one_port, lacks_port, lacks_ports, message_of, messages_differ,
    port_variable, ports_differ, variable_at,
};
use crate::judged::{Site, type_of, variable_type};
use crate::lookup::{call_in, location_in, rank, simple_in};
use fm_rules::ExprType;
use fm_symbols::{Direction, Formal, UnitNames};
use fm_tree::{Expr, Field, PortType, Simple, Stmt, Var};

fn lack_outports(site: &Site, ports: &[Var]) -> bool
    ensures { result
        ≡ list_any (λ v. lacks_ports Out site.now.names.now (variable_type site.now.context.now site.now.scope.now v))
        ports.now }
{
    'ports: for port in ports {
        if lacks_ports(Direction::Out, site.names, variable_type(site, port)) {
            return true;
        }
    }
    false
}

#[tactic(auto, unfolding(fm_rules::specs::PortRules::lacks_direction))]
fn lacks_direction(site: &Site, simple: &Simple) -> bool
    ensures { result ≡ lacks_direction site.now.names.now site.now.context.now site.now.scope.now simple.now }
{
    match simple {
        Simple::Send { port, .. } => lacks_port(
            Direction::Out,
            site.names,
            variable_type(site, port),
        ),
        Simple::EndChannel { port, .. } => lacks_port(
            Direction::Out,
            site.names,
            variable_type(site, port),
        ),
        Simple::Receive { port, .. } => lacks_port(
            Direction::In,
            site.names,
            variable_type(site, port),
        ),
        Simple::Probe { port, .. } => lacks_port(
            Direction::In,
            site.names,
            variable_type(site, port),
        ),
        Simple::Channel {
            inport,
            outport,
            ..
        } => {
            lacks_port(Direction::In, site.names, variable_type(site, inport))
                || lacks_port(Direction::Out, site.names, variable_type(site, outport))
        }
        Simple::Merger(inport, outports) => {
            lacks_port(Direction::In, site.names, variable_type(site, inport))
                || lack_outports(site, outports.as_slice())
        }
        _ => false,
    }
}

// Whether the items of a SEND fit the fields of a message. An item that is a port compares its type with that of its
// field, so a SEND costs its text and the size of its port's type: however short it is, as much as the statement that
// declares the port.
#[tactic(auto, using(crate::proofs::Items::unlike_number))]
fn expressions_fit(site: &Site, items: &[Expr], fields: &[Field]) -> bool
    ensures { result
        ≡ fit_fields site.now.names.now (map (type_of site.now.context.now site.now.scope.now) items.now)
        (fields_of fields.now) }
{
    if items.len() != fields.len() {
        return false;
    }
    'items: for index in 0..items.len() {
        let found = type_of(site, &items[index]);
        if !fits_field(site.names, found, &fields[index]) {
            return false;
        }
    }
    true
}

// The same for the variables of a RECEIVE.
#[tactic(auto, using(crate::proofs::Items::unlike_number))]
fn variables_fit(site: &Site, variables: &[Var], fields: &[Field]) -> bool
    ensures { result
        ≡ fit_fields site.now.names.now (map (variable_type site.now.context.now site.now.scope.now) variables.now)
        (fields_of fields.now) }
{
    if variables.len() != fields.len() {
        return false;
    }
    'variables: for index in 0..variables.len() {
        let found = variable_type(site, &variables[index]);
        if !fits_field(site.names, found, &fields[index]) {
            return false;
        }
    }
    true
}

fn message_at<'a>(site: &Site<'a>, port: &Var) -> Option<&'a PortType>
    ensures { option_map (λ p. p.now) result
        ≡ message_at site.now.names.now site.now.context.now site.now.scope.now port.now }
{
    message_of(port_variable(site.names, variable_type(site, port)))
}

#[tactic(auto, unfolding(fm_rules::specs::PortRules::breaks_message))]
fn breaks_message(site: &Site, simple: &Simple) -> bool
    ensures { result ≡ breaks_message site.now.names.now site.now.context.now site.now.scope.now simple.now }
{
    match simple {
        Simple::Send { port, items, .. } => match message_at(site, port) {
            Some(message) => { !expressions_fit(site, items.as_slice(), message.as_slice()) }
            None => false,
        },
        Simple::Receive { port, items, .. } => match message_at(site, port) {
            Some(message) => { !variables_fit(site, items.as_slice(), message.as_slice()) }
            None => false,
        },
        _ => false,
    }
}

fn breaks_move(names: &UnitNames, from: ExprType, to: ExprType) -> bool
    ensures { result ≡ breaks_move names.now from to }
{
    !is_one_port(from)
        || !is_one_port(to)
        || ports_differ(port_variable(names, from), port_variable(names, to))
}

fn outports_differ(site: &Site, message: Option<&PortType>, ports: &[Var]) -> bool
    ensures { result
        ≡ list_any (λ v. messages_differ (option_map (λ p. p.now) message.entry)
        (message_at site.now.names.now site.now.context.now site.now.scope.now v)) ports.now }
{
    'ports: for port in ports {
        if messages_differ(message, message_at(site, port)) {
            return true;
        }
    }
    false
}

#[tactic(auto, unfolding(fm_rules::specs::PortRules::breaks_type))]
fn breaks_type(site: &Site, simple: &Simple) -> bool
    ensures { result ≡ breaks_type site.now.names.now site.now.context.now site.now.scope.now simple.now }
{
    match simple {
        Simple::Channel {
            inport,
            outport,
            ..
        } => messages_differ(message_at(site, inport), message_at(site, outport)),
        Simple::Merger(inport, outports) => outports_differ(
            site,
            message_at(site, inport),
            outports.as_slice(),
        ),
        Simple::MovePort { from, to } => breaks_move(
            site.names,
            variable_type(site, from),
            variable_type(site, to),
        ),
        _ => false,
    }
}

// A formal that is a port, by the names of its unit, and an actual that doesn't fit it. No other actual is judged
// again.
fn breaks_formal(callee: &UnitNames, site: &Site, actual: &Expr, formal: Formal) -> bool
    ensures { result
        ≡ breaks_formal callee.now site.now.names.now (type_of site.now.context.now site.now.scope.now actual.now)
        formal }
{
    match formal {
        Formal::Value(_) => false,
        Formal::Array(_, _) => false,
        Formal::Port(place) => match variable_at(callee, place) {
            Some(variable) => !fits_formal(site.names, type_of(site, actual), variable),
            None => false,
        },
    }
}

fn break_formals(callee: &UnitNames, site: &Site, actuals: &[Expr], formals: &[Formal]) -> bool
    ensures { result
        ≡ break_formals callee.now site.now.names.now
        (map (type_of site.now.context.now site.now.scope.now) actuals.now) formals.now }
{
    'actuals: for (actual, formal) in actuals.iter().zip(formals) {
        if breaks_formal(callee, site, actual, *formal) {
            return true;
        }
    }
    false
}

fn breaks_unit(site: &Site, actuals: &[Expr], unit: u32) -> bool
    ensures { result
        ≡ actuals_break site.now.names.now (map (type_of site.now.context.now site.now.scope.now) actuals.now)
        (slice_get site.now.all.now.units unit) (slice_get site.now.context.now.scopes unit) }
{
    let callee = site.all.units.as_slice().get(unit as usize);
    let formals = site.context.scopes.as_slice().get(unit as usize);
    match (callee, formals) {
        (Some(callee), Some(called)) => {
            break_formals(callee, site, actuals, called.formals.as_slice())
        }
        (Some(_), None) => false,
        (None, Some(_)) => false,
        (None, None) => false,
    }
}

// Whether an actual of a call doesn't fit a formal that is a port.
pub(crate) fn breaks_call(site: &Site, stmt: &Stmt) -> bool
    ensures { result
        ≡ breaks_call site.now.all.now.units site.now.names.now site.now.context.now site.now.scope.now
        (call_in stmt.now) }
{
    match call_in(stmt) {
        Some((name, actuals)) => match site.context.units.get(name) {
            Some(unit) => breaks_unit(site, actuals, *unit),
            None => false,
        },
        None => false,
    }
}

// Whether a LOCATION has another number of values than PROCESSORS has extents.
pub(crate) fn breaks_rank(names: &UnitNames, stmt: &Stmt) -> bool
    ensures { result ≡ breaks_rank names.now (location_in stmt.now) }
{
    match location_in(stmt) {
        Some(values) => values.len() != rank(names.extents.as_slice()),
        None => false,
    }
}

// Whether something stands where a port of a direction is needed.
pub(crate) fn has_wrong_direction(site: &Site, stmt: &Stmt) -> bool
    ensures { result
        ≡ in_simple (lacks_direction site.now.names.now site.now.context.now site.now.scope.now) (simple_in stmt.now) }
{
    match simple_in(stmt) {
        Some(simple) => lacks_direction(site, simple),
        None => false,
    }
}

// Whether the items of a SEND or RECEIVE don't fit the fields of its message.
pub(crate) fn has_wrong_message(site: &Site, stmt: &Stmt) -> bool
    ensures { result
        ≡ in_simple (breaks_message site.now.names.now site.now.context.now site.now.scope.now) (simple_in stmt.now) }
{
    match simple_in(stmt) {
        Some(simple) => breaks_message(site, simple),
        None => false,
    }
}

// Whether CHANNEL, MERGER or MOVEPORT have ports of different types.
pub(crate) fn has_wrong_type(site: &Site, stmt: &Stmt) -> bool
    ensures { result
        ≡ in_simple (breaks_type site.now.names.now site.now.context.now site.now.scope.now) (simple_in stmt.now) }
{
    match simple_in(stmt) {
        Some(simple) => breaks_type(site, simple),
        None => false,
    }
}
