//! When ports are alike, and what fits a field of a message or a formal argument.

ghost use Rattle.std.specs.Prelude.{◌≡◌, option_map};
ghost use Rattle.std.specs.List.{slice_get};
ghost use Rattle.fm_tree.specs.PortReading.{kind_of};
ghost use Rattle.fm_tree.specs.Same.{same_kind};
ghost use Rattle.fm_rules.specs.PortFitting.{fits_field, fits_formal, goes, has_elements, has_room, is_array_in, is_as_long, is_kind_of, is_one_port, is_port_to, is_scalar, is_scalar_kind, is_sized, is_whole, lacks_port, lacks_ports, message_in, message_of, messages_differ, number_in, port_variable, ports_differ};

use fm_rules::{ExprType, sizing_place};
use fm_symbols::{Direction, Scalar, UnitNames, Variable};
use fm_tree::{Bound, Expr, ExprNode, Field, Kind, PortType};

pub(crate) fn variable_at(names: &UnitNames, place: u32) -> Option<&Variable>
    ensures { option_map (λ v. v.now) result ≡ slice_get names.now.variables place }
{
    names.variables.as_slice().get(place as usize)
}

// The variable of a port, or of a whole array of ports.
pub(crate) fn port_variable(names: &UnitNames, found: ExprType) -> Option<&Variable>
    ensures { option_map (λ v. v.now) result ≡ port_variable names.now found }
{
    match found {
        ExprType::Port(place) => variable_at(names, place),
        ExprType::Ports(place) => variable_at(names, place),
        ExprType::Value(_) => None,
        ExprType::Array(_, _) => None,
        ExprType::Function => None,
        ExprType::Nothing => None,
    }
}

fn message_in(kind: &Kind) -> Option<&PortType>
    ensures { option_map (λ p. p.now) result ≡ message_in kind.now }
{
    match kind {
        Kind::Integer => None,
        Kind::Logical => None,
        Kind::In(message) => Some(message),
        Kind::Out(message) => Some(message),
    }
}

// The type of the messages of a port, or of the ports of an array.
pub(crate) fn message_of(variable: Option<&Variable>) -> Option<&PortType>
    ensures { option_map (λ p. p.now) result ≡ message_of (option_map (λ v. v.now) variable.entry) }
{
    match variable {
        Some(variable) => message_in(&variable.kind),
        None => None,
    }
}

fn goes(direction: Direction, kind: &Kind) -> bool
    ensures { result ≡ goes direction kind.now }
{
    match direction {
        Direction::In => matches!(kind, Kind::In(_)),
        Direction::Out => matches!(kind, Kind::Out(_)),
    }
}

fn is_port_to(direction: Direction, variable: Option<&Variable>) -> bool
    ensures { result ≡ is_port_to direction (option_map (λ v. v.now) variable.entry) }
{
    match variable {
        Some(variable) => goes(direction, &variable.kind),
        None => false,
    }
}

// Whether something else stands where one port of a direction is needed.
pub(crate) fn lacks_port(direction: Direction, names: &UnitNames, found: ExprType) -> bool
    ensures { result ≡ lacks_port direction names.now found }
{
    match found {
        ExprType::Port(place) => !is_port_to(direction, variable_at(names, place)),
        ExprType::Ports(_) => true,
        ExprType::Value(_) => true,
        ExprType::Array(_, _) => true,
        ExprType::Function => true,
        ExprType::Nothing => false,
    }
}

// The same where a whole array of ports may stand too.
pub(crate) fn lacks_ports(direction: Direction, names: &UnitNames, found: ExprType) -> bool
    ensures { result ≡ lacks_ports direction names.now found }
{
    match found {
        ExprType::Port(place) => !is_port_to(direction, variable_at(names, place)),
        ExprType::Ports(place) => !is_port_to(direction, variable_at(names, place)),
        ExprType::Value(_) => true,
        ExprType::Array(_, _) => true,
        ExprType::Function => true,
        ExprType::Nothing => false,
    }
}

// One port, or what has no type.
pub(crate) fn is_one_port(found: ExprType) -> bool
    ensures { result ≡ is_one_port found }
{
    matches!(found, ExprType::Port(_) | ExprType::Nothing)
}

pub(crate) fn messages_differ(left: Option<&PortType>, right: Option<&PortType>) -> bool
    ensures { result ≡ messages_differ (option_map (λ p. p.now) left.entry) (option_map (λ p. p.now) right.entry) }
{
    match (left, right) {
        (Some(a), Some(b)) => a != b,
        (Some(_), None) => false,
        (None, Some(_)) => false,
        (None, None) => false,
    }
}

fn same_kind(left: &Kind, right: &Kind) -> bool
    ensures { result ≡ same_kind (kind_of left.now) (kind_of right.now) }
{
    match (left, right) {
        (Kind::Integer, Kind::Integer) => true,
        (Kind::Logical, Kind::Logical) => true,
        (Kind::In(a), Kind::In(b)) => a == b,
        (Kind::Out(a), Kind::Out(b)) => a == b,
        _ => false,
    }
}

// Whether two ports have different directions or types.
pub(crate) fn ports_differ(left: Option<&Variable>, right: Option<&Variable>) -> bool
    ensures { result ≡ ports_differ (option_map (λ v. v.now) left.entry) (option_map (λ v. v.now) right.entry) }
{
    match (left, right) {
        (Some(a), Some(b)) => !same_kind(&a.kind, &b.kind),
        (Some(_), None) => false,
        (None, Some(_)) => false,
        (None, None) => false,
    }
}

fn is_scalar_kind(scalar: Scalar, kind: &Kind) -> bool
    ensures { result ≡ is_scalar_kind scalar (kind_of kind.now) }
{
    match scalar {
        Scalar::Integer => matches!(kind, Kind::Integer),
        Scalar::Logical => matches!(kind, Kind::Logical),
    }
}

fn number_in(expr: &Expr) -> Option<i64>
    ensures { result ≡ number_in expr.now }
{
    match &expr.node {
        ExprNode::Number(number) => Some(*number),
        _ => None,
    }
}

fn is_scalar(bounds: &[Bound]) -> bool
    ensures { result ≡ is_scalar bounds.now }
{
    bounds.is_empty()
}

// An array of so many elements: a field of a variable's type has their number as its one bound.
fn has_elements(elements: u32, bounds: &[Bound]) -> bool
    ensures { result ≡ has_elements elements bounds.now }
{
    match bounds.first() {
        Some(bound) => number_in(&bound.high) == Some(i64::from(elements)),
        None => false,
    }
}

// An array that an earlier field sizes.
fn is_sized(bounds: &[Bound]) -> bool
    ensures { result ≡ is_sized bounds.now }
{
    sizing_place(bounds).is_some()
}

// An array of so many elements, or one of any number.
fn has_room(elements: u32, bounds: &[Bound]) -> bool
    ensures { result ≡ has_room elements bounds.now }
{
    is_sized(bounds) || has_elements(elements, bounds)
}

fn is_kind_of(variable: Option<&Variable>, kind: &Kind) -> bool
    ensures { result ≡ is_kind_of (option_map (λ v. v.now) variable.entry) (kind_of kind.now) }
{
    match variable {
        Some(variable) => same_kind(&variable.kind, kind),
        None => false,
    }
}

fn is_array_in(variable: Option<&Variable>, bounds: &[Bound]) -> bool
    ensures { result ≡ is_array_in (option_map (λ v. v.now) variable.entry) bounds.now }
{
    match variable {
        Some(variable) => has_elements(variable.words, bounds),
        None => false,
    }
}

// Whether an item of this type fits a field of a message.
pub(crate) fn fits_field(names: &UnitNames, found: ExprType, field: &Field) -> bool
    ensures { result ≡ fits_field names.now found (kind_of field.now.kind) field.now.bounds }
{
    let (kind, bounds) = (&field.kind, field.bounds.as_slice());
    match found {
        ExprType::Value(scalar) => is_scalar_kind(scalar, kind) && is_scalar(bounds),
        ExprType::Array(scalar, elements) => {
            is_scalar_kind(scalar, kind) && has_room(elements, bounds)
        }
        ExprType::Port(place) => is_kind_of(variable_at(names, place), kind) && is_scalar(bounds),
        ExprType::Ports(place) => {
            let variable = variable_at(names, place);
            is_kind_of(variable, kind) && is_array_in(variable, bounds)
        }
        ExprType::Function => false,
        ExprType::Nothing => true,
    }
}

fn is_whole(bounds: &[(i64, i64)]) -> bool
    ensures { result ≡ is_whole bounds.now }
{
    !bounds.is_empty()
}

fn is_as_long(variable: Option<&Variable>, formal: &Variable) -> bool
    ensures { result ≡ is_as_long (option_map (λ v. v.now) variable.entry) formal.now }
{
    match variable {
        Some(variable) => is_whole(formal.bounds.as_slice()) && variable.words == formal.words,
        None => false,
    }
}

// Whether an actual of this type fits a formal that is a port.
pub(crate) fn fits_formal(names: &UnitNames, found: ExprType, formal: &Variable) -> bool
    ensures { result ≡ fits_formal names.now found formal.now }
{
    match found {
        ExprType::Port(place) => {
            is_kind_of(variable_at(names, place), &formal.kind)
                && !is_whole(formal.bounds.as_slice())
        }
        ExprType::Ports(place) => {
            let variable = variable_at(names, place);
            is_kind_of(variable, &formal.kind) && is_as_long(variable, formal)
        }
        ExprType::Value(_) => false,
        ExprType::Array(_, _) => false,
        ExprType::Function => false,
        ExprType::Nothing => true,
    }
}
