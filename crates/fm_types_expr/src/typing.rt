//! The types of expressions, and what fits where.

ghost use Rattle.std.specs.Prelude.{◌≡◌};
ghost use Rattle.std.specs.List.{slice_get};
ghost use Rattle.fm_rules.specs.Typing.{fits, fits_array, fits_value, is_port, needed, needed_value, operand, operator_kind, plain, result_in, result_of, same_scalar, symbol_type, value_type, with_flags};

use crate::flags::{both, e40, e50, no_flags};
use fm_base::Op;
use fm_rules::{ExprType, Flags, Judgement, OperatorKind};
use fm_symbols::{Context, Formal, Scalar, Symbol};

pub(crate) fn plain(expr_type: ExprType) -> Judgement
    ensures { result ≡ plain expr_type }
{
    Judgement {
        expr_type,
        flags: no_flags(),
    }
}

pub(crate) fn with_flags(expr_type: ExprType, first: Flags, second: Flags) -> Judgement
    ensures { result ≡ with_flags expr_type first second }
{
    Judgement {
        expr_type,
        flags: both(first, second),
    }
}

/// Whether two types of values are the same.
pub fn same_scalar(left: Scalar, right: Scalar) -> bool
    ensures { result ≡ same_scalar left right }
{
    match (left, right) {
        (Scalar::Integer, Scalar::Integer) => true,
        (Scalar::Logical, Scalar::Logical) => true,
        (Scalar::Integer, Scalar::Logical) => false,
        (Scalar::Logical, Scalar::Integer) => false,
    }
}

/// What is broken where one value of a type is needed.
pub fn needed(scalar: Scalar, expr_type: ExprType) -> Flags
    ensures { result ≡ needed scalar expr_type }
{
    match expr_type {
        ExprType::Value(found) => e40(!same_scalar(found, scalar)),
        ExprType::Array(_, _) => e40(true),
        ExprType::Port(_) => e50(true),
        ExprType::Ports(_) => e50(true),
        ExprType::Function => e40(true),
        ExprType::Nothing => no_flags(),
    }
}

/// What is broken where one value of any type is needed.
pub fn needed_value(expr_type: ExprType) -> Flags
    ensures { result ≡ needed_value expr_type }
{
    match expr_type {
        ExprType::Value(_) => no_flags(),
        ExprType::Array(_, _) => e40(true),
        ExprType::Port(_) => e50(true),
        ExprType::Ports(_) => e50(true),
        ExprType::Function => e40(true),
        ExprType::Nothing => no_flags(),
    }
}

/// What is broken at an operand, where one value of a type is needed.
pub fn operand(scalar: Scalar, judgement: Judgement) -> Flags
    ensures { result ≡ operand scalar judgement }
{
    both(judgement.flags, needed(scalar, judgement.expr_type))
}

pub(crate) fn is_port(expr_type: ExprType) -> bool
    ensures { result ≡ is_port expr_type }
{
    match expr_type {
        ExprType::Value(_) => false,
        ExprType::Array(_, _) => false,
        ExprType::Port(_) => true,
        ExprType::Ports(_) => true,
        ExprType::Function => false,
        ExprType::Nothing => false,
    }
}

fn fits_value(scalar: Scalar, expr_type: ExprType) -> bool
    ensures { result ≡ fits_value scalar expr_type }
{
    match expr_type {
        ExprType::Value(found) => same_scalar(found, scalar),
        ExprType::Array(_, _) => false,
        ExprType::Port(_) => true,
        ExprType::Ports(_) => true,
        ExprType::Function => false,
        ExprType::Nothing => true,
    }
}

fn fits_array(scalar: Scalar, wanted: u32, expr_type: ExprType) -> bool
    ensures { result ≡ fits_array scalar wanted expr_type }
{
    match expr_type {
        ExprType::Value(_) => false,
        ExprType::Array(found, elements) => same_scalar(found, scalar) && elements == wanted,
        ExprType::Port(_) => true,
        ExprType::Ports(_) => true,
        ExprType::Function => false,
        ExprType::Nothing => true,
    }
}

/// Whether an actual argument fits a formal. Ports are judged when all types are known.
pub(crate) fn fits(formal: Formal, expr_type: ExprType) -> bool
    ensures { result ≡ fits formal expr_type }
{
    match formal {
        Formal::Value(scalar) => fits_value(scalar, expr_type),
        Formal::Array(scalar, elements) => fits_array(scalar, elements, expr_type),
        Formal::Port(_) => true,
    }
}

pub(crate) fn operator_kind(op: Op) -> OperatorKind
    ensures { result ≡ operator_kind op }
{
    match op {
        Op::Add | Op::Sub | Op::Mul | Op::Div | Op::Pow => OperatorKind::Arithmetic,
        Op::Eq | Op::Ne | Op::Lt | Op::Le | Op::Gt | Op::Ge => OperatorKind::Relational,
        Op::And | Op::Or | Op::Eqv | Op::Neqv | Op::Not => OperatorKind::Logical,
    }
}

/// The type of a name that stands alone.
pub fn symbol_type(symbol: Option<Symbol>) -> ExprType
    ensures { result ≡ symbol_type symbol }
{
    match symbol {
        None => ExprType::Nothing,
        Some(Symbol::Constant(scalar)) => ExprType::Value(scalar),
        Some(Symbol::Variable(scalar, _)) => ExprType::Value(scalar),
        Some(Symbol::Array(scalar, _, extent)) => ExprType::Array(scalar, extent.elements),
        Some(Symbol::Port(_, place)) => ExprType::Port(place),
        Some(Symbol::Ports(_, place, _)) => ExprType::Ports(place),
        Some(Symbol::Function(_)) => ExprType::Function,
    }
}

fn value_type(scalar: Option<Scalar>) -> ExprType
    ensures { result ≡ value_type scalar }
{
    match scalar {
        Some(scalar) => ExprType::Value(scalar),
        None => ExprType::Nothing,
    }
}

/// The type of the value of the FUNCTION with this number.
pub fn result_of(context: &Context, unit: u32) -> ExprType
    ensures { result ≡ result_of context.now unit }
{
    match context.scopes.as_slice().get(unit as usize) {
        Some(scope) => value_type(scope.result),
        None => ExprType::Nothing,
    }
}
