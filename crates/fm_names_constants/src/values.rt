//! The values of constant expressions.

ghost use Rattle.std.specs.Prelude.{◌≡◌};
ghost use Rattle.std.specs.FinMap.{get};
ghost use Rattle.fm_rules.specs.ConstantValues.{as_constant, as_value, both_computed, computed, fits, integer_in, integer_of, integer_outcome, is_before, is_logical, negated, outcome, signed, value_of, value_seen};

use fm_base::{Fault, Name, Op};
use fm_finmap::NameMap;
use fm_rules::Known;
use fm_symbols::Constant;
use fm_tree::{Expr, ExprNode};
use fm_values::{Value, apply, with_sign};

fn as_value(constant: Constant) -> Value
    ensures { result ≡ as_value constant }
{
    match constant {
        Constant::Integer(number) => Value::Number(number),
        Constant::Logical(truth) => Value::Truth(truth),
    }
}

fn as_constant(value: Value) -> Constant
    ensures { result ≡ as_constant value }
{
    match value {
        Value::Number(number) => Constant::Integer(number),
        Value::Truth(truth) => Constant::Logical(truth),
    }
}

fn outcome(value: Result<Value, Fault>) -> Option<Constant>
    ensures { result ≡ outcome value }
{
    match value {
        Ok(value) => Some(as_constant(value)),
        Err(_) => None,
    }
}

fn integer_outcome(value: Result<i64, Fault>) -> Option<Constant>
    ensures { result ≡ integer_outcome value }
{
    match value {
        Ok(number) => Some(Constant::Integer(number)),
        Err(_) => None,
    }
}

fn is_logical(op: Op) -> bool
    ensures { result ≡ is_logical op }
{
    match op {
        Op::Eqv => true,
        Op::Neqv => true,
        Op::Or => true,
        Op::And => true,
        Op::Not => true,
        _ => false,
    }
}

fn fits(op: Op, constant: Constant) -> bool
    ensures { result ≡ fits op constant }
{
    match constant {
        Constant::Integer(_) => !is_logical(op),
        Constant::Logical(_) => is_logical(op),
    }
}

fn computed(op: Op, left: Constant, right: Constant) -> Option<Constant>
    ensures { result ≡ computed op left right }
{
    if fits(op, left) && fits(op, right) {
        outcome(apply(op, as_value(left), as_value(right)))
    } else {
        None
    }
}

fn both_computed(op: Op, left: Option<Constant>, right: Option<Constant>) -> Option<Constant>
    ensures { result ≡ both_computed op left right }
{
    match (left, right) {
        (Some(left), Some(right)) => computed(op, left, right),
        (Some(_), None) => None,
        (None, Some(_)) => None,
        (None, None) => None,
    }
}

fn signed(op: Op, operand: Option<Constant>) -> Option<Constant>
    ensures { result ≡ signed op operand }
{
    match operand {
        Some(Constant::Integer(number)) => integer_outcome(with_sign(op, number)),
        Some(Constant::Logical(_)) => None,
        None => None,
    }
}

fn negated(operand: Option<Constant>) -> Option<Constant>
    ensures { result ≡ negated operand }
{
    match operand {
        Some(Constant::Integer(_)) => None,
        Some(Constant::Logical(truth)) => Some(Constant::Logical(!truth)),
        None => None,
    }
}

fn is_before(known: Known, place: usize, item: usize) -> bool
    ensures { result ≡ is_before known place item }
{
    known.place < place || known.place == place && known.item < item
}

fn value_seen(known: Option<Known>, place: usize, item: usize) -> Option<Constant>
    ensures { result ≡ value_seen known place item }
{
    match known {
        Some(known) => {
            if is_before(known, place, item) {
                known.value
            } else {
                None
            }
        }
        None => None,
    }
}

/// The value of a constant expression at an item of a statement: of the constants that are defined before. `None` where
/// it has another operand, a wrong type, or a fault.
pub fn value_of(known: &NameMap<Known>, place: usize, item: usize, expr: &Expr) -> Option<Constant>
    ensures { result ≡ value_of known.now place item expr.now }
{
    match &expr.node {
        ExprNode::Number(number) => Some(Constant::Integer(*number)),
        ExprNode::Truth(truth) => Some(Constant::Logical(*truth)),
        ExprNode::Named(name) => value_seen(known.get(name).copied(), place, item),
        ExprNode::Ref(_, _) => None,
        ExprNode::Paren(inner) => value_of(known, place, item, inner),
        ExprNode::Signed(op, inner) => signed(*op, value_of(known, place, item, inner)),
        ExprNode::Not(inner) => negated(value_of(known, place, item, inner)),
        ExprNode::Binary(op, left, right) => {
            let left = value_of(known, place, item, left);
            both_computed(*op, left, value_of(known, place, item, right))
        }
    }
}

fn integer_in(value: Option<Constant>) -> Option<i64>
    ensures { result ≡ integer_in value }
{
    match value {
        Some(Constant::Integer(number)) => Some(number),
        Some(Constant::Logical(_)) => None,
        None => None,
    }
}

/// The number that an expression of a statement other than PARAMETER has as its value.
pub fn integer_of(known: &NameMap<Known>, place: usize, expr: &Expr) -> Option<i64>
    ensures { result ≡ integer_of known.now place expr.now }
{
    integer_in(value_of(known, place, 0, expr))
}
