//! The values of expressions.

ghost use Rattle.std.specs.Prelude.{◌≡◌, ◌+◌, Some, slice_get};
ghost use Rattle.fm_tree.specs.Tree.{Ref, trees_from};
ghost use Rattle.fm_plain_eval.specs.Operands.{element_of};
ghost use Rattle.fm_mean.specs.Evaluate.{numbers_of, refs_in, refs_in_all, value_of};
ghost use Rattle.fm_plain_frame.specs.Units.{unit_of};
ghost use Rattle.fm_plain_eval.specs.Outcomes.{IsFrom};
ghost use Rattle.fm_plain_eval.specs.Scopes.{scope_of};

use crate::counting::references;
use crate::failure::Failure;
use crate::reference::referent;
use crate::scopes::Scope;
use fm_base::{Name, NoMemory, Seq};
use fm_plain_frame::Reference;
use fm_symbols::Variable;
use fm_tree::{Expr, ExprNode};
use fm_values::{Value, apply, with_sign};
use std::alloc::Global;

/// The value of an expression before which `next` references of the entry stand, and how many stand before what comes
/// behind it. Its first fault from left to right; or want of memory.
#[cycle(evaluating)]
pub fn value(
    alloc: Global,
    scope: &Scope<'_>,
    tree: &Expr,
    next: usize,
) -> Result<(Value, usize), Failure>
    ensures { IsFrom (value_of (scope_of scope.now) tree.now next) (next + refs_in (scope_of scope.now) tree.now)
        result }
{
    match &tree.node {
        ExprNode::Number(number) => Ok((Value::Number(*number), next)),
        ExprNode::Truth(truth) => Ok((Value::Truth(*truth), next)),
        ExprNode::Named(name) => Ok((scope.named(name), next)),
        ExprNode::Ref(name, arguments) => reference_value(alloc, scope, name, arguments, next),
        ExprNode::Paren(inner) => value(alloc, scope, inner, next),
        ExprNode::Signed(op, inner) => {
            let (operand, next) = value(alloc, scope, inner, next)?;
            Ok((Value::Number(with_sign(*op, operand.word())?), next))
        }
        ExprNode::Not(inner) => {
            let (operand, next) = value(alloc, scope, inner, next)?;
            Ok((Value::Truth(!operand.is_true()), next))
        }
        ExprNode::Binary(op, first, second) => {
            let (left, next) = value(alloc, scope, first, next)?;
            let (right, next) = value(alloc, scope, second, next)?;
            Ok((apply(*op, left, right)?, next))
        }
    }
}

#[cycle(evaluating)]
fn reference_value(
    alloc: Global,
    scope: &Scope<'_>,
    name: &Name,
    arguments: &[Expr],
    next: usize,
) -> Result<(Value, usize), Failure>
    ensures { IsFrom (value_of (scope_of scope.now) (Ref name.now (trees_from arguments.now)) next)
        (next + refs_in (scope_of scope.now) (Ref name.now (trees_from arguments.now))) result }
{
    match referent(scope, name) {
        Reference::Element(place, variable) => {
            let (element, next) = element(alloc, scope, place, variable, arguments, next)?;
            Ok((scope.element_value(place, variable, element), next))
        }
        Reference::Call(_, callee) => {
            let number = references(scope, arguments, next)?;
            let next = number.checked_add(1).ok_or(NoMemory)?;
            Ok((scope.result(&callee, number), next))
        }
        Reference::Built(intrinsic) => {
            let (numbers, next) = numbers(alloc, scope, arguments, next)?;
            Ok((Value::Number(intrinsic.apply(numbers.as_slice())?), next))
        }
        Reference::Unknown => {
            let next = references(scope, arguments, next)?;
            Ok((Value::Number(0), next))
        }
    }
}

/// The place of an element among those of the variable at this place, and how many references stand before what comes
/// behind its subscripts. All subscripts are evaluated before one is tested.
#[cycle(evaluating)]
pub(crate) fn element(
    alloc: Global,
    scope: &Scope<'_>,
    place: u32,
    variable: &Variable,
    subscripts: &[Expr],
    next: usize,
) -> Result<(usize, usize), Failure>
    requires { slice_get (unit_of scope.now.unit).names.variables place ≡ Some variable.now }
    ensures { IsFrom (element_of (scope_of scope.now) variable.now (trees_from subscripts.now) next)
        (next + refs_in_all (scope_of scope.now) (trees_from subscripts.now)) result }
{
    let (numbers, next) = numbers(alloc, scope, subscripts, next)?;
    let element = scope.element_place(place, variable, numbers.as_slice())?;
    Ok((element, next))
}

/// The words of expressions from left to right, and how many references stand before what comes behind them.
#[cycle(evaluating)]
pub fn numbers(
    alloc: Global,
    scope: &Scope<'_>,
    trees: &[Expr],
    next: usize,
) -> Result<(Seq<i64>, usize), Failure>
    ensures { IsFrom (numbers_of (scope_of scope.now) (trees_from trees.now) next)
        (next + refs_in_all (scope_of scope.now) (trees_from trees.now)) result }
{
    let mut numbers = Seq::new(alloc);
    let mut next = next;
    'trees: for tree in trees {
        let (value, behind) = value(alloc, scope, tree, next)?;
        numbers.push(value.word())?;
        next = behind;
    }
    Ok((numbers, next))
}
