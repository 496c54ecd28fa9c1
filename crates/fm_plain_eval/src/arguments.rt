//! Arguments, and items of a message.

ghost use Rattle.std.specs.Prelude.{◌≡◌, ◌+◌, IfOk, None, Some, [], ◌∷◌};
ghost use Rattle.fm_mean.specs.Places.{words_of};
ghost use Rattle.fm_tree.specs.Tree.{Ref, trees_from};
ghost use Rattle.fm_mean.specs.declared.place.Actual.TheVariants.{Given};
ghost use Rattle.fm_mean.specs.Evaluate.{actual_at, actual_of, actuals_of, named_actual, refs_in, refs_in_all, value_alone, value_of};
ghost use Rattle.fm_mean.specs.Names.{variable_of};
ghost use Rattle.fm_plain_frame.specs.Units.{unit_of};
ghost use Rattle.fm_plain_eval.specs.Outcomes.{IsFrom};
ghost use Rattle.fm_plain_eval.specs.Scopes.{scope_of};

use crate::failure::Failure;
use crate::reference::referent;
use crate::scopes::{Scope, single, whole};
use crate::values::{element, value};
use fm_base::{Name, NoMemory, Seq};
use fm_mean::{Actual, Span};
use fm_plain_frame::Reference;
use fm_plain_frame::memory::words;
use fm_tree::{Expr, ExprNode, Kind};
use std::alloc::Global;

/// What stands at a span of a variable of this kind.
fn actual_at(alloc: Global, scope: &Scope<'_>, kind: &Kind, span: Span) -> Result<Actual, NoMemory>
    ensures { IfOk result (λ a. a ≡ actual_at (scope_of scope.now) kind.now span) }
{
    match kind {
        Kind::In(_) => Ok(Actual::Taken(span)),
        Kind::Out(_) => Ok(Actual::Taken(span)),
        Kind::Integer => given(alloc, scope, span),
        Kind::Logical => given(alloc, scope, span),
    }
}

fn given(alloc: Global, scope: &Scope<'_>, span: Span) -> Result<Actual, NoMemory>
    ensures { IfOk result (λ a. a ≡ Given (words_of (scope_of scope.now).values span) (Some span)) }
{
    let words = words(alloc, scope.memory, scope.unit.variables(), span)?;
    Ok(Actual::Given(words, Some(span)))
}

/// A word that stands for itself.
fn word_alone(alloc: Global, word: i64) -> Result<Actual, NoMemory>
    ensures { IfOk result (λ a. a ≡ Given (word ∷ []) None) }
{
    let mut words = Seq::new(alloc);
    words.push(word)?;
    Ok(Actual::Given(words, None))
}

fn named_actual(alloc: Global, scope: &Scope<'_>, name: &Name) -> Result<Actual, NoMemory>
    ensures { IfOk result
        (λ a. a ≡ named_actual (scope_of scope.now) name.now (variable_of (unit_of scope.now.unit) name.now)) }
{
    match scope.unit.variable(name) {
        None => word_alone(alloc, scope.named(name).word()),
        Some((place, variable)) => {
            actual_at(alloc, scope, &variable.kind, whole(place, variable))
        }
    }
}

/// An expression that is passed as its value.
fn alone(
    alloc: Global,
    scope: &Scope<'_>,
    tree: &Expr,
    next: usize,
) -> Result<(Actual, usize), Failure>
    ensures { IsFrom (value_alone (value_of (scope_of scope.now) tree.now next))
        (next + refs_in (scope_of scope.now) tree.now) result }
{
    let (value, next) = value(alloc, scope, tree, next)?;
    Ok((word_alone(alloc, value.word())?, next))
}

/// A tree that is this name with these arguments.
fn applied_actual(
    alloc: Global,
    scope: &Scope<'_>,
    tree: &Expr,
    name: &Name,
    arguments: &[Expr],
    next: usize,
) -> Result<(Actual, usize), Failure>
    requires { tree.now ≡ Ref name.now (trees_from arguments.now) }
    ensures { IsFrom (actual_of (scope_of scope.now) (Ref name.now (trees_from arguments.now)) next)
        (next + refs_in (scope_of scope.now) (Ref name.now (trees_from arguments.now))) result }
{
    match referent(scope, name) {
        Reference::Element(place, variable) => {
            let (element, next) = element(alloc, scope, place, variable, arguments, next)?;
            let span = single(place, element);
            Ok((actual_at(alloc, scope, &variable.kind, span)?, next))
        }
        Reference::Call(_, _) => alone(alloc, scope, tree, next),
        Reference::Built(_) => alone(alloc, scope, tree, next),
        Reference::Unknown => alone(alloc, scope, tree, next),
    }
}

fn actual(
    alloc: Global,
    scope: &Scope<'_>,
    tree: &Expr,
    next: usize,
) -> Result<(Actual, usize), Failure>
    ensures { IsFrom (actual_of (scope_of scope.now) tree.now next) (next + refs_in (scope_of scope.now) tree.now)
        result }
{
    match &tree.node {
        ExprNode::Named(name) => Ok((named_actual(alloc, scope, name)?, next)),
        ExprNode::Ref(name, arguments) => {
            applied_actual(alloc, scope, tree, name, arguments, next)
        }
        ExprNode::Number(_) => alone(alloc, scope, tree, next),
        ExprNode::Truth(_) => alone(alloc, scope, tree, next),
        ExprNode::Paren(_) => alone(alloc, scope, tree, next),
        ExprNode::Signed(_, _) => alone(alloc, scope, tree, next),
        ExprNode::Not(_) => alone(alloc, scope, tree, next),
        ExprNode::Binary(_, _, _) => alone(alloc, scope, tree, next),
    }
}

/// Arguments or items of a message, evaluated from left to right, before which `next` references of the entry stand,
/// and how many stand before what comes behind them. A variable, an element or a whole array has a place, any other
/// expression is passed as its value. The first fault; or want of memory.
pub fn actuals(
    alloc: Global,
    scope: &Scope<'_>,
    trees: &[Expr],
    next: usize,
) -> Result<(Seq<Actual>, usize), Failure>
    ensures { IsFrom (actuals_of (scope_of scope.now) (trees_from trees.now) next)
        (next + refs_in_all (scope_of scope.now) (trees_from trees.now)) result }
{
    let mut actuals = Seq::new(alloc);
    let mut next = next;
    'trees: for tree in trees {
        let (passed, behind) = actual(alloc, scope, tree, next)?;
        actuals.push(passed)?;
        next = behind;
    }
    Ok((actuals, next))
}
