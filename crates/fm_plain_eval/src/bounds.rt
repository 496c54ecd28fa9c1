//! The bounds of loops.

ghost use Rattle.std.specs.Prelude.{◌≡◌, ◌+◌};
ghost use Rattle.fm_mean.specs.Actions.{loop_bounds, step_number};
ghost use Rattle.fm_mean.specs.Evaluate.{number_of, refs_in};
ghost use Rattle.fm_plain_eval.specs.Outcomes.{IsDone, IsFrom};
ghost use Rattle.fm_plain_eval.specs.Scopes.{scope_of};

use crate::failure::Failure;
use crate::scopes::Scope;
use crate::values::value;
use fm_tree::{Expr, LoopHead};
use std::alloc::Global;

/// The word of an expression, and how many references stand before what comes behind it.
pub(crate) fn number(
    alloc: Global,
    scope: &Scope<'_>,
    tree: &Expr,
    next: usize,
) -> Result<(i64, usize), Failure>
    ensures { IsFrom (number_of (scope_of scope.now) tree.now next) (next + refs_in (scope_of scope.now) tree.now)
        result }
{
    let (value, next) = value(alloc, scope, tree, next)?;
    Ok((value.word(), next))
}

/// What a loop adds to its variable: 1 where nothing is written.
fn step_number(
    alloc: Global,
    scope: &Scope<'_>,
    step: &Option<Expr>,
    next: usize,
) -> Result<i64, Failure>
    ensures { IsDone (step_number (scope_of scope.now) step.now next) result }
{
    match step {
        None => Ok(1),
        Some(tree) => {
            let (step, _) = number(alloc, scope, tree, next)?;
            Ok(step)
        }
    }
}

/// Where a loop begins and ends, and what it adds to its variable. The first fault; or want of memory.
pub fn loop_bounds(
    alloc: Global,
    scope: &Scope<'_>,
    head: &LoopHead,
) -> Result<(i64, i64, i64), Failure>
    ensures { IsDone (loop_bounds (scope_of scope.now) head.now) result }
{
    let (from, next) = number(alloc, scope, &head.from, 0)?;
    let (to, next) = number(alloc, scope, &head.to, next)?;
    let step = step_number(alloc, scope, &head.step, next)?;
    Ok((from, to, step))
}
