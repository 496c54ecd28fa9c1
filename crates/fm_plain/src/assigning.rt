//! Assignments and printed lines.

ghost use Rattle.std.specs.Prelude.{◌≡◌, IfOk, OnErr};
ghost use Rattle.fm_mean.specs.Actions.{assigns, prints};
ghost use Rattle.fm_mean.specs.Evaluate.{place_of, printed_all, refs_in_var, value_of};
ghost use Rattle.fm_plain_eval.specs.Outcomes.{IsDone};
ghost use Rattle.fm_plain.specs.Operands.{target_and_value};
ghost use Rattle.fm_plain.specs.Standing.{ActsOn, StandsIn, frame_in, point_in, scope_in};

use crate::here::Here;
use crate::step::{Step, failed};
use fm_base::NoMemory;
use fm_mean::Span;
use fm_plain_eval::{Failure, line, place, value};
use fm_plain_frame::Frame;
use fm_tree::{Expr, Item, Var};
use fm_values::Value;
use std::alloc::Global;

fn place_and_value(
    alloc: Global,
    here: &Here<'_>,
    top: &Frame,
    target: &Var,
    expr: &Expr,
) -> Result<(Span, Value), Failure>
    requires { StandsIn here.now top.now }
    ensures { IsDone (target_and_value (scope_in here.now top.now) target.now expr.now) result }
{
    let scope = here.scope(top);
    let (place, next) = place(alloc, &scope, target, 0)?;
    let (value, _) = value(alloc, &scope, expr, next)?;
    Ok((place, value))
}

/// An assignment.
pub(crate) fn assigns(
    alloc: Global,
    here: &Here<'_>,
    top: &mut Frame,
    target: &Var,
    expr: &Expr,
) -> Result<Step, NoMemory>
    requires { StandsIn here.now top.old }
    ensures acts { IfOk result (λ r. ActsOn here.now (λ w below. assigns w (point_in here.now)
        (frame_in here.now top.old) below (place_of (scope_in here.now top.old) target.now 0)
        (value_of (scope_in here.now top.old) expr.now (refs_in_var (scope_in here.now top.old) target.now))) top.old r
        top.new) }
    ensures err { OnErr result (frame_in here.now top.new ≡ frame_in here.now top.old) }
{
    match place_and_value(alloc, here, top, target, expr) {
        Err(failure) => failed(here.line(), failure),
        Ok((place, value)) => {
            here.put_number(top, place, value.word(), here.entry.after);
            Ok(Step::Made(1))
        }
    }
}

/// PRINT and WRITE. A line costs its bytes with its line feed.
pub(crate) fn prints(
    alloc: Global,
    here: &Here<'_>,
    top: &Frame,
    items: &[Item],
) -> Result<Step, NoMemory>
    requires { StandsIn here.now top.now }
    ensures { IfOk result (λ r. ActsOn here.now (λ w below. prints w (point_in here.now) (frame_in here.now top.now)
        below (printed_all (scope_in here.now top.now) items.now 0)) top.now r top.now) }
{
    match line(alloc, &here.scope(top), items) {
        Err(failure) => failed(here.line(), failure),
        Ok(text) => {
            let bytes = u32::try_from(text.len()).map_err(|_| NoMemory)?;
            let cost = bytes.checked_add(2).ok_or(NoMemory)?;
            Ok(Step::Prints(text, cost, here.entry.after))
        }
    }
}
