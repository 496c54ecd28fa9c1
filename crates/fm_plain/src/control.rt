//! What goes to another entry: jumps, tests, and statements that do nothing else.

ghost use Rattle.std.specs.Prelude.{◌≡◌, IfOk, OnErr};
ghost use Rattle.fm_mean.specs.Actions.{goes_to, jumps, tests};
ghost use Rattle.fm_mean.specs.Evaluate.{value_of};
ghost use Rattle.fm_plain_eval.specs.Outcomes.{IsDone};
ghost use Rattle.fm_plain.specs.Standing.{ActsOn, StandsIn, frame_in, point_in, scope_in};

use crate::here::{Here, go_to};
use crate::step::{Step, failed};
use fm_base::NoMemory;
use fm_plain_eval::{Failure, value};
use fm_plain_frame::Frame;
use fm_tree::Expr;
use fm_values::Value;
use std::alloc::Global;

/// The process goes to an entry.
pub(crate) fn goes_to(here: &Here<'_>, top: &mut Frame, next: u32) -> Step
    ensures { ActsOn here.now (λ w below. goes_to w below (frame_in here.now top.old) next) top.old result top.new }
{
    let _unit = here.unit;
    go_to(top, next);
    Step::Made(1)
}

/// GOTO.
pub(crate) fn jumps(here: &Here<'_>, top: &mut Frame, next: Option<u32>) -> Step
    ensures { ActsOn here.now (λ w below. jumps w below (frame_in here.now top.old) next) top.old result top.new }
{
    match next {
        None => Step::Rest,
        Some(next) => goes_to(here, top, next),
    }
}

fn condition(alloc: Global, here: &Here<'_>, top: &Frame, tree: &Expr) -> Result<Value, Failure>
    requires { StandsIn here.now top.now }
    ensures { IsDone (value_of (scope_in here.now top.now) tree.now 0) result }
{
    let (value, _) = value(alloc, &here.scope(top), tree, 0)?;
    Ok(value)
}

/// IF, ELSEIF and DOWHILE: a test leads into its branch or body, or elsewhere.
pub(crate) fn tests(
    alloc: Global,
    here: &Here<'_>,
    top: &mut Frame,
    tree: &Expr,
) -> Result<Step, NoMemory>
    requires { StandsIn here.now top.old }
    ensures acts { IfOk result (λ r. ActsOn here.now (λ w below. tests w (point_in here.now) (frame_in here.now top.old)
        below (value_of (scope_in here.now top.old) tree.now 0)) top.old r top.new) }
    ensures err { OnErr result (frame_in here.now top.new ≡ frame_in here.now top.old) }
{
    match condition(alloc, here, top, tree) {
        Err(failure) => failed(here.line(), failure),
        Ok(truth) => {
            let next = if truth.is_true() {
                here.entry.after
            } else {
                here.links.other
            };
            go_to(top, next);
            Ok(Step::Made(1))
        }
    }
}
