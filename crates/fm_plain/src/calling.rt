//! Calls, and references of functions: a frame is opened on those that are there.

ghost use Rattle.fm_rules.specs.declared.program.Program as declared;
ghost use Rattle.std.specs.Prelude.{◌≡◌, ◌+◌, ◌-◌, Some, None, length, slice_set, IfOk, OnOk, OnErr};
ghost use Rattle.fm_tree.specs.Tree.{trees_from};
ghost use Rattle.fm_mean.specs.Actions.{calls, opens, reference_step, refers};
ghost use Rattle.fm_mean.specs.Calls.{entered};
ghost use Rattle.fm_mean.specs.Fits.{variables_of};
ghost use Rattle.fm_mean.specs.Places.{live};
ghost use Rattle.fm_plain_frame.specs.Memory.{values_of};
ghost use Rattle.fm_mean.specs.Evaluate.{actuals_of, reference_of, refs_in_all};
ghost use Rattle.fm_mean.specs.Names.{unit_at, unit_named};
ghost use Rattle.fm_mean.specs.Process.{Execution};
ghost use Rattle.fm_plain_frame.specs.Frames.{frame_of};
ghost use Rattle.fm_plain_frame.specs.Units.{unit_of};
ghost use Rattle.fm_plain_eval.specs.Outcomes.{IsDone};
ghost use Rattle.fm_plain.specs.Standing.{StandsIn, below_in, frame_in, line_in, point_in, program_in, scope_in, standing, waiting};
ghost use Rattle.fm_plain.specs.Steps.{IsStep, called_in};

use crate::here::{Here, go_to};
use crate::step::{Step, failed, lets_go};
use fm_base::{Name, NoMemory, Seq};
use fm_mean::{Actual, Back};
use fm_plain_eval::{Failure, actuals, references, referent};
use fm_plain_frame::{Frame, LetGo, Reference, UnitView, unit_named};
use fm_plain_passing::{Entered, backs_of, enter};
use fm_tree::{Expr, ExprNode};
use std::alloc::Global;
use std::mem;

/// What a frame is opened with.
#[derive(Drop)]
pub(crate) struct Opening<'a> {
    /// The unit that is called.
    pub callee: UnitView<'a>,
    /// The arguments.
    pub arguments: &'a [Actual],
    /// What it gives back.
    pub backs: Seq<Back>,
    /// Where the caller goes on, unless it stays.
    pub next: Option<u32>,
}

// The cost of a frame: one, and its words.
pub(crate) fn frame_cost(callee: &UnitView<'_>) -> Result<u32, NoMemory>
    ensures { IfOk result (λ cost. cost ≡ 1 + (unit_of callee.now).names.words) }
{
    callee.names().words.checked_add(1).ok_or(NoMemory)
}

fn go_on(top: &mut Frame, next: Option<u32>)
    ensures { (p : declared.Program) → frame_of p top.new ≡ waiting (frame_of p top.old) next }
{
    if let Some(next) = next {
        go_to(top, next);
    }
}

/// What the frame of a unit begins with, whose formals get arguments of the innermost frame.
pub(crate) fn enters(
    alloc: Global,
    here: &Here<'_>,
    top: &mut Frame,
    callee: &UnitView<'_>,
    arguments: &[Actual],
) -> Result<Entered, NoMemory>
    requires stands { StandsIn here.now top.old }
    requires callee { callee.now.program.now ≡ program_in here.now }
    ensures mine { OnOk result (frame_in here.now top.new
        ≡ record (frame_in here.now top.old)
        { values = (entered (unit_of callee.now) (frame_in here.now top.old).values arguments.now).mine }) }
    ensures theirs { IfOk result (λ e. values_of (variables_of (program_in here.now) callee.now.number) e.memory.items
        ≡ (entered (unit_of callee.now) (frame_in here.now top.old).values arguments.now).theirs) }
    ensures drops { IfOk result (λ e. live e.replaced.items
        ≡ (entered (unit_of callee.now) (frame_in here.now top.old).values arguments.now).drops) }
    ensures err { OnErr result (frame_in here.now top.new ≡ frame_in here.now top.old) }
{
    let _number = callee.number();
    enter(
        alloc,
        callee,
        here.unit.variables(),
        top.memory.as_mut_slice(),
        arguments,
    )
}

// The frame is opened. The room for the caller among those below is made first.
fn opens(
    alloc: Global,
    here: &Here<'_>,
    top: &mut Frame,
    below: &mut Vec<Frame>,
    opening: Opening<'_>,
) -> Result<Step, NoMemory>
    requires stands { StandsIn here.now top.old }
    requires callee { opening.callee.program.now ≡ program_in here.now }
    ensures acts { IfOk result (λ r. (w : Execution)
        → IsStep (program_in here.now) w (opens w (waiting (frame_in here.now top.old) opening.entry.next)
        (below_in here.now below.old.items) opening.entry.callee.number (unit_of opening.entry.callee)
        (entered (unit_of opening.entry.callee) (frame_in here.now top.old).values opening.entry.arguments.now)
        opening.entry.backs) (standing (program_in here.now) top.old below.old.items) r
        (standing (program_in here.now) top.new below.new.items)) }
    ensures err { OnErr result (standing (program_in here.now) top.new below.new.items
        ≡ standing (program_in here.now) top.old below.old.items) }
{
    let cost = frame_cost(&opening.callee)?;
    let place = below.len();
    let number = opening.callee.number();
    below.push(Frame::new(alloc, number, Vec::new(alloc), Seq::new(alloc)))?;
    match enters(alloc, here, top, &opening.callee, opening.arguments) {
        Err(want) => {
            below.pop();
            Err(want)
        }
        Ok(entered) => {
            go_on(top, opening.next);
            let frame = Frame::new(alloc, number, entered.memory, opening.backs);
            below[place] = mem::replace(top, frame);
            let ports = LetGo::of_replaced(alloc, entered.replaced);
            Ok(lets_go(here, ports, cost))
        }
    }
}

fn actuals_of(
    alloc: Global,
    here: &Here<'_>,
    top: &Frame,
    arguments: &[Expr],
) -> Result<Seq<Actual>, Failure>
    requires { StandsIn here.now top.now }
    ensures { IsDone (actuals_of (scope_in here.now top.now) (trees_from arguments.now) 0) result }
{
    let (actuals, _) = actuals(alloc, &here.scope(top), arguments, 0)?;
    Ok(actuals)
}

/// CALL, with these arguments.
pub(crate) fn calls(
    alloc: Global,
    here: &Here<'_>,
    top: &mut Frame,
    below: &mut Vec<Frame>,
    name: &Name,
    arguments: &[Expr],
) -> Result<Step, NoMemory>
    requires { StandsIn here.now top.old }
    ensures acts { IfOk result (λ r. (w : Execution)
        → IsStep (program_in here.now) w (calls w (point_in here.now) (frame_in here.now top.old)
        (below_in here.now below.old.items) (unit_named (program_in here.now) name.now)
        (actuals_of (scope_in here.now top.old) (trees_from arguments.now) 0))
        (standing (program_in here.now) top.old below.old.items) r
        (standing (program_in here.now) top.new below.new.items)) }
    ensures err { OnErr result (standing (program_in here.now) top.new below.new.items
        ≡ standing (program_in here.now) top.old below.old.items) }
{
    let Some((_, callee)) = unit_named(here.unit.program(), name) else {
        return Ok(Step::Rest);
    };
    match actuals_of(alloc, here, top, arguments) {
        Err(failure) => failed(here.line(), failure),
        Ok(actuals) => {
            let arguments = actuals.as_slice();
            let opening = Opening {
                callee,
                arguments,
                backs: backs_of(alloc, &callee, arguments)?,
                next: Some(here.entry.after),
            };
            opens(alloc, here, top, below, opening)
        }
    }
}

// The arguments of a reference, whose own references are the last that were done.
fn last_actuals(
    alloc: Global,
    here: &Here<'_>,
    top: &Frame,
    arguments: &[Expr],
) -> Result<Seq<Actual>, Failure>
    requires { StandsIn here.now top.now }
    ensures { IsDone (actuals_of (scope_in here.now top.now) (trees_from arguments.now)
        (length (frame_in here.now top.now).results - refs_in_all (scope_in here.now top.now)
        (trees_from arguments.now))) result }
{
    let scope = here.scope(top);
    let own = references(&scope, arguments, 0)?;
    let (actuals, _) = actuals(
        alloc,
        &scope,
        arguments,
        top.results.len().saturating_sub(own),
    )?;
    Ok(actuals)
}

// The number of the FUNCTION that a reference means.
pub(crate) fn called(here: &Here<'_>, top: &Frame, name: &Name) -> Option<u32>
    requires { StandsIn here.now top.now }
    ensures { result ≡ called_in (reference_of (scope_in here.now top.now) name.now) }
{
    match referent(&here.scope(top), name) {
        Reference::Element(_, _) => None,
        Reference::Call(number, _) => Some(number),
        Reference::Built(_) => None,
        Reference::Unknown => None,
    }
}

fn refers(
    alloc: Global,
    here: &Here<'_>,
    top: &mut Frame,
    below: &mut Vec<Frame>,
    name: &Name,
    arguments: &[Expr],
) -> Result<Step, NoMemory>
    requires { StandsIn here.now top.old }
    ensures acts { IfOk result (λ r. (w : Execution)
        → IsStep (program_in here.now) w (refers w (line_in here.now) (frame_in here.now top.old)
        (below_in here.now below.old.items) (reference_of (scope_in here.now top.old) name.now)
        (actuals_of (scope_in here.now top.old) (trees_from arguments.now) (length (frame_in here.now top.old).results -
        refs_in_all (scope_in here.now top.old) (trees_from arguments.now))))
        (standing (program_in here.now) top.old below.old.items) r
        (standing (program_in here.now) top.new below.new.items)) }
    ensures err { OnErr result (standing (program_in here.now) top.new below.new.items
        ≡ standing (program_in here.now) top.old below.old.items) }
{
    let Some(number) = called(here, top, name) else {
        return Ok(Step::Rest);
    };
    let Some(callee) = UnitView::new(here.unit.program(), number) else {
        return Ok(Step::Rest);
    };
    match last_actuals(alloc, here, top, arguments) {
        Err(failure) => failed(here.line(), failure),
        Ok(actuals) => {
            let opening = Opening {
                callee,
                arguments: actuals.as_slice(),
                backs: Seq::new(alloc),
                next: None,
            };
            opens(alloc, here, top, below, opening)
        }
    }
}

/// The next reference of an entry.
pub(crate) fn reference_step(
    alloc: Global,
    here: &Here<'_>,
    top: &mut Frame,
    below: &mut Vec<Frame>,
    tree: &Expr,
) -> Result<Step, NoMemory>
    requires { StandsIn here.now top.old }
    ensures acts { IfOk result (λ r. (w : Execution)
        → IsStep (program_in here.now) w (reference_step w (line_in here.now) (scope_in here.now top.old)
        (frame_in here.now top.old) (below_in here.now below.old.items) tree.now)
        (standing (program_in here.now) top.old below.old.items) r
        (standing (program_in here.now) top.new below.new.items)) }
    ensures err { OnErr result (standing (program_in here.now) top.new below.new.items
        ≡ standing (program_in here.now) top.old below.old.items) }
{
    match &tree.node {
        ExprNode::Ref(name, arguments) => refers(alloc, here, top, below, name, arguments),
        ExprNode::Number(_) => Ok(Step::Rest),
        ExprNode::Truth(_) => Ok(Step::Rest),
        ExprNode::Named(_) => Ok(Step::Rest),
        ExprNode::Paren(_) => Ok(Step::Rest),
        ExprNode::Signed(_, _) => Ok(Step::Rest),
        ExprNode::Not(_) => Ok(Step::Rest),
        ExprNode::Binary(_, _, _) => Ok(Step::Rest),
    }
}
