//! Process calls: a start is put behind those of the block.

ghost use Rattle.std.specs.Prelude.{◌≡◌, Ok, Some, IfOk, OnErr, slice_set};
ghost use Rattle.std.specs.Option.{option_copied};
ghost use Rattle.fm_tree.specs.Tree.{trees_from};
ghost use Rattle.fm_mean.specs.Actions.{pended, process_calls, seat_at, where_in};
ghost use Rattle.fm_mean.specs.Calls.{backs_of, entered};
ghost use Rattle.fm_mean.specs.Evaluate.{actuals_of, refs_in_all};
ghost use Rattle.fm_mean.specs.Names.{unit_named};
ghost use Rattle.fm_map.specs.Placement.{fitted};
ghost use Rattle.fm_plain_frame.specs.Units.{unit_of};
ghost use Rattle.fm_plain_eval.specs.Outcomes.{IsDone};
ghost use Rattle.fm_plain.specs.Operands.{arguments_and_seat};
ghost use Rattle.fm_plain.specs.Standing.{ActsAt, ActsOn, StandsIn, frame_in, point_in, program_in, scope_in};

use crate::calling::frame_cost;
use crate::here::{Here, go_to};
use crate::step::{Step, failed, lets_go};
use fm_base::{Machine, Name, NoMemory, Seq};
use fm_mean::Actual;
use fm_plain_eval::{Failure, actuals, seat};
use fm_plain_frame::{Frame, LetGo, Start, UnitView, unit_named};
use fm_plain_passing::{backs_of, enter};
use fm_tree::{CallPart, Expr, Where};
use std::alloc::Global;

/// Where the process is put.
pub(crate) fn where_in(part: &Option<CallPart>) -> Option<&Where>
    ensures { option_copied result ≡ where_in part.now }
{
    match part {
        None => None,
        Some(part) => part.place.as_ref(),
    }
}

fn arguments_and_seat(
    alloc: Global,
    here: &Here<'_>,
    top: &Frame,
    callee: &UnitView<'_>,
    arguments: &[Expr],
    place: Option<&Where>,
) -> Result<(Seq<Actual>, (Machine, u32)), Failure>
    requires { StandsIn here.now top.now }
    ensures { IsDone (arguments_and_seat (scope_in here.now top.now) here.now.machine here.now.node
        (unit_of callee.now).names.extents arguments.now (option_copied place.entry)) result }
{
    let scope = here.scope(top);
    let (actuals, next) = actuals(alloc, &scope, arguments, 0)?;
    let extents = callee.names().extents.as_slice();
    let seat = seat(alloc, &scope, here.machine, here.node, extents, place, next)?;
    Ok((actuals, seat))
}

// The start comes last among those of the block. Its room is made first.
fn pends(
    alloc: Global,
    here: &Here<'_>,
    top: &mut Frame,
    callee: &UnitView<'_>,
    arguments: &[Actual],
    seat: (Machine, u32),
) -> Result<Step, NoMemory>
    requires stands { StandsIn here.now top.old }
    requires callee { callee.now.program.now ≡ program_in here.now }
    ensures acts { IfOk result (λ r. ActsOn here.now (λ w below. pended w (point_in here.now)
        (frame_in here.now top.old) below callee.now.number (unit_of callee.now)
        (backs_of (unit_of callee.now) arguments.now) seat
        (entered (unit_of callee.now) (frame_in here.now top.old).values arguments.now)) top.old r top.new) }
    ensures err { OnErr result (frame_in here.now top.new ≡ frame_in here.now top.old) }
{
    let cost = frame_cost(callee)?;
    let backs = backs_of(alloc, callee, arguments)?;
    let (machine, node) = seat;
    let unit = callee.number();
    let place = top.starts.len();
    top.starts.push(Start {
        unit,
        memory: Vec::new(alloc),
        backs: Seq::new(alloc),
        machine,
        node,
    })?;
    let entered = enter(
        alloc,
        callee,
        here.unit.variables(),
        top.memory.as_mut_slice(),
        arguments,
    );
    match entered {
        Err(want) => {
            top.starts.pop();
            Err(want)
        }
        Ok(entered) => {
            top.starts[place] = Start {
                unit,
                memory: entered.memory,
                backs,
                machine,
                node,
            };
            go_to(top, here.entry.after);
            let ports = LetGo::of_replaced(alloc, entered.replaced);
            Ok(lets_go(here, ports, cost))
        }
    }
}

/// PROCESSCALL.
pub(crate) fn process_calls(
    alloc: Global,
    here: &Here<'_>,
    top: &mut Frame,
    name: &Name,
    arguments: &[Expr],
    place: Option<&Where>,
) -> Result<Step, NoMemory>
    requires { StandsIn here.now top.old }
    ensures acts { IfOk result (λ r. ActsAt here.now (λ w below. process_calls w (scope_in here.now top.old)
        (point_in here.now) (frame_in here.now top.old) below (unit_named (program_in here.now) name.now) arguments.now
        (option_copied place.entry)) top.old r top.new) }
    ensures err { OnErr result (frame_in here.now top.new ≡ frame_in here.now top.old) }
{
    let Some((_, callee)) = unit_named(here.unit.program(), name) else {
        return Ok(Step::Rest);
    };
    match arguments_and_seat(alloc, here, top, &callee, arguments, place) {
        Err(failure) => failed(here.line(), failure),
        Ok((actuals, seat)) => pends(alloc, here, top, &callee, actuals.as_slice(), seat),
    }
}
