//! The return from a unit.

ghost use Rattle.std.specs.Prelude.{◌≡◌, ◌+◌, ◌<◌, length, slice_set, IfOk, OnErr};
ghost use Rattle.fm_mean.specs.Actions.{gives_back, results_in, returns};
ghost use Rattle.fm_mean.specs.Calls.{back_words};
ghost use Rattle.fm_mean.specs.Process.{Execution};
ghost use Rattle.fm_tree.specs.declared.form.UnitKind.{UnitKind as Kind};
ghost use Rattle.fm_plain_frame.specs.Units.{unit_of};
ghost use Rattle.fm_mean.specs.Places.{live};
ghost use Rattle.fm_plain_frame.specs.Frames.{frame_of};
ghost use Rattle.fm_plain.specs.Standing.{HasGivenBack, StandsIn, below_in, frame_in, program_in, standing};
ghost use Rattle.fm_plain.specs.Steps.{IsStep};

use crate::event::Event;
use crate::here::Here;
use crate::looping::scalar_place;
use crate::step::{Step, lets_go, put_out_with};
use fm_base::{NoMemory, PortValue};
use fm_plain_frame::memory::number_at;
use fm_plain_frame::{Frame, variables_of};
use fm_plain_passing::{back_words, give_back};
use fm_rules::Program;
use fm_tree::UnitKind;
use std::alloc::Global;
use std::mem;

// Copies back what a frame gives, to the frame below it; answers the ports that were put out.
fn copy_back(
    alloc: Global,
    program: &Program,
    caller: &mut Frame,
    callee: &mut Frame,
) -> Result<Vec<Option<PortValue>>, NoMemory>
    ensures ok { IfOk result
        (λ d. HasGivenBack program.now caller.old callee.old caller.new callee.new (live d.items)) }
    ensures err_caller { OnErr result (frame_of program.now caller.new ≡ frame_of program.now caller.old) }
    ensures err_callee { OnErr result (frame_of program.now callee.new ≡ frame_of program.now callee.old) }
{
    give_back(
        alloc,
        variables_of(program, caller.unit),
        caller.memory.as_mut_slice(),
        variables_of(program, callee.unit),
        callee.memory.as_mut_slice(),
        callee.backs.as_slice(),
    )
}

// The cost of giving back.
fn back_cost(frame: &Frame) -> Result<u32, NoMemory>
    ensures { IfOk result (λ cost. cost ≡ 1 + back_words frame.now.backs) }
{
    let words = back_words(frame.backs.as_slice())?;
    let cost = words.checked_add(1).ok_or(NoMemory)?;
    u32::try_from(cost).map_err(|_| NoMemory)
}

// The frame of a subroutine gives back and is gone, with what it still holds.
fn gives_back(
    alloc: Global,
    here: &Here<'_>,
    top: &mut Frame,
    below: &mut Vec<Frame>,
) -> Result<Step, NoMemory>
    requires { StandsIn here.now top.old }
    ensures acts { IfOk result (λ r. (w : Execution)
        → IsStep (program_in here.now) w (gives_back w (frame_in here.now top.old) (below_in here.now below.old.items))
        (standing (program_in here.now) top.old below.old.items) r
        (standing (program_in here.now) top.new below.new.items)) }
    ensures err { OnErr result (standing (program_in here.now) top.new below.new.items
        ≡ standing (program_in here.now) top.old below.old.items) }
{
    let Some(last) = below.len().checked_sub(1) else {
        return Ok(Step::Event(Event::End));
    };
    let program = here.unit.program();
    let cost = back_cost(top)?;
    let replaced = copy_back(alloc, program, &mut below[last], top)?;
    let Some(caller) = below.pop() else {
        return Ok(Step::Rest);
    };
    let ports = put_out_with(alloc, replaced, mem::replace(top, caller));
    Ok(lets_go(here, ports, cost))
}

// The frame of a function leaves its result with the entry that refers to it.
fn results_in(
    alloc: Global,
    here: &Here<'_>,
    top: &mut Frame,
    below: &mut Vec<Frame>,
) -> Result<Step, NoMemory>
    requires { StandsIn here.now top.old }
    ensures acts { IfOk result (λ r. (w : Execution)
        → IsStep (program_in here.now) w
        (results_in w (unit_of here.now.unit) (frame_in here.now top.old) (below_in here.now below.old.items))
        (standing (program_in here.now) top.old below.old.items) r
        (standing (program_in here.now) top.new below.new.items)) }
    ensures err { OnErr result (standing (program_in here.now) top.new below.new.items
        ≡ standing (program_in here.now) top.old below.old.items) }
{
    let Some(last) = below.len().checked_sub(1) else {
        return Ok(Step::Event(Event::End));
    };
    let place = scalar_place(here.unit.result_variable());
    let word = number_at(top.memory.as_slice(), here.unit.variables(), place);
    below[last].results.push(word)?;
    let Some(caller) = below.pop() else {
        return Ok(Step::Rest);
    };
    let ports = put_out_with(alloc, Vec::new(alloc), mem::replace(top, caller));
    Ok(lets_go(here, ports, 1))
}

/// RETURN, and END of a unit.
pub(crate) fn returns(
    alloc: Global,
    here: &Here<'_>,
    top: &mut Frame,
    below: &mut Vec<Frame>,
    kind: UnitKind,
) -> Result<Step, NoMemory>
    requires { StandsIn here.now top.old }
    ensures acts { IfOk result (λ r. (w : Execution)
        → IsStep (program_in here.now) w
        (returns w (unit_of here.now.unit) (frame_in here.now top.old) (below_in here.now below.old.items) kind)
        (standing (program_in here.now) top.old below.old.items) r
        (standing (program_in here.now) top.new below.new.items)) }
    ensures err { OnErr result (standing (program_in here.now) top.new below.new.items
        ≡ standing (program_in here.now) top.old below.old.items) }
{
    match kind {
        UnitKind::Program => Ok(Step::Event(Event::End)),
        UnitKind::Process => Ok(Step::Event(Event::End)),
        UnitKind::Subroutine => gives_back(alloc, here, top, below),
        UnitKind::Function => results_in(alloc, here, top, below),
    }
}
