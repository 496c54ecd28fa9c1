//! Calls, references and starts.

ghost use Rattle.std.specs.Prelude.{◌≡◌, pos, [], IfOk, OnOk, Some, None, replicate};
ghost use Rattle.fm_code.specs.Statements.{unit_at, new_frame, ran, starts};
ghost use Rattle.fm_code.specs.Passing.{all_fit};
ghost use Rattle.fm_machine_calls.specs.Looks.{look_in};
ghost use Rattle.fm_machine.specs.Finished.{opened_by, opening, starting, went, told, Stays};

use crate::performing::Finish;
use crate::spares::spare_frame;
use fm_base::{Machine, NoMemory, Seq};
use fm_code::{Body, Frame, Operand, Pile, Place, Start, Unit};
use fm_machine_calls::{Look, all_fit, enter, fail, nulls, seat_for, unit_at};
use fm_machine_instr::go_to;
use std::alloc::Global;
use std::mem::replace;

/// Makes a frame one of a unit at its first statement. It is made in its place: a frame costs to move.
fn begin(number: u32, unit: &Unit, frame: &mut Frame) -> Result<(), NoMemory>
    ensures { OnOk result (frame.new ≡ new_frame number unit.now (replicate unit.now.words (pos 0)) []) }
{
    frame.unit = number;
    frame.address = 0;
    frame.words.refill(unit.words as usize, 0)?;
    frame.loops.refill(unit.loops as usize, None)?;
    frame.results.clear();
    frame.starts.clear();
    frame.backs.clear();
    Ok(())
}

/// Whether the operands fit a unit, from a frame of so many words.
fn is_passed(unit: &Unit, mine: usize, operands: &[Operand]) -> bool
    ensures { result ≡ all_fit mine unit.now.words unit.now.formals operands.now }
{
    all_fit(mine, unit.words as usize, unit.formals.as_slice(), operands)
}

/// Opens the frame of a unit on the innermost one, which goes on at the address and, where it refers to a
/// function, keeps its results. The cost; none, and no change, where the operands don't fit.
pub(crate) fn open(
    alloc: Global,
    number: u32,
    to: u32,
    keeps: bool,
    operands: &[Operand],
    spare: &mut Pile<Frame>,
    body: &mut Body,
) -> Result<Option<u64>, NoMemory>
    ensures opened { IfOk result (λ c. opened_by c body.new ≡ opening keeps number to operands.now body.old) }
    ensures stays { IfOk result (λ c. c ≡ None → body.new ≡ body.old) }
{
    let mine = body.frame.words.len();
    let Some(unit) = unit_at(&body.code, number) else {
        return Ok(None);
    };
    if !is_passed(unit, mine, operands) {
        return Ok(None);
    }
    let formals = unit.formals.as_slice();
    let mut frame = spare_frame(alloc, spare);
    begin(number, unit, &mut frame)?;
    enter(
        alloc,
        formals,
        operands,
        &mut body.frame.words,
        &mut frame.words,
        &mut frame.backs,
    )?;
    let cost = 1 + u64::from(unit.words);
    if keeps {
        frame.backs.clear();
        body.frame.address = to;
    } else {
        go_to(&mut body.frame, to);
    }
    body.below.push(replace(&mut body.frame, frame))?;
    Ok(Some(cost))
}

/// A start of a unit goes last among those of the block, at this seat. The cost; none, and no change,
/// where the operands don't fit.
fn add_start(
    alloc: Global,
    number: u32,
    to: u32,
    operands: &[Operand],
    seat: (Machine, u32),
    body: &mut Body,
) -> Result<Option<u64>, NoMemory>
    ensures started { IfOk result
        (λ c. opened_by c body.new ≡ starting number (unit_at body.old number) to operands.now seat body.old) }
    ensures stays { IfOk result (λ c. c ≡ None → body.new ≡ body.old) }
{
    let mine = body.frame.words.len();
    let Some(unit) = unit_at(&body.code, number) else {
        return Ok(None);
    };
    if !is_passed(unit, mine, operands) {
        return Ok(None);
    }
    let formals = unit.formals.as_slice();
    let mut words = nulls(alloc, unit.words)?;
    let mut backs = Seq::new(alloc);
    enter(
        alloc,
        formals,
        operands,
        &mut body.frame.words,
        &mut words,
        &mut backs,
    )?;
    let (machine, node) = seat;
    let cost = 1 + u64::from(unit.words);
    body.frame.starts.push(Start {
        unit: number,
        words,
        backs,
        machine,
        node,
    })?;
    go_to(&mut body.frame, to);
    Ok(Some(cost))
}

/// What a call or a reference does, told without doing it.
pub(crate) fn look_open(
    number: u32,
    to: u32,
    keeps: bool,
    operands: &[Operand],
    body: &Body,
) -> Look
    ensures { result ≡ look_in (opening keeps number to operands.now body.now) }
{
    let mine = body.frame.words.len();
    let Some(unit) = unit_at(&body.code, number) else {
        return Look::Stuck;
    };
    if is_passed(unit, mine, operands) {
        Look::Goes
    } else {
        Look::Stuck
    }
}

/// What a start at a seat does, told without doing it.
fn look_at_seat(
    number: u32,
    to: u32,
    operands: &[Operand],
    seat: (Machine, u32),
    body: &Body,
) -> Look
    ensures { result ≡ look_in (starting number (unit_at body.now number) to operands.now seat body.now) }
{
    let mine = body.frame.words.len();
    let Some(unit) = unit_at(&body.code, number) else {
        return Look::Stuck;
    };
    if is_passed(unit, mine, operands) {
        Look::Goes
    } else {
        Look::Stuck
    }
}

/// What a start does, told without doing it.
pub(crate) fn look_start(
    number: u32,
    to: u32,
    operands: &[Operand],
    place: &Place,
    body: &Body,
) -> Look
    ensures { result ≡ look_in (starts number (unit_at body.now number) body.now to operands.now place.now) }
{
    match seat_for(body, number, place) {
        None => Look::Stuck,
        Some(Err(fault)) => Look::Asks(fail(body, fault)),
        Some(Ok(seat)) => look_at_seat(number, to, operands, seat, body),
    }
}

/// A start.
pub(crate) fn start(
    alloc: Global,
    number: u32,
    to: u32,
    operands: &[Operand],
    place: &Place,
    body: &mut Body,
) -> Result<Finish, NoMemory>
    ensures ran { IfOk result
        (λ f. went f body.new ≡ ran (starts number (unit_at body.old number) body.old to operands.now place.now)) }
    ensures tells { IfOk result
        (λ f. told f ≡ look_in (starts number (unit_at body.old number) body.old to operands.now place.now)) }
    ensures stays { IfOk result (λ f. Stays f body.old body.new) }
{
    match seat_for(body, number, place) {
        None => Ok(Finish::Stuck),
        Some(Err(fault)) => Ok(Finish::Asks(fail(body, fault))),
        Some(Ok(seat)) => match add_start(alloc, number, to, operands, seat, body)? {
            Some(cost) => Ok(Finish::Went(None, cost)),
            None => Ok(Finish::Stuck),
        },
    }
}
