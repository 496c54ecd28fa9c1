//! Statements, one after another.

ghost use Rattle.std.specs.Prelude.{◌≡◌, ◌≢◌, ◌≤◌, ◌+◌, ◌++◌, [], Some, None, IfOk, IfSome, OnErr, OnOk, option_to_list};
ghost use Rattle.fm_code.specs.declared.ask.Ask.TheVariants as ask;
ghost use Rattle.fm_code.specs.Statements as statements;
ghost use Rattle.fm_code.specs.Statements.{Own, run, ran, action_of, ask_of, statement_end_of, code_in};
ghost use Rattle.fm_machine_instr.specs.Told.{told_end};
ghost use Rattle.fm_machine_calls.specs.Looks.{look_in};
ghost use Rattle.fm_machine.specs.Finished.{went, told, Stays};

use crate::done::{Done, Made};
use crate::opening::open;
use crate::performing::{
    Finish, let_go_at_ending, look, perform, return_plainly, return_value_plainly,
};
use fm_base::{NoMemory, Seq};
use fm_code::{Body, Instr, copy_body};
use fm_machine_calls::{Look, unit_at};
use fm_machine_fused::run_many;
use fm_machine_instr::{Passing, StatementEnd, Work, statement, tell_passing};
use std::alloc::Global;
use std::sync::Arc;

/// The instructions of the unit at work.
fn code_of(body: &Body) -> &[Instr]
    ensures { result.now ≡ code_in (statements.unit_at body.now body.now.frame.unit) }
{
    match unit_at(&body.code, body.frame.unit) {
        Some(unit) => unit.code.as_slice(),
        None => &[],
    }
}

/// How the next statement ends.
#[inline(always)]
fn next_end(alloc: Global, work: &mut Work, body: &Body) -> Result<StatementEnd, NoMemory>
    ensures { IfOk result (λ t. told_end t work.new.scratch body.now.frame ≡ statement_end_of body.now) }
{
    let address = body.frame.address as usize;
    statement(alloc, code_of(body), address, work, &body.frame)
}

/// Does the next statement where it calls with words of the frame alone, or returns and leaves no port. The cost; none,
/// and no change, where it does something else.
fn pass_frame_words(
    alloc: Global,
    work: &mut Work,
    body: &mut Body,
) -> Result<Option<u64>, NoMemory>
    ensures ran { IfOk result (λ c. IfSome c
        (λ cost. ran (action_of body.old) ≡ Some (record { body = body.new; lines = []; cost = cost }))) }
    ensures stays { IfOk result (λ c. c ≡ None → body.new ≡ body.old) }
{
    let spare = &mut work.spare;
    let operands = &mut work.scratch.operands;
    match tell_passing(code_of(body), &body.frame, operands) {
        Passing::Calls(unit, to) => {
            open(alloc, unit, to, false, operands.as_slice(), spare, body)
        }
        Passing::Refers(unit, to) => {
            open(alloc, unit, to, true, operands.as_slice(), spare, body)
        }
        Passing::Returns => Ok(return_plainly(spare, body)),
        Passing::ReturnsValue(value) => return_value_plainly(value, spare, body),
        Passing::Untold => Ok(None),
    }
}

// Whether the next statement may be one that only passes words.
#[inline(always)]
fn may_pass(body: &Body) -> bool {
    match code_of(body).get(body.frame.address as usize) {
        Some(Instr::Build(_)) => true,
        Some(Instr::End(_)) => true,
        _ => false,
    }
}

/// Does the next statement. After something other than a step the body is as it was.
#[inline(always)]
fn step(alloc: Global, work: &mut Work, body: &mut Body) -> Result<Finish, NoMemory>
    ensures ran { IfOk result (λ f. went f body.new ≡ ran (action_of body.old)) }
    ensures tells { IfOk result (λ f. told f ≡ look_in (action_of body.old)) }
    ensures stays { IfOk result (λ f. Stays f body.old body.new) }
{
    if may_pass(body) {
        if let Some(cost) = pass_frame_words(alloc, work, body)? {
            return Ok(Finish::Went(None, cost));
        }
    }
    let statement_end = next_end(alloc, work, body)?;
    perform(alloc, statement_end, &work.scratch, &mut work.spare, body)
}

/// What the next statement of a body does, without doing it.
pub fn next_look(alloc: Global, work: &mut Work, body: &Body) -> Result<Look, NoMemory>
    ensures { IfOk result (λ l. l ≡ look_in (action_of body.now)) }
{
    let statement_end = next_end(alloc, work, body)?;
    look(alloc, statement_end, &work.scratch, body)
}

/// Does the next statement of a body, which asks that these ports be let go. The cost. That the ports go is
/// up to the caller. After want of memory the body is as it was.
pub fn let_go(
    alloc: Global,
    work: &mut Work,
    body: &mut Body,
    slots: &[i64],
) -> Result<u64, NoMemory>
    requires { ask_of body.old ≡ Some (ask.LetGo slots.now) }
    ensures acts { IfOk result (λ cost. action_of body.old ≡ Own body.new [] slots.now cost) }
    ensures stays { OnErr result (body.new ≡ body.old) }
{
    match next_end(alloc, work, body)? {
        StatementEnd::Over(ending) => let_go_at_ending(alloc, ending, &mut work.spare, body),
        // These let no port go.
        StatementEnd::Prints(_)
        | StatementEnd::Calls(_, _)
        | StatementEnd::Refers(_, _)
        | StatementEnd::Starts(_, _) => { Err(NoMemory) }
    }
}

fn add_line(lines: &mut Seq<Seq<u8>>, line: Option<Seq<u8>>) -> Result<(), NoMemory>
    ensures { OnOk result (lines.new ≡ lines.old ++ option_to_list line) }
{
    if let Some(line) = line {
        lines.push(line)?;
    }
    Ok(())
}

/// The sum of two costs.
fn both(first: u64, second: u64) -> Result<u64, NoMemory>
    ensures { IfOk result (λ cost. cost ≡ first + second) }
{
    first.checked_add(second).ok_or(NoMemory)
}

/// Does statements of a body that change nothing but its innermost frame, as many as `slice` at most. How
/// many: each costs 1.
fn run_body_in_place(room: &mut [i64], body: &mut Body, slice: u32) -> u32
    ensures ran { run result body.old ≡ Some (record { body = body.new; lines = []; cost = result }) }
    ensures within { result ≤ slice }
{
    let number = body.frame.unit;
    match unit_at(&body.code, number) {
        Some(_) => run_many(body.code.fused(number), room, &mut body.frame, slice),
        None => 0,
    }
}

/// Does statements of a body in its place, as many as `slice` at most, and stops where the next one asks for
/// something or finds the body stuck. After want of memory the body may have gone on.
#[inline(always)]
pub fn proceed(
    alloc: Global,
    work: &mut Work,
    body: &mut Body,
    slice: u32,
) -> Result<Made, NoMemory>
    ensures ran { IfOk result
        (λ m. run m.steps body.old ≡ Some (record { body = body.new; lines = m.lines; cost = m.cost })) }
    ensures within { IfOk result (λ m. m.steps ≤ slice) }
    ensures next { IfOk result (λ m. m.next ≡ look_in (action_of body.new)) }
    ensures stops { IfOk result (λ m. m.steps ≢ slice → ran (action_of body.new) ≡ None) }
{
    let mut lines = Seq::new(alloc);
    let mut cost: u64 = 0;
    let mut steps: u32 = 0;
    let mut room = [0i64; 16];
    'steps: while steps < slice {
        let alone = run_body_in_place(room.as_mut_slice(), body, slice - steps);
        cost = both(cost, u64::from(alone))?;
        steps += alone;
        if steps == slice {
            break;
        }
        match step(alloc, work, body)? {
            Finish::Went(line, more) => {
                add_line(&mut lines, line)?;
                cost = both(cost, more)?;
                steps += 1;
            }
            Finish::Asks(ask) => return Ok(Made::new(steps, cost, lines, Look::Asks(ask))),
            Finish::Stuck => return Ok(Made::new(steps, cost, lines, Look::Stuck)),
        }
    }
    let next = next_look(alloc, work, body)?;
    Ok(Made::new(slice, cost, lines, next))
}

/// Does statements of a process, as many as `slice` at most, from a copy of its start, and stops where the
/// next one asks for something or finds its body stuck. `slice` is 1 to 1,000,000. After want of memory
/// nothing has changed.
pub fn advance(alloc: Global, process: u32, start: Arc<Body>, slice: u32) -> Result<Done, NoMemory>
    requires some { 1 ≤ slice }
    requires small { slice ≤ 1000000 }
    ensures process { IfOk result (λ d. d.process ≡ process) }
    ensures start { IfOk result (λ d. d.start ≡ start) }
    ensures within { IfOk result (λ d. d.steps ≤ slice) }
    ensures stops { IfOk result (λ d. d.steps ≢ slice → ran (action_of d.end.value) ≡ None) }
{
    let mut body = copy_body(alloc, &start)?;
    let mut work = Work::new(alloc);
    let made = proceed(alloc, &mut work, &mut body, slice)?;
    let end = Arc::new(alloc, body)?;
    Ok(Done::new(process, start, end, made))
}
