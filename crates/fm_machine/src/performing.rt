//! What statements do to their body.

ghost use Rattle.std.specs.Prelude.{◌≡◌, ◌+◌, [], ◌∷◌, true, false, length, Some, None, IfOk, IfSome, OnErr, OnOk};
ghost use Rattle.fm_code.specs.Acts.{Prints};
ghost use Rattle.fm_code.specs.Passing as passing;
ghost use Rattle.fm_code.specs.Passing.{back_words, backs_fit};
ghost use Rattle.fm_code.specs.Statements.{Own, action_by, gives_back, results_in, closes, moves, ran, is_stuck_in};
ghost use Rattle.fm_machine_instr.specs.Told.{ended, told_end};
ghost use Rattle.fm_machine_calls.specs.Frames.{given};
ghost use Rattle.fm_machine_calls.specs.Looks.{look_in};
ghost use Rattle.fm_machine.specs.Finished.{went, told, drops_in, Stays, opening};

use crate::opening::{look_open, look_start, open, start};
use crate::spares::keep;
use fm_base::{NoMemory, Printed, Seq, output_line};
use fm_code::{Ask, Back, Body, Frame, Operand, Pile, Scratch, back_words, word_at};
use fm_machine_calls::{
    Look, fail, give_all, give_plain, leaves_no_port, look_back, look_close, look_move,
    look_plainly, look_value,
};
use fm_machine_instr::{Ending, StatementEnd, change, go_to, write};
use std::alloc::Global;
use std::mem::replace;

/// What came of the end of a statement.
#[derive(Drop)]
pub(crate) enum Finish {
    /// A step was made, with the line that it put out and its cost.
    Went(Option<Seq<u8>>, u64),
    /// It asks for something.
    Asks(Ask),
    /// An instruction doesn't find what it needs.
    Stuck,
}

/// A line is put out, and the statement at an address is next. The line, and the cost.
fn print(
    alloc: Global,
    to: u32,
    line: &[Printed],
    body: &mut Body,
) -> Result<(Seq<u8>, u64), NoMemory>
    ensures { IfOk result (λ p. action_by body.old (Prints to line.now) ≡ Own body.new (p.0 ∷ []) [] p.1) }
{
    let text = Seq::from_vec(output_line(alloc, line)?);
    let cost = (text.len() as u64).checked_add(2).ok_or(NoMemory)?;
    go_to(&mut body.frame, to);
    Ok((text, cost))
}

fn give_back_cost(backs: &[Back]) -> Result<u64, NoMemory>
    ensures { IfOk result (λ cost. cost ≡ 1 + back_words backs.now) }
{
    back_words(backs)?.checked_add(1).ok_or(NoMemory)
}

/// The innermost frame gives back to the one below it. The cost.
#[tactic(auto, using(crate::proofs::Returning::returns_fit, crate::proofs::Returning::returns_so))]
fn give_back(alloc: Global, spare: &mut Pile<Frame>, body: &mut Body) -> Result<u64, NoMemory>
    requires { is_stuck_in (gives_back body.old body.old.below) ≡ false }
    ensures { IfOk result (λ cost. gives_back body.old body.old.below
        ≡ Own body.new [] (drops_in (gives_back body.old body.old.below)) cost) }
{
    // A step was told, so there is a caller.
    let Some(caller) = body.below.pop() else {
        return Err(NoMemory);
    };
    let mut frame = replace(&mut body.frame, caller);
    let backs = frame.backs.as_slice();
    let mut ports = Seq::new(alloc);
    give_all(
        alloc,
        backs,
        &mut body.frame.words,
        &mut frame.words,
        &mut ports,
    )?;
    let cost = give_back_cost(backs)?;
    keep(spare, frame);
    Ok(cost)
}

/// The words of a caller to which a frame has given back. Both stay as they are.
fn words_given(alloc: Global, caller: &Frame, frame: &Frame) -> Result<Seq<i64>, NoMemory>
    requires { backs_fit (length caller.now.words) (length frame.now.words) frame.now.backs ≡ true }
    ensures { IfOk result
        (λ ws. ws ≡ (passing.give_all frame.now.backs (given caller.now.words frame.now.words [])).mine) }
{
    let mut mine = Seq::from_slice(alloc, caller.words.as_slice())?;
    let mut theirs = Seq::from_slice(alloc, frame.words.as_slice())?;
    let mut ports = Seq::new(alloc);
    let backs = frame.backs.as_slice();
    give_all(alloc, backs, &mut mine, &mut theirs, &mut ports)?;
    Ok(mine)
}

/// As `give_back`, over copies: after want of memory the body is as it was.
fn give_back_whole(alloc: Global, spare: &mut Pile<Frame>, body: &mut Body) -> Result<u64, NoMemory>
    requires { is_stuck_in (gives_back body.old body.old.below) ≡ false }
    ensures gives { IfOk result (λ cost. gives_back body.old body.old.below
        ≡ Own body.new [] (drops_in (gives_back body.old body.old.below)) cost) }
    ensures stays { OnErr result (body.new ≡ body.old) }
{
    let cost = give_back_cost(body.frame.backs.as_slice())?;
    // A step was told, so there is a caller.
    let Some(caller) = body.below.first() else {
        return Err(NoMemory);
    };
    let words = words_given(alloc, caller, &body.frame)?;
    let Some(caller) = body.below.pop() else {
        unreachable!()
    };
    keep(spare, replace(&mut body.frame, caller));
    body.frame.words = words;
    Ok(cost)
}

/// Returns from a subroutine where no port is left or given back. The cost; none, and no change, where there may be
/// one.
pub(crate) fn return_plainly(spare: &mut Pile<Frame>, body: &mut Body) -> Option<u64>
    ensures ran { IfSome result (λ cost. ran (gives_back body.old body.old.below)
        ≡ Some (record { body = body.new; lines = []; cost = cost })) }
    ensures stays { result ≡ None → body.new ≡ body.old }
{
    let cost = look_plainly(body)?;
    let caller = body.below.pop()?;
    let frame = replace(&mut body.frame, caller);
    give_plain(frame.backs.as_slice(), &mut body.frame.words, &frame.words);
    keep(spare, frame);
    Some(cost)
}

/// The innermost frame leaves a result with the one below it.
#[tactic(auto, using(crate::proofs::Returning::results_so))]
fn leave_result(value: i64, spare: &mut Pile<Frame>, body: &mut Body) -> Result<(), NoMemory>
    ensures { OnOk result (results_in body.old value body.old.below
        ≡ Own body.new [] (drops_in (results_in body.old value body.old.below)) 1) }
{
    // A step was told, so there is a caller.
    let Some(caller) = body.below.pop() else {
        return Err(NoMemory);
    };
    keep(spare, replace(&mut body.frame, caller));
    body.frame.results.push(value)?;
    Ok(())
}

/// As `leave_result`, over a copy: after want of memory the body is as it was.
fn leave_result_whole(
    alloc: Global,
    value: i64,
    spare: &mut Pile<Frame>,
    body: &mut Body,
) -> Result<(), NoMemory>
    ensures gives { OnOk result (results_in body.old value body.old.below
        ≡ Own body.new [] (drops_in (results_in body.old value body.old.below)) 1) }
    ensures stays { OnErr result (body.new ≡ body.old) }
{
    // A step was told, so there is a caller.
    let Some(caller) = body.below.first() else {
        return Err(NoMemory);
    };
    let mut results = Seq::from_slice(alloc, caller.results.as_slice())?;
    results.push(value)?;
    let Some(caller) = body.below.pop() else {
        unreachable!()
    };
    keep(spare, replace(&mut body.frame, caller));
    body.frame.results = results;
    Ok(())
}

/// Returns from a function where no port is left. The cost; none, and no change, where there may be one.
pub(crate) fn return_value_plainly(
    value: i64,
    spare: &mut Pile<Frame>,
    body: &mut Body,
) -> Result<Option<u64>, NoMemory>
    ensures ran { IfOk result (λ c. IfSome c (λ cost. ran (results_in body.old value body.old.below)
        ≡ Some (record { body = body.new; lines = []; cost = cost }))) }
    ensures stays { IfOk result (λ c. c ≡ None → body.new ≡ body.old) }
{
    let Some(_) = body.below.first() else {
        return Ok(None);
    };
    if !leaves_no_port(body) {
        return Ok(None);
    }
    leave_result(value, spare, body)?;
    Ok(Some(1))
}

/// A port is let go, if it is there.
fn close(number: u32, to: u32, body: &mut Body)
    ensures { closes body.old number to ≡ Own body.new [] (drops_in (closes body.old number to)) 1 }
{
    write(&mut body.frame.words, number as usize, 0);
    go_to(&mut body.frame, to);
}

/// What is in one word goes to another.
fn move_port(from: u32, into: u32, to: u32, body: &mut Body)
    ensures { moves body.old from into to ≡ Own body.new [] (drops_in (moves body.old from into to)) 1 }
{
    let port = word_at(body.frame.words.as_slice(), from as usize);
    write(&mut body.frame.words, from as usize, 0);
    write(&mut body.frame.words, into as usize, port);
    go_to(&mut body.frame, to);
}

#[tactic(auto, using(crate::proofs::Telling::goes_run, crate::proofs::Telling::asks_run, crate::proofs::Telling::stuck_run))]
fn finish_return(
    alloc: Global,
    spare: &mut Pile<Frame>,
    body: &mut Body,
) -> Result<Finish, NoMemory>
    ensures ran { IfOk result (λ f. went f body.new ≡ ran (gives_back body.old body.old.below)) }
    ensures tells { IfOk result (λ f. told f ≡ look_in (gives_back body.old body.old.below)) }
    ensures stays { IfOk result (λ f. Stays f body.old body.new) }
{
    match look_back(alloc, body)? {
        Look::Goes => Ok(Finish::Went(None, give_back(alloc, spare, body)?)),
        Look::Asks(ask) => Ok(Finish::Asks(ask)),
        Look::Stuck => Ok(Finish::Stuck),
    }
}

#[tactic(auto, using(crate::proofs::Telling::goes_run, crate::proofs::Telling::asks_run, crate::proofs::Telling::stuck_run))]
fn finish_value(
    alloc: Global,
    value: i64,
    spare: &mut Pile<Frame>,
    body: &mut Body,
) -> Result<Finish, NoMemory>
    ensures ran { IfOk result (λ f. went f body.new ≡ ran (results_in body.old value body.old.below)) }
    ensures tells { IfOk result (λ f. told f ≡ look_in (results_in body.old value body.old.below)) }
    ensures stays { IfOk result (λ f. Stays f body.old body.new) }
{
    match look_value(alloc, body, value)? {
        Look::Goes => {
            leave_result(value, spare, body)?;
            Ok(Finish::Went(None, 1))
        }
        Look::Asks(ask) => Ok(Finish::Asks(ask)),
        Look::Stuck => Ok(Finish::Stuck),
    }
}

#[tactic(auto, using(crate::proofs::Telling::goes_run, crate::proofs::Telling::asks_run, crate::proofs::Telling::stuck_run))]
fn finish_close(alloc: Global, number: u32, to: u32, body: &mut Body) -> Result<Finish, NoMemory>
    ensures ran { IfOk result (λ f. went f body.new ≡ ran (closes body.old number to)) }
    ensures tells { IfOk result (λ f. told f ≡ look_in (closes body.old number to)) }
    ensures stays { IfOk result (λ f. Stays f body.old body.new) }
{
    match look_close(alloc, body, number, to)? {
        Look::Goes => {
            close(number, to, body);
            Ok(Finish::Went(None, 1))
        }
        Look::Asks(ask) => Ok(Finish::Asks(ask)),
        Look::Stuck => Ok(Finish::Stuck),
    }
}

#[tactic(auto, using(crate::proofs::Telling::goes_run, crate::proofs::Telling::asks_run, crate::proofs::Telling::stuck_run))]
fn finish_move(
    alloc: Global,
    from: u32,
    into: u32,
    to: u32,
    body: &mut Body,
) -> Result<Finish, NoMemory>
    ensures ran { IfOk result (λ f. went f body.new ≡ ran (moves body.old from into to)) }
    ensures tells { IfOk result (λ f. told f ≡ look_in (moves body.old from into to)) }
    ensures stays { IfOk result (λ f. Stays f body.old body.new) }
{
    match look_move(alloc, body, from, into, to)? {
        Look::Goes => {
            move_port(from, into, to, body);
            Ok(Finish::Went(None, 1))
        }
        Look::Asks(ask) => Ok(Finish::Asks(ask)),
        Look::Stuck => Ok(Finish::Stuck),
    }
}

#[inline(always)]
fn finish_ending(
    alloc: Global,
    ending: Ending,
    spare: &mut Pile<Frame>,
    body: &mut Body,
) -> Result<Finish, NoMemory>
    ensures ran { IfOk result (λ f. went f body.new ≡ ran (action_by body.old (ended ending body.old.frame))) }
    ensures tells { IfOk result (λ f. told f ≡ look_in (action_by body.old (ended ending body.old.frame))) }
    ensures stays { IfOk result (λ f. Stays f body.old body.new) }
{
    match ending {
        Ending::Goes(changes) => {
            change(&mut body.frame, changes);
            Ok(Finish::Went(None, 1))
        }
        Ending::Returns => finish_return(alloc, spare, body),
        Ending::ReturnsValue(value) => finish_value(alloc, value, spare, body),
        Ending::Closes(number, to) => finish_close(alloc, number, to, body),
        Ending::Moves(from, into, to) => finish_move(alloc, from, into, to, body),
        Ending::Fails(fault) => Ok(Finish::Asks(fail(body, fault))),
        Ending::Asks(ask) => Ok(Finish::Asks(ask)),
        Ending::Stuck => Ok(Finish::Stuck),
    }
}

/// Does a statement that ends so, with the ports that it lets go. The cost; want of memory where no port
/// can go. After want of memory the body is as it was.
pub(crate) fn let_go_at_ending(
    alloc: Global,
    ending: Ending,
    spare: &mut Pile<Frame>,
    body: &mut Body,
) -> Result<u64, NoMemory>
    requires { is_stuck_in (action_by body.old (ended ending body.old.frame)) ≡ false }
    ensures acts { IfOk result (λ cost. action_by body.old (ended ending body.old.frame)
        ≡ Own body.new [] (drops_in (action_by body.old (ended ending body.old.frame))) cost) }
    ensures stays { OnErr result (body.new ≡ body.old) }
{
    match ending {
        Ending::Returns => give_back_whole(alloc, spare, body),
        Ending::ReturnsValue(value) => {
            leave_result_whole(alloc, value, spare, body)?;
            Ok(1)
        }
        Ending::Closes(number, to) => {
            close(number, to, body);
            Ok(1)
        }
        Ending::Moves(from, into, to) => {
            move_port(from, into, to, body);
            Ok(1)
        }
        Ending::Goes(_) | Ending::Fails(_) | Ending::Asks(_) | Ending::Stuck => Err(NoMemory),
    }
}

fn finish_open(
    alloc: Global,
    number: u32,
    to: u32,
    keeps: bool,
    operands: &[Operand],
    spare: &mut Pile<Frame>,
    body: &mut Body,
) -> Result<Finish, NoMemory>
    ensures ran { IfOk result (λ f. went f body.new ≡ ran (opening keeps number to operands.now body.old)) }
    ensures tells { IfOk result (λ f. told f ≡ look_in (opening keeps number to operands.now body.old)) }
    ensures stays { IfOk result (λ f. Stays f body.old body.new) }
{
    match open(alloc, number, to, keeps, operands, spare, body)? {
        Some(cost) => Ok(Finish::Went(None, cost)),
        None => Ok(Finish::Stuck),
    }
}

/// Does a statement that ends so and built this. A frame that it leaves may be kept to be used again. After
/// something other than a step the body is as it was.
#[inline(always)]
pub(crate) fn perform(
    alloc: Global,
    statement_end: StatementEnd,
    scratch: &Scratch,
    spare: &mut Pile<Frame>,
    body: &mut Body,
) -> Result<Finish, NoMemory>
    ensures ran { IfOk result
        (λ f. went f body.new ≡ ran (action_by body.old (told_end statement_end scratch.now body.old.frame))) }
    ensures tells { IfOk result
        (λ f. told f ≡ look_in (action_by body.old (told_end statement_end scratch.now body.old.frame))) }
    ensures stays { IfOk result (λ f. Stays f body.old body.new) }
{
    let operands = scratch.operands.as_slice();
    match statement_end {
        StatementEnd::Prints(to) => {
            let (text, cost) = print(alloc, to, scratch.line.as_slice(), body)?;
            Ok(Finish::Went(Some(text), cost))
        }
        StatementEnd::Calls(unit, to) => finish_open(alloc, unit, to, false, operands, spare, body),
        StatementEnd::Refers(unit, to) => finish_open(alloc, unit, to, true, operands, spare, body),
        StatementEnd::Starts(unit, to) => start(alloc, unit, to, operands, &scratch.place, body),
        StatementEnd::Over(ending) => finish_ending(alloc, ending, spare, body),
    }
}

fn look_at_ending(alloc: Global, ending: Ending, body: &Body) -> Result<Look, NoMemory>
    ensures { IfOk result (λ l. l ≡ look_in (action_by body.now (ended ending body.now.frame))) }
{
    match ending {
        Ending::Goes(_) => Ok(Look::Goes),
        Ending::Returns => look_back(alloc, body),
        Ending::ReturnsValue(value) => look_value(alloc, body, value),
        Ending::Closes(number, to) => look_close(alloc, body, number, to),
        Ending::Moves(from, into, to) => look_move(alloc, body, from, into, to),
        Ending::Fails(fault) => Ok(Look::Asks(fail(body, fault))),
        Ending::Asks(ask) => Ok(Look::Asks(ask)),
        Ending::Stuck => Ok(Look::Stuck),
    }
}

/// What a statement does that ends so and built this, told without doing it.
pub(crate) fn look(
    alloc: Global,
    statement_end: StatementEnd,
    scratch: &Scratch,
    body: &Body,
) -> Result<Look, NoMemory>
    ensures { IfOk result (λ l. l ≡ look_in (action_by body.now (told_end statement_end scratch.now body.now.frame))) }
{
    let operands = scratch.operands.as_slice();
    match statement_end {
        StatementEnd::Prints(_) => Ok(Look::Goes),
        StatementEnd::Calls(unit, to) => Ok(look_open(unit, to, false, operands, body)),
        StatementEnd::Refers(unit, to) => Ok(look_open(unit, to, true, operands, body)),
        StatementEnd::Starts(unit, to) => {
            Ok(look_start(unit, to, operands, &scratch.place, body))
        }
        StatementEnd::Over(ending) => look_at_ending(alloc, ending, body),
    }
}
