//! Instructions that end a statement of the process alone.

ghost use Rattle.std.specs.Prelude.{◌≡◌, IfOk, cond, slice_get};
ghost use Rattle.fm_values.specs.Values.{is_truth};
ghost use Rattle.fm_code.specs.Acts.{Over, Goes, ReturnsValue, with_one, with_two, with_three, found, at_word, stored, enters, ends_trip, ends};
ghost use Rattle.fm_machine_instr.specs.Told.{ended, told_end};

use crate::building::word_number;
use crate::looping::{Ways, end_trip, enter};
use crate::statement_end::{Change, Ending, StatementEnd};
use crate::work::Work;
use fm_base::NoMemory;
use fm_code::{End, Frame};
use fm_values::is_truth;

/// Goes on at an address.
fn go(to: u32, frame: &Frame) -> Ending
    ensures { ended result frame.now ≡ Goes to frame.now }
{
    Ending::Goes(Change {
        to,
        word: None,
        trips: None,
    })
}

fn test(work: &mut Work, holding: u32, failing: u32, frame: &Frame) -> Ending
    ensures { Over (ended result frame.now)
        ≡ with_one work.old.stack (λ x s. Over (Goes (cond (is_truth x) holding failing) frame.now)) }
{
    let Some(word) = work.stack.pop() else {
        return Ending::Stuck;
    };
    go(if is_truth(word) { holding } else { failing }, frame)
}

/// Stores a word at the word with a number.
fn store_word(to: u32, number: u32, value: i64, frame: &Frame) -> Ending
    ensures { Over (ended result frame.now) ≡ stored to number value frame.now }
{
    let number = number as usize;
    if number < frame.words.len() {
        Ending::Goes(Change {
            to,
            word: Some((number, value)),
            trips: None,
        })
    } else {
        Ending::Stuck
    }
}

fn store(work: &mut Work, number: u32, to: u32, frame: &Frame) -> Ending
    ensures { Over (ended result frame.now) ≡ with_one work.old.stack (λ v s. stored to number v frame.now) }
{
    let Some(value) = work.stack.pop() else {
        return Ending::Stuck;
    };
    store_word(to, number, value, frame)
}

fn store_at(work: &mut Work, to: u32, frame: &Frame) -> Result<Ending, NoMemory>
    ensures { IfOk result (λ e. Over (ended e frame.now)
        ≡ with_two work.old.stack (λ x v s. at_word frame.now x (λ k. stored to k v frame.now))) }
{
    let Some(value) = work.stack.pop() else {
        return Ok(Ending::Stuck);
    };
    let Some(word) = work.stack.pop() else {
        return Ok(Ending::Stuck);
    };
    match word_number(frame, word)? {
        Some(number) => Ok(store_word(to, number, value, frame)),
        None => Ok(Ending::Stuck),
    }
}

fn enter_loop(work: &mut Work, ways: Ways, frame: &Frame) -> Ending
    ensures { Over (ended result frame.now)
        ≡ with_three work.old.stack
        (λ from to by s. found work.old.scratch.counts (λ l. enters l ways.body ways.behind from to by frame.now)) }
{
    let Some(by) = work.stack.pop() else {
        return Ending::Stuck;
    };
    let Some(to) = work.stack.pop() else {
        return Ending::Stuck;
    };
    let Some(from) = work.stack.pop() else {
        return Ending::Stuck;
    };
    match work.scratch.counts {
        Some(counts) => enter(counts, ways, from, to, by, frame),
        None => Ending::Stuck,
    }
}

fn end_trip_of_loop(work: &Work, ways: Ways, frame: &Frame) -> Ending
    ensures { Over (ended result frame.now)
        ≡ found work.now.scratch.counts
        (λ l. found (slice_get frame.now.loops l.number) (λ t. ends_trip l ways.body ways.behind t frame.now)) }
{
    let Some(counts) = work.scratch.counts else {
        return Ending::Stuck;
    };
    match frame.loops.get(counts.number as usize) {
        Some(trips) => end_trip(counts, ways, trips, frame),
        None => Ending::Stuck,
    }
}

fn return_value(number: u32, frame: &Frame) -> Ending
    ensures { Over (ended result frame.now) ≡ found (slice_get frame.now.words number) (λ v. Over (ReturnsValue v)) }
{
    match frame.words.get(number as usize) {
        Some(value) => Ending::ReturnsValue(value),
        None => Ending::Stuck,
    }
}

/// How a statement of the process alone ends.
pub(crate) fn decide(instr: End, work: &mut Work, frame: &Frame) -> Result<StatementEnd, NoMemory>
    ensures { IfOk result
        (λ t. Over (told_end t work.new.scratch frame.now) ≡ ends instr work.old.stack work.old.scratch frame.now) }
{
    match instr {
        End::Goto(to) => Ok(StatementEnd::Over(go(to, frame))),
        End::Test(holding, failing) => Ok(StatementEnd::Over(test(work, holding, failing, frame))),
        End::Store(number, to) => Ok(StatementEnd::Over(store(work, number, to, frame))),
        End::StoreAt(to) => Ok(StatementEnd::Over(store_at(work, to, frame)?)),
        End::Enter(body, behind) => Ok(StatementEnd::Over(enter_loop(
            work,
            Ways { body, behind },
            frame,
        ))),
        End::Again(body, behind) => Ok(StatementEnd::Over(end_trip_of_loop(
            work,
            Ways { body, behind },
            frame,
        ))),
        End::Print(to) => Ok(StatementEnd::Prints(to)),
        End::Call(unit, to) => Ok(StatementEnd::Calls(unit, to)),
        End::Refer(unit, to) => Ok(StatementEnd::Refers(unit, to)),
        End::Return => Ok(StatementEnd::Over(Ending::Returns)),
        End::ReturnValue(number) => Ok(StatementEnd::Over(return_value(number, frame))),
        End::Start(unit, to) => Ok(StatementEnd::Starts(unit, to)),
    }
}
