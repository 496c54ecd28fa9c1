//! Operands of a message, cut to the sizes that earlier ones say. A cut span is a shorter one: no word is copied.

ghost use Rattle.std.specs.Prelude.{◌≡◌, IfOk, slice_get, take};
ghost use Rattle.fm_code.specs.Acts.{with_one, at_port, first_word, size_in, cut_span, cut_value, cut_to, cuts};
ghost use Rattle.fm_machine_instr.specs.Told.{progressed};

use crate::asking::{Port, port_at};
use crate::building::word_number;
use crate::work::{Progress, Work};
use fm_base::{Fault, NoMemory};
use fm_code::{Frame, Operand, Span, words_of};

/// The first of some words, or 0 where there is none.
fn first_word(words: &[i64]) -> i64
    ensures { result ≡ first_word words.now }
{
    match words.first() {
        Some(word) => *word,
        None => 0,
    }
}

/// The number that an operand is.
fn size_in(frame: &Frame, operand: Option<Operand>) -> i64
    ensures { result ≡ size_in frame.now operand }
{
    match operand {
        Some(Operand::Value(word)) => word,
        Some(Operand::Words(span)) => first_word(words_of(frame.words.as_slice(), span)),
        Some(Operand::Ports(_)) => 0,
        None => 0,
    }
}

/// An operand at a place, if it stands before the item's.
fn operand_before(operands: &[Operand], item: usize, place: usize) -> Option<Operand>
    ensures { result ≡ slice_get (take item operands.now) place }
{
    let (before, _) = operands.split_at(operands.len().min(item));
    before.get(place).copied()
}

/// The first words of a span, so many; Subscript where it has fewer.
fn cut_span(size: i64, span: Span) -> Result<Span, Fault>
    ensures { result ≡ cut_span size span }
{
    if size < 0 {
        return Err(Fault::Subscript);
    }
    if i64::from(span.count) < size {
        return Err(Fault::Subscript);
    }
    Ok(Span {
        first: span.first,
        count: size as u32,
    })
}

/// A value is one word.
fn cut_value(size: i64, word: i64) -> Result<Operand, Fault>
    ensures { result ≡ cut_value size word }
{
    if size == 0 {
        return Ok(Operand::Words(Span { first: 0, count: 0 }));
    }
    if size == 1 {
        Ok(Operand::Value(word))
    } else {
        Err(Fault::Subscript)
    }
}

fn cut_to(size: i64, operand: Operand) -> Result<Operand, Fault>
    ensures { result ≡ cut_to size operand }
{
    match operand {
        Operand::Value(word) => cut_value(size, word),
        Operand::Words(span) => Ok(Operand::Words(cut_span(size, span)?)),
        Operand::Ports(span) => Ok(Operand::Ports(cut_span(size, span)?)),
    }
}

/// An operand is cut to the number that an earlier one is.
fn cut_operand(work: &mut Work, item: usize, size: usize, frame: &Frame) -> Progress
    ensures { progressed result work.new.stack work.new.scratch
        ≡ cuts item size work.old.stack work.old.scratch frame.now }
{
    let Some(operand) = work.scratch.operands.get(item) else {
        return Progress::On;
    };
    let before = operand_before(work.scratch.operands.as_slice(), item, size);
    match cut_to(size_in(frame, before), operand) {
        Ok(operand) => {
            work.scratch.operands.set(item, operand);
            Progress::On
        }
        Err(fault) => Progress::Fails(fault),
    }
}

/// The same, if the port whose word's number is on top isn't NULL.
pub(crate) fn cut(
    work: &mut Work,
    item: u32,
    size: u32,
    frame: &Frame,
) -> Result<Progress, NoMemory>
    ensures { IfOk result (λ p. progressed p work.new.stack work.new.scratch
        ≡ with_one work.old.stack
        (λ x s. at_port frame.now x (λ slot. cuts item size work.old.stack work.old.scratch frame.now))) }
{
    let Some(word) = work.stack.peek() else {
        return Ok(Progress::Stuck);
    };
    let Some(number) = word_number(frame, word)? else {
        return Ok(Progress::Stuck);
    };
    match port_at(frame, number) {
        Port::Slot(_) => Ok(cut_operand(work, item as usize, size as usize, frame)),
        Port::Null => Ok(Progress::Fails(Fault::NullPort)),
        Port::Nothing => Ok(Progress::Stuck),
    }
}
