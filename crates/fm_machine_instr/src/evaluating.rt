//! Instructions that evaluate.

ghost use Rattle.std.specs.Prelude.{◌≡◌, ◌∷◌, IfOk, pos, not};
ghost use Rattle.fm_values.specs.Intrinsics.{intrinsic_value};
ghost use Rattle.fm_values.specs.Operations.{applied_words};
ghost use Rattle.fm_values.specs.Values.{sum, product, opposite, truth_word, is_truth};
ghost use Rattle.fm_code.specs.Acts.{On, with_one, with_two, with_words, found, gives, distance, dimension, word_of, evaluates};
ghost use Rattle.fm_machine_instr.specs.Told.{progressed};

use crate::work::{Progress, Work};
use fm_base::{Fault, NoMemory, Op};
use fm_code::{Eval, Frame};
use fm_values::{Intrinsic, add, apply_words, is_truth, multiply, negate, truth_word};

/// A subscript from its lower bound on; Subscript where it isn't within the extent.
pub fn distance(low: i64, extent: u32, subscript: i64) -> Result<i64, Fault>
    ensures { result ≡ distance low extent subscript }
{
    if subscript < low {
        return Err(Fault::Subscript);
    }
    let distance = subscript.abs_diff(low);
    if distance < u64::from(extent) {
        Ok(distance as i64)
    } else {
        Err(Fault::Subscript)
    }
}

fn subscript(work: &mut Work, low: i64, extent: u32) -> Result<Progress, NoMemory>
    ensures { IfOk result (λ p. progressed p work.new.stack work.new.scratch
        ≡ with_one work.old.stack (λ x s. gives (distance low extent x) (λ d. On (d ∷ s) work.old.scratch))) }
{
    let Some(subscript) = work.stack.pop() else {
        return Ok(Progress::Stuck);
    };
    work.push_value(distance(low, extent, subscript))
}

/// The place with one more dimension in front goes on the stack, or the statement faults.
fn push_place(
    work: &mut Work,
    distance: Result<i64, Fault>,
    extent: u32,
    place: i64,
) -> Result<Progress, NoMemory>
    ensures { IfOk result (λ p. progressed p work.new.stack work.new.scratch
        ≡ gives distance (λ d. gives (product (pos extent) place)
        (λ p. gives (sum d p) (λ n. On (n ∷ work.old.stack) work.old.scratch)))) }
{
    match (distance, multiply(i64::from(extent), place)) {
        (Err(fault), _) => Ok(Progress::Fails(fault)),
        (Ok(_), Err(fault)) => Ok(Progress::Fails(fault)),
        (Ok(distance), Ok(before)) => work.push_value(add(distance, before)),
    }
}

fn dimension(work: &mut Work, low: i64, extent: u32) -> Result<Progress, NoMemory>
    ensures { IfOk result (λ p. progressed p work.new.stack work.new.scratch
        ≡ with_two work.old.stack (λ x place s. dimension low extent x place work.old.scratch s)) }
{
    let Some(place) = work.stack.pop() else {
        return Ok(Progress::Stuck);
    };
    let Some(subscript) = work.stack.pop() else {
        return Ok(Progress::Stuck);
    };
    push_place(work, distance(low, extent, subscript), extent, place)
}

/// The word of the frame with this number.
pub fn word_of(frame: &Frame, number: i64) -> Option<i64>
    ensures { result ≡ word_of frame.now number }
{
    if number < 0 {
        return None;
    }
    frame.words.get(number as usize)
}

fn element(work: &mut Work, first: u32, frame: &Frame) -> Result<Progress, NoMemory>
    ensures { IfOk result (λ p. progressed p work.new.stack work.new.scratch
        ≡ with_one work.old.stack
        (λ n s. gives (sum (pos first) n) (λ k. found (word_of frame.now k) (λ v. On (v ∷ s) work.old.scratch)))) }
{
    let Some(place) = work.stack.pop() else {
        return Ok(Progress::Stuck);
    };
    match add(i64::from(first), place) {
        Ok(number) => work.push_found(word_of(frame, number)),
        Err(fault) => Ok(Progress::Fails(fault)),
    }
}

fn locate(work: &mut Work, first: u32) -> Result<Progress, NoMemory>
    ensures { IfOk result (λ p. progressed p work.new.stack work.new.scratch
        ≡ with_one work.old.stack (λ n s. gives (sum (pos first) n) (λ k. On (k ∷ s) work.old.scratch))) }
{
    let Some(place) = work.stack.pop() else {
        return Ok(Progress::Stuck);
    };
    work.push_value(add(i64::from(first), place))
}

#[inline(always)]
fn apply(work: &mut Work, op: Op) -> Result<Progress, NoMemory>
    ensures { IfOk result (λ p. progressed p work.new.stack work.new.scratch
        ≡ with_two work.old.stack (λ x y s. gives (applied_words op x y) (λ v. On (v ∷ s) work.old.scratch))) }
{
    let Some(right) = work.stack.pop() else {
        return Ok(Progress::Stuck);
    };
    let Some(left) = work.stack.pop() else {
        return Ok(Progress::Stuck);
    };
    work.push_value(apply_words(op, left, right))
}

fn opposite(work: &mut Work) -> Result<Progress, NoMemory>
    ensures { IfOk result (λ p. progressed p work.new.stack work.new.scratch
        ≡ with_one work.old.stack (λ x s. gives (opposite x) (λ v. On (v ∷ s) work.old.scratch))) }
{
    let Some(word) = work.stack.pop() else {
        return Ok(Progress::Stuck);
    };
    work.push_value(negate(word))
}

fn other_truth(work: &mut Work) -> Result<Progress, NoMemory>
    ensures { IfOk result (λ p. progressed p work.new.stack work.new.scratch
        ≡ with_one work.old.stack (λ x s. On (truth_word (not (is_truth x)) ∷ s) work.old.scratch)) }
{
    let Some(word) = work.stack.pop() else {
        return Ok(Progress::Stuck);
    };
    work.push(truth_word(!is_truth(word)))
}

fn intrinsic(work: &mut Work, function: Intrinsic, count: u32) -> Result<Progress, NoMemory>
    ensures { IfOk result (λ p. progressed p work.new.stack work.new.scratch
        ≡ with_words count work.old.stack
        (λ xs s. gives (intrinsic_value function xs) (λ v. On (v ∷ s) work.old.scratch))) }
{
    let count = count as usize;
    let value = match work.stack.top(count) {
        Some(words) => function.apply(words),
        None => return Ok(Progress::Stuck),
    };
    work.stack.drop_top(count);
    work.push_value(value)
}

/// Does an instruction that evaluates.
#[inline(always)]
pub(crate) fn evaluate(instr: Eval, work: &mut Work, frame: &Frame) -> Result<Progress, NoMemory>
    ensures { IfOk result (λ p. progressed p work.new.stack work.new.scratch
        ≡ evaluates instr work.old.stack work.old.scratch frame.now) }
{
    match instr {
        Eval::Push(word) => work.push(word),
        Eval::Load(number) => work.push_found(frame.words.get(number as usize)),
        Eval::Result(number) => work.push_found(frame.results.get(number as usize)),
        Eval::Subscript(low, extent) => subscript(work, low, extent),
        Eval::Dimension(low, extent) => dimension(work, low, extent),
        Eval::Element(first) => element(work, first, frame),
        Eval::Locate(first) => locate(work, first),
        Eval::Apply(op) => apply(work, op),
        Eval::Negate => opposite(work),
        Eval::Not => other_truth(work),
        Eval::Intrinsic(function, count) => intrinsic(work, function, count),
    }
}
