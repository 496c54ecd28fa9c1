//! What operators make of their operands.

ghost use Rattle.std.specs.Prelude.{◌≡◌};
ghost use Rattle.fm_values.specs.Operations.{applied, applied_words, is_arithmetic, with_sign};

use crate::arithmetic::{add, divide, multiply, negate, power, subtract};
use crate::value::{Value, is_truth, truth_word};
use fm_base::{Fault, Op};

/// The word of an operation's result, of the words of its operands. No checked program has `.NOT.`
/// between two operands; it gives that of the right one.
pub fn apply_words(op: Op, a: i64, b: i64) -> Result<i64, Fault>
    ensures { result ≡ applied_words op a b }
{
    match op {
        Op::Add => add(a, b),
        Op::Sub => subtract(a, b),
        Op::Mul => multiply(a, b),
        Op::Div => divide(a, b),
        Op::Pow => power(a, b),
        Op::Eq => Ok(truth_word(a == b)),
        Op::Ne => Ok(truth_word(a != b)),
        Op::Lt => Ok(truth_word(a < b)),
        Op::Le => Ok(truth_word(a <= b)),
        Op::Gt => Ok(truth_word(a > b)),
        Op::Ge => Ok(truth_word(a >= b)),
        Op::Eqv => Ok(truth_word(is_truth(a) == is_truth(b))),
        Op::Neqv => Ok(truth_word(is_truth(a) != is_truth(b))),
        Op::Or => Ok(truth_word(is_truth(a) || is_truth(b))),
        Op::And => Ok(truth_word(is_truth(a) && is_truth(b))),
        Op::Not => Ok(truth_word(!is_truth(b))),
    }
}

/// A sign before a number: the number with the other sign, or Overflow, at a minus; else the
/// number.
pub fn with_sign(op: Op, a: i64) -> Result<i64, Fault>
    ensures { result ≡ with_sign op a }
{
    if op == Op::Sub { negate(a) } else { Ok(a) }
}

fn is_arithmetic(op: Op) -> bool
    ensures { result ≡ is_arithmetic op }
{
    match op {
        Op::Add => true,
        Op::Sub => true,
        Op::Mul => true,
        Op::Div => true,
        Op::Pow => true,
        _ => false,
    }
}

/// What an operator makes of its operands, or its fault. Of an operand of another type than the
/// operator's the word counts.
#[tactic(auto, using(crate::proofs::WordLaws::number_from, crate::proofs::WordLaws::truth_from, crate::proofs::WordLaws::fault_from))]
pub fn apply(op: Op, left: Value, right: Value) -> Result<Value, Fault>
    ensures { result ≡ applied op left right }
{
    match apply_words(op, left.word(), right.word()) {
        Ok(word) if is_arithmetic(op) => Ok(Value::Number(word)),
        Ok(word) => Ok(Value::Truth(is_truth(word))),
        Err(fault) => Err(fault),
    }
}
