//! The levels of operators: how tightly each joins, and what may stand beside it.

ghost use Rattle.std.specs.Prelude.{◌≡◌};
ghost use Rattle.fm_tree.specs.Shape.{levels};

use fm_base::Op;

/// The level that an operator joins, from 1, loosest first. `.NOT.` joins none: 0.
pub fn own_level(op: Op) -> u8
    ensures { result ≡ (levels op).own }
{
    match op {
        Op::Eqv => 1,
        Op::Neqv => 1,
        Op::Or => 2,
        Op::And => 3,
        Op::Not => 0,
        Op::Eq | Op::Ne | Op::Lt | Op::Le | Op::Gt | Op::Ge => 5,
        Op::Add => 6,
        Op::Sub => 6,
        Op::Mul => 7,
        Op::Div => 7,
        Op::Pow => 8,
    }
}

/// The least level of an operator's left operand. No operand reaches that of `.NOT.`.
pub fn left_level(op: Op) -> u8
    ensures { result ≡ (levels op).left }
{
    match op {
        Op::Eqv => 1,
        Op::Neqv => 1,
        Op::Or => 2,
        Op::And => 3,
        Op::Not => 10,
        Op::Eq | Op::Ne | Op::Lt | Op::Le | Op::Gt | Op::Ge => 6,
        Op::Add => 6,
        Op::Sub => 6,
        Op::Mul => 7,
        Op::Div => 7,
        Op::Pow => 9,
    }
}

/// The least level of an operator's right operand.
pub fn right_level(op: Op) -> u8
    ensures { result ≡ (levels op).right }
{
    match op {
        Op::Eqv => 2,
        Op::Neqv => 2,
        Op::Or => 3,
        Op::And => 4,
        Op::Not => 9,
        Op::Eq | Op::Ne | Op::Lt | Op::Le | Op::Gt | Op::Ge => 6,
        Op::Add => 7,
        Op::Sub => 7,
        Op::Mul => 8,
        Op::Div => 8,
        Op::Pow => 8,
    }
}
