//! The code of names that stand alone.

ghost use Rattle.std.specs.Prelude.{◌≡◌};
ghost use Rattle.fm_values.specs.Values.{word_of};
ghost use Rattle.fm_mean.specs.Evaluate.{constant_by};
ghost use Rattle.fm_mean.specs.Names.{variable_of};
ghost use Rattle.fm_plain_frame.specs.Units.{unit_of};
ghost use Rattle.fm_gen_operands.specs.Code.{push, first_load, variable_code, named_code};

use fm_base::Name;
use fm_code::{Eval, Instr};
use fm_plain_frame::UnitView;
use fm_symbols::{Constant, Variable};
use fm_tree::Kind;
use fm_values::truth_word;

/// Pushes a word.
pub fn push(word: i64) -> Instr
    ensures { result ≡ push word }
{
    Instr::Eval(Eval::Push(word))
}

fn first_load(first: u32, words: u32) -> Instr
    ensures { result ≡ first_load first words }
{
    if words > 0 {
        Instr::Eval(Eval::Load(first))
    } else {
        push(0)
    }
}

fn variable(variable: &Variable) -> Instr
    ensures { result ≡ variable_code variable.now.kind variable.now.first variable.now.words }
{
    match &variable.kind {
        Kind::Integer => first_load(variable.first, variable.words),
        Kind::Logical => first_load(variable.first, variable.words),
        Kind::In(_) => push(0),
        Kind::Out(_) => push(0),
    }
}

/// The word of a constant; 0 where there is none.
pub fn constant_word(constant: Option<Constant>) -> i64
    ensures { result ≡ word_of (constant_by constant) }
{
    match constant {
        None => 0,
        Some(Constant::Integer(number)) => number,
        Some(Constant::Logical(truth)) => truth_word(truth),
    }
}

/// The instruction for a name that stands alone: its first word, or the word of a constant.
pub fn named(unit: &UnitView<'_>, name: &Name) -> Instr
    ensures { result ≡ named_code (unit_of unit.now) name.now (variable_of (unit_of unit.now) name.now) }
{
    match unit.variable(name) {
        None => push(constant_word(unit.constant(name))),
        Some((_, found)) => variable(found),
    }
}
