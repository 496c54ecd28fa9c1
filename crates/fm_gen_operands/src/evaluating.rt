//! The code of an expression, and what it keeps.

ghost use Rattle.std.specs.Prelude.{◌≡◌, ◌+◌, ◌++◌, IfOk, OnOk};
ghost use Rattle.fm_mean.specs.Evaluate.{refs_in};
ghost use Rattle.fm_plain_frame.specs.Units.{unit_of};
ghost use Rattle.fm_gen_operands.specs.Code.{expression_code};
ghost use Rattle.fm_mean.specs.Referring.{names_in};
ghost use Rattle.fm_gen_operands.specs.Keeps.{KeepsValue};

use crate::expressions::emit;
use fm_base::{NoMemory, Seq};
use fm_code::Instr;
use fm_plain_frame::UnitView;
use fm_tree::Expr;

/// Adds the code of an expression, before which `next` references of its entry stand, and answers how many stand before
/// what comes behind it. In each frame of the unit the code leaves the word of the expression's value, or fails as the
/// expression does. Want of memory also where a number has no room in an instruction.
pub fn expression(
    unit: &UnitView<'_>,
    tree: &Expr,
    next: usize,
    out: &mut Seq<Instr>,
) -> Result<usize, NoMemory>
    ensures code { OnOk result
        (out.new ≡ out.old ++ expression_code unit.now.program.now (unit_of unit.now) tree.now next) }
    ensures next { IfOk result (λ k. k ≡ next + refs_in (names_in unit.now.program.now (unit_of unit.now)) tree.now) }
    ensures keeps { KeepsValue unit.now.program.now (unit_of unit.now) tree.now next
        (expression_code unit.now.program.now (unit_of unit.now) tree.now next) }
{
    // It is a unit of its program, so its variables have as many words as elements.
    let _number = unit.number();
    emit(unit, tree, next, out)
}
