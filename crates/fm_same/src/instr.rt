//! Instructions.

ghost use Rattle.fm_same.specs.Same.{IsSameTest};

use fm_code::Instr;

// What it does and the operands, which tell an instruction.
fn same_parts(first: (u32, i64, i64), second: (u32, i64, i64)) -> bool
    ensures { IsSameTest result first second }
{
    first.0 == second.0 && first.1 == second.1 && first.2 == second.2
}

/// Whether two instructions are the same.
pub(crate) fn same_instr(first: &Instr, second: &Instr) -> bool
    ensures { IsSameTest result first.now second.now }
{
    let one = first.parts();
    let other = second.parts();
    same_parts(one, other)
}
