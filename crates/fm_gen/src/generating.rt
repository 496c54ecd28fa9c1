//! What is generated, and what it keeps.

ghost use Rattle.std.specs.Prelude.{◌≡◌, ℕ, Some, slice_get, IfOk};
ghost use Rattle.fm_plain_frame.specs.Units.{unit_of};
ghost use Rattle.fm_mean.specs.Names.{ProgramUnit, unit_at};
ghost use Rattle.fm_gen.specs.Bodies.{KeepsProgram, NeverStuck};
ghost use Rattle.fm_gen.specs.Programs.{code_of};
ghost use Rattle.fm_gen.specs.Kept.{KeepsUnit};
ghost use Rattle.fm_gen.specs.Units.{AddressesRise, TellsLines, unit_of_code};

use crate::units::unit_of_code;
use fm_base::{NoMemory, Seq};
use fm_code::{Code, Unit};
use fm_gen_operands::operand;
use fm_plain_frame::UnitView;
use fm_rules::Program;
use std::alloc::Global;

/// The code of a unit: its instructions, its entries with their lines and addresses, and what is in the words of its
/// frame. At each entry, behind as many of its references as are done, the statement does what the meaning does there.
/// Want of memory also where a number has no room in an instruction.
pub fn unit(alloc: Global, unit: &UnitView<'_>) -> Result<Unit, NoMemory>
    ensures code { IfOk result (λ c. c ≡ unit_of_code unit.now.program.now (unit_of unit.now)) }
    ensures lines { IfOk result (λ c. TellsLines unit.now.program.now (unit_of unit.now) c.entries) }
    ensures addresses { AddressesRise unit.now.program.now (unit_of unit.now) }
    ensures keeps { IfOk result (λ c. KeepsUnit unit.now.program.now (unit_of unit.now) c.code) }
{
    // It is a unit of its program, so its variables are laid out.
    let _number = unit.number();
    let code = unit_of_code(alloc, unit)?;
    Ok(code)
}

/// The code of a program: that of each unit, as `unit` makes it, by its number. A body of this code that stands for a
/// process does what the process does next: the same step, of the same lines, ports let go and cost, after which it
/// stands for the process again, or it asks for the same. Along every schedule no body is stuck that stands for a
/// process.
pub fn generate(alloc: Global, program: &Program) -> Result<Code, NoMemory>
    ensures code { IfOk result (λ c. c ≡ code_of program.now) }
    ensures units { IfOk result (λ c. (k : ℕ) (u : ProgramUnit)
        → unit_at program.now k ≡ Some u → slice_get c.units k ≡ Some (unit_of_code program.now u)) }
    ensures keeps_units { IfOk result (λ c. (k : ℕ) (u : ProgramUnit)
        → unit_at program.now k ≡ Some u → KeepsUnit program.now u (unit_of_code program.now u).code) }
    ensures keeps { IfOk result (λ c. KeepsProgram program.now c) }
    ensures never_stuck { IfOk result (λ c. NeverStuck program.now c) }
{
    let mut units = Seq::new(alloc);
    let count = operand(program.units().units.len())?;
    'units: for number in 0..count {
        if let Some(view) = UnitView::new(program, number) {
            units.push(unit(alloc, &view)?)?;
        }
    }
    Ok(Code { units })
}
