//! The code of the place of a process.

ghost use Rattle.std.specs.Prelude.{◌≡◌, ◌++◌, OnOk};
ghost use Rattle.fm_plain_frame.specs.Units.{unit_of};
ghost use Rattle.fm_tree.specs.Tree.{trees_from};
ghost use Rattle.fm_gen_operands.specs.Places.{location_code, seat_code};

use crate::expressions::{emit, emit_all, operand};
use fm_base::{NoMemory, Seq};
use fm_code::{Build, Instr};
use fm_plain_frame::UnitView;
use fm_tree::{Expr, Where};

/// Adds what puts a process at the place that these numbers tell.
fn location(
    unit: &UnitView<'_>,
    numbers: &[Expr],
    next: usize,
    out: &mut Seq<Instr>,
) -> Result<(), NoMemory>
    ensures { OnOk result
        (out.new ≡ out.old ++ location_code unit.now.program.now (unit_of unit.now) (trees_from numbers.now) next) }
{
    emit_all(unit, numbers, next, out)?;
    let count = operand(numbers.len())?;
    out.push(Instr::Build(Build::Location(count)))?;
    Ok(())
}

/// Adds the code of where a process is put, before which `next` references of its entry stand; none where it is put on
/// the node of its parent.
pub fn seat(
    unit: &UnitView<'_>,
    place: &Option<Where>,
    next: usize,
    out: &mut Seq<Instr>,
) -> Result<(), NoMemory>
    ensures { OnOk result (out.new ≡ out.old ++ seat_code unit.now.program.now (unit_of unit.now) place.now next) }
{
    match place {
        None => Ok(()),
        Some(Where::Location(numbers)) => location(unit, numbers.as_slice(), next, out),
        Some(Where::Submachine(low, high)) => {
            let next = emit(unit, low, next, out)?;
            emit(unit, high, next, out)?;
            out.push(Instr::Build(Build::Submachine))
        }
    }
}
