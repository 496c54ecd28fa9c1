//! The code of units and of the whole.

ghost use Rattle.std.specs.Prelude.{◌≡◌, IfOk, map};
ghost use Rattle.fm_image_typed.specs.Codes.{code_of, unit_of};
ghost use Rattle.fm_image_typed.specs.Shapes.{loops_of};

use crate::formals::formals_of;
use crate::words::{ports_of, words_of};
use fm_base::{NoMemory, Seq};
use fm_code::{Code, Instr, Unit};
use fm_object::{Image, UnitImage};
use fm_verify::loops_of;
use std::alloc::Global;

/// How many loops a frame has. Want of memory also where none can have so many.
fn loop_count(code: &[Instr]) -> Result<u32, NoMemory>
    ensures { IfOk result (λ loops. loops ≡ loops_of code.now) }
{
    u32::try_from(loops_of(code)).map_err(|_| NoMemory)
}

fn unit_of(alloc: Global, unit: &UnitImage) -> Result<Unit, NoMemory>
    ensures { IfOk result (λ made. made ≡ unit_of unit.now) }
{
    let cells = unit.cells.as_slice();
    let words = words_of(cells)?;
    let loops = loop_count(unit.code.as_slice())?;
    let ports = ports_of(alloc, cells)?;
    let formals = formals_of(alloc, unit)?;
    let entries = Seq::from_slice(alloc, unit.entries.as_slice())?;
    let extents = Seq::from_slice(alloc, unit.extents.as_slice())?;
    let code = Seq::from_slice(alloc, unit.code.as_slice())?;
    Ok(Unit {
        code,
        entries,
        words,
        ports,
        formals,
        loops,
        extents,
    })
}

fn units_of(alloc: Global, units: &[UnitImage]) -> Result<Seq<Unit>, NoMemory>
    ensures { IfOk result (λ made. made ≡ map unit_of units.now) }
{
    let mut made = Seq::new(alloc);
    'units: for unit in units {
        made.push(unit_of(alloc, unit)?)?;
    }
    Ok(made)
}

/// The code of an image. Linear in the image.
///
/// # Errors
/// `NoMemory` is want of memory, also where the words or the loops of a frame have no number of 32 bits.
pub fn code(alloc: Global, image: &Image) -> Result<Code, NoMemory>
    ensures { IfOk result (λ made. made ≡ code_of image.now) }
{
    let units = units_of(alloc, image.units.as_slice())?;
    Ok(Code { units })
}
