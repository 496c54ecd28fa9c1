//! A unit of an image.

ghost use Rattle.std.specs.Prelude.{◌≡◌, ◌↔◌, ◌&&◌, IfOk, IsTrue, Some, slice_get};
ghost use Rattle.fm_image_typed.specs.Shapes.{shape_of, shapes_of};
ghost use Rattle.fm_image_typed.specs.Typed.{UnitIsTyped};
ghost use Rattle.fm_verify.specs.Tests.{is_plain};

use crate::cells::{are_apart, frame_of, have_places};
use crate::entries::{is_entered, loops_of};
use crate::joins::joins_stand;
use crate::machines::is_framed;
use fm_base::NoMemory;
use fm_object::{Image, UnitImage};
use fm_verify_unit::{Known, Own, kinded};
use std::alloc::Global;

/// Whether the unit makes sense but for the words of its variables and the kinds of its code.
fn is_plain(alloc: Global, unit: &UnitImage) -> Result<bool, NoMemory>
    ensures { IfOk result (λ plain. plain ≡ is_plain unit.now) }
{
    let cells = unit.cells.as_slice();
    if !are_apart(alloc, cells)? {
        return Ok(false);
    }
    if !have_places(alloc, cells)? {
        return Ok(false);
    }
    Ok(
        is_framed(unit)
            && (is_entered(unit) && joins_stand(unit.code.as_slice(), unit.entries.as_slice())),
    )
}

/// Whether the unit with this number makes sense.
pub(crate) fn is_typed(
    alloc: Global,
    image: &Image,
    known: &Known,
    number: usize,
    unit: &UnitImage,
) -> Result<bool, NoMemory>
    requires known { known.now ≡ shapes_of image.now }
    requires unit { slice_get image.now.units number ≡ Some unit.now }
    ensures { IfOk result (λ typed. IsTrue typed ↔ UnitIsTyped image.now unit.now) }
{
    let Some(frame) = frame_of(image.types.len(), unit.cells.as_slice()) else {
        return Ok(false);
    };
    if !is_plain(alloc, unit)? {
        return Ok(false);
    }
    let Some(shape) = known.unit(number) else {
        return Ok(false);
    };
    let code = unit.code.as_slice();
    let loops = loops_of(code);
    let own = Own { frame, loops };
    kinded(alloc, known, shape, own, unit.entries.as_slice(), code)
}
