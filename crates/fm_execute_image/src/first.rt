//! Main alone, before its first step.

ghost use Rattle.std.specs.Prelude.{◌≡◌, ◌∷◌, [], IfOk, length, unwrap_or};
ghost use Rattle.fm_procs.specs.Kept.{AreKept};
ghost use Rattle.fm_procs.specs.Readings.{order_of, state_of};
ghost use Rattle.fm_image_law.specs.Image.{first, main_from};

use crate::making::code;
use fm_base::NoMemory;
use fm_object::{Image, UnitImage};
use fm_procs::CodeProcs;
use fm_shown::first_stacks as stacks_of;
use std::alloc::Global;

/// The number of the PROGRAM, or that behind all units where there is none.
fn main_place(units: &[UnitImage]) -> usize
    ensures { result ≡ unwrap_or (main_from 0 units.now) (length units.now) }
{
    'units: for number in 0..units.len() {
        if units[number].heading == 0 {
            return number;
        }
    }
    units.len()
}

fn main_number(units: &[UnitImage]) -> Result<u32, NoMemory>
    ensures { IfOk result (λ n. n ≡ unwrap_or (main_from 0 units.now) (length units.now)) }
{
    u32::try_from(main_place(units)).map_err(|_| NoMemory)
}

/// Main alone, with no channel: the first PROGRAM of the image at its first statement.
///
/// # Errors
/// `NoMemory` is want of memory, also where a number of its code has no 32 bits.
pub fn first_stacks(alloc: Global, image: &Image) -> Result<CodeProcs, NoMemory>
    ensures state { IfOk result (λ s. state_of s ≡ first image.now) }
    ensures order { IfOk result (λ s. order_of s.entries ≡ [] ∷ []) }
    ensures kept { IfOk result (λ s. AreKept s.entries) }
{
    let made = code(alloc, image)?;
    let number = main_number(image.units.as_slice())?;
    stacks_of(alloc, made, number)
}
