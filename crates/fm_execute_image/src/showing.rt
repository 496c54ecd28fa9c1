//! What a run of an image shows when it has ended.

ghost use Rattle.std.specs.Prelude.{◌≡◌, Some, [], IfOk};
ghost use Rattle.fm_finmap.specs.Rows.{place_at};
ghost use Rattle.fm_procs.specs.Kept.{AreKept};
ghost use Rattle.fm_procs.specs.Readings.{state_of};
ghost use Rattle.fm_execute_image.specs.Outcome.{outcome_of};

use crate::rows::variables;
use fm_base::NoMemory;
use fm_mean::Outcome;
use fm_object::Image;
use fm_procs::CodeProcs;
use fm_shown::{outcome_with, process_of};
use std::alloc::Global;

/// What a run of the image shows when it has ended at this cost in turns: output, faults and waits in path order, the
/// variables of main, and who holds the open writers.
pub fn outcome(
    alloc: Global,
    stacks: &CodeProcs,
    image: &Image,
    used: u64,
) -> Result<Outcome, NoMemory>
    requires kept { AreKept stacks.now.entries }
    requires main { place_at stacks.now.entries.rows 0 ≡ Some [] }
    ensures { IfOk result (λ o. o ≡ outcome_of image.now used (state_of stacks.now)) }
{
    let shown = variables(alloc, image, process_of(&stacks.entries, 0))?;
    outcome_with(alloc, stacks, shown, used)
}
