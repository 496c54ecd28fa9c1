//! Executes an image.

ghost use Rattle.std.specs.Prelude.{[], IfOk};
ghost use Rattle.fm_execute_image.specs.Play.{image_play};
ghost use Rattle.fm_run.specs.Orders.{places_of};
ghost use Rattle.fm_run.specs.Runs.{Follows, IsRun};
ghost use Rattle.fm_run_law.specs.Fair.{IsFair};
ghost use Rattle.fm_execute_image.specs.Executed.{IsNeverStuck};

use crate::images::Images;
use fm_base::NoMemory;
use fm_run::{Run, run_program};
use fm_run_code::CodeNet;
use fm_verify::Verified;
use std::alloc::Global;

/// How many local steps a piece has at most.
const SLICE: u32 = 1_000;

/// Runs an image, from its PROGRAM alone on, until no process can step, or until its turns are spent: its pieces, its
/// processes in the order of starting, and what the state shows to which they lead. Those that can step are served in
/// turn, on one thread: each comes before as many pieces as there are processes. Nobody that has more to do is ever
/// stuck.
///
/// # Errors
/// `NoMemory` is want of memory.
pub fn execute(alloc: Global, image: &Verified, turns: u64) -> Result<Run, NoMemory>
    ensures run { IfOk result (λ r. IsRun (image_play image.now) turns r) }
    ensures in_turn { IfOk result (λ r. Follows (image_play image.now) 1_000 [] r.history.items) }
    ensures fair { IfOk result (λ r. IsFair (image_play image.now) r.history.items (places_of r.paths.items)) }
    ensures never_stuck { IsNeverStuck image.now }
{
    // It makes sense.
    let _image = image.image();
    run_program::<CodeNet<Images>>(alloc, image, &[], turns, SLICE)
}
