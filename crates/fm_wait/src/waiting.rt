//! Whom the waiting processes wait for, and the cycles.

ghost use Rattle.std.specs.Prelude.{◌≡◌, IfOk, map};
ghost use Rattle.fm_wait.specs.Waits.{waits_for};
ghost use Rattle.fm_wait.specs.Cycles.{cycles_of};

use crate::answer::Waits;
use crate::cycles::all_cycles;
use crate::holders::all_waited_for;
use crate::places::{all_places, first_places, graph_of, in_order};
use fm_base::{NoMemory, Seq};
use fm_graph::components;
use fm_mean::Outcome;
use std::alloc::Global;

/// Whom each wait of an outcome is for, and the cycles. Waits and holders may stand in any order; of two waits of one
/// path, and of two entries for one writer, the first counts. The time is in proportion to the outcome and to the
/// logarithm of its length.
pub fn waits(alloc: Global, outcome: &Outcome) -> Result<Waits, NoMemory>
    ensures on { IfOk result (λ found. found.on ≡ map (waits_for outcome.now) outcome.now.waits) }
    ensures cycles { IfOk result (λ found. found.cycles ≡ cycles_of outcome.now) }
{
    let on = all_waited_for(alloc, outcome)?;
    let places = first_places(alloc, outcome.waits.as_slice())?;
    let next = all_places(alloc, &places, &on)?;
    let names = components(alloc, &graph_of(alloc, &next)?)?;
    let order = in_order(alloc, places)?;
    let cycles = all_cycles(alloc, outcome, &next, &names, &order)?;
    Ok(Waits {
        on: Seq::from_vec(on),
        cycles,
    })
}
