//! Pieces of a run: several steps of one process.

ghost use Rattle.std.specs.Prelude.{◌≡◌, ◌≤◌, ◌++◌, true, is_some, IfOk, OnOk};
ghost use Rattle.fm_chan.specs.Woken.{WakesAll};
ghost use Rattle.fm_net.specs.Starts.{child_places};
ghost use Rattle.fm_procs.specs.Kept.{AreKept};
ghost use Rattle.fm_procs.specs.Pieces.{IsNewAlong, IsPiece};
ghost use Rattle.fm_procs.specs.Readings.{IsActor, actor_place, code_step, order_of, state_of};

use crate::code_procs::CodeProcs;
use fm_base::NoMemory;
use fm_net_procs::{Actor, Piece};
use std::alloc::Global;

/// Makes a piece of a process, which can step: statements of its own, as many as `slice` at most, and then, where there
/// is room for one more step, its event, if it can do it. With a step to `spare` there is room for it behind a whole
/// slice too.
///
/// After want of memory these aren't to be used any more.
pub fn make_piece(
    procs: &mut CodeProcs,
    alloc: Global,
    actor: &Actor,
    slice: u32,
    spare: bool,
) -> Result<Piece, NoMemory>
    requires some { 1 ≤ slice }
    requires kept { AreKept procs.old.entries }
    requires actor { IsActor procs.old.entries actor.now }
    requires new { IsNewAlong (state_of procs.old) (actor_place actor.now) }
    requires can { is_some (code_step (state_of procs.old) (actor_place actor.now)) ≡ true }
    ensures kept { OnOk result (AreKept procs.new.entries) }
    ensures order { IfOk result (λ r. order_of procs.new.entries
        ≡ order_of procs.old.entries ++ child_places (actor_place actor.now) r.block 1 r.started) }
    ensures piece { IfOk result
        (λ r. IsPiece slice spare (state_of procs.old) (actor_place actor.now) r (state_of procs.new)) }
    ensures waking { OnOk result (WakesAll procs.old.channels procs.new.channels) }
{
    procs.make_piece(alloc, &(), actor, slice, spare)
}
