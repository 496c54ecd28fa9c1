//! Pieces of a run whose statements were made outside of it, from a copy of the process.

ghost use Rattle.std.specs.Prelude.{◌≡◌, ◌⊎◌, ◌+◌, ◌++◌, true, is_some, Some, IfOk, OnOk};
ghost use Rattle.std.specs.FinMap.{get};
ghost use Rattle.fm_chan.specs.Woken.{WakesAll};
ghost use Rattle.fm_net.specs.Starts.{child_places};
ghost use Rattle.fm_proc_language.specs.Processes.{CodeProc};
ghost use Rattle.fm_machine_calls.specs.declared.looking.Look.TheVariants as look;
ghost use Rattle.fm_proc_events.specs.Told.{is_running, look_of};
ghost use Rattle.fm_procs.specs.Kept.{AreFamilies, AreKept, AreToldBut};
ghost use Rattle.fm_procs.specs.Pieces.{Finishes, IsNewAlong, IsNewAt, IsPiece, is_local_at};
ghost use Rattle.fm_procs.specs.Readings.{IsActor, actor_place, code_step, order_of, procs_of, state_of};
ghost use Rattle.fm_procs.specs.Stepping.{AdvancesAt};

use crate::advancing::Advanced;
use crate::code_procs::CodeProcs;
use crate::process::Entries;
use crate::putting::put_end;
use fm_base::NoMemory;
use fm_machine::Done;
use fm_machine_calls::Look;
use fm_machine_instr::Work;
use fm_net_procs::{Actor, Piece, local_piece};
use std::alloc::Global;

// A process gets the end of a slice that was made from a copy of it.
fn put_end_of(
    alloc: Global,
    entries: &mut Entries,
    work: &mut Work,
    actor: &Actor,
    done: &Done,
) -> Result<Advanced, NoMemory>
    requires actor { IsActor entries.old actor.now }
    requires running { (y : CodeProc) → get (procs_of entries.old) (actor_place actor.now) ≡ Some y
        → is_running y ≡ true }
    requires own { (y : CodeProc) → get (procs_of entries.old) (actor_place actor.now) ≡ Some y
        → y.body ≡ Some done.now.start.value }
    ensures order { OnOk result (order_of entries.new ≡ order_of entries.old) }
    ensures families { OnOk result (AreFamilies entries.old → AreFamilies entries.new) }
    ensures told { OnOk result
        (AreToldBut (actor_place actor.now) entries.old → AreToldBut (actor_place actor.now) entries.new) }
    ensures advances { IfOk result (λ a. (y : CodeProc) → get (procs_of entries.old) (actor_place actor.now) ≡ Some y
        → AdvancesAt done.now.steps (actor_place actor.now) y a (procs_of entries.old) (procs_of entries.new)) }
    ensures steps { IfOk result (λ a. a.steps ≡ done.now.steps) }
{
    match entries.rows.get_mut(actor.number) {
        Some(entry) => put_end(alloc, work, &mut entry.process.held, done),
        None => unreachable!(),
    }
}

// What a process does behind statements of its own, where there is room for one more step: its event, if it can do it.
fn finish_piece(
    procs: &mut CodeProcs,
    alloc: Global,
    actor: &Actor,
    steps: u32,
    cost: u64,
    next: Look,
) -> Result<Piece, NoMemory>
    requires families { AreFamilies procs.old.entries }
    requires actor { IsActor procs.old.entries actor.now }
    requires new { IsNewAt (state_of procs.old) (actor_place actor.now) }
    requires look { (y : CodeProc) → get (procs_of procs.old.entries) (actor_place actor.now) ≡ Some y
        → look_of y ≡ next }
    requires own { next ≡ look.Goes → is_local_at (state_of procs.old) (actor_place actor.now) ≡ true }
    requires told { AreToldBut (actor_place actor.now) procs.old.entries }
    ensures kept { OnOk result (AreKept procs.new.entries) }
    ensures order { IfOk result (λ r. order_of procs.new.entries
        ≡ order_of procs.old.entries ++ child_places (actor_place actor.now) r.block 1 r.started) }
    ensures steps { IfOk result
        (λ r. Finishes (state_of procs.old) (actor_place actor.now) steps cost r (state_of procs.new)) }
    ensures waking { OnOk result (WakesAll procs.old.channels procs.new.channels) }
{
    match next {
        Look::Asks(ask) => procs.event_or_wait(alloc, &(), actor, steps, cost, ask),
        Look::Goes => {
            procs.entries.keep_next(actor, Look::Goes);
            Ok(local_piece(steps, cost))
        }
        Look::Stuck => {
            procs.entries.keep_next(actor, Look::Stuck);
            Ok(local_piece(steps, cost))
        }
    }
}

// A process gets what came of a slice, and makes its step behind it that concerns others, if it comes to one that it
// can make.
fn given_piece(
    procs: &mut CodeProcs,
    alloc: Global,
    actor: &Actor,
    done: &Done,
) -> Result<Piece, NoMemory>
    requires families { AreFamilies procs.old.entries }
    requires actor { IsActor procs.old.entries actor.now }
    requires new { IsNewAlong (state_of procs.old) (actor_place actor.now) }
    requires look { (y : CodeProc) → get (procs_of procs.old.entries) (actor_place actor.now) ≡ Some y
        → look_of y ≡ look.Goes }
    requires can { is_some (code_step (state_of procs.old) (actor_place actor.now)) ≡ true }
    requires told { AreToldBut (actor_place actor.now) procs.old.entries }
    requires own { (y : CodeProc) → get (procs_of procs.old.entries) (actor_place actor.now) ≡ Some y
        → y.body ≡ Some done.now.start.value }
    ensures kept { OnOk result (AreKept procs.new.entries) }
    ensures order { IfOk result (λ r. order_of procs.new.entries
        ≡ order_of procs.old.entries ++ child_places (actor_place actor.now) r.block 1 r.started) }
    ensures piece { IfOk result
        (λ r. IsPiece done.now.steps true (state_of procs.old) (actor_place actor.now) r (state_of procs.new)) }
    ensures steps { IfOk result (λ r. (r.steps ≡ done.now.steps) ⊎ (r.steps ≡ done.now.steps + 1)) }
    ensures waking { OnOk result (WakesAll procs.old.channels procs.new.channels) }
{
    let Advanced { steps, cost, next } = put_end_of(
        alloc,
        &mut procs.entries,
        &mut procs.work,
        actor,
        done,
    )?;
    finish_piece(procs, alloc, actor, steps, cost, next)
}

/// Makes a piece of a process, which can step, of what came of a slice that was made from a copy of it, as it stands:
/// the statements of the slice, and then its step that concerns others, if it comes to one that it can make.
///
/// After want of memory these aren't to be used any more.
pub fn give_piece(
    procs: &mut CodeProcs,
    alloc: Global,
    actor: &Actor,
    done: &Done,
) -> Result<Piece, NoMemory>
    requires kept { AreKept procs.old.entries }
    requires actor { IsActor procs.old.entries actor.now }
    requires new { IsNewAlong (state_of procs.old) (actor_place actor.now) }
    requires can { is_some (code_step (state_of procs.old) (actor_place actor.now)) ≡ true }
    requires own { (y : CodeProc) → get (procs_of procs.old.entries) (actor_place actor.now) ≡ Some y
        → y.body ≡ Some done.now.start.value }
    ensures kept { OnOk result (AreKept procs.new.entries) }
    ensures order { IfOk result (λ r. order_of procs.new.entries
        ≡ order_of procs.old.entries ++ child_places (actor_place actor.now) r.block 1 r.started) }
    ensures piece { IfOk result
        (λ r. IsPiece done.now.steps true (state_of procs.old) (actor_place actor.now) r (state_of procs.new)) }
    ensures steps { IfOk result (λ r. (r.steps ≡ done.now.steps) ⊎ (r.steps ≡ done.now.steps + 1)) }
    ensures waking { OnOk result (WakesAll procs.old.channels procs.new.channels) }
{
    match procs.entries.take_next(actor) {
        Look::Goes => given_piece(procs, alloc, actor, done),
        // What asks for something made no statement in its slice.
        Look::Asks(ask) => procs.event_piece(alloc, &(), actor, 0, 0, ask),
        Look::Stuck => unreachable!(),
    }
}
