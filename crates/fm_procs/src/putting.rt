//! What came of a slice that was made outside of its process.

ghost use Rattle.std.specs.Prelude.{◌≡◌, ◌++◌, [], true, Some, IfOk, OnOk};
ghost use Rattle.fm_proc_events.specs.Phases.{proc_of};
ghost use Rattle.fm_procs.specs.Runs.{Runs};
ghost use Rattle.fm_proc_events.specs.Told.{is_running, look_of};

use crate::advancing::Advanced;
use fm_base::{NoMemory, Seq};
use fm_code::{Body, Pile, Rare, copy_body};
use fm_machine::{Done, next_look};
use fm_machine_instr::Work;
use fm_proc_events::Process;
use std::alloc::Global;

fn copy_lines(alloc: Global, lines: &mut Rare<Seq<u8>>, more: &[Seq<u8>]) -> Result<(), NoMemory>
    ensures { OnOk result (lines.new ≡ lines.old ++ more.now) }
{
    'copies: for line in more {
        lines.push(Seq::from_slice(alloc, line.as_slice())?)?;
    }
    Ok(())
}

// These items take the place of those of a list, in the room that it has.
fn put_items<T: Copy + Drop>(alloc: Global, list: &mut Seq<T>, items: &[T]) -> Result<(), NoMemory>
    ensures { OnOk result (list.new ≡ items.now) }
{
    let mut all = list.take(alloc).into_vec();
    all.clear();
    all.extend_from_slice(items)?;
    *list = Seq::from_vec(all);
    Ok(())
}

// Whether a body has no frame but the innermost one, which has no start.
#[tactic(auto, using(crate::proofs::PutEnd::is_none))]
fn has_one_frame(body: &Body) -> bool
    ensures below { result ≡ true → body.now.below ≡ [] }
    ensures starts { result ≡ true → body.now.frame.starts ≡ [] }
{
    match body.below.first() {
        Some(_) => false,
        None => body.frame.starts.is_empty(),
    }
}

// A body with no frame but this one, which has no start, takes the place of another, in the room that this has.
fn put_in_room(alloc: Global, body: &mut Body, end: &Body) -> Result<(), NoMemory>
    requires below { end.now.below ≡ [] }
    requires starts { end.now.frame.starts ≡ [] }
    ensures { OnOk result (body.new ≡ end.now) }
{
    body.code = end.code.share()?;
    body.machine = end.machine;
    body.node = end.node;
    body.frame.unit = end.frame.unit;
    body.frame.address = end.frame.address;
    put_items(alloc, &mut body.frame.words, end.frame.words.as_slice())?;
    put_items(alloc, &mut body.frame.loops, end.frame.loops.as_slice())?;
    put_items(alloc, &mut body.frame.results, end.frame.results.as_slice())?;
    put_items(alloc, &mut body.frame.backs, end.frame.backs.as_slice())?;
    body.frame.starts.clear();
    body.below = Pile::new(alloc);
    Ok(())
}

// A body takes the place of another. Where their frames have as many words it is copied into the room of the other,
// which so stays where it is, whoever brings the end: what a thread has let go it uses again, and then two threads
// would write side by side.
fn put_over(alloc: Global, body: &mut Body, end: &Body) -> Result<(), NoMemory>
    ensures { OnOk result (body.new ≡ end.now) }
{
    if has_one_frame(end) && body.frame.words.len() == end.frame.words.len() {
        return put_in_room(alloc, body, end);
    }
    *body = copy_body(alloc, end)?;
    Ok(())
}

// A body takes the place of that of a process.
fn put_body(alloc: Global, held: &mut Option<Body>, end: &Body) -> Result<(), NoMemory>
    ensures { OnOk result (held.new ≡ Some end.now) }
{
    match held {
        Some(body) => put_over(alloc, body, end),
        None => {
            *held = Some(copy_body(alloc, end)?);
            Ok(())
        }
    }
}

/// A process gets the end of a slice that was made from a copy of it, with its lines. Both are copied. After want of
/// memory what is in its body and its lines means nothing.
pub fn put_end(
    alloc: Global,
    work: &mut Work,
    process: &mut Process,
    done: &Done,
) -> Result<Advanced, NoMemory>
    requires running { is_running (proc_of process.old) ≡ true }
    requires own { process.old.body ≡ Some done.now.start.value }
    ensures runs { IfOk result (λ a. Runs (proc_of process.old) a.steps a.cost (proc_of process.new)) }
    ensures steps { IfOk result (λ a. a.steps ≡ done.now.steps) }
    ensures next { IfOk result (λ a. a.next ≡ look_of (proc_of process.new)) }
{
    let next = next_look(alloc, work, done.end())?;
    copy_lines(alloc, &mut process.lines, done.lines())?;
    put_body(alloc, &mut process.body, done.end())?;
    Ok(Advanced {
        steps: done.steps(),
        cost: done.cost(),
        next,
    })
}
