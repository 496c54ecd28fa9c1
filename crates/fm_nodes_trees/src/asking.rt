//! What a process asks for.

ghost use Rattle.fm_rules.specs.declared.program.Program as declared;
ghost use Rattle.std.specs.Prelude.{◌≡◌, ◌∷◌, ◌+◌, ◌^◌, ◌<◌, List, Some, IfOk};
ghost use Rattle.fm_base.specs.Channels.{Item};
ghost use Rattle.fm_net.specs.Machine.{New};
ghost use Rattle.fm_mean.specs.Actions.{action_of, message_words};
ghost use Rattle.fm_mean.specs.Places.{message_from};
ghost use Rattle.fm_mean.specs.declared.place.Actual as declared_actual;
ghost use Rattle.fm_mean.specs.Steps.{ask};
ghost use Rattle.fm_plain_frame.specs.Frames.{execution_of, phase_of, proc_of};
ghost use Rattle.fm_plain.specs.Events.{IsEvent, event_by};
ghost use Rattle.fm_nodes_procs.specs.Asks.{StartsSo, need_asked, need_told};
ghost use Rattle.fm_nodes_trees.specs.Told.{given_words, open_starts, starts_with};

use crate::telling::{Ahead, told};
use fm_base::{NoMemory, Seq};
use fm_mean::Actual;
use fm_nodes_procs::{Asked, Request};
use fm_plain::{Event, innermost};
use fm_plain_frame::PlainProc;
use fm_plain_replies::limits_of;
use fm_rules::Program;
use std::alloc::Global;

// The words of the items of a message, once more. Where an item is a port there are none: no plain program sends one.
fn words_in(alloc: Global, items: &[Actual]) -> Result<Seq<Seq<i64>>, NoMemory>
    ensures { IfOk result (λ words. given_words items.now ≡ Some words) }
{
    let mut all = Seq::new(alloc);
    'items: for item in items {
        match item {
            Actual::Given(words, _) => {
                let copy = Seq::from_slice(alloc, words.as_slice())?;
                all.push(copy)?;
            }
            Actual::Taken(_) => return Err(NoMemory),
        }
    }
    Ok(all)
}

// How many words an item has. Where it is a port they aren't counted: no plain program sends one.
fn item_words(item: &Actual) -> Result<u64, NoMemory>
    ensures { IfOk result (λ n. (vs : List Item) (more : List declared_actual.Actual) →
        n + message_words (message_from vs more).1 ≡ message_words (message_from vs (item.now ∷ more)).1) }
{
    match item {
        Actual::Given(words, _) => Ok(words.len() as u64),
        Actual::Taken(_) => Err(NoMemory),
    }
}

// A cost, unless it is so much that no sum of costs has it.
pub(crate) fn bounded(cost: u64) -> Result<u64, NoMemory>
    ensures same { IfOk result (λ c. c ≡ cost) }
    ensures few { IfOk result (λ c. c < 2 ^ 63) }
{
    if cost < 9_223_372_036_854_775_808 {
        Ok(cost)
    } else {
        Err(NoMemory)
    }
}

// One turn more than so many words, unless it is so much that no sum of costs has it.
pub(crate) fn one_more(words: u64) -> Result<u64, NoMemory>
    ensures same { IfOk result (λ c. c ≡ 1 + words) }
    ensures few { IfOk result (λ c. c < 2 ^ 63) }
{
    if words < 9_223_372_036_854_775_807 {
        Ok(1 + words)
    } else {
        Err(NoMemory)
    }
}

/// What it costs to send a message.
pub(crate) fn message_cost(items: &[Actual]) -> Result<u64, NoMemory>
    ensures cost { IfOk result (λ cost. (vs : List Item) → cost ≡ 1 + message_words (message_from vs items.now).1) }
    ensures few { IfOk result (λ cost. cost < 2 ^ 63) }
{
    let mut words: u64 = 0;
    'items: for item in items {
        words = words.checked_add(item_words(item)?).ok_or(NoMemory)?;
    }
    one_more(words)
}

/// How many starts the innermost frame has.
pub(crate) fn open_starts(process: &PlainProc) -> usize
    ensures { (p : declared.Program) → result ≡ open_starts (execution_of p process.now).frames }
{
    match innermost(process) {
        None => 0,
        Some(frame) => frame.starts.len(),
    }
}

// How many children start with an event.
fn starts_with(process: &PlainProc, event: &Event) -> usize
    ensures { (p : declared.Program)
        → result ≡ starts_with (execution_of p process.now).frames (event_by (phase_of process.now.phase) event.now) }
{
    match event {
        Event::Fail(_, _) => 0,
        Event::Make { .. } => 0,
        Event::Send { .. } => 0,
        Event::Receive { .. } => 0,
        Event::Probe { .. } => 0,
        Event::Begin => open_starts(process),
        Event::Join { .. } => 0,
        Event::End => 0,
    }
}

// A new channel of this number is asked for. No plain program makes one with a second writer.
fn makes(number: u32, writers: u32) -> Result<Asked, NoMemory>
    ensures { IfOk result (λ a. need_told a ≡ Some (New number writers)) }
{
    if writers == 0 {
        return Ok(Asked::Makes(number, false));
    }
    if writers == 1 {
        return Ok(Asked::Makes(number, true));
    }
    Err(NoMemory)
}

// What the process asks for that meets an event. No plain program looks whether a message is there.
fn asked_for(
    alloc: Global,
    program: &Program,
    process: &PlainProc,
    event: Event,
) -> Result<Asked, NoMemory>
    requires { IsEvent (phase_of process.now.phase) (action_of program.now (proc_of program.now process.now)) event }
    ensures { IfOk result (λ a. need_told a ≡ need_asked (ask program.now (proc_of program.now process.now))) }
{
    let _program = program;
    match event {
        Event::Fail(_, _) => Ok(Asked::Goes),
        Event::Make { writers, .. } => makes(process.next_channel, writers),
        Event::Send {
            channel,
            writer,
            items,
            ..
        } => {
            let words = words_in(alloc, items.as_slice())?;
            Ok(Asked::Sends(channel, writer, words))
        }
        Event::Receive { channel, items, .. } => {
            let limits = limits_of(alloc, items.as_slice())?;
            Ok(Asked::Receives(channel, limits))
        }
        Event::Probe { .. } => Err(NoMemory),
        Event::Begin => Ok(Asked::Goes),
        Event::Join { block, count, .. } => Ok(Asked::Joins(block, count)),
        Event::End => Ok(Asked::Goes),
    }
}

// Of a process that meets an event.
fn asked_at(
    alloc: Global,
    program: &Program,
    process: &PlainProc,
    event: Event,
) -> Result<Request, NoMemory>
    requires { IsEvent (phase_of process.now.phase) (action_of program.now (proc_of program.now process.now)) event }
    ensures need { IfOk result
        (λ q. need_told q.asked ≡ need_asked (ask program.now (proc_of program.now process.now))) }
    ensures starts { IfOk result (λ q. StartsSo (ask program.now (proc_of program.now process.now)) q.block q.starts) }
{
    let starts = starts_with(process, &event);
    let asked = asked_for(alloc, program, process, event)?;
    Ok(Request {
        asked,
        block: process.next_block,
        starts,
    })
}

/// What a process asks for, in which block its next children start, and how many.
pub(crate) fn asked(
    alloc: Global,
    program: &Program,
    process: &PlainProc,
) -> Result<Request, NoMemory>
    ensures need { IfOk result
        (λ q. need_told q.asked ≡ need_asked (ask program.now (proc_of program.now process.now))) }
    ensures starts { IfOk result (λ q. StartsSo (ask program.now (proc_of program.now process.now)) q.block q.starts) }
{
    match told(alloc, program, process)? {
        Ahead::Rests => Ok(Request {
            asked: Asked::Rests,
            block: process.next_block,
            starts: 0,
        }),
        Ahead::Goes => Ok(Request {
            asked: Asked::Goes,
            block: process.next_block,
            starts: 0,
        }),
        Ahead::Meets(event) => asked_at(alloc, program, process, event),
    }
}
