//! Instructions that end a statement on ports or on other processes.

ghost use Rattle.std.specs.Prelude.{◌≡◌, IfOk, slice_get};
ghost use Rattle.fm_code.specs.Acts.{Over, Moves, with_one, with_two, at_word, at_port, asks, receives, closes, meets};
ghost use Rattle.fm_code.specs.declared.ask.Ask.TheVariants as ask;
ghost use Rattle.fm_machine_instr.specs.Told.{ended};
ghost use Rattle.fm_machine_instr.specs.Ports.{IsPort};

use crate::building::word_number;
use crate::statement_end::Ending;
use crate::work::Work;
use fm_base::{Fault, NoMemory};
use fm_code::{Ask, Frame, Meet};
use std::alloc::Global;

/// What stands at a port word.
#[derive(Clone, Copy)]
pub(crate) enum Port {
    /// A port, by its slot.
    Slot(i64),
    /// NULL.
    Null,
    /// Nothing: the frame has no such word.
    Nothing,
}

/// What stands at the port word with this number.
#[inline(always)]
pub(crate) fn port_at(frame: &Frame, number: u32) -> Port
    ensures { IsPort result (slice_get frame.now.words number) }
{
    match frame.words.get(number as usize) {
        Some(0) => Port::Null,
        Some(slot) => Port::Slot(slot),
        None => Port::Nothing,
    }
}

#[inline(always)]
fn send(alloc: Global, work: &mut Work, next: u32, frame: &Frame) -> Result<Ending, NoMemory>
    ensures { IfOk result (λ e. Over (ended e frame.now)
        ≡ with_one work.old.stack
        (λ x s. at_port frame.now x (λ slot. asks (ask.Send slot work.old.scratch.operands next)))) }
{
    let Some(word) = work.stack.pop() else {
        return Ok(Ending::Stuck);
    };
    let Some(number) = word_number(frame, word)? else {
        return Ok(Ending::Stuck);
    };
    match port_at(frame, number) {
        Port::Slot(slot) => {
            let items = work.scratch.operands.take(alloc);
            Ok(Ending::Asks(Ask::Send { slot, items, next }))
        }
        Port::Null => Ok(Ending::Fails(Fault::NullPort)),
        Port::Nothing => Ok(Ending::Stuck),
    }
}

#[inline(always)]
fn receive(
    alloc: Global,
    work: &mut Work,
    at_end: Option<u32>,
    next: u32,
    frame: &Frame,
) -> Result<Ending, NoMemory>
    ensures { IfOk result (λ e. Over (ended e frame.now)
        ≡ with_one work.old.stack (λ x s. receives work.old.scratch frame.now x at_end next)) }
{
    let Some(word) = work.stack.pop() else {
        return Ok(Ending::Stuck);
    };
    let Some(number) = word_number(frame, word)? else {
        return Ok(Ending::Stuck);
    };
    match port_at(frame, number) {
        Port::Slot(slot) => Ok(Ending::Asks(Ask::Receive {
            slot,
            items: work.scratch.operands.take(alloc),
            status: work.scratch.status,
            at_end,
            next,
        })),
        Port::Null => Ok(Ending::Fails(Fault::NullPort)),
        Port::Nothing => Ok(Ending::Stuck),
    }
}

fn channel(work: &mut Work, next: u32, frame: &Frame) -> Result<Ending, NoMemory>
    ensures { IfOk result (λ e. Over (ended e frame.now)
        ≡ with_two work.old.stack
        (λ x y s. at_word frame.now x (λ i. at_word frame.now y (λ o. asks (ask.Channel i o next))))) }
{
    let Some(second) = work.stack.pop() else {
        return Ok(Ending::Stuck);
    };
    let Some(first) = work.stack.pop() else {
        return Ok(Ending::Stuck);
    };
    let Some(inport) = word_number(frame, first)? else {
        return Ok(Ending::Stuck);
    };
    let Some(outport) = word_number(frame, second)? else {
        return Ok(Ending::Stuck);
    };
    Ok(Ending::Asks(Ask::Channel {
        inport,
        outport,
        next,
    }))
}

fn channel_from(work: &mut Work, next: u32, frame: &Frame) -> Result<Ending, NoMemory>
    ensures { IfOk result (λ e. Over (ended e frame.now)
        ≡ with_two work.old.stack
        (λ x y s. at_word frame.now x (λ o. at_word frame.now y (λ i. asks (ask.Channel i o next))))) }
{
    let Some(second) = work.stack.pop() else {
        return Ok(Ending::Stuck);
    };
    let Some(first) = work.stack.pop() else {
        return Ok(Ending::Stuck);
    };
    let Some(outport) = word_number(frame, first)? else {
        return Ok(Ending::Stuck);
    };
    let Some(inport) = word_number(frame, second)? else {
        return Ok(Ending::Stuck);
    };
    Ok(Ending::Asks(Ask::Channel {
        inport,
        outport,
        next,
    }))
}

fn merger(alloc: Global, work: &mut Work, next: u32, frame: &Frame) -> Result<Ending, NoMemory>
    ensures { IfOk result (λ e. Over (ended e frame.now)
        ≡ with_one work.old.stack
        (λ x s. at_word frame.now x (λ i. asks (ask.Merger i work.old.scratch.operands next)))) }
{
    let Some(word) = work.stack.pop() else {
        return Ok(Ending::Stuck);
    };
    let Some(inport) = word_number(frame, word)? else {
        return Ok(Ending::Stuck);
    };
    let outports = work.scratch.operands.take(alloc);
    Ok(Ending::Asks(Ask::Merger {
        inport,
        outports,
        next,
    }))
}

fn end_channel(work: &mut Work, next: u32, frame: &Frame) -> Result<Ending, NoMemory>
    ensures { IfOk result (λ e. Over (ended e frame.now)
        ≡ with_one work.old.stack (λ x s. at_word frame.now x (λ k. closes frame.now next k))) }
{
    let Some(word) = work.stack.pop() else {
        return Ok(Ending::Stuck);
    };
    let Some(number) = word_number(frame, word)? else {
        return Ok(Ending::Stuck);
    };
    match port_at(frame, number) {
        Port::Slot(_) => Ok(Ending::Closes(number, next)),
        Port::Null => Ok(Ending::Fails(Fault::NullPort)),
        Port::Nothing => Ok(Ending::Stuck),
    }
}

fn move_port(work: &mut Work, next: u32, frame: &Frame) -> Result<Ending, NoMemory>
    ensures { IfOk result (λ e. Over (ended e frame.now)
        ≡ with_two work.old.stack
        (λ x y s. at_word frame.now x (λ from. at_word frame.now y (λ into. Over (Moves from into next))))) }
{
    let Some(second) = work.stack.pop() else {
        return Ok(Ending::Stuck);
    };
    let Some(first) = work.stack.pop() else {
        return Ok(Ending::Stuck);
    };
    let Some(from) = word_number(frame, first)? else {
        return Ok(Ending::Stuck);
    };
    let Some(into) = word_number(frame, second)? else {
        return Ok(Ending::Stuck);
    };
    Ok(Ending::Moves(from, into, next))
}

fn probe(work: &mut Work, next: u32, frame: &Frame) -> Result<Ending, NoMemory>
    ensures { IfOk result (λ e. Over (ended e frame.now)
        ≡ with_two work.old.stack
        (λ x y s. at_word frame.now y (λ k. at_port frame.now x (λ slot. asks (ask.Probe slot k next))))) }
{
    let Some(second) = work.stack.pop() else {
        return Ok(Ending::Stuck);
    };
    let Some(first) = work.stack.pop() else {
        return Ok(Ending::Stuck);
    };
    let Some(empty) = word_number(frame, second)? else {
        return Ok(Ending::Stuck);
    };
    let Some(number) = word_number(frame, first)? else {
        return Ok(Ending::Stuck);
    };
    match port_at(frame, number) {
        Port::Slot(slot) => Ok(Ending::Asks(Ask::Probe { slot, empty, next })),
        Port::Null => Ok(Ending::Fails(Fault::NullPort)),
        Port::Nothing => Ok(Ending::Stuck),
    }
}

/// How a statement on ports or on other processes ends.
#[inline(always)]
pub(crate) fn ask(
    alloc: Global,
    instr: Meet,
    work: &mut Work,
    frame: &Frame,
) -> Result<Ending, NoMemory>
    ensures { IfOk result (λ e. Over (ended e frame.now) ≡ meets instr work.old.stack work.old.scratch frame.now) }
{
    match instr {
        Meet::Stop => Ok(Ending::Asks(Ask::End)),
        Meet::Send(next) => send(alloc, work, next, frame),
        Meet::Receive(next) => receive(alloc, work, None, next, frame),
        Meet::ReceiveOr(at_end, next) => receive(alloc, work, Some(at_end), next, frame),
        Meet::Channel(next) => channel(work, next, frame),
        Meet::ChannelFrom(next) => channel_from(work, next, frame),
        Meet::Merger(next) => merger(alloc, work, next, frame),
        Meet::EndChannel(next) => end_channel(work, next, frame),
        Meet::MovePort(next) => move_port(work, next, frame),
        Meet::Probe(next) => probe(work, next, frame),
        Meet::Begin(next) => Ok(Ending::Asks(Ask::Begin { next })),
        Meet::Join(next) => Ok(Ending::Asks(Ask::Join { next })),
    }
}
