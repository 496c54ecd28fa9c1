//! A message is received, or the end of its channel is met.

ghost use Rattle.std.specs.Prelude.{◌≡◌, ◌+◌, [], true, false, pos, Some, IfErr, IfOk, OnErr, OnOk};
ghost use Rattle.fm_base.specs.declared.fault.Fault.TheVariants.{Subscript};
ghost use Rattle.fm_base.specs.declared.port.PortValue.{PortValue};
ghost use Rattle.fm_base.specs.Channels.{Pop, channel_of};
ghost use Rattle.fm_finmap.specs.Changes.{adjust};
ghost use Rattle.fm_chan.specs.Bodies.{chans_of};
ghost use Rattle.fm_chan.specs.Events.{after_op, chan_at, is_outport, put_first};
ghost use Rattle.fm_chan.specs.Received.{brings, got_at};
ghost use Rattle.fm_chan.specs.Rooms.{HasRoom};
ghost use Rattle.fm_chan.specs.Woken.{WakesAll};
ghost use Rattle.fm_code.specs.declared.ask.Ask.TheVariants as ask;
ghost use Rattle.fm_code.specs.declared.body.Body as declared;
ghost use Rattle.fm_code.specs.Statements.{line_of, with_words};
ghost use Rattle.fm_machine_calls.specs.declared.looking.Look.TheVariants.{Asks};
ghost use Rattle.fm_proc_language.specs.Frames.{all_stored};
ghost use Rattle.fm_proc_language.specs.Processes.{at_the_end, faulted, limits_of, message_words, with_status};
ghost use Rattle.fm_proc_language.specs.Slots.{in_slot};
ghost use Rattle.fm_proc_slots.specs.Helds.{held};
ghost use Rattle.fm_proc_events.specs.Events.{with_body};
ghost use Rattle.fm_proc_events.specs.Performs.{CanPerform, Performs};
ghost use Rattle.fm_proc_events.specs.Phases.{proc_of};
ghost use Rattle.fm_proc_events.specs.Told.{look_of};

use crate::fitting::OperandLimits;
use crate::going::{put_and_set_address, set_address};
use crate::process::{Phase, Process};
use crate::sending::message_cost;
use crate::shedding::shed;
use fm_base::{Fault, NoMemory, Path, Seq};
use fm_chan::{Channels, Got, Message, Port};
use fm_code::{Body, Operand};
use fm_machine_calls::line_of;
use fm_proc_slots::{Slots, set_word, store_all};
use std::alloc::Global;
use std::mem::replace;

/// What a receive into operands gets of a port's channel. A message leaves it that has no more elements for an item
/// than its operand.
#[inline(always)]
fn next_message(channels: &mut Channels, port: &Port, operands: &Seq<Operand>) -> Got
    requires { is_outport port.now ≡ false }
    ensures got { result ≡ got_at (limits_of operands.now) (chan_at port.now (chans_of channels.old)) }
    ensures channels { chans_of channels.new
        ≡ after_op port.now (Pop (limits_of operands.now)) (chans_of channels.old) }
    ensures room { brings result ≡ true → HasRoom channels.new (channel_of port.now) }
    ensures waking { WakesAll channels.old channels.new }
{
    let operands = operands.as_slice();
    channels.receive(port, &OperandLimits { operands })
}

/// A message goes back to the channel of the port in a slot.
fn put_back_at(channels: &mut Channels, slots: &Slots, slot: i64, message: Message)
    requires { (x : PortValue) → in_slot slots.now slot ≡ Some x → HasRoom channels.old (channel_of x) }
    ensures { (x : PortValue) → in_slot slots.now slot ≡ Some x
        → chans_of channels.new ≡ adjust (chans_of channels.old) (channel_of x) (put_first message) }
{
    match slots.port(slot) {
        Some(port) => channels.put_back(port, message),
        None => {}
    }
}

/// The word of IOSTAT, where it is asked for.
fn put_status(words: &mut Seq<i64>, slots: &Slots, status: Option<u32>, word: i64)
    ensures { held words.new slots.now ≡ with_status (held words.old slots.now) status word }
{
    match status {
        Some(number) => set_word(words, number as usize, word),
        None => {}
    }
}

/// What came of a message that was stored.
#[derive(Drop)]
struct Stored {
    cost: u64,
    // what is let go
    drops: Vec<Port>,
}

/// A message is stored in the innermost frame, which goes on. After want of memory it comes back, and nothing has
/// changed.
#[inline(always)]
fn store_message(
    alloc: Global,
    body: &mut Body,
    slots: &mut Slots,
    items: &[Operand],
    status: Option<u32>,
    message: Message,
    next: u32,
) -> Result<Stored, (Message, NoMemory)>
    ensures body { OnOk result (body.new
        ≡ with_words body.old next
        (with_status (all_stored (held body.old.frame.words slots.old) items.now message).0 status (pos 0)).words) }
    ensures slots { OnOk result (slots.new
        ≡ (with_status (all_stored (held body.old.frame.words slots.old) items.now message).0 status (pos 0)).slots) }
    ensures drops { IfOk result
        (λ s. s.drops.items ≡ (all_stored (held body.old.frame.words slots.old) items.now message).1) }
    ensures cost { IfOk result (λ s. s.cost ≡ 1 + message_words message) }
    ensures back { IfErr result (λ e. e.0 ≡ message) }
    ensures body_stays { OnErr result (body.new ≡ body.old) }
    ensures slots_stay { OnErr result (slots.new ≡ slots.old) }
{
    let Ok(cost) = message_cost(&message) else {
        return Err((message, NoMemory));
    };
    match store_all(alloc, &mut body.frame.words, slots, items, message) {
        Ok(drops) => {
            put_status(&mut body.frame.words, slots, status, 0);
            set_address(body, next);
            Ok(Stored { cost, drops })
        }
        Err(back) => Err(back),
    }
}

/// A process, whose body stands apart, meets the end of a channel.
fn meet_end(process: &mut Process, body: Body, status: Option<u32>, at_end: Option<u32>, next: u32)
    ensures { proc_of process.new ≡ (at_the_end (with_body (proc_of process.old) body) body next status at_end).self }
{
    let mut body = body;
    match status {
        None => match at_end {
            None => {
                process.phase = Phase::Faulted {
                    line: line_of(&body),
                    fault: Fault::EndOfChannel,
                };
            }
            Some(to) => set_address(&mut body, to),
        },
        Some(number) => put_and_set_address(&mut body, number, -1, at_end.unwrap_or(next)),
    }
    process.body = Some(body);
}

/// A process, whose oldest message exceeds its operands, meets a fault.
fn meet_excess(process: &mut Process)
    ensures { (b : declared.Body) → (proc_of process.old).body ≡ Some b
        → proc_of process.new ≡ (faulted (proc_of process.old) (line_of b) Subscript).self }
{
    let Some(body) = &process.body else {
        return;
    };
    process.phase = Phase::Faulted {
        line: line_of(body),
        fault: Fault::Subscript,
    };
}

/// Receives a message by the port in a slot, or meets the end of its channel. Where the message has more elements for
/// an item than its operand, it stays and is a fault. The cost. After want of memory the process and the channels are
/// as they were: the message goes back to where it was.
#[inline(always)]
pub fn receive(
    alloc: Global,
    path: &Path,
    process: &mut Process,
    channels: &mut Channels,
    slot: i64,
    items: &Seq<Operand>,
    status: Option<u32>,
    at_end: Option<u32>,
    next: u32,
) -> Result<u64, NoMemory>
    requires look { look_of (proc_of process.old) ≡ Asks (ask.Receive slot items.now status at_end next) }
    requires can { CanPerform (proc_of process.old) (chans_of channels.old) }
    ensures performs { IfOk result (λ cost. Performs path.now (proc_of process.old) (chans_of channels.old)
        (proc_of process.new) [] (chans_of channels.new) cost) }
    ensures stays { OnErr result (proc_of process.new ≡ proc_of process.old) }
    ensures channels { OnErr result (chans_of channels.new ≡ chans_of channels.old) }
    ensures waking { OnOk result (WakesAll channels.old channels.new) }
{
    let got = match process.slots.port(slot) {
        Some(port) => next_message(channels, port, items),
        None => unreachable!(),
    };
    let message = match got {
        Got::Message(message) => message,
        Got::Exceeds => {
            meet_excess(process);
            return Ok(1);
        }
        Got::End => {
            let Some(body) = replace(&mut process.body, None) else {
                unreachable!()
            };
            meet_end(process, body, status, at_end, next);
            return Ok(1);
        }
        Got::Wait => unreachable!(),
    };
    let Some(body) = &mut process.body else {
        unreachable!()
    };
    let slots = &mut process.slots;
    match store_message(alloc, body, slots, items.as_slice(), status, message, next) {
        Ok(Stored { cost, drops }) => {
            shed(channels, drops);
            Ok(cost)
        }
        Err((message, error)) => {
            put_back_at(channels, &process.slots, slot, message);
            Err(error)
        }
    }
}
