//! A message is sent.

ghost use Rattle.std.specs.Prelude.{◌≡◌, ◌+◌, ◌<◌, [], true, Some, IfOk, IsOk, OnErr, OnOk};
ghost use Rattle.fm_base.specs.declared.path.ChanName as declared;
ghost use Rattle.fm_base.specs.declared.port.PortValue.{PortValue};
ghost use Rattle.fm_chan.specs.Bodies.{chans_of};
ghost use Rattle.fm_chan.specs.Events.{after_send_to, is_outport};
ghost use Rattle.fm_chan.specs.Rooms.{HasRoom};
ghost use Rattle.fm_chan.specs.Woken.{Wakes, WakesAll};
ghost use Rattle.fm_code.specs.declared.ask.Ask.TheVariants as ask;
ghost use Rattle.fm_code.specs.Statements.{with_words};
ghost use Rattle.fm_machine_calls.specs.declared.looking.Look.TheVariants.{Asks};
ghost use Rattle.fm_proc_language.specs.Frames.{message_from};
ghost use Rattle.fm_proc_language.specs.Processes.{message_words};
ghost use Rattle.fm_proc_language.specs.Slots.{in_slot};
ghost use Rattle.fm_proc_slots.specs.Helds.{held};
ghost use Rattle.fm_proc_events.specs.Events.{channel_in};
ghost use Rattle.fm_proc_events.specs.Performs.{CanPerform, Performs};
ghost use Rattle.fm_proc_events.specs.Phases.{proc_of};
ghost use Rattle.fm_proc_events.specs.Told.{look_of};

use crate::going::set_address;
use crate::process::Process;
use fm_base::{ChanName, NoMemory, Path, Seq};
use fm_chan::{Channels, Message};
use fm_code::{Body, Operand};
use fm_proc_slots::{Slots, message_words, ports_message, words_message};
use std::alloc::Global;

/// The name of the channel whose port is in a slot.
fn channel_at(alloc: Global, slots: &Slots, slot: i64) -> Result<Option<ChanName>, NoMemory>
    ensures { IfOk result (λ c. c ≡ channel_in (in_slot slots.now slot)) }
{
    match slots.port(slot) {
        Some(port) => Ok(Some(port.channel().copy(alloc)?)),
        None => Ok(None),
    }
}

/// What it costs to send or receive a message. Only more than may be counted is want of memory.
#[inline(always)]
pub(crate) fn message_cost(message: &Message) -> Result<u64, NoMemory>
    ensures cost { IfOk result (λ cost. cost ≡ 1 + message_words message.now) }
    ensures counted { message_words message.now < 18446744073709551615 → IsOk result }
{
    message_words(message)?.checked_add(1).ok_or(NoMemory)
}

/// Puts a message into a channel. The cost. After want of memory the message is gone, and no channel has changed.
fn post(channels: &mut Channels, channel: &ChanName, message: Message) -> Result<u64, NoMemory>
    ensures channels { OnOk result (chans_of channels.new ≡ after_send_to channel.now message (chans_of channels.old)) }
    ensures cost { IfOk result (λ cost. cost ≡ 1 + message_words message) }
    ensures stays { OnErr result (chans_of channels.new ≡ chans_of channels.old) }
    ensures waking { OnOk result (Wakes channels.old channels.new) }
{
    let cost = message_cost(&message)?;
    channels.send_or_lose(channel, message)?;
    Ok(cost)
}

/// Makes room for one more message in the channel of the outport in a slot.
fn reserve_at(channels: &mut Channels, slots: &Slots, slot: i64) -> Result<(), NoMemory>
    requires { (x : PortValue) → in_slot slots.now slot ≡ Some x → is_outport x ≡ true }
    ensures channels { chans_of channels.new ≡ chans_of channels.old }
    ensures room { OnOk result
        ((c : declared.ChanName) → Some c ≡ channel_in (in_slot slots.now slot) → HasRoom channels.new c) }
    ensures waking { WakesAll channels.old channels.new }
{
    match slots.port(slot) {
        Some(port) => channels.reserve(port),
        None => Ok(()),
    }
}

/// A message with ports leaves a frame for a channel that has room for it. The cost. After want of memory nothing has
/// changed.
fn send_ports(
    alloc: Global,
    channels: &mut Channels,
    channel: &ChanName,
    words: &mut Seq<i64>,
    slots: &mut Slots,
    items: &[Operand],
) -> Result<u64, NoMemory>
    requires { HasRoom channels.old channel.now }
    ensures held { OnOk result (held words.new slots.new ≡ (message_from (held words.old slots.old) items.now).0) }
    ensures channels { OnOk result (chans_of channels.new
        ≡ after_send_to channel.now (message_from (held words.old slots.old) items.now).1 (chans_of channels.old)) }
    ensures cost { IfOk result
        (λ cost. cost ≡ 1 + message_words (message_from (held words.old slots.old) items.now).1) }
    ensures stays { OnErr result (held words.new slots.new ≡ held words.old slots.old) }
    ensures channels_stay { OnErr result (chans_of channels.new ≡ chans_of channels.old) }
    ensures waking { OnOk result (Wakes channels.old channels.new) }
{
    let message = ports_message(alloc, words, slots, items)?;
    let Ok(cost) = message_cost(&message) else {
        unreachable!()
    };
    match channels.send_to(channel, message) {
        Ok(()) => Ok(cost),
        Err(_) => unreachable!(),
    }
}

/// A message leaves the innermost frame for the channel of the port in a slot, and the frame goes on. The cost. After
/// want of memory nothing has changed: a message without ports is a copy, and for one with ports all room is taken
/// first.
fn send_message(
    alloc: Global,
    channels: &mut Channels,
    channel: &ChanName,
    body: &mut Body,
    slots: &mut Slots,
    slot: i64,
    items: &[Operand],
    next: u32,
) -> Result<u64, NoMemory>
    requires channel { Some channel.now ≡ channel_in (in_slot slots.old slot) }
    requires outport { (x : PortValue) → in_slot slots.old slot ≡ Some x → is_outport x ≡ true }
    ensures body { OnOk result
        (body.new ≡ with_words body.old next (message_from (held body.old.frame.words slots.old) items.now).0.words) }
    ensures slots { OnOk result (slots.new ≡ (message_from (held body.old.frame.words slots.old) items.now).0.slots) }
    ensures channels { OnOk result (chans_of channels.new
        ≡ after_send_to channel.now (message_from (held body.old.frame.words slots.old) items.now).1
        (chans_of channels.old)) }
    ensures cost { IfOk result
        (λ cost. cost ≡ 1 + message_words (message_from (held body.old.frame.words slots.old) items.now).1) }
    ensures body_stays { OnErr result (body.new ≡ body.old) }
    ensures slots_stay { OnErr result (slots.new ≡ slots.old) }
    ensures channels_stay { OnErr result (chans_of channels.new ≡ chans_of channels.old) }
    ensures waking { OnOk result (WakesAll channels.old channels.new) }
{
    match words_message(alloc, body.frame.words.as_slice(), items)? {
        Some(message) => {
            let cost = post(channels, channel, message)?;
            set_address(body, next);
            Ok(cost)
        }
        None => {
            reserve_at(channels, slots, slot)?;
            let words = &mut body.frame.words;
            let cost = send_ports(alloc, channels, channel, words, slots, items)?;
            set_address(body, next);
            Ok(cost)
        }
    }
}

/// Sends a message by the port in a slot. The cost. After want of memory the process and the channels are as they were.
#[inline(always)]
pub fn send(
    alloc: Global,
    path: &Path,
    process: &mut Process,
    channels: &mut Channels,
    slot: i64,
    items: &Seq<Operand>,
    next: u32,
) -> Result<u64, NoMemory>
    requires look { look_of (proc_of process.old) ≡ Asks (ask.Send slot items.now next) }
    requires can { CanPerform (proc_of process.old) (chans_of channels.old) }
    ensures performs { IfOk result (λ cost. Performs path.now (proc_of process.old) (chans_of channels.old)
        (proc_of process.new) [] (chans_of channels.new) cost) }
    ensures stays { OnErr result (proc_of process.new ≡ proc_of process.old) }
    ensures channels { OnErr result (chans_of channels.new ≡ chans_of channels.old) }
    ensures waking { OnOk result (WakesAll channels.old channels.new) }
{
    let Some(channel) = channel_at(alloc, &process.slots, slot)? else {
        unreachable!()
    };
    let Some(body) = &mut process.body else {
        unreachable!()
    };
    send_message(
        alloc,
        channels,
        &channel,
        body,
        &mut process.slots,
        slot,
        items.as_slice(),
        next,
    )
}
