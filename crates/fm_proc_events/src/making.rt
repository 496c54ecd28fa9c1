//! Channels are made.

ghost use Rattle.std.specs.Prelude.{◌≡◌, ◌≤◌, ◌+◌, ◌*◌, suc, ◌∷◌, ◌++◌, None, [], length, vec_len, vec_capacity, IfOk, OnErr, OnOk};
ghost use Rattle.std.specs.FinMap.{get, insert};
ghost use Rattle.fm_base.specs.Channels.{fresh};
ghost use Rattle.fm_chan.specs.Bodies.{chans_of};
ghost use Rattle.fm_chan.specs.Woken.{WakesAll};
ghost use Rattle.fm_code.specs.declared.ask.Ask.TheVariants as ask;
ghost use Rattle.fm_code.specs.Statements.{with_words};
ghost use Rattle.fm_machine_calls.specs.declared.looking.Look.TheVariants.{Asks};
ghost use Rattle.fm_net.specs.Lawful.{ports_from};
ghost use Rattle.fm_proc_language.specs.Frames as frames;
ghost use Rattle.fm_proc_language.specs.Frames.{all_placed};
ghost use Rattle.fm_proc_slots.specs.Helds.{held};
ghost use Rattle.fm_proc_slots.specs.Rooms.{HasRoom, slots_in};
ghost use Rattle.fm_proc_events.specs.Makes.{Makes};
ghost use Rattle.fm_proc_events.specs.Performs.{CanPerform, MakesNew, Performs};
ghost use Rattle.fm_proc_events.specs.Phases.{proc_of};
ghost use Rattle.fm_proc_events.specs.Told.{look_of};

use crate::going::set_address;
use crate::process::Process;
use crate::shedding::shed;
use fm_base::{ChanName, NoMemory, Path, Seq};
use fm_chan::{Channels, Port};
use fm_code::{Body, Operand};
use fm_proc_slots::{OpenSlots, Slots, place_all, port_words};
use std::alloc::Global;

/// Makes the channel of this name, which has no writer: its inport. After want of memory no channel has changed.
fn new_mute_channel(
    alloc: Global,
    channels: &mut Channels,
    name: ChanName,
) -> Result<Vec<Port>, NoMemory>
    requires { get (chans_of channels.old) name ≡ None }
    ensures channels { OnOk result (chans_of channels.new ≡ insert (chans_of channels.old) name (fresh 0)) }
    ensures ports { IfOk result (λ v. v.items ≡ ports_from name 0) }
    ensures stays { OnErr result (chans_of channels.new ≡ chans_of channels.old) }
    ensures waking { OnOk result (WakesAll channels.old channels.new) }
{
    let mut ports = Vec::with_capacity(alloc, 1)?;
    let (inport, outport) = channels.make(alloc, name)?;
    channels.close(outport);
    ports.push_reserved(inport);
    Ok(ports)
}

/// Makes the channel of this name, which has one writer: its inport and its outport. After want of memory no channel
/// has changed.
fn new_plain_channel(
    alloc: Global,
    channels: &mut Channels,
    name: ChanName,
) -> Result<Vec<Port>, NoMemory>
    requires { get (chans_of channels.old) name ≡ None }
    ensures channels { OnOk result (chans_of channels.new ≡ insert (chans_of channels.old) name (fresh 1)) }
    ensures ports { IfOk result (λ v. v.items ≡ ports_from name 1) }
    ensures stays { OnErr result (chans_of channels.new ≡ chans_of channels.old) }
    ensures waking { OnOk result (WakesAll channels.old channels.new) }
{
    let mut ports = Vec::with_capacity(alloc, 2)?;
    let (inport, outport) = channels.make(alloc, name)?;
    ports.push_reserved(inport);
    ports.push_reserved(outport);
    Ok(ports)
}

/// Adds ports where there is room for them.
fn add_ports(ports: &mut Vec<Port>, more: Vec<Port>)
    requires { vec_len ports.old + length more.items ≤ vec_capacity ports.old }
    ensures { ports.new.items ≡ ports.old.items ++ more.items }
{
    let mut more = more;
    match ports.append(&mut more) {
        Ok(()) => {}
        Err(_) => unreachable!(),
    }
}

/// Makes the channel of this name: its inport and its outports. After want of memory no channel has changed.
fn new_channel(
    alloc: Global,
    channels: &mut Channels,
    name: ChanName,
    writers: u32,
) -> Result<Vec<Port>, NoMemory>
    requires { get (chans_of channels.old) name ≡ None }
    ensures channels { OnOk result (chans_of channels.new ≡ insert (chans_of channels.old) name (fresh writers)) }
    ensures ports { IfOk result (λ v. v.items ≡ ports_from name writers) }
    ensures stays { OnErr result (chans_of channels.new ≡ chans_of channels.old) }
    ensures waking { OnOk result (WakesAll channels.old channels.new) }
{
    if writers == 0 {
        return new_mute_channel(alloc, channels, name);
    }
    if writers == 1 {
        return new_plain_channel(alloc, channels, name);
    }
    let mut ports = Vec::with_capacity(alloc, writers as usize + 1)?;
    let (inport, outports) = channels.merge(alloc, name, writers)?;
    ports.push_reserved(inport);
    add_ports(&mut ports, outports);
    Ok(ports)
}

/// Ports come to words of the innermost frame, which goes on; what is let go is added. Takes no memory.
fn place(
    alloc: Global,
    body: &mut Body,
    slots: &mut OpenSlots,
    numbers: &[u32],
    ports: Vec<Port>,
    drops: &mut Vec<Port>,
    next: u32,
)
    requires slots { HasRoom slots.old (2 * length ports.items) }
    requires drops { vec_len drops.old + length ports.items ≤ vec_capacity drops.old }
    ensures body { body.new
        ≡ with_words body.old next
        (all_placed (held body.old.frame.words (slots_in slots.old)) numbers.now ports.items).0.words }
    ensures slots { slots_in slots.new
        ≡ (all_placed (held body.old.frame.words (slots_in slots.old)) numbers.now ports.items).0.slots }
    ensures drops { drops.new.items
        ≡ drops.old.items ++ (all_placed (held body.old.frame.words (slots_in slots.old)) numbers.now ports.items).1 }
{
    let mut words = body.frame.words.take(alloc).into_vec();
    place_all(&mut words, slots, numbers, ports, drops);
    body.frame.words = Seq::from_vec(words);
    set_address(body, next);
}

fn number_after(number: u32) -> Result<u32, NoMemory>
    ensures { IfOk result (λ n. n ≡ suc number) }
{
    number.checked_add(1).ok_or(NoMemory)
}

/// Makes a channel with so many writers, whose ports come to these words. After want of memory the process and the
/// channels are as they were: the room for the ports is taken first, then the channel is made, and what follows takes
/// no memory.
fn make(
    alloc: Global,
    path: &Path,
    process: &mut Process,
    channels: &mut Channels,
    numbers: &[u32],
    writers: u32,
    cost: u64,
    next: u32,
) -> Result<(), NoMemory>
    requires makes { Makes (proc_of process.old) next numbers.now writers cost }
    requires new { MakesNew path.now (proc_of process.old) (chans_of channels.old) }
    ensures performs { OnOk result (Performs path.now (proc_of process.old) (chans_of channels.old)
        (proc_of process.new) [] (chans_of channels.new) cost) }
    ensures stays { OnErr result (proc_of process.new ≡ proc_of process.old) }
    ensures channels { OnErr result (chans_of channels.new ≡ chans_of channels.old) }
    ensures waking { OnOk result (WakesAll channels.old channels.new) }
{
    let number = process.next_channel;
    let after = number_after(number)?;
    let maker = path.copy(alloc)?;
    let count = writers as usize + 1;
    let mut drops = Vec::with_capacity(alloc, count)?;
    let Some(body) = &mut process.body else {
        unreachable!()
    };
    let mut slots = process.slots.open(alloc, 2 * count)?;
    match new_channel(alloc, channels, ChanName { maker, number }, writers) {
        Ok(ports) => {
            place(alloc, body, &mut slots, numbers, ports, &mut drops, next);
            process.slots = Slots::from_open(slots);
            process.next_channel = after;
            shed(channels, drops);
            Ok(())
        }
        Err(error) => {
            process.slots = Slots::from_open(slots);
            Err(error)
        }
    }
}

/// Makes a channel. The cost is 1. After want of memory the process and the channels are as they were.
pub fn make_channel(
    alloc: Global,
    path: &Path,
    process: &mut Process,
    channels: &mut Channels,
    inport: u32,
    outport: u32,
    next: u32,
) -> Result<(), NoMemory>
    requires look { look_of (proc_of process.old) ≡ Asks (ask.Channel inport outport next) }
    requires can { CanPerform (proc_of process.old) (chans_of channels.old) }
    requires new { MakesNew path.now (proc_of process.old) (chans_of channels.old) }
    ensures performs { OnOk result (Performs path.now (proc_of process.old) (chans_of channels.old)
        (proc_of process.new) [] (chans_of channels.new) 1) }
    ensures stays { OnErr result (proc_of process.new ≡ proc_of process.old) }
    ensures channels { OnErr result (chans_of channels.new ≡ chans_of channels.old) }
    ensures waking { OnOk result (WakesAll channels.old channels.new) }
{
    make(
        alloc,
        path,
        process,
        channels,
        &[inport, outport],
        1,
        1,
        next,
    )
}

/// The words of a merger's ports.
fn merger_words(alloc: Global, inport: u32, outports: &[Operand]) -> Result<Vec<u32>, NoMemory>
    ensures { IfOk result (λ v. v.items ≡ inport ∷ frames.port_words outports.now) }
{
    let mut numbers = Vec::new(alloc);
    numbers.push(inport)?;
    let mut more = port_words(alloc, outports)?;
    numbers.append(&mut more)?;
    Ok(numbers)
}

/// Makes a merger. The cost. After want of memory the process and the channels are as they were.
pub fn make_merger(
    alloc: Global,
    path: &Path,
    process: &mut Process,
    channels: &mut Channels,
    inport: u32,
    outports: Seq<Operand>,
    next: u32,
) -> Result<u64, NoMemory>
    requires look { look_of (proc_of process.old) ≡ Asks (ask.Merger inport outports next) }
    requires can { CanPerform (proc_of process.old) (chans_of channels.old) }
    requires new { MakesNew path.now (proc_of process.old) (chans_of channels.old) }
    ensures performs { IfOk result (λ cost. Performs path.now (proc_of process.old) (chans_of channels.old)
        (proc_of process.new) [] (chans_of channels.new) cost) }
    ensures stays { OnErr result (proc_of process.new ≡ proc_of process.old) }
    ensures channels { OnErr result (chans_of channels.new ≡ chans_of channels.old) }
    ensures waking { OnOk result (WakesAll channels.old channels.new) }
{
    let numbers = merger_words(alloc, inport, outports.as_slice())?;
    let cost = u64::try_from(numbers.len()).map_err(|_| NoMemory)?;
    let writers = u32::try_from(numbers.len() - 1).map_err(|_| NoMemory)?;
    make(
        alloc,
        path,
        process,
        channels,
        numbers.as_slice(),
        writers,
        cost,
        next,
    )?;
    Ok(cost)
}
