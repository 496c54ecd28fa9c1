//! The rounds.

ghost use Rattle.std.specs.Prelude.{◌≡◌, ◌<◌, ◌≤◌, ◌^◌, true, false, IfOk, OnOk};
ghost use Rattle.fm_nodes_rounds.specs.Rounds.{comings};

use crate::hosts::{Hosts, NodeEvent};
use crate::sendings::Sendings;
use fm_base::{ChanName, NoMemory};
use std::alloc::Global;

/// How the driving ended.
#[derive(Clone, Copy, Debug, PartialEq, Eq)]
pub enum Driven {
    /// No process has a step any more.
    Ended,
    /// The steps cost more than the turns.
    Spent,
}

/// What the processes did in a round.
#[derive(Clone, Copy, PartialEq, Eq)]
enum Stepped {
    /// None had a step.
    Nothing,
    /// Some made steps.
    Steps,
    /// And they cost more than the turns.
    Spent,
}

/// A packet on its way.
#[derive(Clone, Copy)]
struct Sending {
    /// How often it comes: not at all where it is lost.
    times: u8,
}

// How often a packet comes that was sent so often before.
fn comings(seed: u64, number: u64, before: u8) -> u8
    requires seed { seed < 2 ^ 63 }
    requires number { number < 2 ^ 63 }
    ensures { result ≡ comings seed number before }
{
    let sum = seed + number;
    if (before as u64) < sum % 3 {
        return 0;
    }
    if sum % 2 == 0 { 2 } else { 1 }
}

// A place of the wire; a wire of 2^32 things is want of memory.
fn place_of(index: usize) -> Result<u32, NoMemory>
    ensures { IfOk result (λ place. place ≡ index) }
{
    match u32::try_from(index) {
        Ok(place) => Ok(place),
        Err(_) => Err(NoMemory),
    }
}

// A step of the process at this place in path order, if it has one.
fn step<H: Hosts>(alloc: Global, hosts: &mut H, place: usize) -> Result<bool, NoMemory>
    requires { H.used hosts.old ≤ 1000000000 }
    ensures setting { OnOk result (H.setting hosts.new ≡ H.setting hosts.old) }
    ensures pays { IfOk result (λ done. done ≡ true → H.used hosts.old < H.used hosts.new) }
    ensures grows { OnOk result (H.count hosts.old ≤ H.count hosts.new) }
    ensures few { OnOk result (H.count hosts.old < 2 ^ 32 → H.count hosts.new < 2 ^ 32) }
    ensures refused { IfOk result (λ done. done ≡ false →
        (H.used hosts.new ≡ H.used hosts.old) × (H.count hosts.new ≡ H.count hosts.old)) }
{
    let path = match hosts.path(place) {
        Some(path) => path.copy(alloc)?,
        None => return Ok(false),
    };
    hosts.act(NodeEvent::Step(path))
}

// The process at this place in path order steps until it has no step, or the turns are spent.
fn step_one<H: Hosts>(
    alloc: Global,
    hosts: &mut H,
    place: usize,
    turns: u64,
) -> Result<Stepped, NoMemory>
    requires used { H.used hosts.old ≤ turns }
    requires turns { turns ≤ 1000000000 }
    ensures setting { OnOk result (H.setting hosts.new ≡ H.setting hosts.old) }
    ensures nothing { IfOk result (λ r. r ≡ Stepped.Nothing →
        (H.used hosts.new ≡ H.used hosts.old) × (H.count hosts.new ≡ H.count hosts.old)) }
    ensures steps { IfOk result (λ r. r ≡ Stepped.Steps →
        (H.used hosts.old < H.used hosts.new) × (H.used hosts.new ≤ turns)) }
    ensures spent { IfOk result (λ r. r ≡ Stepped.Spent → turns < H.used hosts.new) }
    ensures few { OnOk result (H.count hosts.old < 2 ^ 32 → H.count hosts.new < 2 ^ 32) }
{
    let mut stepped = Stepped::Nothing;
    'steps: while step(alloc, hosts, place)? {
        if hosts.used() > turns {
            return Ok(Stepped::Spent);
        }
        stepped = Stepped::Steps;
    }
    Ok(stepped)
}

// Each process, in path order, steps until it has no step. Who starts meanwhile comes later in that order.
fn step_all<H: Hosts>(alloc: Global, hosts: &mut H, turns: u64) -> Result<Stepped, NoMemory>
    requires used { H.used hosts.old ≤ turns }
    requires turns { turns ≤ 1000000000 }
    ensures setting { OnOk result (H.setting hosts.new ≡ H.setting hosts.old) }
    ensures nothing { IfOk result (λ r. r ≡ Stepped.Nothing → H.used hosts.new ≡ H.used hosts.old) }
    ensures steps { IfOk result (λ r. r ≡ Stepped.Steps →
        (H.used hosts.old < H.used hosts.new) × (H.used hosts.new ≤ turns)) }
    ensures spent { IfOk result (λ r. r ≡ Stepped.Spent → turns < H.used hosts.new) }
{
    let mut stepped = Stepped::Nothing;
    let mut place = 0;
    'processes: while place < hosts.count() {
        match step_one(alloc, hosts, place, turns)? {
            Stepped::Nothing => {}
            Stepped::Steps => stepped = Stepped::Steps,
            Stepped::Spent => return Ok(Stepped::Spent),
        }
        place += 1;
    }
    Ok(stepped)
}

// Sends one packet of a channel, the first that isn't acknowledged or the one behind it, if it is there.
fn send_one<H: Hosts>(
    alloc: Global,
    hosts: &mut H,
    sendings: &mut Sendings,
    wire: &mut Vec<Sending>,
    seed: u64,
    channel: &ChanName,
    is_first: bool,
) -> Result<(), NoMemory>
    requires { seed < 2 ^ 63 }
    ensures setting { OnOk result (H.setting hosts.new ≡ H.setting hosts.old) }
    ensures used { OnOk result (H.used hosts.new ≡ H.used hosts.old) }
    ensures count { OnOk result (H.count hosts.new ≡ H.count hosts.old) }
{
    let place = if is_first { 0 } else { 1 };
    let number = match hosts.number(channel, place) {
        Some(number) => number,
        None => return Ok(()),
    };
    let before = sendings.send(alloc, channel, is_first, number)?;
    wire.push(Sending {
        times: comings(seed, number, before),
    })?;
    hosts.act(NodeEvent::Send(channel.copy(alloc)?, place))?;
    Ok(())
}

// Sends the first two packets of each channel, in order of channels.
fn send_all<H: Hosts>(
    alloc: Global,
    hosts: &mut H,
    sendings: &mut Sendings,
    seed: u64,
) -> Result<Vec<Sending>, NoMemory>
    requires { seed < 2 ^ 63 }
    ensures setting { OnOk result (H.setting hosts.new ≡ H.setting hosts.old) }
    ensures used { OnOk result (H.used hosts.new ≡ H.used hosts.old) }
    ensures count { OnOk result (H.count hosts.new ≡ H.count hosts.old) }
{
    let mut wire = Vec::new(alloc);
    'channels: for at in 0..hosts.channels() {
        let channel = match hosts.channel(at) {
            Some(channel) => channel.copy(alloc)?,
            None => continue,
        };
        send_one(alloc, hosts, sendings, &mut wire, seed, &channel, true)?;
        send_one(alloc, hosts, sendings, &mut wire, seed, &channel, false)?;
    }
    Ok(wire)
}

// The thing at a place of the wire comes so often, and is gone then.
fn bring<H: Hosts>(hosts: &mut H, place: u32, times: u8) -> Result<(), NoMemory>
    ensures setting { OnOk result (H.setting hosts.new ≡ H.setting hosts.old) }
    ensures used { OnOk result (H.used hosts.new ≡ H.used hosts.old) }
    ensures count { OnOk result (H.count hosts.new ≡ H.count hosts.old) }
{
    'times: for _time in 0..times {
        hosts.act(NodeEvent::Deliver(place))?;
    }
    hosts.act(NodeEvent::Lose(place))?;
    Ok(())
}

// What was sent comes, in reverse order.
fn bring_all<H: Hosts>(hosts: &mut H, mut wire: Vec<Sending>) -> Result<(), NoMemory>
    ensures setting { OnOk result (H.setting hosts.new ≡ H.setting hosts.old) }
    ensures used { OnOk result (H.used hosts.new ≡ H.used hosts.old) }
    ensures count { OnOk result (H.count hosts.new ≡ H.count hosts.old) }
{
    'things: while let Some(sending) = wire.pop() {
        bring(hosts, place_of(wire.len())?, sending.times)?;
    }
    Ok(())
}

// Each reader's end answers, and the answer comes.
fn answer_all<H: Hosts>(alloc: Global, hosts: &mut H) -> Result<(), NoMemory>
    ensures setting { OnOk result (H.setting hosts.new ≡ H.setting hosts.old) }
    ensures used { OnOk result (H.used hosts.new ≡ H.used hosts.old) }
    ensures count { OnOk result (H.count hosts.new ≡ H.count hosts.old) }
{
    'channels: for at in 0..hosts.channels() {
        let channel = match hosts.channel(at) {
            Some(channel) => channel.copy(alloc)?,
            None => continue,
        };
        let place = place_of(hosts.wire())?;
        hosts.act(NodeEvent::Answer(channel))?;
        bring(hosts, place, 1)?;
    }
    Ok(())
}

/// Drives the processes round by round until none has a step any more, or their steps cost more than the turns.
///
/// The first (seed + number) mod 3 sendings of a packet are lost. One that isn't lost comes twice where seed and number
/// together are even, else once.
///
/// In a round without a step some process waits for a packet that was sent and lost: it was sent in the round
/// before too, and is lost at most twice. So the fourth of such rounds in a row doesn't come, and NoMemory is
/// answered there.
pub fn drive<H: Hosts>(
    alloc: Global,
    hosts: &mut H,
    seed: u64,
    turns: u64,
) -> Result<Driven, NoMemory>
    requires seed { seed < 2 ^ 63 }
    requires used { H.used hosts.old ≤ turns }
    requires turns { turns ≤ 1000000000 }
    ensures setting { OnOk result (H.setting hosts.new ≡ H.setting hosts.old) }
    ensures ended { IfOk result (λ r. r ≡ Driven.Ended → H.HasEnded hosts.new × (H.used hosts.new ≤ turns)) }
    ensures spent { IfOk result (λ r. r ≡ Driven.Spent → turns < H.used hosts.new) }
{
    let mut sendings = Sendings::new(alloc);
    let mut idle: u8 = 0;
    'rounds: loop {
        match step_all(alloc, hosts, turns)? {
            Stepped::Nothing => {
                if idle == 3 {
                    return Err(NoMemory);
                }
                idle += 1;
            }
            Stepped::Steps => idle = 0,
            Stepped::Spent => return Ok(Driven::Spent),
        }
        let wire = send_all(alloc, hosts, &mut sendings, seed)?;
        bring_all(hosts, wire)?;
        answer_all(alloc, hosts)?;
        if hosts.has_ended()? {
            return Ok(Driven::Ended);
        }
    }
}
