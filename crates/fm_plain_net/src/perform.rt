//! What a process does with its event: to itself, to the channels, and to the kept ports.

ghost use Rattle.std.specs.Prelude.{◌≡◌, ◌+◌, ◌∷◌, ◌++◌, List, None, [], map, length, IfOk, OnOk};
ghost use Rattle.std.specs.List.{flat_map};
ghost use Rattle.std.specs.FinMap.{get, insert};
ghost use Rattle.fm_base.specs.Channels.{Pop, all_shed, fresh, message_ports};
ghost use Rattle.fm_base.specs.declared.port.PortValue.TheVariants.{Reader};
ghost use Rattle.fm_chan.specs.Bodies.{chans_of};
ghost use Rattle.fm_chan.specs.Events.{after_op};
ghost use Rattle.fm_chan.specs.Received.{got_at, waits_at};
ghost use Rattle.fm_chan.specs.Woken.{Wakes, WakesAll};
ghost use Rattle.fm_net.specs.Lawful.{ports_from};
ghost use Rattle.fm_rules.specs.declared.program.Program as declared;
ghost use Rattle.fm_mean.specs.Actions as action;
ghost use Rattle.fm_mean.specs.Actions.{action_of, message_words as words_of};
ghost use Rattle.fm_mean.specs.Process.{Proc};
ghost use Rattle.fm_mean.specs.Steps.{ended};
ghost use Rattle.fm_plain_frame.specs.Frames.{proc_of};
ghost use Rattle.fm_plain_frame.specs.LetGo.{let_go_ports};
ghost use Rattle.fm_plain_replies.specs.Goes.{after_begin, after_message};
ghost use Rattle.fm_plain_replies.specs.Joins.{frames_in, left_frames};
ghost use Rattle.fm_plain_passing.specs.Items.{message_of};
ghost use Rattle.fm_plain.specs.Events.{event_by};
ghost use Rattle.fm_plain_net.specs.Goes.{CanJoin, CanPerform, Joins, Performs, joined_by};
ghost use Rattle.fm_plain_net.specs.Held.{AreKept, AreOnce, Carries, IsKept, MayDrop, Stay, StayBut};

use crate::messages::{message_from, unpacked};
use crate::ports::Ports;
use fm_base::{ChanName, Fault, Line, NoMemory, Path, PortValue, Seq};
use fm_chan::{Channels, Got, Message, Port};
use fm_mean::{Actual, Span};
use fm_net_procs::Done;
use fm_plain::Event;
use fm_plain_frame::{Leaving, LetGo, PlainProc};
use fm_plain_passing::{Item, message_words};
use fm_plain_replies::{
    Ended, begin, end, fail, join, limits_of, meet_end, next_name, put_ports, put_probe,
    store_message, take_message,
};
use fm_rules::Program;
use std::alloc::Global;
use std::collections::VecDeque;

fn alone(alloc: Global, cost: u64) -> Done<PlainProc>
    ensures children { result.children.items ≡ [] }
    ensures cost { result.cost ≡ cost }
{
    Done {
        children: Vec::new(alloc),
        cost,
    }
}

fn discard_one(channels: &mut Channels, ports: &mut Ports, value: PortValue)
    requires { IsKept ports.old value }
    ensures channels { chans_of channels.new ≡ all_shed (value ∷ []) (chans_of channels.old) }
    ensures others { StayBut (value ∷ []) ports.old ports.new }
    ensures waking { WakesAll channels.old channels.new }
{
    match ports.take(value) {
        Some(port) => channels.discard(port),
        None => unreachable!(),
    }
}

/// Discards the ports that a process lets go.
pub(crate) fn discard_all(
    alloc: Global,
    program: &Program,
    channels: &mut Channels,
    ports: &mut Ports,
    let_go: LetGo,
)
    requires kept { AreKept ports.old (let_go_ports program.now let_go) }
    requires once { AreOnce (let_go_ports program.now let_go) }
    ensures channels { chans_of channels.new ≡ all_shed (let_go_ports program.now let_go) (chans_of channels.old) }
    ensures others { StayBut (let_go_ports program.now let_go) ports.old ports.new }
    ensures waking { WakesAll channels.old channels.new }
{
    let mut leaving = Leaving::new(alloc, let_go);
    'ports: while let Some(value) = leaving.next(program) {
        discard_one(channels, ports, value);
    }
}

fn discard_both(
    alloc: Global,
    program: &Program,
    channels: &mut Channels,
    ports: &mut Ports,
    first: LetGo,
    second: LetGo,
)
    requires kept { AreKept ports.old (let_go_ports program.now first ++ let_go_ports program.now second) }
    requires once { AreOnce (let_go_ports program.now first ++ let_go_ports program.now second) }
    ensures channels { chans_of channels.new
        ≡ all_shed (let_go_ports program.now first ++ let_go_ports program.now second) (chans_of channels.old) }
    ensures others { StayBut (let_go_ports program.now first ++ let_go_ports program.now second) ports.old ports.new }
    ensures waking { WakesAll channels.old channels.new }
{
    discard_all(alloc, program, channels, ports, first);
    discard_all(alloc, program, channels, ports, second);
}

fn discard_each(
    alloc: Global,
    program: &Program,
    channels: &mut Channels,
    ports: &mut Ports,
    let_go: Vec<LetGo>,
)
    requires kept { AreKept ports.old (flat_map (let_go_ports program.now) let_go.items) }
    requires once { AreOnce (flat_map (let_go_ports program.now) let_go.items) }
    ensures channels { chans_of channels.new
        ≡ all_shed (flat_map (let_go_ports program.now) let_go.items) (chans_of channels.old) }
    ensures others { StayBut (flat_map (let_go_ports program.now) let_go.items) ports.old ports.new }
    ensures waking { WakesAll channels.old channels.new }
{
    let mut rest = VecDeque::from_vec(let_go);
    'children: while let Some(one) = rest.pop_front() {
        discard_all(alloc, program, channels, ports, one);
    }
}

fn put_each(alloc: Global, ports: &mut Ports, all: Vec<Port>) -> Result<(), NoMemory>
    ensures came { OnOk result (AreKept ports.new all.items) }
    ensures others { OnOk result (Stay ports.old ports.new) }
{
    'ports: for port in all {
        ports.put(alloc, port)?;
    }
    Ok(())
}

// Makes the channel of this name, which has no writer.
fn new_mute_channel(
    alloc: Global,
    channels: &mut Channels,
    ports: &mut Ports,
    name: ChanName,
) -> Result<(), NoMemory>
    requires { get (chans_of channels.old) name ≡ None }
    ensures channels { OnOk result (chans_of channels.new ≡ insert (chans_of channels.old) name (fresh 0)) }
    ensures came { OnOk result (AreKept ports.new (ports_from name 0)) }
    ensures others { OnOk result (Stay ports.old ports.new) }
    ensures waking { OnOk result (WakesAll channels.old channels.new) }
{
    let ends = channels.make(alloc, name)?;
    channels.close(ends.1);
    ports.put(alloc, ends.0)
}

// Makes the channel of this name.
fn new_channel(
    alloc: Global,
    channels: &mut Channels,
    ports: &mut Ports,
    name: ChanName,
    writers: u32,
) -> Result<(), NoMemory>
    requires { get (chans_of channels.old) name ≡ None }
    ensures channels { OnOk result (chans_of channels.new ≡ insert (chans_of channels.old) name (fresh writers)) }
    ensures came { OnOk result (AreKept ports.new (ports_from name writers)) }
    ensures others { OnOk result (Stay ports.old ports.new) }
    ensures waking { OnOk result (WakesAll channels.old channels.new) }
{
    if writers == 0 {
        return new_mute_channel(alloc, channels, ports, name);
    }
    let ends = channels.merge(alloc, name, writers)?;
    ports.put(alloc, ends.0)?;
    put_each(alloc, ports, ends.1)
}

// The values of the ports of a channel with so many writers.
fn values(alloc: Global, name: &ChanName, writers: u32) -> Result<Vec<PortValue>, NoMemory>
    ensures { IfOk result (λ v. v.items ≡ ports_from name.now writers) }
{
    let mut all = Vec::new(alloc);
    all.push(PortValue::Reader(name.copy(alloc)?))?;
    'writers: for writer in 0..writers {
        all.push(PortValue::Writer(name.copy(alloc)?, writer))?;
    }
    Ok(all)
}

// The ports of a new channel are put into their places. What stands there is discarded.
fn make(
    alloc: Global,
    program: &Program,
    path: &Path,
    process: &mut PlainProc,
    channels: &mut Channels,
    ports: &mut Ports,
    places: &[Span],
    writers: u32,
    cost: u64,
    next: u32,
) -> Result<Done<PlainProc>, NoMemory>
    requires event { action_of program.now (proc_of program.now process.old)
        ≡ action.Meets (action.Make places.now writers cost next) }
    requires can { CanPerform program.now path.now (proc_of program.now process.old) (chans_of channels.old) []
        ports.old }
    ensures performs { IfOk result (λ done. Performs program.now path.now (proc_of program.now process.old)
        (chans_of channels.old) [] ports.old (proc_of program.now process.new)
        (map (proc_of program.now) done.children.items) (chans_of channels.new) ports.new done.cost) }
    ensures waking { OnOk result (WakesAll channels.old channels.new) }
{
    let name = next_name(alloc, path, process)?;
    let values = values(alloc, &name, writers)?;
    new_channel(alloc, channels, ports, name, writers)?;
    let let_go = put_ports(alloc, program, process, places, values, next)?;
    discard_all(alloc, program, channels, ports, let_go);
    Ok(alone(alloc, cost))
}

// What it costs to send or receive a message.
fn message_cost(items: &[Item]) -> Result<u64, NoMemory>
    ensures { IfOk result (λ cost. cost ≡ 1 + words_of (message_of items.now)) }
{
    message_words(items)?.checked_add(1).ok_or(NoMemory)
}

fn send(
    alloc: Global,
    program: &Program,
    path: &Path,
    process: &mut PlainProc,
    channels: &mut Channels,
    ports: &mut Ports,
    channel: ChanName,
    writer: u32,
    items: Seq<Actual>,
    next: u32,
) -> Result<Done<PlainProc>, NoMemory>
    requires event { action_of program.now (proc_of program.now process.old)
        ≡ action.Meets (action.Send channel writer items next) }
    requires can { CanPerform program.now path.now (proc_of program.now process.old) (chans_of channels.old) []
        ports.old }
    ensures performs { IfOk result (λ done. Performs program.now path.now (proc_of program.now process.old)
        (chans_of channels.old) [] ports.old (proc_of program.now process.new)
        (map (proc_of program.now) done.children.items) (chans_of channels.new) ports.new done.cost) }
    ensures waking { OnOk result (WakesAll channels.old channels.new) }
{
    let items = take_message(alloc, program, process, items, next)?;
    let cost = message_cost(items.as_slice())?;
    let message = message_from(alloc, ports, items)?;
    channels.send_or_lose(&channel, message)?;
    Ok(alone(alloc, cost))
}

// What a receive with these limits gets of a channel.
fn next_message(
    channels: &mut Channels,
    ports: &Ports,
    channel: &ChanName,
    limits: &[Option<u32>],
) -> Got
    requires { IsKept ports.now (Reader channel.now) }
    ensures got { result ≡ got_at limits.now (get (chans_of channels.old) channel.now) }
    ensures channels { chans_of channels.new ≡ after_op (Reader channel.now) (Pop limits.now) (chans_of channels.old) }
    ensures waking { Wakes channels.old channels.new }
{
    match ports.inport(channel) {
        Some(port) => channels.receive(port, &limits),
        None => unreachable!(),
    }
}

// A message is stored. What stood in the places of its ports is discarded.
fn store(
    alloc: Global,
    program: &Program,
    process: &mut PlainProc,
    channels: &mut Channels,
    ports: &mut Ports,
    places: &[Span],
    iostat: Option<Span>,
    message: Message,
    next: u32,
) -> Result<u64, NoMemory>
    requires { MayDrop ports.old (message_ports message)
        (after_message (proc_of program.now process.old) next places.now iostat message).drops }
    ensures process { OnOk result (proc_of program.now process.new
        ≡ (after_message (proc_of program.now process.old) next places.now iostat message).self) }
    ensures channels { OnOk result (chans_of channels.new
        ≡ all_shed (after_message (proc_of program.now process.old) next places.now iostat message).drops
        (chans_of channels.old)) }
    ensures ports { OnOk result (Carries (message_ports message)
        (after_message (proc_of program.now process.old) next places.now iostat message).drops ports.old ports.new) }
    ensures cost { IfOk result (λ cost. cost ≡ 1 + words_of message) }
    ensures waking { OnOk result (WakesAll channels.old channels.new) }
{
    let items = unpacked(alloc, ports, message)?;
    let cost = message_cost(items.as_slice())?;
    let let_go = store_message(alloc, program, process, places, iostat, items, next)?;
    discard_all(alloc, program, channels, ports, let_go);
    Ok(cost)
}

fn receive(
    alloc: Global,
    program: &Program,
    path: &Path,
    process: &mut PlainProc,
    channels: &mut Channels,
    ports: &mut Ports,
    channel: ChanName,
    line: Line,
    places: &[Span],
    iostat: Option<Span>,
    at_end: Option<u32>,
    next: u32,
) -> Result<Done<PlainProc>, NoMemory>
    requires event { action_of program.now (proc_of program.now process.old)
        ≡ action.Meets (action.Receive channel line.0 places.now iostat at_end next) }
    requires can { CanPerform program.now path.now (proc_of program.now process.old) (chans_of channels.old) []
        ports.old }
    ensures performs { IfOk result (λ done. Performs program.now path.now (proc_of program.now process.old)
        (chans_of channels.old) [] ports.old (proc_of program.now process.new)
        (map (proc_of program.now) done.children.items) (chans_of channels.new) ports.new done.cost) }
    ensures waking { OnOk result (WakesAll channels.old channels.new) }
{
    let limits = limits_of(alloc, places)?;
    match next_message(channels, ports, &channel, limits.as_slice()) {
        Got::Message(message) => {
            let cost = store(
                alloc, program, process, channels, ports, places, iostat, message, next,
            )?;
            Ok(alone(alloc, cost))
        }
        Got::Exceeds => {
            fail(process, line, Fault::Subscript);
            Ok(alone(alloc, 1))
        }
        Got::Wait => unreachable!(),
        Got::End => {
            meet_end(program, process, line, iostat, at_end, next);
            Ok(alone(alloc, 1))
        }
    }
}

// Whether a receive would wait.
fn waits(channels: &Channels, ports: &Ports, channel: &ChanName) -> bool
    requires { IsKept ports.now (Reader channel.now) }
    ensures { result ≡ waits_at (get (chans_of channels.now) channel.now) }
{
    match ports.inport(channel) {
        Some(port) => channels.probe(port),
        None => unreachable!(),
    }
}

fn probe(
    alloc: Global,
    program: &Program,
    path: &Path,
    process: &mut PlainProc,
    channels: &Channels,
    ports: &Ports,
    channel: ChanName,
    empty: Span,
    next: u32,
) -> Done<PlainProc>
    requires event { action_of program.now (proc_of program.now process.old)
        ≡ action.Meets (action.Probe channel empty next) }
    requires can { CanPerform program.now path.now (proc_of program.now process.old) (chans_of channels.now) []
        ports.now }
    ensures { Performs program.now path.now (proc_of program.now process.old) (chans_of channels.now) [] ports.now
        (proc_of program.now process.new) (map (proc_of program.now) result.children.items) (chans_of channels.now)
        ports.now result.cost }
{
    let waits = waits(channels, ports, &channel);
    put_probe(program, process, empty, waits, next);
    alone(alloc, 1)
}

fn start(
    alloc: Global,
    program: &Program,
    process: &mut PlainProc,
) -> Result<Done<PlainProc>, NoMemory>
    ensures process { OnOk result
        (proc_of program.now process.new ≡ (after_begin (proc_of program.now process.old)).self) }
    ensures children { IfOk result (λ done. map (proc_of program.now) done.children.items
        ≡ (after_begin (proc_of program.now process.old)).starts) }
    ensures cost { IfOk result (λ done. done.cost ≡ 1 + length done.children.items) }
{
    let children = begin(alloc, process)?;
    let cost = 1 + children.len() as u64;
    Ok(Done { children, cost })
}

// The ports of starts that didn't begin come last.
fn finish(
    alloc: Global,
    program: &Program,
    process: &mut PlainProc,
    channels: &mut Channels,
    ports: &mut Ports,
) -> Result<(), NoMemory>
    requires kept { AreKept ports.old (ended program.now (proc_of program.now process.old)).drops }
    requires once { AreOnce (ended program.now (proc_of program.now process.old)).drops }
    ensures process { OnOk result
        (proc_of program.now process.new ≡ (ended program.now (proc_of program.now process.old)).self) }
    ensures channels { OnOk result (chans_of channels.new
        ≡ all_shed (ended program.now (proc_of program.now process.old)).drops (chans_of channels.old)) }
    ensures others { OnOk result
        (StayBut (ended program.now (proc_of program.now process.old)).drops ports.old ports.new) }
    ensures waking { OnOk result (WakesAll channels.old channels.new) }
{
    let gone = end(alloc, program, process)?;
    discard_both(alloc, program, channels, ports, gone.0, gone.1);
    Ok(())
}

/// Does the event at which a process stands, as far as it touches the process, the channels and the kept ports.
pub(crate) fn perform(
    alloc: Global,
    program: &Program,
    path: &Path,
    process: &mut PlainProc,
    channels: &mut Channels,
    ports: &mut Ports,
    event: Event,
) -> Result<Done<PlainProc>, NoMemory>
    requires event { action_of program.now (proc_of program.now process.old)
        ≡ action.Meets (event_by (proc_of program.now process.old).phase event) }
    requires alone { joined_by event ≡ None }
    requires can { CanPerform program.now path.now (proc_of program.now process.old) (chans_of channels.old) []
        ports.old }
    ensures performs { IfOk result (λ done. Performs program.now path.now (proc_of program.now process.old)
        (chans_of channels.old) [] ports.old (proc_of program.now process.new)
        (map (proc_of program.now) done.children.items) (chans_of channels.new) ports.new done.cost) }
    ensures waking { OnOk result (WakesAll channels.old channels.new) }
{
    match event {
        Event::Fail(line, fault) => {
            fail(process, line, fault);
            Ok(alone(alloc, 1))
        }
        Event::Make {
            places,
            writers,
            cost,
            next,
        } => make(
            alloc,
            program,
            path,
            process,
            channels,
            ports,
            places.as_slice(),
            writers,
            cost,
            next,
        ),
        Event::Send {
            channel,
            writer,
            items,
            next,
        } => send(
            alloc, program, path, process, channels, ports, channel, writer, items, next,
        ),
        Event::Receive {
            channel,
            line,
            items,
            iostat,
            at_end,
            next,
        } => receive(
            alloc,
            program,
            path,
            process,
            channels,
            ports,
            channel,
            line,
            items.as_slice(),
            iostat,
            at_end,
            next,
        ),
        Event::Probe {
            channel,
            empty,
            next,
        } => Ok(probe(
            alloc, program, path, process, channels, ports, channel, empty, next,
        )),
        Event::Begin => start(alloc, program, process),
        Event::Join { .. } => unreachable!(),
        Event::End => {
            finish(alloc, program, process, channels, ports)?;
            Ok(alone(alloc, 1))
        }
    }
}

/// Joins the process with children that left these frames.
pub(crate) fn join_all(
    alloc: Global,
    program: &Program,
    process: &mut PlainProc,
    channels: &mut Channels,
    ports: &mut Ports,
    left: Vec<Ended>,
    next: u32,
) -> Result<u64, NoMemory>
    requires { CanJoin program.now (proc_of program.now process.old) next left.items ports.old }
    ensures joins { IfOk result (λ cost. (kids : List Proc)
        → map frames_in kids ≡ map (left_frames program.now) left.items
        → Joins (proc_of program.now process.old) next kids ports.old (chans_of channels.old)
        (proc_of program.now process.new) (chans_of channels.new) ports.new cost) }
    ensures waking { OnOk result (WakesAll channels.old channels.new) }
{
    let joined = join(alloc, program, process, left, next)?;
    discard_each(alloc, program, channels, ports, joined.0);
    Ok(joined.1)
}
