//! How a process goes on with the reply to what it asks for.

ghost use Rattle.fm_rules.specs.declared.program.Program as declared;
ghost use Rattle.std.specs.Prelude.{◌≡◌, ◌^◌, ◌<◌, [], ℕ, Some, None, map, option_copied, IfOk, OnErr};
ghost use Rattle.fm_base.specs.Channels as channels;
ghost use Rattle.fm_base.specs.declared.path.ChanName as declared_name;
ghost use Rattle.fm_net.specs.Machine.{Go, Nothing, Onward, Reply, reply_with};
ghost use Rattle.fm_net.specs.Lawful.{ports_from};
ghost use Rattle.fm_mean.specs.Actions as action;
ghost use Rattle.fm_mean.specs.Actions.{action_of};
ghost use Rattle.fm_mean.specs.Process.{Proc};
ghost use Rattle.fm_mean.specs.Steps.{ask};
ghost use Rattle.fm_plain_frame.specs.Frames.{proc_of};
ghost use Rattle.fm_plain_passing.specs.Items.{message_of};
ghost use Rattle.fm_plain.specs.Events.{event_by};
ghost use Rattle.fm_nodes_procs.specs.Asks.{GoesSo};
ghost use Rattle.fm_nodes_trees.specs.declared.drops.Drops as declared_drops;
ghost use Rattle.fm_nodes_trees.specs.Drops.{drops_in};
ghost use Rattle.fm_nodes_trees.specs.Goes.{Goes};

use crate::asking::{bounded, message_cost, one_more, open_starts};
use crate::drops::Drops;
use fm_base::{ChanName, Fault, Line, NoMemory, Path, PortValue, Seq};
use fm_mean::{Actual, Span};
use fm_nodes_procs::Gone;
use fm_plain::{Acted, Event, act};
use fm_plain_frame::PlainProc;
use fm_plain_passing::{Item, message_words};
use fm_plain_replies::{
    begin, end, fail, meet_end, next_name, put_ports, put_probe, store_message, take_message,
};
use fm_rules::Program;
use std::alloc::Global;

/// Makes a step of a process that needs nothing and starts no child, if its next step is one of its own.
pub(crate) fn step_own(
    alloc: Global,
    program: &Program,
    process: &mut PlainProc,
) -> Result<Option<(Drops, u64)>, NoMemory>
    ensures steps { IfOk result (λ o. (d : declared_drops.Drops) (cost : ℕ)
        → o ≡ Some (d, cost)
        → (f : declared_name.ChanName → Reply Proc → Onward Proc)
        × (ask program.now (proc_of program.now process.old) ≡ Go Nothing f)
        × ((c : declared_name.ChanName)
        → GoesSo (proc_of program.now process.new) [] (drops_in program.now d) cost (f c (reply_with [])))) }
    ensures few { IfOk result (λ o. (d : declared_drops.Drops) (cost : ℕ) → o ≡ Some (d, cost) → cost < 2 ^ 63) }
    ensures none { IfOk result (λ o. o ≡ None → proc_of program.now process.new ≡ proc_of program.now process.old) }
    ensures err { OnErr result (proc_of program.now process.new ≡ proc_of program.now process.old) }
{
    match act(alloc, program, process)? {
        Acted::Done(cost) => Ok(Some((Drops::none(alloc), cost as u64))),
        Acted::LetsGo(ports, cost) => Ok(Some((Drops::one(alloc, ports), cost as u64))),
        Acted::Rest => Ok(None),
        Acted::Event(_) => Ok(None),
    }
}

// It starts nobody.
fn alone(alloc: Global, drops: Drops, cost: u64) -> Gone<PlainProc, Drops>
    ensures starts { result.starts.items ≡ [] }
    ensures drops { result.drops ≡ drops }
    ensures cost { result.cost ≡ cost }
{
    Gone {
        starts: Vec::new(alloc),
        drops,
        cost,
    }
}

// The values of the ports of a channel with one writer or none. No plain program makes another.
fn values(alloc: Global, name: ChanName, writers: u32) -> Result<Vec<PortValue>, NoMemory>
    ensures { IfOk result (λ v. v.items ≡ ports_from name writers) }
{
    let mut all = Vec::new(alloc);
    let writer = name.copy(alloc)?;
    all.push(PortValue::Reader(name))?;
    match writers {
        0 => Ok(all),
        1 => {
            all.push(PortValue::Writer(writer, 0))?;
            Ok(all)
        }
        _ => Err(NoMemory),
    }
}

// The ports of the new channel are put into their places.
fn make(
    alloc: Global,
    program: &Program,
    process: &mut PlainProc,
    path: &Path,
    message: Option<&Seq<Seq<i64>>>,
    exceeds: bool,
    places: &[Span],
    writers: u32,
    cost: u64,
    next: u32,
) -> Result<Gone<PlainProc, Drops>, NoMemory>
    requires { action_of program.now (proc_of program.now process.old)
        ≡ action.Meets (action.Make places.now writers cost next) }
    ensures goes { IfOk result (λ g. Goes program.now path.now (proc_of program.now process.old)
        (option_copied message.entry) exceeds (proc_of program.now process.new)
        (map (proc_of program.now) g.starts.items) (drops_in program.now g.drops) g.cost) }
    ensures few { IfOk result (λ g. g.cost < 2 ^ 63) }
    ensures err { OnErr result (proc_of program.now process.new ≡ proc_of program.now process.old) }
{
    let _message = message;
    let _exceeds = exceeds;
    let paid = bounded(cost)?;
    let name = next_name(alloc, path, process)?;
    let values = values(alloc, name, writers)?;
    let ports = put_ports(alloc, program, process, places, values, next)?;
    Ok(alone(alloc, Drops::one(alloc, ports), paid))
}

// The items of the message are taken.
fn send(
    alloc: Global,
    program: &Program,
    process: &mut PlainProc,
    path: &Path,
    message: Option<&Seq<Seq<i64>>>,
    exceeds: bool,
    channel: &ChanName,
    writer: u32,
    items: Seq<Actual>,
    next: u32,
) -> Result<Gone<PlainProc, Drops>, NoMemory>
    requires { action_of program.now (proc_of program.now process.old)
        ≡ action.Meets (action.Send channel.now writer items next) }
    ensures goes { IfOk result (λ g. Goes program.now path.now (proc_of program.now process.old)
        (option_copied message.entry) exceeds (proc_of program.now process.new)
        (map (proc_of program.now) g.starts.items) (drops_in program.now g.drops) g.cost) }
    ensures few { IfOk result (λ g. g.cost < 2 ^ 63) }
    ensures err { OnErr result (proc_of program.now process.new ≡ proc_of program.now process.old) }
{
    let _path = path;
    let _message = message;
    let _exceeds = exceeds;
    let _channel = channel;
    let _writer = writer;
    let cost = message_cost(items.as_slice())?;
    take_message(alloc, program, process, items, next)?;
    Ok(alone(alloc, Drops::none(alloc), cost))
}

// What a message brings, with its words once more.
fn items_of(alloc: Global, words: &[Seq<i64>]) -> Result<Seq<Item>, NoMemory>
    ensures { IfOk result (λ items. message_of items ≡ map channels.Words words.now) }
{
    let mut items = Seq::new(alloc);
    'words: for item in words {
        items.push(Item::Words(Seq::from_slice(alloc, item.as_slice())?))?;
    }
    Ok(items)
}

// A message came: it is stored.
fn store(
    alloc: Global,
    program: &Program,
    process: &mut PlainProc,
    path: &Path,
    words: &Seq<Seq<i64>>,
    exceeds: bool,
    channel: &ChanName,
    line: Line,
    places: &[Span],
    iostat: Option<Span>,
    at_end: Option<u32>,
    next: u32,
) -> Result<Gone<PlainProc, Drops>, NoMemory>
    requires { action_of program.now (proc_of program.now process.old)
        ≡ action.Meets (action.Receive channel.now line.0 places.now iostat at_end next) }
    ensures goes { IfOk result (λ g. Goes program.now path.now (proc_of program.now process.old) (Some words.now)
        exceeds (proc_of program.now process.new) (map (proc_of program.now) g.starts.items)
        (drops_in program.now g.drops) g.cost) }
    ensures few { IfOk result (λ g. g.cost < 2 ^ 63) }
    ensures err { OnErr result (proc_of program.now process.new ≡ proc_of program.now process.old) }
{
    let _path = path;
    let _exceeds = exceeds;
    let _channel = channel;
    let _line = line;
    let _at_end = at_end;
    let items = items_of(alloc, words.as_slice())?;
    let cost = message_words(items.as_slice())?;
    let paid = one_more(cost)?;
    let ports = store_message(alloc, program, process, places, iostat, items, next)?;
    Ok(alone(alloc, Drops::one(alloc, ports), paid))
}

// No message came: there is one that exceeds the places, or the channel is at its end. Takes no memory.
fn meet(
    alloc: Global,
    program: &Program,
    process: &mut PlainProc,
    path: &Path,
    exceeds: bool,
    channel: &ChanName,
    line: Line,
    places: &[Span],
    iostat: Option<Span>,
    at_end: Option<u32>,
    next: u32,
) -> Gone<PlainProc, Drops>
    requires { action_of program.now (proc_of program.now process.old)
        ≡ action.Meets (action.Receive channel.now line.0 places.now iostat at_end next) }
    ensures goes { Goes program.now path.now (proc_of program.now process.old) None exceeds
        (proc_of program.now process.new) (map (proc_of program.now) result.starts.items)
        (drops_in program.now result.drops) result.cost }
    ensures few { result.cost ≡ 1 }
{
    let _path = path;
    let _channel = channel;
    let _places = places;
    if exceeds {
        fail(process, line, Fault::Subscript);
        alone(alloc, Drops::none(alloc), 1)
    } else {
        meet_end(program, process, line, iostat, at_end, next);
        alone(alloc, Drops::none(alloc), 1)
    }
}

// The children of the open block start.
fn start(
    alloc: Global,
    program: &Program,
    process: &mut PlainProc,
    path: &Path,
    message: Option<&Seq<Seq<i64>>>,
    exceeds: bool,
) -> Result<Gone<PlainProc, Drops>, NoMemory>
    requires { action_of program.now (proc_of program.now process.old) ≡ action.Meets action.Begin }
    ensures goes { IfOk result (λ g. Goes program.now path.now (proc_of program.now process.old)
        (option_copied message.entry) exceeds (proc_of program.now process.new)
        (map (proc_of program.now) g.starts.items) (drops_in program.now g.drops) g.cost) }
    ensures few { IfOk result (λ g. g.cost < 2 ^ 63) }
    ensures err { OnErr result (proc_of program.now process.new ≡ proc_of program.now process.old) }
{
    let _program = program;
    let _path = path;
    let _message = message;
    let _exceeds = exceeds;
    let cost = one_more(open_starts(process) as u64)?;
    let starts = begin(alloc, process)?;
    Ok(Gone {
        starts,
        drops: Drops::none(alloc),
        cost,
    })
}

// The process ends. The ports of starts that didn't begin go last.
fn finish(
    alloc: Global,
    program: &Program,
    process: &mut PlainProc,
    path: &Path,
    message: Option<&Seq<Seq<i64>>>,
    exceeds: bool,
) -> Result<Gone<PlainProc, Drops>, NoMemory>
    requires { action_of program.now (proc_of program.now process.old) ≡ action.Meets action.End }
    ensures goes { IfOk result (λ g. Goes program.now path.now (proc_of program.now process.old)
        (option_copied message.entry) exceeds (proc_of program.now process.new)
        (map (proc_of program.now) g.starts.items) (drops_in program.now g.drops) g.cost) }
    ensures few { IfOk result (λ g. g.cost < 2 ^ 63) }
    ensures err { OnErr result (proc_of program.now process.new ≡ proc_of program.now process.old) }
{
    let _path = path;
    let _message = message;
    let _exceeds = exceeds;
    let mut rest = Vec::with_capacity(alloc, 1)?;
    let gone = end(alloc, program, process)?;
    rest.push_reserved(gone.1);
    Ok(alone(alloc, Drops::new(alloc, gone.0, rest), 1))
}

// A receive goes on with what came.
fn receive(
    alloc: Global,
    program: &Program,
    process: &mut PlainProc,
    path: &Path,
    message: Option<&Seq<Seq<i64>>>,
    exceeds: bool,
    channel: &ChanName,
    line: Line,
    places: &[Span],
    iostat: Option<Span>,
    at_end: Option<u32>,
    next: u32,
) -> Result<Gone<PlainProc, Drops>, NoMemory>
    requires { action_of program.now (proc_of program.now process.old)
        ≡ action.Meets (action.Receive channel.now line.0 places.now iostat at_end next) }
    ensures goes { IfOk result (λ g. Goes program.now path.now (proc_of program.now process.old)
        (option_copied message.entry) exceeds (proc_of program.now process.new)
        (map (proc_of program.now) g.starts.items) (drops_in program.now g.drops) g.cost) }
    ensures few { IfOk result (λ g. g.cost < 2 ^ 63) }
    ensures err { OnErr result (proc_of program.now process.new ≡ proc_of program.now process.old) }
{
    match message {
        Some(words) => store(
            alloc, program, process, path, words, exceeds, channel, line, places, iostat, at_end,
            next,
        ),
        None => Ok(meet(
            alloc, program, process, path, exceeds, channel, line, places, iostat, at_end, next,
        )),
    }
}

// A receive wouldn't wait, as far as anybody asks. Takes no memory.
fn probe(
    alloc: Global,
    program: &Program,
    process: &mut PlainProc,
    path: &Path,
    message: Option<&Seq<Seq<i64>>>,
    exceeds: bool,
    channel: &ChanName,
    empty: Span,
    next: u32,
) -> Gone<PlainProc, Drops>
    requires { action_of program.now (proc_of program.now process.old)
        ≡ action.Meets (action.Probe channel.now empty next) }
    ensures goes { Goes program.now path.now (proc_of program.now process.old) (option_copied message.entry) exceeds
        (proc_of program.now process.new) (map (proc_of program.now) result.starts.items)
        (drops_in program.now result.drops) result.cost }
    ensures few { result.cost ≡ 1 }
{
    let _path = path;
    let _message = message;
    let _exceeds = exceeds;
    let _channel = channel;
    put_probe(program, process, empty, false, next);
    alone(alloc, Drops::none(alloc), 1)
}

// It faults. Takes no memory.
fn fault(
    alloc: Global,
    program: &Program,
    process: &mut PlainProc,
    path: &Path,
    message: Option<&Seq<Seq<i64>>>,
    exceeds: bool,
    line: Line,
    why: Fault,
) -> Gone<PlainProc, Drops>
    requires { action_of program.now (proc_of program.now process.old) ≡ action.Meets (action.Fail line.0 why) }
    ensures goes { Goes program.now path.now (proc_of program.now process.old) (option_copied message.entry) exceeds
        (proc_of program.now process.new) (map (proc_of program.now) result.starts.items)
        (drops_in program.now result.drops) result.cost }
    ensures few { result.cost ≡ 1 }
{
    let _program = program;
    let _path = path;
    let _message = message;
    let _exceeds = exceeds;
    fail(process, line, why);
    alone(alloc, Drops::none(alloc), 1)
}

// A process goes on that meets an event, and joins nobody.
fn perform(
    alloc: Global,
    program: &Program,
    process: &mut PlainProc,
    path: &Path,
    message: Option<&Seq<Seq<i64>>>,
    exceeds: bool,
    event: Event,
) -> Result<Gone<PlainProc, Drops>, NoMemory>
    requires { action_of program.now (proc_of program.now process.old)
        ≡ action.Meets (event_by (proc_of program.now process.old).phase event) }
    ensures goes { IfOk result (λ g. Goes program.now path.now (proc_of program.now process.old)
        (option_copied message.entry) exceeds (proc_of program.now process.new)
        (map (proc_of program.now) g.starts.items) (drops_in program.now g.drops) g.cost) }
    ensures few { IfOk result (λ g. g.cost < 2 ^ 63) }
    ensures err { OnErr result (proc_of program.now process.new ≡ proc_of program.now process.old) }
{
    match event {
        Event::Fail(line, why) => Ok(fault(
            alloc, program, process, path, message, exceeds, line, why,
        )),
        Event::Make {
            places,
            writers,
            cost,
            next,
        } => make(
            alloc,
            program,
            process,
            path,
            message,
            exceeds,
            places.as_slice(),
            writers,
            cost,
            next,
        ),
        Event::Send {
            channel,
            writer,
            items,
            next,
        } => send(
            alloc, program, process, path, message, exceeds, &channel, writer, items, next,
        ),
        Event::Receive {
            channel,
            line,
            items,
            iostat,
            at_end,
            next,
        } => receive(
            alloc,
            program,
            process,
            path,
            message,
            exceeds,
            &channel,
            line,
            items.as_slice(),
            iostat,
            at_end,
            next,
        ),
        Event::Probe {
            channel,
            empty,
            next,
        } => Ok(probe(
            alloc, program, process, path, message, exceeds, &channel, empty, next,
        )),
        Event::Begin => start(alloc, program, process, path, message, exceeds),
        Event::Join { .. } => Err(NoMemory),
        Event::End => finish(alloc, program, process, path, message, exceeds),
    }
}

/// A process goes on that joins nobody, with the message that came, or with none, and whether one is there that exceeds
/// its limits. After want of memory it is as it was.
pub(crate) fn go_on(
    alloc: Global,
    program: &Program,
    process: &mut PlainProc,
    path: &Path,
    message: Option<&Seq<Seq<i64>>>,
    exceeds: bool,
) -> Result<Gone<PlainProc, Drops>, NoMemory>
    ensures goes { IfOk result (λ g. Goes program.now path.now (proc_of program.now process.old)
        (option_copied message.entry) exceeds (proc_of program.now process.new)
        (map (proc_of program.now) g.starts.items) (drops_in program.now g.drops) g.cost) }
    ensures few { IfOk result (λ g. g.cost < 2 ^ 63) }
    ensures err { OnErr result (proc_of program.now process.new ≡ proc_of program.now process.old) }
{
    match act(alloc, program, process)? {
        Acted::Done(cost) => Ok(alone(alloc, Drops::none(alloc), cost as u64)),
        Acted::LetsGo(ports, cost) => Ok(alone(alloc, Drops::one(alloc, ports), cost as u64)),
        Acted::Rest => Ok(alone(alloc, Drops::none(alloc), 0)),
        Acted::Event(event) => perform(alloc, program, process, path, message, exceeds, event),
    }
}
