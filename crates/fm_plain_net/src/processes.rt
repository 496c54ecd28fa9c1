//! A process over trees, as the table of processes runs it.

ghost use Rattle.std.specs.Prelude.{◌≡◌, ◌+◌, map, IfOk};
ghost use Rattle.std.specs.Option.{option_copied};
ghost use Rattle.std.specs.FinMap.{get};
ghost use Rattle.fm_base.specs.declared.port.PortValue.TheVariants.{Reader};
ghost use Rattle.fm_chan.specs.Bodies.{chans_of};
ghost use Rattle.fm_chan.specs.Received.{pops_at};
ghost use Rattle.fm_rules.specs.declared.program.Program as declared;
ghost use Rattle.fm_plain_frame.specs.Frames.{proc_of};
ghost use Rattle.fm_plain_net.specs.Advances.{IsPaused};
ghost use Rattle.fm_plain_net.specs.Held.{IsKept};
ghost use Rattle.fm_plain_net.specs.Readings.{tree_of};
ghost use Rattle.fm_plain_net.specs.Waited.{channel_received};

use crate::joins::{join_block, joined_block};
use crate::perform::{discard_all, perform};
use crate::ports::Ports;
use fm_base::{ChanName, NoMemory, Path};
use fm_chan::Channels;
use fm_net_procs::{Actor, Advanced, Done, Entries, Entry, JoiningProc, Proc, Stop};
use fm_plain::{Advanced as Made, Event, Next, Stop as Halt, advance, next_of};
use fm_plain_frame::{Phase, PlainProc};
use fm_plain_replies::{Ended, leave};
use fm_rules::Program;
use std::alloc::Global;

/// A process that goes along the statements of its program.
#[derive(Drop)]
pub struct TreeProc {
    /// The process.
    pub plain: PlainProc,
}

/// A process, and what is kept of it.
pub type Slot = Entry<TreeProc, Next>;

/// The processes by their numbers.
pub type Processes = Entries<TreeProc, Next>;

/// The processes, channels and ports of a run.
pub type Trees = fm_net_procs::Processes<TreeProc, Next, Ports>;

// Children as the table keeps them.
fn kept(alloc: Global, children: Vec<PlainProc>) -> Result<Vec<TreeProc>, NoMemory>
    ensures { IfOk result (λ v. (p : declared.Program) → map (tree_of p) v.items ≡ map (proc_of p) children.items) }
{
    let mut all = Vec::new(alloc);
    'children: for plain in children {
        all.push(TreeProc { plain })?;
    }
    Ok(all)
}

// One step more, at this cost.
fn counted(steps: u32, cost: u64, paid: u64) -> Result<(u32, u64), NoMemory>
    ensures { IfOk result (λ r. (r.0 ≡ steps + 1) × (r.1 ≡ cost + paid)) }
{
    match (steps.checked_add(1), cost.checked_add(paid)) {
        (Some(steps), Some(cost)) => Ok((steps, cost)),
        _ => Err(NoMemory),
    }
}

// A process pauses behind so many steps.
fn pauses(
    alloc: Global,
    program: &Program,
    process: &PlainProc,
    steps: u32,
    cost: u64,
) -> Result<Advanced<Event, Next>, NoMemory>
    ensures { IfOk result (λ a. IsPaused program.now (proc_of program.now process.now) steps cost a) }
{
    let stop = Stop::Pauses(next_of(alloc, program, process)?);
    Ok(Advanced { stop, steps, cost })
}

// Whether a message is there, or none comes any more.
fn is_ready(channels: &Channels, ports: &Ports, channel: &ChanName) -> bool
    ensures { IsKept ports.now (Reader channel.now) → result ≡ pops_at (get (chans_of channels.now) channel.now) }
{
    match ports.inport(channel) {
        Some(port) => channels.is_ready(port),
        None => false,
    }
}

fn received_channel(event: &Event) -> Option<&ChanName>
    ensures { option_copied result ≡ channel_received event.now }
{
    match event {
        Event::Receive { channel, .. } => Some(channel),
        Event::Fail(_, _) => None,
        Event::Make { .. } => None,
        Event::Send { .. } => None,
        Event::Probe { .. } => None,
        Event::Begin => None,
        Event::Join { .. } => None,
        Event::End => None,
    }
}

impl Proc for TreeProc {
    ghost use Rattle.std.specs.Prelude.{refl, List};
    ghost use Rattle.fm_mean.specs.Process as mean;
    ghost use Rattle.fm_mean.specs.Steps as steps;
    ghost use Rattle.fm_plain.specs.Looking as looking;
    ghost use Rattle.fm_plain_frame.specs.Frames.{phase_of};
    ghost use Rattle.fm_plain_replies.specs.Joins.{frames_in, left_frames};
    ghost use Rattle.fm_plain_net.specs.Goes as goes;
    ghost use Rattle.fm_plain_net.specs.Held as held;
    ghost use Rattle.fm_plain_net.specs.Readings.{tree_of};
    ghost use Rattle.fm_plain_net.specs.Waited.{event_in};
    ghost use Rattle.fm_run.specs.Awaited.{awaits};
    ghost use Rattle.fm_run.specs.Programs.{has_local};

    type Look = Next;

    type Event = Event;

    type Program = Program;

    type Work = Ports;

    type Left = Ended;

    ghost Seen = { mean.Proc };

    ghost SeenLeft = { List mean.Frame };

    ghost seen = { λ program x. tree_of program x };

    ghost language = { λ program. steps.language program };

    ghost IsNext = { λ program y next. looking.IsNext program y next };

    ghost MeetsIt = { λ program y event. goes.MeetsIt program y event };

    ghost event_in = { event_in };

    ghost joins = { λ event. goes.is_join event };

    ghost is_local = { λ program y. has_local program y };

    ghost Fits = { λ program ports s. held.Fits program ports s };

    ghost awaits = { awaits };

    ghost over = { λ x. mean.is_ended (phase_of x.plain.phase) };

    ghost left_of = { λ program left. left_frames program left };

    ghost left_by = { λ y. frames_in y };

    fn look(&self, alloc: Global, program: &Program, work: &mut Ports) -> Result<Next, NoMemory> {
        next_of(alloc, program, &self.plain)
    }

    fn rests() -> Next {
        Next::Rests
    }

    fn event(look: &Next) -> Option<&Event> {
        match look {
            Next::Steps => None,
            Next::Rests => None,
            Next::Meets(event) => Some(event),
        }
    }

    fn into_event(look: Next) -> Option<Event> {
        match look {
            Next::Steps => None,
            Next::Rests => None,
            Next::Meets(event) => Some(event),
        }
    }

    fn waiting(event: Event) -> Next {
        Next::Meets(event)
    }

    fn is_join(event: &Event) -> bool {
        joined_block(event).is_some()
    }

    fn can_go(&self, look: &Next) -> bool {
        match look {
            Next::Steps => true,
            Next::Rests => false,
            Next::Meets(_) => false,
        }
    }

    fn is_served(&self, channels: &Channels, work: &Ports, event: &Event) -> Option<bool> {
        match event {
            Event::Receive { channel, .. } => Some(is_ready(channels, work, channel)),
            Event::Join { .. } => None,
            Event::Fail(_, _) => Some(true),
            Event::Make { .. } => Some(true),
            Event::Send { .. } => Some(true),
            Event::Probe { .. } => Some(true),
            Event::Begin => Some(true),
            Event::End => Some(true),
        }
    }

    fn channel<'a>(&'a self, look: &'a Next) -> Option<&'a ChanName> {
        match look {
            Next::Steps => None,
            Next::Rests => None,
            Next::Meets(event) => received_channel(event),
        }
    }

    fn advance(
        &mut self,
        alloc: Global,
        program: &Program,
        channels: &mut Channels,
        work: &mut Ports,
        slice: u32,
        spare: bool,
    ) -> Result<Advanced<Event, Next>, NoMemory> {
        let Made { stop, steps, cost } = advance(alloc, program, &mut self.plain, slice, spare)?;
        match stop {
            Halt::More => pauses(alloc, program, &self.plain, steps, cost),
            Halt::Event(event) => {
                let stop = Stop::Meets(event);
                Ok(Advanced { stop, steps, cost })
            }
            Halt::LetsGo(let_go, paid) => {
                discard_all(alloc, program, channels, work, let_go);
                let more = counted(steps, cost, paid)?;
                pauses(alloc, program, &self.plain, more.0, more.1)
            }
            Halt::Short => Err(NoMemory),
        }
    }

    fn perform(
        &mut self,
        alloc: Global,
        program: &Program,
        path: &Path,
        channels: &mut Channels,
        work: &mut Ports,
        event: Event,
    ) -> Result<Done<TreeProc>, NoMemory> {
        let Done { children, cost } = perform(
            alloc,
            program,
            path,
            &mut self.plain,
            channels,
            work,
            event,
        )?;
        let born = kept(alloc, children)?;
        Ok(Done {
            children: born,
            cost,
        })
    }

    fn has_ended(&self) -> bool {
        self.plain.has_ended()
    }

    fn kid_count(&self) -> usize {
        match &self.plain.phase {
            Phase::Running => 0,
            Phase::Joining(_, kids) => kids.len(),
            Phase::Ended => 0,
            Phase::Faulted(_, _) => 0,
        }
    }

    fn next_block(&self) -> u32 {
        self.plain.next_block()
    }

    fn release(&mut self, alloc: Global) -> Ended {
        leave(&mut self.plain, alloc)
    }

    ghost ends = { λ program x. refl };

    ghost awaits_still = { λ program y. refl };
}

impl JoiningProc for TreeProc {
    fn join(
        alloc: Global,
        program: &Program,
        entries: &mut Processes,
        channels: &mut Channels,
        work: &mut Ports,
        actor: &Actor,
        event: Event,
    ) -> Result<u64, NoMemory> {
        match joined_block(&event) {
            Some((block, count, next)) => {
                let _count = count;
                join_block(alloc, program, entries, channels, work, actor, block, next)
            }
            None => unreachable!(),
        }
    }
}
