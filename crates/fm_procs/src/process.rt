//! A process of stack code, as the table of processes keeps it.

ghost use Rattle.std.specs.Prelude.{◌≡◌, length, map, IfOk};
ghost use Rattle.fm_proc_language.specs.Processes.{has_ended as is_done};
ghost use Rattle.fm_proc_events.specs.Phases.{boxed_of, phase_of, proc_of};
ghost use Rattle.fm_procs.specs.Pieces.{is_used_up};
ghost use Rattle.fm_procs.specs.Readings.{code_of};
ghost use Rattle.fm_procs.specs.Stepping.{stop_of};
ghost use Rattle.fm_procs.specs.Waiting.{kids_in};

use crate::advancing::{Advanced as Made, advance};
use crate::joins::{join_block, joined_next};
use crate::opening::{Left, release};
use crate::performing::{StepEnd, perform};
use crate::ready::{is_join, is_running, served, waited_channel};
use crate::telling::next_look;
use fm_base::{ChanName, NoMemory, Path};
use fm_chan::Channels;
use fm_code::Ask;
use fm_machine_calls::Look;
use fm_machine_instr::Work;
use fm_net_procs::{Actor, Advanced, Done, JoiningProc, Proc, Stop};
use fm_proc_events::{Phase, Process};
use std::alloc::Global;

/// A process of stack code.
pub struct CodeProcess {
    /// The process.
    pub held: Box<Process>,
}

impl Drop for CodeProcess {
    fn drop(self) {
        let CodeProcess { held: _held } = self;
    }
}

/// Whether a process has ended.
pub fn has_ended(process: &Process) -> bool
    ensures { result ≡ is_done (proc_of process.now) }
{
    match &process.phase {
        Phase::Running => false,
        Phase::Joining { .. } => false,
        Phase::Ended => true,
        Phase::Faulted { .. } => false,
    }
}

// How many children a process waits for.
fn kid_count(process: &Process) -> usize
    ensures { result ≡ length (kids_in (phase_of process.now.phase)) }
{
    match &process.phase {
        Phase::Running => 0,
        Phase::Joining { block: _, kids } => kids.len(),
        Phase::Ended => 0,
        Phase::Faulted { .. } => 0,
    }
}

// Children as the table keeps them.
#[inline(always)]
fn kept(alloc: Global, children: Vec<Box<Process>>) -> Result<Vec<CodeProcess>, NoMemory>
    ensures { IfOk result (λ v. map code_of v.items ≡ map boxed_of children.items) }
{
    let mut all = Vec::new(alloc);
    'children: for held in children {
        all.push(CodeProcess { held })?;
    }
    Ok(all)
}

// Where a process stops that does this next, and used up its slice with no step to spare, or didn't.
#[inline(always)]
fn stop_of(next: Look, whole: bool) -> Stop<Ask, Look>
    ensures { result ≡ stop_of next whole }
{
    if whole {
        return Stop::Pauses(next);
    }
    match next {
        Look::Goes => Stop::Pauses(Look::Goes),
        Look::Asks(ask) => Stop::Meets(ask),
        Look::Stuck => Stop::Pauses(Look::Stuck),
    }
}

// Whether a slice is used up, with no step to spare.
#[inline(always)]
fn is_used_up(steps: u32, slice: u32, spare: bool) -> bool
    ensures { result ≡ is_used_up steps slice spare }
{
    steps == slice && !spare
}

/// A process, and what is kept of it.
pub type Entry = fm_net_procs::Entry<CodeProcess, Look>;

/// The processes by their numbers, in the order of starting, also those that have ended.
pub type Entries = fm_net_procs::Entries<CodeProcess, Look>;

impl Proc for CodeProcess {
    ghost use Rattle.std.specs.Prelude.{◌≡◌, Option, refl};
    ghost use Rattle.fm_code.specs.declared.body.Body as bodies;
    ghost use Rattle.fm_proc_language.specs.Processes as code;
    ghost use Rattle.fm_proc_language.specs.Slots as slots;
    ghost use Rattle.fm_procs.specs.Lefts.{left_by, left_of};
    ghost use Rattle.fm_proc_events.specs.Told.{look_of};
    ghost use Rattle.fm_procs.specs.Readings.{awaits, code_of};
    ghost use Rattle.fm_proc_language.specs.Needs.{is_local};
    ghost use Rattle.fm_machine_calls.specs.declared.looking.Look.TheVariants as look;
    ghost use Rattle.fm_procs.specs.Waiting.{event_in, is_join};

    type Look = Look;

    type Event = Ask;

    type Program = ();

    type Work = Work;

    type Left = Left;

    ghost Seen = { code.CodeProc };

    ghost SeenLeft = { Option bodies.Body × slots.Slots };

    ghost seen = { λ program x. code_of x };

    ghost language = { λ program. code.code_language };

    ghost IsNext = { λ program y next. next ≡ look_of y };

    ghost MeetsIt = { λ program y event. look_of y ≡ look.Asks event };

    ghost event_in = { event_in };

    ghost joins = { is_join };

    ghost is_local = { λ program y. is_local y };

    ghost Fits = { λ program work s. Unit {0} };

    ghost awaits = { awaits };

    ghost over = { λ x. code.has_ended (code_of x) };

    ghost left_of = { λ program left. left_of left };

    ghost left_by = { λ y. left_by y };

    fn look(&self, alloc: Global, program: &(), work: &mut Work) -> Result<Look, NoMemory> {
        next_look(alloc, work, &self.held)
    }

    fn rests() -> Look {
        Look::Stuck
    }

    fn event(look: &Look) -> Option<&Ask> {
        match look {
            Look::Goes => None,
            Look::Asks(ask) => Some(ask),
            Look::Stuck => None,
        }
    }

    fn into_event(look: Look) -> Option<Ask> {
        match look {
            Look::Goes => None,
            Look::Asks(ask) => Some(ask),
            Look::Stuck => None,
        }
    }

    fn waiting(event: Ask) -> Look {
        Look::Asks(event)
    }

    fn is_join(event: &Ask) -> bool {
        is_join(event)
    }

    fn can_go(&self, look: &Look) -> bool {
        match look {
            Look::Goes => is_running(&self.held),
            Look::Asks(_) => false,
            Look::Stuck => false,
        }
    }

    #[inline(always)]
    fn is_served(&self, channels: &Channels, work: &Work, event: &Ask) -> Option<bool> {
        served(&self.held, channels, event)
    }

    fn channel<'a>(&'a self, look: &'a Look) -> Option<&'a ChanName> {
        waited_channel(&self.held, look)
    }

    #[inline(always)]
    fn advance(
        &mut self,
        alloc: Global,
        program: &(),
        channels: &mut Channels,
        work: &mut Work,
        slice: u32,
        spare: bool,
    ) -> Result<Advanced<Ask, Look>, NoMemory> {
        let Made { steps, cost, next } = advance(alloc, work, &mut self.held, slice)?;
        let stop = stop_of(next, is_used_up(steps, slice, spare));
        Ok(Advanced { stop, steps, cost })
    }

    #[inline(always)]
    fn perform(
        &mut self,
        alloc: Global,
        program: &(),
        path: &Path,
        channels: &mut Channels,
        work: &mut Work,
        event: Ask,
    ) -> Result<Done<CodeProcess>, NoMemory> {
        let StepEnd { children, cost } = perform(
            alloc,
            work,
            path,
            &mut self.held,
            channels,
            event,
        )?;
        let born = kept(alloc, children)?;
        Ok(Done {
            children: born,
            cost,
        })
    }

    fn has_ended(&self) -> bool {
        has_ended(&self.held)
    }

    fn kid_count(&self) -> usize {
        kid_count(&self.held)
    }

    fn next_block(&self) -> u32 {
        let process: &Process = &self.held;
        process.next_block
    }

    fn release(&mut self, alloc: Global) -> Left {
        release(alloc, &mut self.held)
    }

    ghost ends = { λ program x. refl };

    ghost awaits_still = { λ program y. refl };
}

impl JoiningProc for CodeProcess {
    fn join(
        alloc: Global,
        program: &(),
        entries: &mut Entries,
        channels: &mut Channels,
        work: &mut Work,
        actor: &Actor,
        event: Ask,
    ) -> Result<u64, NoMemory> {
        match joined_next(&event) {
            Some(next) => join_block(alloc, entries, actor, channels, next),
            None => unreachable!(),
        }
    }
}
