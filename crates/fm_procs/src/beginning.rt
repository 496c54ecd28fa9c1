//! The start of a block: its children, each with slots of its own.

ghost use Rattle.std.specs.Prelude.{◌≡◌, ◌≤◌, ◌+◌, [], true, length, map, replicate, slice_get, vec_capacity, None, IfOk, OnErr, OnOk};
ghost use Rattle.std.specs.List.{AllByRecursion};
ghost use Rattle.fm_base.specs.Channels.{Chans};
ghost use Rattle.fm_code.specs.declared.ask.Ask.TheVariants as ask;
ghost use Rattle.fm_machine_calls.specs.declared.looking.Look.TheVariants.{Asks};
ghost use Rattle.fm_proc_language.specs.Processes as code;
ghost use Rattle.fm_proc_language.specs.Processes.{children_of, loops_in};
ghost use Rattle.fm_proc_language.specs.Slots.{no_slots};
ghost use Rattle.fm_proc_slots.specs.Rooms.{HasRoom, LeavesRoom, slots_in};
ghost use Rattle.fm_procs.specs.Drafts.{IsReady, all_begun, begun, blank, blank_body, child_in, filled, ports_room, room_of, rooms};
ghost use Rattle.fm_proc_events.specs.Phases.{boxed_of, kid_of, proc_of};
ghost use Rattle.fm_proc_events.specs.Told.{is_running, look_of};
ghost use Rattle.fm_proc_events.specs.Performs.{Performs};

use crate::performing::StepEnd;
use fm_base::{NoMemory, Path, Seq};
use fm_code::{Body, Frame, Pile, Rare, SharedCode, Start, Trips};
use fm_proc_events::{Kid, Phase, Process, loops_at, ports_at};
use fm_proc_slots::{OpenSlots, Slots, move_over, span_words};
use std::alloc::Global;
use std::collections::VecDeque;

/// The loops of a unit, none of them begun.
pub fn no_loops(alloc: Global, count: u32) -> Result<Seq<Option<Trips>>, NoMemory>
    ensures { IfOk result (λ l. l ≡ replicate count None) }
{
    let none: Option<Trips> = None;
    let loops = vec![in alloc; none; count as usize]?;
    Ok(Seq::from_vec(loops))
}

/// The frame with which a child begins, before its words come and what it gives back.
fn blank_frame(alloc: Global, code: &SharedCode, unit: u32) -> Result<Frame, NoMemory>
    ensures { IfOk result (λ f. f
        ≡ record {
          unit = unit;
          address = 0;
          words = [];
          loops = replicate (loops_in (slice_get code.now.units unit)) None;
          results = [];
          starts = [];
          backs = [];
        }) }
{
    Ok(Frame {
        unit,
        address: 0,
        words: Seq::new(alloc),
        loops: no_loops(alloc, loops_at(code, unit))?,
        results: Seq::new(alloc),
        starts: Rare::new(alloc),
        backs: Seq::new(alloc),
    })
}

fn blank_body(alloc: Global, body: &Body, start: &Start) -> Result<Body, NoMemory>
    ensures { IfOk result (λ c. c ≡ blank_body body.now start.now) }
{
    Ok(Body {
        code: body.code.share()?,
        machine: start.machine,
        node: start.node,
        frame: blank_frame(alloc, &body.code, start.unit)?,
        below: Pile::new(alloc),
    })
}

/// A child before the words of its start come, what it gives back, and its ports.
fn blank(alloc: Global, body: &Body, start: &Start) -> Result<Process, NoMemory>
    ensures { IfOk result (λ y. proc_of y ≡ blank body.now start.now) }
{
    Ok(Process {
        phase: Phase::Running,
        body: Some(blank_body(alloc, body, start)?),
        slots: Slots::new(alloc),
        lines: Rare::new(alloc),
        next_block: 1,
        next_channel: 1,
    })
}

/// How many ports the frame of a process has at most.
fn room_of(process: &Process) -> Result<usize, NoMemory>
    ensures { IfOk result (λ n. n ≡ room_of (proc_of process.now)) }
{
    match &process.body {
        Some(body) => span_words(ports_at(&body.code, body.frame.unit)),
        None => Ok(0),
    }
}

/// A child that is still blank, and its own slots with room for its ports.
#[derive(Drop)]
struct Draft {
    process: Box<Process>,
    slots: OpenSlots,
}

fn draft_of(alloc: Global, body: &Body, start: &Start) -> Result<Draft, NoMemory>
    ensures child { IfOk result (λ d. child_in d ≡ blank body.now start.now) }
    ensures ready { IfOk result (λ d. IsReady d) }
{
    let process = blank(alloc, body, start)?;
    let slots = OpenSlots::with_room(alloc, room_of(&process)?)?;
    let process = Box::new(alloc, process)?;
    Ok(Draft { process, slots })
}

/// The children of a block before their starts come to them.
fn drafts(alloc: Global, body: &Body) -> Result<Vec<Draft>, NoMemory>
    ensures children { IfOk result (λ v. map child_in v.items ≡ map (blank body.now) body.now.frame.starts) }
    ensures ready { IfOk result (λ v. AllByRecursion IsReady v.items) }
{
    let starts = body.frame.starts.as_slice();
    let mut drafts = Vec::with_capacity(alloc, starts.len())?;
    'starts: for start in starts {
        drafts.push(draft_of(alloc, body, start)?)?;
    }
    Ok(drafts)
}

/// How many ports they have at most.
fn rooms(drafts: &[Draft]) -> Result<usize, NoMemory>
    ensures { IfOk result (λ n. n ≡ rooms (map child_in drafts.now)) }
{
    let mut room: usize = 0;
    'drafts: for draft in drafts {
        room = room.checked_add(room_of(&draft.process)?).ok_or(NoMemory)?;
    }
    Ok(room)
}

/// The words of a start come to a body and what it gives back, and their ports go over to other slots. Takes no memory.
fn fill(body: &mut Body, start: Start, from: &mut OpenSlots, to: &mut OpenSlots)
    requires from { HasRoom from.old (ports_room body.old) }
    requires to { HasRoom to.old (ports_room body.old) }
    ensures filled { (body.new, (slots_in from.new, slots_in to.new))
        ≡ filled body.old start (slots_in from.old) (slots_in to.old) }
    ensures left { LeavesRoom (ports_room body.old) from.old from.new }
{
    body.frame.words = start.words;
    body.frame.backs = start.backs;
    move_over(
        ports_at(&body.code, body.frame.unit),
        &mut body.frame.words,
        from,
        to,
    );
}

/// A blank child begins with its start, and the ports of its words come to these slots of its own. Takes no memory.
fn begin_child(process: &mut Process, own: OpenSlots, start: Start, slots: &mut OpenSlots)
    requires empty { slots_in own ≡ no_slots }
    requires own { HasRoom own (room_of (proc_of process.old)) }
    requires room { HasRoom slots.old (room_of (proc_of process.old)) }
    ensures begun { (proc_of process.new, slots_in slots.new) ≡ begun (slots_in slots.old) (proc_of process.old) start }
    ensures left { LeavesRoom (room_of (proc_of process.old)) slots.old slots.new }
{
    let Some(body) = &mut process.body else {
        return;
    };
    let mut own = own;
    fill(body, start, slots, &mut own);
    process.slots = Slots::from_open(own);
}

fn child(draft: Draft, start: Start, slots: &mut OpenSlots) -> Box<Process>
    requires ready { IsReady draft }
    requires room { HasRoom slots.old (room_of (child_in draft)) }
    ensures begun { (boxed_of result, slots_in slots.new) ≡ begun (slots_in slots.old) (child_in draft) start }
    ensures left { LeavesRoom (room_of (child_in draft)) slots.old slots.new }
{
    let Draft {
        process,
        slots: own,
    } = draft;
    let mut process = process;
    begin_child(&mut process, own, start, slots);
    process
}

/// The children begin, one after the other, each with its start. Takes no memory.
fn put_children(
    drafts: Vec<Draft>,
    starts: Vec<Start>,
    slots: &mut OpenSlots,
    children: &mut Vec<Box<Process>>,
)
    requires ready { AllByRecursion IsReady drafts.items }
    requires paired { length drafts.items ≡ length starts.items }
    requires room { HasRoom slots.old (rooms (map child_in drafts.items)) }
    requires empty { children.old.items ≡ [] }
    requires reserved { length drafts.items ≤ vec_capacity children.old }
    ensures { (map boxed_of children.new.items, slots_in slots.new)
        ≡ all_begun (slots_in slots.old) (map child_in drafts.items) starts.items }
{
    let mut drafts = VecDeque::from_vec(drafts);
    let mut starts = VecDeque::from_vec(starts);
    'drafts: while let Some(draft) = drafts.pop_front() {
        let Some(start) = starts.pop_front() else {
            unreachable!()
        };
        children.push_reserved(child(draft, start, slots));
    }
}

/// The children of these drafts, to which their starts come. After want of memory the starts and the slots are as they
/// were.
fn children(
    alloc: Global,
    drafts: Vec<Draft>,
    starts: &mut Rare<Start>,
    slots: &mut Slots,
) -> Result<Vec<Box<Process>>, NoMemory>
    requires ready { AllByRecursion IsReady drafts.items }
    requires paired { length drafts.items ≡ length starts.old }
    ensures children { IfOk result
        (λ v. (map boxed_of v.items, slots.new) ≡ all_begun slots.old (map child_in drafts.items) starts.old) }
    ensures taken { OnOk result (starts.new ≡ []) }
    ensures stays { OnErr result ((starts.new ≡ starts.old) × (slots.new ≡ slots.old)) }
{
    let room = rooms(drafts.as_slice())?;
    let mut children = Vec::with_capacity(alloc, drafts.len())?;
    let mut open = slots.open(alloc, room)?;
    let starts = starts.take(alloc).into_vec();
    put_children(drafts, starts, &mut open, &mut children);
    *slots = Slots::from_open(open);
    Ok(children)
}

fn kid(alloc: Global, start: &Start) -> Result<Kid, NoMemory>
    ensures { IfOk result (λ k. kid_of k ≡ code.kid_of start.now) }
{
    Ok(Kid {
        unit: start.unit,
        backs: Rare::from_slice(alloc, start.backs.as_slice())?,
    })
}

/// What is to be joined of these starts.
fn kids(alloc: Global, starts: &[Start]) -> Result<Seq<Kid>, NoMemory>
    ensures { IfOk result (λ ks. map kid_of ks ≡ map code.kid_of starts.now) }
{
    let mut kids = Seq::from_vec(Vec::with_capacity(alloc, starts.len())?);
    'starts: for start in starts {
        kids.push(kid(alloc, start)?)?;
    }
    Ok(kids)
}

/// The cost of a block of so many children.
fn cost_of(starts: usize) -> Result<u64, NoMemory>
    ensures { IfOk result (λ cost. cost ≡ 1 + starts) }
{
    let starts = u64::try_from(starts).map_err(|_| NoMemory)?;
    starts.checked_add(1).ok_or(NoMemory)
}

/// A block that begins.
#[derive(Drop)]
struct Block {
    kids: Seq<Kid>,
    done: StepEnd,
}

/// All starts of the innermost frame begin. After want of memory nothing is changed.
fn begin_block(
    alloc: Global,
    body: &mut Body,
    slots: &mut Slots,
    next: u32,
) -> Result<Block, NoMemory>
    ensures kids { IfOk result (λ g. map kid_of g.kids ≡ map code.kid_of body.old.frame.starts) }
    ensures children { IfOk result
        (λ g. (map boxed_of g.done.children.items, slots.new) ≡ children_of body.old slots.old body.old.frame.starts) }
    ensures cost { IfOk result (λ g. g.done.cost ≡ 1 + length body.old.frame.starts) }
    ensures body { IfOk result
        (λ g. body.new ≡ record body.old { frame = record body.old.frame { starts = []; address = next } }) }
    ensures stays { OnErr result ((body.new ≡ body.old) × (slots.new ≡ slots.old)) }
{
    let kids = kids(alloc, body.frame.starts.as_slice())?;
    let cost = cost_of(body.frame.starts.len())?;
    let drafts = drafts(alloc, body)?;
    let children = children(alloc, drafts, &mut body.frame.starts, slots)?;
    body.frame.address = next;
    Ok(Block {
        kids,
        done: StepEnd { children, cost },
    })
}

/// All starts of the innermost frame begin as the next block, and the process joins. After want of memory it is as it
/// was.
pub(crate) fn begin(
    alloc: Global,
    path: &Path,
    process: &mut Process,
    next: u32,
) -> Result<StepEnd, NoMemory>
    requires look { look_of (proc_of process.old) ≡ Asks (ask.Begin next) }
    requires running { is_running (proc_of process.old) ≡ true }
    ensures performs { IfOk result (λ d. (cs : Chans)
        → Performs path.now (proc_of process.old) cs (proc_of process.new) (map boxed_of d.children.items) cs d.cost) }
    ensures stays { OnErr result (proc_of process.new ≡ proc_of process.old) }
{
    let block = process.next_block;
    let after = block.checked_add(1).ok_or(NoMemory)?;
    let Some(body) = &mut process.body else {
        unreachable!()
    };
    let Block { kids, done } = begin_block(alloc, body, &mut process.slots, next)?;
    process.phase = Phase::Joining { block, kids };
    process.next_block = after;
    Ok(done)
}
