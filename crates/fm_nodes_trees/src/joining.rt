//! The join of a block.

ghost use Rattle.std.specs.Prelude.{◌≡◌, ◌+◌, ◌^◌, ◌<◌, ℕ, List, map, IfOk, OnOk, OnErr};
ghost use Rattle.fm_base.specs.declared.path.ChanName as declared_name;
ghost use Rattle.fm_net.specs.Machine.{Children, Go, Onward, Reply, reply_with};
ghost use Rattle.fm_mean.specs.Actions as action;
ghost use Rattle.fm_mean.specs.Actions.{action_of};
ghost use Rattle.fm_mean.specs.Process.{Proc};
ghost use Rattle.fm_mean.specs.Steps.{ask, joining_words};
ghost use Rattle.fm_plain_frame.specs.Frames.{kid_of, phase_of, proc_of};
ghost use Rattle.fm_plain_replies.specs.Joins.{frames_in, kids_in, left_frames};
ghost use Rattle.fm_nodes_procs.specs.Asks.{AllLeft, GoesSo};
ghost use Rattle.fm_nodes_trees.specs.Drops.{drops_in};
ghost use Rattle.fm_nodes_trees.specs.Goes.{next_behind};

use crate::drops::Drops;
use fm_base::NoMemory;
use fm_nodes_procs::Gone;
use fm_plain::{Event, Next, next_of};
use fm_plain_frame::{Kid, LetGo, PlainProc};
use fm_plain_passing::back_words;
use fm_plain_replies::{Ended, join, kids_in};
use fm_rules::Program;
use std::alloc::Global;

// The entry behind a block that is joined by an event.
fn next_behind(event: &Event) -> u32
    ensures { result ≡ next_behind event.now }
{
    match event {
        Event::Fail(_, _) => 0,
        Event::Make { .. } => 0,
        Event::Send { .. } => 0,
        Event::Receive { .. } => 0,
        Event::Probe { .. } => 0,
        Event::Begin => 0,
        Event::Join { next, .. } => *next,
        Event::End => 0,
    }
}

// The entry behind the block at which a process joins, if it does.
fn entry_behind(alloc: Global, program: &Program, process: &PlainProc) -> Result<u32, NoMemory>
    ensures { IfOk result (λ next. (b n : ℕ) (f : declared_name.ChanName → Reply Proc → Onward Proc)
        → ask program.now (proc_of program.now process.now) ≡ Go (Children b n) f
        → (block : ℕ)
        × (action_of program.now (proc_of program.now process.now)
        ≡ action.Meets (action.Join block (kids_in (phase_of process.now.phase)) next))) }
{
    match next_of(alloc, program, process)? {
        Next::Steps => Ok(0),
        Next::Rests => Ok(0),
        Next::Meets(event) => Ok(next_behind(&event)),
    }
}

// Whether the words that children may copy back can be counted.
fn words_back(kids: &[Kid]) -> Result<u64, NoMemory>
    ensures { IfOk result (λ n. n ≡ joining_words (map kid_of kids.now)) }
{
    let mut words: u64 = 0;
    'kids: for kid in kids {
        let more = back_words(kid.backs.as_slice())?;
        words = words.checked_add(more).ok_or(NoMemory)?;
    }
    Ok(words)
}

// The cost of the join of a process is so much at most that sums of costs have it.
fn is_payable(process: &PlainProc) -> Result<(), NoMemory>
    ensures { OnOk result (1 + joining_words (kids_in (phase_of process.now.phase)) < 2 ^ 63) }
{
    let words = words_back(kids_in(&process.phase))?;
    if words < 9_223_372_036_854_775_807 {
        Ok(())
    } else {
        Err(NoMemory)
    }
}

/// A process goes on that joins children who left this. After want of memory it is as it was.
pub(crate) fn join_children(
    alloc: Global,
    program: &Program,
    process: &mut PlainProc,
    children: Vec<Ended>,
) -> Result<Gone<PlainProc, Drops>, NoMemory>
    ensures goes { IfOk result (λ g. (b n : ℕ) (f : declared_name.ChanName → Reply Proc → Onward Proc)
        (kids : List Proc) → ask program.now (proc_of program.now process.old) ≡ Go (Children b n) f
        → AllLeft (λ x left. left_frames program.now left ≡ frames_in x) kids children.items
        → (c : declared_name.ChanName)
        → GoesSo (proc_of program.now process.new) (map (proc_of program.now) g.starts.items)
        (drops_in program.now g.drops) g.cost (f c (reply_with kids))) }
    ensures few { IfOk result (λ g. g.cost < 2 ^ 63) }
    ensures err { OnErr result (proc_of program.now process.new ≡ proc_of program.now process.old) }
{
    let next = entry_behind(alloc, program, process)?;
    is_payable(process)?;
    let joined = join(alloc, program, process, children, next)?;
    let starts = Vec::new(alloc);
    let none = LetGo::new(alloc);
    let drops = Drops::new(alloc, none, joined.0);
    Ok(Gone {
        starts,
        drops,
        cost: joined.1,
    })
}
