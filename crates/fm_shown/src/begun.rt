//! Main alone, before its first step.

ghost use Rattle.std.specs.Prelude.{◌≡◌, ◌∷◌, [], slice_get, IfOk};
ghost use Rattle.fm_net.specs.Owned.{main_alone};
ghost use Rattle.fm_code.specs.Passing.{nulls};
ghost use Rattle.fm_code.specs.Statements.{new_frame};
ghost use Rattle.fm_proc_events.specs.Phases.{proc_of};
ghost use Rattle.fm_procs.specs.Kept.{AreKept, IsTold};
ghost use Rattle.fm_procs.specs.Readings.{order_of, proc_in, state_of};
ghost use Rattle.fm_shown.specs.First.{begun_in, first_process_of};

use fm_base::{Machine, NoMemory, Path, Seq};
use fm_code::{Body, Code, Frame, Pile, Rare, Unit};
use fm_machine_calls::unit_at;
use fm_machine_fused::share_code;
use fm_machine_instr::Work;
use fm_net_procs::Entry as TableEntry;
use fm_plain_frame::nodes_of;
use fm_proc_events::{Phase, Process};
use fm_proc_slots::Slots;
use fm_procs::{CodeProcess, CodeProcs, Entry, next_look, no_loops, no_procs};
use std::alloc::Global;
use std::sync::Arc;

fn no_words(alloc: Global, count: u32) -> Result<Seq<i64>, NoMemory>
    ensures { IfOk result (λ w. w ≡ nulls count) }
{
    let words = vec![in alloc; 0i64; count as usize]?;
    Ok(Seq::from_vec(words))
}

// A unit at its first statement, with nothing in its words.
fn first_frame(alloc: Global, number: u32, unit: &Unit) -> Result<Frame, NoMemory>
    ensures { IfOk result (λ f. f ≡ new_frame number unit.now (nulls unit.now.words) []) }
{
    Ok(Frame {
        unit: number,
        address: 0,
        words: no_words(alloc, unit.words)?,
        loops: no_loops(alloc, unit.loops)?,
        results: Seq::new(alloc),
        starts: Rare::new(alloc),
        backs: Seq::new(alloc),
    })
}

// The unit of this number as a body on its nodes, if there is one.
fn first_body(alloc: Global, code: Code, number: u32) -> Result<Option<Body>, NoMemory>
    ensures { IfOk result (λ b. b ≡ begun_in code number (slice_get code.units number)) }
{
    let code = share_code(alloc, Arc::new(alloc, code)?)?;
    let Some(unit) = unit_at(&code, number) else {
        return Ok(None);
    };
    let frame = first_frame(alloc, number, unit)?;
    let count = nodes_of(unit.extents.as_slice())?;
    Ok(Some(Body {
        code,
        machine: Machine { first: 0, count },
        node: 0,
        frame,
        below: Pile::new(alloc),
    }))
}

// The same as a process, with no ports and nothing put out.
fn first_process(alloc: Global, code: Code, number: u32) -> Result<Process, NoMemory>
    ensures { IfOk result (λ y. proc_of y ≡ first_process_of code number) }
{
    let body = first_body(alloc, code, number)?;
    Ok(Process {
        phase: Phase::Running,
        body,
        slots: Slots::new(alloc),
        lines: Rare::new(alloc),
        next_block: 1,
        next_channel: 1,
    })
}

// What it does next is looked at.
fn first_entry(alloc: Global, code: Code, number: u32) -> Result<Entry, NoMemory>
    ensures process { IfOk result (λ e. proc_in e ≡ first_process_of code number) }
    ensures told { IfOk result (λ e. IsTold e) }
{
    let process = first_process(alloc, code, number)?;
    let mut work = Work::new(alloc);
    let next = next_look(alloc, &mut work, &process)?;
    Ok(TableEntry {
        process: CodeProcess {
            held: Box::new(alloc, process)?,
        },
        next,
        first_child: 0,
    })
}

/// Main alone, with no channel: the unit of the code with this number at its first statement, with no body where there
/// is none.
pub fn first_stacks(alloc: Global, code: Code, number: u32) -> Result<CodeProcs, NoMemory>
    ensures state { IfOk result (λ s. state_of s ≡ main_alone (first_process_of code number)) }
    ensures order { IfOk result (λ s. order_of s.entries ≡ [] ∷ []) }
    ensures kept { IfOk result (λ s. AreKept s.entries) }
{
    let entry = first_entry(alloc, code, number)?;
    let path = Arc::new(alloc, Path::main(alloc))?;
    let mut stacks = no_procs(alloc);
    stacks.entries.push(path, entry)?;
    Ok(stacks)
}
