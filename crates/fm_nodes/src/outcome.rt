//! What a program on hosts shows when it has ended.

ghost use Rattle.std.specs.Prelude.{◌≡◌, ◌++◌, is_some, option_map, IfOk, OnOk};
ghost use Rattle.std.specs.Option.{option_copied};
ghost use Rattle.std.specs.List.{flat_map};
ghost use Rattle.std.specs.FinMap.{entries, from_entries, get};
ghost use Rattle.fm_finmap.specs.Map.{map_of};
ghost use Rattle.fm_rules.specs.declared.program.Program as declared;
ghost use Rattle.fm_mean.specs.Actions.{action_of};
ghost use Rattle.fm_mean.specs.Holders.{holders_of, holdings};
ghost use Rattle.fm_mean.specs.Outcome.{awaited, ended_at, fault_at, lines_at, need_of, outcome_of, wait_at, waits_by};
ghost use Rattle.fm_mean.specs.Outports.{outport_cmp};
ghost use Rattle.fm_link_law.specs.Hosts.{state_of};
ghost use Rattle.fm_plain.specs.Events.{IsEvent};
ghost use Rattle.fm_plain_frame.specs.Frames.{phase_of, proc_of};
ghost use Rattle.fm_nodes_procs.specs.Processes.{procs_of};
ghost use Rattle.fm_nodes_hosts.specs.States.{hosts_in};

use fm_base::{NoMemory, Path, Seq};
use fm_finmap::Map;
use fm_mean::{At, Holder, Outcome, Outport, Wait};
use fm_net::child_path;
use fm_nodes_hosts::NodeState;
use fm_nodes_procs::Processes;
use fm_plain::{Event, Next, next_of};
use fm_plain_frame::PlainProc;
use fm_plain_net::{line_at, push_fault, put_process, shown_all};
use fm_rules::Program;
use fm_run::{Gathered, holders_in_order, join_of, push_lines};
use std::alloc::Global;

// The number of the process at a path, if one is there that has ended.
fn ended_number(processes: &Processes<PlainProc>, path: &Path, likely: usize) -> Option<usize>
    ensures { (p : declared.Program) → is_some result ≡ ended_at (get (procs_of (proc_of p) processes.now) path.now) }
{
    match processes.number(path, likely) {
        Some(number) => {
            if processes.get(number).has_ended() {
                Some(number)
            } else {
                None
            }
        }
        None => None,
    }
}

// The first of so many children of a block that hasn't ended.
fn awaited(
    alloc: Global,
    processes: &Processes<PlainProc>,
    path: &Path,
    block: u32,
    count: usize,
) -> Result<Option<Path>, NoMemory>
    ensures { IfOk result
        (λ o. (p : declared.Program) → o ≡ awaited (procs_of (proc_of p) processes.now) path.now block 1 count) }
{
    let mut likely = 0;
    'children: for place in 0..count {
        let child = child_path(alloc, path, block, place)?;
        match ended_number(processes, &child, likely) {
            Some(number) => likely = number.saturating_add(1),
            None => return Ok(Some(child)),
        }
    }
    Ok(None)
}

// What a process waits for that stands at an event, where it waits.
fn waits_at(
    alloc: Global,
    program: &Program,
    processes: &Processes<PlainProc>,
    path: &Path,
    process: &PlainProc,
    event: &Event,
) -> Result<Option<At>, NoMemory>
    requires { IsEvent (phase_of process.now.phase) (action_of program.now (proc_of program.now process.now))
        event.now }
    ensures { IfOk result (λ o. o
        ≡ waits_by (procs_of (proc_of program.now) processes.now) path.now
        (need_of program.now (proc_of program.now process.now))) }
{
    let _process = process;
    match event {
        Event::Receive { channel, .. } => {
            let name = channel.copy(alloc)?;
            Ok(Some(At::Receive(name)))
        }
        Event::Join { block, count, .. } => {
            let child = awaited(alloc, processes, path, *block, *count)?;
            Ok(join_of(child))
        }
        Event::Fail(_, _) => Ok(None),
        Event::Make { .. } => Ok(None),
        Event::Send { .. } => Ok(None),
        Event::Probe { .. } => Ok(None),
        Event::Begin => Ok(None),
        Event::End => Ok(None),
    }
}

// What a process waits for, where it waits.
fn waits(
    alloc: Global,
    program: &Program,
    processes: &Processes<PlainProc>,
    path: &Path,
    process: &PlainProc,
) -> Result<Option<At>, NoMemory>
    ensures { IfOk result (λ o. o
        ≡ waits_by (procs_of (proc_of program.now) processes.now) path.now
        (need_of program.now (proc_of program.now process.now))) }
{
    match next_of(alloc, program, process)? {
        Next::Meets(event) => waits_at(alloc, program, processes, path, process, &event),
        Next::Steps => Ok(None),
        Next::Rests => Ok(None),
    }
}

fn push_wait(
    alloc: Global,
    program: &Program,
    processes: &Processes<PlainProc>,
    all: &mut Vec<Wait>,
    path: &Path,
    process: &PlainProc,
) -> Result<(), NoMemory>
    ensures { OnOk result (all.new.items
        ≡ all.old.items
        ++ wait_at program.now (procs_of (proc_of program.now) processes.now)
        (path.now, proc_of program.now process.now)) }
{
    match waits(alloc, program, processes, path, process)? {
        Some(at) => {
            let path = path.copy(alloc)?;
            let line = line_at(program, process);
            all.push(Wait { path, line, at })?;
            Ok(())
        }
        None => Ok(()),
    }
}

// Adds what the process at this path shows.
fn add_process(
    alloc: Global,
    program: &Program,
    all: &mut Gathered,
    processes: &Processes<PlainProc>,
    path: &Path,
    process: &PlainProc,
) -> Result<(), NoMemory>
    ensures lines { OnOk result
        (all.new.lines.items ≡ all.old.lines.items ++ lines_at (path.now, proc_of program.now process.now)) }
    ensures faults { OnOk result
        (all.new.faults.items ≡ all.old.faults.items ++ fault_at (path.now, proc_of program.now process.now)) }
    ensures waits { OnOk result (all.new.waits.items
        ≡ all.old.waits.items
        ++ wait_at program.now (procs_of (proc_of program.now) processes.now)
        (path.now, proc_of program.now process.now)) }
{
    push_lines(alloc, &mut all.lines, path, process.lines())?;
    push_fault(alloc, &mut all.faults, path, process)?;
    push_wait(alloc, program, processes, &mut all.waits, path, process)
}

fn gathered(
    alloc: Global,
    program: &Program,
    processes: &Processes<PlainProc>,
) -> Result<Gathered, NoMemory>
    ensures lines { IfOk result
        (λ all. all.lines.items ≡ flat_map lines_at (entries (procs_of (proc_of program.now) processes.now))) }
    ensures faults { IfOk result
        (λ all. all.faults.items ≡ flat_map fault_at (entries (procs_of (proc_of program.now) processes.now))) }
    ensures waits { IfOk result (λ all. all.waits.items
        ≡ flat_map (wait_at program.now (procs_of (proc_of program.now) processes.now))
        (entries (procs_of (proc_of program.now) processes.now))) }
{
    let mut all = Gathered::new(alloc);
    let rows = processes.in_path_order(alloc)?;
    'processes: for row in &rows {
        add_process(alloc, program, &mut all, processes, row.0, row.1)?;
    }
    Ok(all)
}

// The paths of holders, by the outports.
fn owners(
    alloc: Global,
    program: &Program,
    processes: &Processes<PlainProc>,
) -> Result<Map<Outport, Path>, NoMemory>
    ensures { IfOk result
        (λ m. map_of outport_cmp m ≡ from_entries (holdings (procs_of (proc_of program.now) processes.now))) }
{
    let mut all = Map::new(alloc);
    let rows = processes.in_path_order(alloc)?;
    'processes: for row in &rows {
        put_process(alloc, program, &mut all, row.0, row.1)?;
    }
    Ok(all)
}

// Who holds the open writers, in the order of these.
fn holders(
    alloc: Global,
    program: &Program,
    state: &NodeState<PlainProc>,
) -> Result<Vec<Holder>, NoMemory>
    ensures { IfOk result
        (λ v. v.items ≡ holders_of (state_of (hosts_in (proc_of program.now) state.now.processes state.now.network))) }
{
    let owners = owners(alloc, program, &state.processes)?;
    holders_in_order(alloc, owners)
}

// The process at a path.
fn process_at<'a>(processes: &'a Processes<PlainProc>, path: &Path) -> Option<&'a PlainProc>
    ensures { (p : declared.Program)
        → option_map (proc_of p) (option_copied result) ≡ get (procs_of (proc_of p) processes.now) path.now }
{
    match processes.number(path, 0) {
        Some(number) => Some(processes.get(number)),
        None => None,
    }
}

/// What the hosts show that have ended at this cost in turns: output, faults and waits in path order, the variables of
/// main, and who holds the open writers.
pub(crate) fn outcome(
    alloc: Global,
    program: &Program,
    state: &NodeState<PlainProc>,
) -> Result<Outcome, NoMemory>
    ensures { IfOk result (λ o. o
        ≡ outcome_of program.now state.now.used
        (state_of (hosts_in (proc_of program.now) state.now.processes state.now.network))) }
{
    let Gathered {
        lines,
        faults,
        waits,
    } = gathered(alloc, program, &state.processes)?;
    let main = Path::main(alloc);
    let variables = shown_all(alloc, program, process_at(&state.processes, &main))?;
    let holders = holders(alloc, program, state)?;
    Ok(Outcome {
        lines: Seq::from_vec(lines),
        variables: Seq::from_vec(variables),
        faults: Seq::from_vec(faults),
        waits: Seq::from_vec(waits),
        holders: Seq::from_vec(holders),
        main_ended: ended_number(&state.processes, &main, 0).is_some(),
        used: state.used,
    })
}
