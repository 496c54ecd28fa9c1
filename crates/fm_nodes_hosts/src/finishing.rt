//! How a step is carried out, once all room is there.

ghost use Rattle.std.specs.Prelude.{◌≡◌, ◌<◌, ◌^◌, ℕ, map, IfOk, OnOk, length, vec_len, vec_capacity};
ghost use Rattle.fm_finmap.specs.Rows.{places_in};
ghost use Rattle.fm_net.specs.Machine.{child_changes};
ghost use Rattle.fm_net.specs.Starts.{child_places};
ghost use Rattle.fm_nodes_procs.specs.Children.{AreNumbered};
ghost use Rattle.fm_nodes_procs.specs.Processes.{HasRoom, order_of};
ghost use Rattle.fm_nodes_hosts.specs.Ready.{IsReady};
ghost use Rattle.fm_nodes_hosts.specs.Runs.{IsFinished, one_step_of};
ghost use Rattle.fm_nodes_hosts.specs.States.{run_of};

use crate::dropping::let_go;
use crate::state::NodeState;
use fm_base::{NoMemory, Path, Turn};
use fm_nodes_procs::{Gone, Runner, child_paths, start_all};
use std::alloc::Global;
use std::sync::Arc;

/// An entry of one step of the process of a number.
pub(crate) fn one_step(number: usize) -> Turn
    requires { number < 2 ^ 32 }
    ensures { result ≡ one_step_of number }
{
    Turn {
        number: number as u32,
        steps: 1,
    }
}

/// Makes room for a step of a process: for its entry, and for so many children that start in a block, whose paths are
/// answered. Nothing changes.
pub(crate) fn prepare<R: Runner>(
    alloc: Global,
    runner: &R,
    state: &mut NodeState<R::Process>,
    path: &Path,
    block: u32,
    count: usize,
) -> Result<Vec<Arc<Path>>, NoMemory>
    ensures same { run_of (R.seen runner.now) state.new ≡ run_of (R.seen runner.now) state.old }
    ensures paths { IfOk result (λ v. places_in v.items ≡ child_places path.now block 1 count) }
    ensures room { OnOk result (HasRoom state.new.processes count) }
    ensures entry { OnOk result (vec_len state.new.history < vec_capacity state.new.history) }
{
    let _runner = runner;
    let paths = child_paths(alloc, path, block, count)?;
    state.processes.reserve(count)?;
    state.history.reserve(1)?;
    Ok(paths)
}

/// What is left of a step, for which there is room: the ports of a process that went on are let go, the children of
/// these numbers were joined, its children start in a block, and the history has an entry more. Takes no memory.
pub(crate) fn finish<R: Runner>(
    alloc: Global,
    runner: &R,
    state: &mut NodeState<R::Process>,
    number: usize,
    path: &Path,
    block: u32,
    gone: Gone<R::Process, R::Drops>,
    paths: Vec<Arc<Path>>,
    joined: Vec<usize>,
)
    requires { IsReady (R.seen runner.now) state.old path.now number block paths.items gone.starts.items
        (R.let_go runner.now gone.drops) gone.cost }
    ensures { (b : ℕ) → AreNumbered (order_of state.old.processes) path.now b 1 joined.items
        → IsFinished path.now number block (map (R.seen runner.now) gone.starts.items) (R.let_go runner.now gone.drops)
        gone.cost (child_changes (R.language runner.now).emptied path.now b 1 (length joined.items))
        (run_of (R.seen runner.now) state.old) (run_of (R.seen runner.now) state.new) }
{
    let Gone {
        starts,
        drops,
        cost,
    } = gone;
    let_go(runner, &mut state.network.channels, drops);
    start_all(
        alloc,
        runner,
        &mut state.processes,
        path,
        block,
        starts,
        paths,
        joined,
    );
    state.history.push_reserved(one_step(number));
    state.used += cost;
}
