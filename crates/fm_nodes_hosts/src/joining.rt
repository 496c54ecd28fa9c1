//! Children that are joined.

ghost use Rattle.std.specs.Prelude.{◌≡◌, ◌≤◌, Some, slice_get};
ghost use Rattle.fm_net.specs.Machine.{Children};
ghost use Rattle.fm_net.specs.Owned.{main_alone};
ghost use Rattle.fm_nodes_procs.specs.Processes.{order_of};
ghost use Rattle.fm_nodes_hosts.specs.Played.{IsSound};
ghost use Rattle.fm_nodes_hosts.specs.Runs.{IsTried, AsksFor, Starting};
ghost use Rattle.fm_nodes_hosts.specs.States.{run_of};

use crate::finishing::{finish, prepare};
use crate::state::NodeState;
use fm_base::{NoMemory, Path};
use fm_nodes_procs::{Runner, ended_children, join, lefts};
use std::alloc::Global;

/// The process of a number joins so many children of a block, if all of them have ended.
pub(crate) fn join_children<R: Runner>(
    alloc: Global,
    runner: &R,
    state: &mut NodeState<R::Process>,
    number: usize,
    path: &Path,
    block: u32,
    starts: usize,
    of: u32,
    count: usize,
) -> Result<bool, NoMemory>
    requires who { slice_get (order_of state.old.processes) number ≡ Some path.now }
    requires sound { IsSound (R.language runner.now) (main_alone (R.main runner.now))
        (run_of (R.seen runner.now) state.old) }
    requires used { state.old.used ≤ 1000000000 }
    requires asks { AsksFor (R.language runner.now) path.now (run_of (R.seen runner.now) state.old)
        (Some (Children of count)) }
    requires starts { Starting (R.language runner.now) path.now (run_of (R.seen runner.now) state.old) block starts }
    ensures { IsTried (R.language runner.now) path.now (run_of (R.seen runner.now) state.old)
        (run_of (R.seen runner.now) state.new) result }
{
    match ended_children(alloc, runner, &state.processes, path, of, count)? {
        Some(children) => {
            let left = lefts(
                alloc,
                runner,
                &state.processes,
                path,
                of,
                children.as_slice(),
            )?;
            let paths = prepare(alloc, runner, state, path, block, starts)?;
            let gone = join(alloc, runner, &mut state.processes, number, path, left)?;
            finish(
                alloc, runner, state, number, path, block, gone, paths, children,
            );
            Ok(true)
        }
        None => Ok(false),
    }
}
