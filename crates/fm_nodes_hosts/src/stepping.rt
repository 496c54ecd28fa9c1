//! Steps of processes on what has arrived.
//!
//! A step takes all room first: for the entry, the children and the message. The process itself goes on last of what
//! takes memory, and is as it was where that is wanting. What is done then takes none, so want of memory changes
//! nothing.

ghost use Rattle.std.specs.Prelude.{◌≡◌, ◌≤◌, Some, IfOk, cond, slice_get};
ghost use Rattle.fm_net.specs.Machine.{Nothing, New};
ghost use Rattle.fm_net.specs.Owned.{main_alone};
ghost use Rattle.fm_nodes_procs.specs.Asks.{need_told};
ghost use Rattle.fm_nodes_procs.specs.Processes.{order_of};
ghost use Rattle.fm_nodes_hosts.specs.Played.{IsSound};
ghost use Rattle.fm_nodes_hosts.specs.Runs.{IsTried, IsOwnTried, AsksFor, Starting};
ghost use Rattle.fm_nodes_hosts.specs.States.{run_of};

use crate::dropping::let_go;
use crate::finishing::{finish, one_step, prepare};
use crate::joining::join_children;
use crate::receiving::receive;
use crate::sending::send_words;
use crate::state::NodeState;
use fm_base::{ChanName, NoMemory, Path};
use fm_nodes_procs::{Asked, Request, Runner, go_on, step_alone};
use std::alloc::Global;

/// What the process of a number asks for.
pub(crate) fn asked_by<R: Runner>(
    alloc: Global,
    runner: &R,
    state: &NodeState<R::Process>,
    number: usize,
    path: &Path,
) -> Result<Request, NoMemory>
    requires who { slice_get (order_of state.now.processes) number ≡ Some path.now }
    requires sound { IsSound (R.language runner.now) (main_alone (R.main runner.now))
        (run_of (R.seen runner.now) state.now) }
    ensures need { IfOk result
        (λ q. AsksFor (R.language runner.now) path.now (run_of (R.seen runner.now) state.now) (need_told q.asked)) }
    ensures starts { IfOk result
        (λ q. Starting (R.language runner.now) path.now (run_of (R.seen runner.now) state.now) q.block q.starts) }
{
    let _path = path;
    runner.asked(alloc, state.processes.get(number))
}

// The process needs nothing, and goes on.
fn go<R: Runner>(
    alloc: Global,
    runner: &R,
    state: &mut NodeState<R::Process>,
    number: usize,
    path: &Path,
    block: u32,
    starts: usize,
) -> Result<bool, NoMemory>
    requires who { slice_get (order_of state.old.processes) number ≡ Some path.now }
    requires sound { IsSound (R.language runner.now) (main_alone (R.main runner.now))
        (run_of (R.seen runner.now) state.old) }
    requires used { state.old.used ≤ 1000000000 }
    requires asks { AsksFor (R.language runner.now) path.now (run_of (R.seen runner.now) state.old) (Some Nothing) }
    requires starts { Starting (R.language runner.now) path.now (run_of (R.seen runner.now) state.old) block starts }
    ensures { IsTried (R.language runner.now) path.now (run_of (R.seen runner.now) state.old)
        (run_of (R.seen runner.now) state.new) result }
{
    let paths = prepare(alloc, runner, state, path, block, starts)?;
    let gone = go_on(
        alloc,
        runner,
        &mut state.processes,
        number,
        path,
        None,
        false,
    )?;
    finish(
        alloc,
        runner,
        state,
        number,
        path,
        block,
        gone,
        paths,
        Vec::new(alloc),
    );
    Ok(true)
}

// The process makes a channel of this number, with one writer or none.
fn make<R: Runner>(
    alloc: Global,
    runner: &R,
    state: &mut NodeState<R::Process>,
    number: usize,
    path: &Path,
    block: u32,
    starts: usize,
    at: u32,
    has_writer: bool,
) -> Result<bool, NoMemory>
    requires who { slice_get (order_of state.old.processes) number ≡ Some path.now }
    requires sound { IsSound (R.language runner.now) (main_alone (R.main runner.now))
        (run_of (R.seen runner.now) state.old) }
    requires used { state.old.used ≤ 1000000000 }
    requires asks { AsksFor (R.language runner.now) path.now (run_of (R.seen runner.now) state.old)
        (Some (New at (cond has_writer 1 0))) }
    requires starts { Starting (R.language runner.now) path.now (run_of (R.seen runner.now) state.old) block starts }
    ensures { IsTried (R.language runner.now) path.now (run_of (R.seen runner.now) state.old)
        (run_of (R.seen runner.now) state.new) result }
{
    let paths = prepare(alloc, runner, state, path, block, starts)?;
    let name = ChanName {
        maker: path.copy(alloc)?,
        number: at,
    };
    let known = name.copy(alloc)?;
    state.network.channels.make(alloc, name, has_writer)?;
    match go_on(
        alloc,
        runner,
        &mut state.processes,
        number,
        path,
        None,
        false,
    ) {
        Ok(gone) => {
            finish(
                alloc,
                runner,
                state,
                number,
                path,
                block,
                gone,
                paths,
                Vec::new(alloc),
            );
            Ok(true)
        }
        Err(want) => {
            state.network.channels.unmake(&known);
            Err(want)
        }
    }
}

// Makes a step of the process of a number that needs nothing and starts nobody. Where its next step isn't such a one
// nothing has changed.
fn step_own<R: Runner>(
    alloc: Global,
    runner: &R,
    state: &mut NodeState<R::Process>,
    number: usize,
    path: &Path,
) -> Result<bool, NoMemory>
    requires who { slice_get (order_of state.old.processes) number ≡ Some path.now }
    requires sound { IsSound (R.language runner.now) (main_alone (R.main runner.now))
        (run_of (R.seen runner.now) state.old) }
    requires used { state.old.used ≤ 1000000000 }
    ensures { IsOwnTried (R.language runner.now) path.now (run_of (R.seen runner.now) state.old)
        (run_of (R.seen runner.now) state.new) result }
{
    state.history.reserve(1)?;
    match step_alone(alloc, runner, &mut state.processes, number)? {
        Some((drops, cost)) => {
            let_go(runner, &mut state.network.channels, drops);
            state.history.push_reserved(one_step(number));
            state.used += cost;
            Ok(true)
        }
        None => Ok(false),
    }
}

// Makes a step of the process of a number, if it has one, by what it asks for.
fn step_by<R: Runner>(
    alloc: Global,
    runner: &R,
    state: &mut NodeState<R::Process>,
    number: usize,
    path: &Path,
) -> Result<bool, NoMemory>
    requires who { slice_get (order_of state.old.processes) number ≡ Some path.now }
    requires sound { IsSound (R.language runner.now) (main_alone (R.main runner.now))
        (run_of (R.seen runner.now) state.old) }
    requires used { state.old.used ≤ 1000000000 }
    ensures { IsTried (R.language runner.now) path.now (run_of (R.seen runner.now) state.old)
        (run_of (R.seen runner.now) state.new) result }
{
    let request = asked_by(alloc, runner, state, number, path)?;
    let Request {
        asked,
        block,
        starts,
    } = request;
    match asked {
        Asked::Rests => Ok(false),
        Asked::Goes => go(alloc, runner, state, number, path, block, starts),
        Asked::Makes(at, has_writer) => make(
            alloc, runner, state, number, path, block, starts, at, has_writer,
        ),
        Asked::Sends(channel, writer, words) => send_words(
            alloc, runner, state, number, path, block, starts, &channel, writer, words,
        ),
        Asked::Receives(channel, limits) => receive(
            alloc, runner, state, number, path, block, starts, &channel, &limits,
        ),
        Asked::Joins(of, count) => join_children(
            alloc, runner, state, number, path, block, starts, of, count,
        ),
    }
}

/// Makes a step of the process at a path, if it has one on what has arrived. Where it has none, and after want of
/// memory, nothing has changed.
pub fn step<R: Runner>(
    alloc: Global,
    runner: &R,
    state: &mut NodeState<R::Process>,
    path: &Path,
) -> Result<bool, NoMemory>
    requires sound { IsSound (R.language runner.now) (main_alone (R.main runner.now))
        (run_of (R.seen runner.now) state.old) }
    requires used { state.old.used ≤ 1000000000 }
    ensures { IsTried (R.language runner.now) path.now (run_of (R.seen runner.now) state.old)
        (run_of (R.seen runner.now) state.new) result }
{
    match state.processes.number(path, 0) {
        Some(number) => {
            if step_own(alloc, runner, state, number, path)? {
                return Ok(true);
            }
            step_by(alloc, runner, state, number, path)
        }
        None => Ok(false),
    }
}
