//! A message that is sent.

ghost use Rattle.std.specs.Prelude.{◌≡◌, ◌≤◌, Some, true, is_some, map, slice_get};
ghost use Rattle.std.specs.FinMap.{get};
ghost use Rattle.fm_base.specs.Channels.{Push, Words};
ghost use Rattle.fm_net.specs.Machine.{Event};
ghost use Rattle.fm_net.specs.Owned.{main_alone};
ghost use Rattle.fm_nodes_network.specs.Channels.{linked_chans_of};
ghost use Rattle.fm_nodes_procs.specs.Processes.{order_of};
ghost use Rattle.fm_nodes_hosts.specs.Played.{IsSound};
ghost use Rattle.fm_nodes_hosts.specs.Runs.{IsTried, AsksFor, Starting};
ghost use Rattle.fm_nodes_hosts.specs.States.{run_of};

use crate::finishing::{finish, prepare};
use crate::state::NodeState;
use fm_base::{ChanName, NoMemory, Path, Seq};
use fm_nodes_procs::{Runner, go_on};
use std::alloc::Global;

// The process of a number sends a message of these words into a channel that is there.
fn send_there<R: Runner>(
    alloc: Global,
    runner: &R,
    state: &mut NodeState<R::Process>,
    number: usize,
    path: &Path,
    block: u32,
    starts: usize,
    channel: &ChanName,
    writer: u32,
    words: Seq<Seq<i64>>,
) -> Result<bool, NoMemory>
    requires who { slice_get (order_of state.old.processes) number ≡ Some path.now }
    requires sound { IsSound (R.language runner.now) (main_alone (R.main runner.now))
        (run_of (R.seen runner.now) state.old) }
    requires used { state.old.used ≤ 1000000000 }
    requires asks { AsksFor (R.language runner.now) path.now (run_of (R.seen runner.now) state.old)
        (Some (Event channel.now (Push writer (map Words words)))) }
    requires starts { Starting (R.language runner.now) path.now (run_of (R.seen runner.now) state.old) block starts }
    requires there { is_some (get (linked_chans_of state.old.network.channels) channel.now) ≡ true }
    ensures { IsTried (R.language runner.now) path.now (run_of (R.seen runner.now) state.old)
        (run_of (R.seen runner.now) state.new) result }
{
    let _writer = writer;
    let paths = prepare(alloc, runner, state, path, block, starts)?;
    state.network.channels.reserve(channel)?;
    let gone = go_on(
        alloc,
        runner,
        &mut state.processes,
        number,
        path,
        None,
        false,
    )?;
    state.network.channels.send(channel, words);
    finish(
        alloc,
        runner,
        state,
        number,
        path,
        block,
        gone,
        paths,
        Vec::new(alloc),
    );
    Ok(true)
}

/// The process of a number sends a message of these words.
pub(crate) fn send_words<R: Runner>(
    alloc: Global,
    runner: &R,
    state: &mut NodeState<R::Process>,
    number: usize,
    path: &Path,
    block: u32,
    starts: usize,
    channel: &ChanName,
    writer: u32,
    words: Seq<Seq<i64>>,
) -> Result<bool, NoMemory>
    requires who { slice_get (order_of state.old.processes) number ≡ Some path.now }
    requires sound { IsSound (R.language runner.now) (main_alone (R.main runner.now))
        (run_of (R.seen runner.now) state.old) }
    requires used { state.old.used ≤ 1000000000 }
    requires asks { AsksFor (R.language runner.now) path.now (run_of (R.seen runner.now) state.old)
        (Some (Event channel.now (Push writer (map Words words)))) }
    requires starts { Starting (R.language runner.now) path.now (run_of (R.seen runner.now) state.old) block starts }
    ensures { IsTried (R.language runner.now) path.now (run_of (R.seen runner.now) state.old)
        (run_of (R.seen runner.now) state.new) result }
{
    if state.network.channels.has(channel) {
        send_there(
            alloc, runner, state, number, path, block, starts, channel, writer, words,
        )
    } else {
        Ok(false)
    }
}
