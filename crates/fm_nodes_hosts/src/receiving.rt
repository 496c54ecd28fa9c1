//! A message that is received.

ghost use Rattle.std.specs.Prelude.{◌≡◌, ◌<◌, ◌≤◌, ◌^◌, ℕ, Some, cond, map, IfOk, OnErr, option_and_then, option_copied, slice_get};
ghost use Rattle.std.specs.FinMap.{get};
ghost use Rattle.fm_base.specs.Channels.{Pop, Words, fits_limits, is_within};
ghost use Rattle.fm_base.specs.declared.path.ChanName as declared;
ghost use Rattle.fm_finmap.specs.Changes.{adjust};
ghost use Rattle.fm_link.specs.Ends.{first_of};
ghost use Rattle.fm_link_law.specs.Steps.{reply_to_receive};
ghost use Rattle.fm_net.specs.Machine.{Event, Go, Onward, Reply, made};
ghost use Rattle.fm_net.specs.Owned.{main_alone};
ghost use Rattle.fm_nodes_network.specs.Channel.{with_first_taken};
ghost use Rattle.fm_nodes_network.specs.Channels.{linked_chans_of};
ghost use Rattle.fm_nodes_procs.specs.Asks.{GoesAt};
ghost use Rattle.fm_nodes_procs.specs.Processes.{HasRoom, order_of, procs_of};
ghost use Rattle.fm_nodes_hosts.specs.Played.{IsSound};
ghost use Rattle.fm_nodes_hosts.specs.Receipts.{takes_of};
ghost use Rattle.fm_nodes_hosts.specs.Runs.{IsTried, AsksFor, Starting};
ghost use Rattle.fm_nodes_hosts.specs.States.{run_of};

use crate::finishing::{finish, prepare};
use crate::state::NodeState;
use fm_base::{ChanName, NoMemory, Path, Seq};
use fm_link::Load;
use fm_nodes_network::Channels;
use fm_nodes_procs::{Gone, Processes, Runner, go_on};
use std::alloc::Global;

// Whether the words of an item are within a limit.
fn is_within(limit: Option<u32>, words: &Seq<i64>) -> bool
    ensures { result ≡ is_within limit (Words words.now) }
{
    match limit {
        Some(limit) => words.len() <= limit as usize,
        None => true,
    }
}

// Whether the words of a message are within limits.
fn fits(limits: &[Option<u32>], items: &[Seq<i64>]) -> bool
    ensures { result ≡ fits_limits limits.now (map Words items.now) }
{
    let mut limits = limits;
    let mut items = items;
    'limits: loop {
        let (limit, later) = match limits.split_first() {
            Some(parts) => parts,
            None => return true,
        };
        let (item, behind) = match items.split_first() {
            Some(parts) => parts,
            None => return true,
        };
        if !is_within(*limit, item) {
            return false;
        }
        limits = later;
        items = behind;
    }
}

// What has arrived at a channel and wasn't taken, the oldest load of it.
fn arrived<'a>(channels: &'a Channels, name: &ChanName) -> Option<&'a Load>
    ensures { option_copied result
        ≡ option_and_then (λ l. first_of l.incoming) (get (linked_chans_of channels.now) name.now) }
{
    match channels.get(name) {
        Some(channel) => channel.first(),
        None => None,
    }
}

/// How a process went on that waited at a channel.
#[derive(Drop)]
struct Receipt<P, D> {
    /// What it left behind.
    gone: Gone<P, D>,
    /// Whether it takes what has arrived.
    takes: bool,
}

// The process of a number goes on with a load that has arrived. After want of memory nothing has changed.
fn go_with<R: Runner>(
    alloc: Global,
    runner: &R,
    processes: &mut Processes<R::Process>,
    number: usize,
    path: &Path,
    load: &Load,
    limits: &[Option<u32>],
) -> Result<Receipt<R::Process, R::Drops>, NoMemory>
    requires { slice_get (order_of processes.old) number ≡ Some path.now }
    ensures order { order_of processes.new ≡ order_of processes.old }
    ensures room { (count : ℕ) → HasRoom processes.old count → HasRoom processes.new count }
    ensures takes { IfOk result (λ t. t.takes ≡ takes_of limits.now load.now) }
    ensures goes { IfOk result (λ t. (x : R.Proc) (c : declared.ChanName)
        (f : declared.ChanName → Reply R.Proc → Onward R.Proc)
        → get (procs_of (R.seen runner.now) processes.old) path.now ≡ Some x
        → (R.language runner.now).ask x ≡ Go (Event c (Pop limits.now)) f
        → (r : Reply R.Proc) → reply_to_receive limits.now (Some load.now) ≡ Some r
        → GoesAt (procs_of (R.seen runner.now) processes.old) path.now (map (R.seen runner.now) t.gone.starts.items)
        (R.let_go runner.now t.gone.drops) t.gone.cost (procs_of (R.seen runner.now) processes.new)
        (f (made path.now (Event c (Pop limits.now))) r)) }
    ensures few { IfOk result (λ t. t.gone.cost < 2 ^ 63) }
    ensures err { OnErr result
        (procs_of (R.seen runner.now) processes.new ≡ procs_of (R.seen runner.now) processes.old) }
{
    match load {
        Load::Words(words) => {
            if fits(limits, words.as_slice()) {
                let gone = go_on(alloc, runner, processes, number, path, Some(words), false)?;
                Ok(Receipt { gone, takes: true })
            } else {
                let gone = go_on(alloc, runner, processes, number, path, None, true)?;
                Ok(Receipt { gone, takes: false })
            }
        }
        Load::Close => {
            let gone = go_on(alloc, runner, processes, number, path, None, false)?;
            Ok(Receipt { gone, takes: false })
        }
    }
}

// Takes what has arrived at a channel, if it is to be taken. Takes no memory.
fn take_if(channels: &mut Channels, name: &ChanName, takes: bool)
    ensures { linked_chans_of channels.new
        ≡ cond takes (adjust (linked_chans_of channels.old) name.now with_first_taken) (linked_chans_of channels.old) }
{
    if takes {
        channels.take(name);
    }
}

/// The process of a number receives from a channel, if something has arrived there.
pub(crate) fn receive<R: Runner>(
    alloc: Global,
    runner: &R,
    state: &mut NodeState<R::Process>,
    number: usize,
    path: &Path,
    block: u32,
    starts: usize,
    channel: &ChanName,
    limits: &[Option<u32>],
) -> Result<bool, NoMemory>
    requires who { slice_get (order_of state.old.processes) number ≡ Some path.now }
    requires sound { IsSound (R.language runner.now) (main_alone (R.main runner.now))
        (run_of (R.seen runner.now) state.old) }
    requires used { state.old.used ≤ 1000000000 }
    requires asks { AsksFor (R.language runner.now) path.now (run_of (R.seen runner.now) state.old)
        (Some (Event channel.now (Pop limits.now))) }
    requires starts { Starting (R.language runner.now) path.now (run_of (R.seen runner.now) state.old) block starts }
    ensures { IsTried (R.language runner.now) path.now (run_of (R.seen runner.now) state.old)
        (run_of (R.seen runner.now) state.new) result }
{
    let paths = prepare(alloc, runner, state, path, block, starts)?;
    match arrived(&state.network.channels, channel) {
        Some(load) => {
            let receipt = go_with(
                alloc,
                runner,
                &mut state.processes,
                number,
                path,
                load,
                limits,
            )?;
            let Receipt { gone, takes } = receipt;
            take_if(&mut state.network.channels, channel, takes);
            finish(
                alloc,
                runner,
                state,
                number,
                path,
                block,
                gone,
                paths,
                Vec::new(alloc),
            );
            Ok(true)
        }
        None => Ok(false),
    }
}
