//! On which hosts the ends of channels are, and what is lost where a host starts again.

ghost use Rattle.std.specs.Prelude.{◌≡◌, ◌<◌, Some, None, true, length, slice_get, unwrap_or, IfOk, IfSome, IfNone, OnOk, OnErr};
ghost use Rattle.std.specs.FinMap.{get};
ghost use Rattle.fm_base.specs.PathOrder.{channel_cmp};
ghost use Rattle.fm_finmap.specs.Map.{map_of};
ghost use Rattle.fm_net.specs.Machine.{Place};
ghost use Rattle.fm_nodes_procs.specs.Processes.{order_of, procs_of};
ghost use Rattle.fm_nodes_hosts.specs.Ends.{AreJudged, end_host, holder, host_by, keeper, outlasts, restarted_run};
ghost use Rattle.fm_nodes_hosts.specs.States.{run_of};

use crate::state::NodeState;
use fm_base::{ChanName, NoMemory, Path, PortValue};
use fm_finmap::Map;
use fm_nodes_network::{Carried, Outlasts};
use fm_nodes_procs::{Processes, Runner};
use std::alloc::Global;

// The number of the first process that has a port.
fn first_with<R: Runner>(
    runner: &R,
    processes: &Processes<R::Process>,
    port: &PortValue,
) -> Option<usize>
    ensures low { IfSome result (λ n. n < length (order_of processes.now)) }
    ensures is { IfSome result (λ n. (q : Place) → slice_get (order_of processes.now) n ≡ Some q →
        holder (R.language runner.now) (procs_of (R.seen runner.now) processes.now) (order_of processes.now) port.now
        ≡ Some (keeper (R.language runner.now) q (get (procs_of (R.seen runner.now) processes.now) q))) }
    ensures none { IfNone result (holder (R.language runner.now) (procs_of (R.seen runner.now) processes.now)
        (order_of processes.now) port.now ≡ None) }
{
    'processes: for number in 0..processes.len() {
        if runner.has(processes.get(number), port) {
            return Some(number);
        }
    }
    None
}

// The path of who holds what the process of a number has: its starter's where it has ended.
fn keeper_of<R: Runner>(
    alloc: Global,
    runner: &R,
    processes: &Processes<R::Process>,
    number: usize,
) -> Result<Path, NoMemory>
    requires { number < length (order_of processes.now) }
    ensures { IfOk result (λ k. (q : Place) → slice_get (order_of processes.now) number ≡ Some q →
        k ≡ keeper (R.language runner.now) q (get (procs_of (R.seen runner.now) processes.now) q)) }
{
    let path: &Path = &processes.paths()[number];
    if runner.has_ended(processes.get(number)) {
        path.starter()
    } else {
        path.copy(alloc)
    }
}

// Who holds a port of a channel, and the channel's maker where nobody does.
fn holder_of<R: Runner>(
    alloc: Global,
    runner: &R,
    processes: &Processes<R::Process>,
    channel: &ChanName,
    port: &PortValue,
) -> Result<Path, NoMemory>
    ensures { IfOk result (λ k. k
        ≡ unwrap_or
        (holder (R.language runner.now) (procs_of (R.seen runner.now) processes.now) (order_of processes.now) port.now)
        channel.now.maker) }
{
    match first_with(runner, processes, port) {
        Some(number) => keeper_of(alloc, runner, processes, number),
        None => channel.maker.copy(alloc),
    }
}

// The host of the process at a path; where nobody is, the first one.
fn host_at<R: Runner>(runner: &R, processes: &Processes<R::Process>, path: &Path) -> u32
    ensures { result ≡ host_by (R.host runner.now) (get (procs_of (R.seen runner.now) processes.now) path.now) }
{
    match processes.number(path, 0) {
        Some(number) => runner.host(processes.get(number)),
        None => 0,
    }
}

// The host of an end of a channel: of who holds its port, and of the channel's maker where nobody does.
fn end_host<R: Runner>(
    alloc: Global,
    runner: &R,
    processes: &Processes<R::Process>,
    channel: &ChanName,
    port: &PortValue,
) -> Result<u32, NoMemory>
    ensures { IfOk result (λ h. h
        ≡ end_host (R.language runner.now) (R.host runner.now) (procs_of (R.seen runner.now) processes.now)
        (order_of processes.now) channel.now port.now) }
{
    let path = holder_of(alloc, runner, processes, channel, port)?;
    Ok(host_at(runner, processes, &path))
}

// Whether what travels over a channel stays where a host starts again: none of its ends is there.
fn stays<R: Runner>(
    alloc: Global,
    runner: &R,
    processes: &Processes<R::Process>,
    channel: &ChanName,
    host: u32,
) -> Result<bool, NoMemory>
    ensures { IfOk result (λ b. b
        ≡ outlasts (R.language runner.now) (R.host runner.now) (procs_of (R.seen runner.now) processes.now)
        (order_of processes.now) host channel.now) }
{
    let writer = PortValue::Writer(channel.copy(alloc)?, 0);
    let reader = PortValue::Reader(channel.copy(alloc)?);
    let is_writer_there = end_host(alloc, runner, processes, channel, &writer)? == host;
    let is_reader_there = end_host(alloc, runner, processes, channel, &reader)? == host;
    Ok(!(is_writer_there || is_reader_there))
}

/// Of channels over which something travels, whether it stays where a host starts again.
struct Judged {
    by_name: Map<ChanName, bool>,
}

impl Drop for Judged {
    fn drop(self) {
        let Judged { by_name: _by_name } = self;
    }
}

impl Outlasts for Judged {
    ghost use Rattle.std.specs.Prelude.{true, unwrap_or};
    ghost use Rattle.std.specs.FinMap.{get};
    ghost use Rattle.fm_base.specs.PathOrder.{channel_cmp};
    ghost use Rattle.fm_finmap.specs.Map.{map_of};

    ghost outlasts = { λ j c. unwrap_or (get (map_of channel_cmp j.by_name) c) true };

    fn outlasts(&self, channel: &ChanName) -> bool {
        match self.by_name.get(channel) {
            Some(stays) => *stays,
            None => true,
        }
    }
}

// Judges the channels of the things on a wire, where a host starts again.
fn judge<R: Runner>(
    alloc: Global,
    runner: &R,
    processes: &Processes<R::Process>,
    wire: &[Carried],
    host: u32,
) -> Result<Judged, NoMemory>
    ensures { IfOk result (λ j. AreJudged (λ c. unwrap_or (get (map_of channel_cmp j.by_name) c) true)
        (outlasts (R.language runner.now) (R.host runner.now) (procs_of (R.seen runner.now) processes.now)
        (order_of processes.now) host) wire.now) }
{
    let mut by_name = Map::new(alloc);
    'things: for carried in wire {
        let is_kept = stays(alloc, runner, processes, &carried.channel, host)?;
        by_name.insert(carried.channel.copy(alloc)?, is_kept)?;
    }
    Ok(Judged { by_name })
}

/// A host starts again: all is lost that is on the wire from it or to it, and no end of a link. After want of memory
/// nothing has changed.
pub fn restart<R: Runner>(
    alloc: Global,
    runner: &R,
    state: &mut NodeState<R::Process>,
    host: u32,
) -> Result<(), NoMemory>
    ensures ok { OnOk result (run_of (R.seen runner.now) state.new
        ≡ restarted_run (R.language runner.now) (R.host runner.now) host (run_of (R.seen runner.now) state.old)) }
    ensures err { OnErr result (run_of (R.seen runner.now) state.new ≡ run_of (R.seen runner.now) state.old) }
{
    let judged = judge(
        alloc,
        runner,
        &state.processes,
        state.network.wire.as_slice(),
        host,
    )?;
    state.network.restart(&judged);
    Ok(())
}
