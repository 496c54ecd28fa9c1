//! Whether any process has a step, whatever arrives.

ghost use Rattle.std.specs.Prelude.{◌≡◌, Some, true, false, is_some, slice_get, IfOk};
ghost use Rattle.fm_net.specs.Language.{language_step};
ghost use Rattle.fm_net.specs.Owned.{main_alone};
ghost use Rattle.fm_sched.specs.Schedule.{IsFinal};
ghost use Rattle.fm_link_law.specs.Hosts.{state_of};
ghost use Rattle.fm_nodes_procs.specs.Asks.{need_told};
ghost use Rattle.fm_nodes_procs.specs.Processes.{order_of};
ghost use Rattle.fm_nodes_hosts.specs.Played.{IsSound};
ghost use Rattle.fm_nodes_hosts.specs.Resting.{steps_by};
ghost use Rattle.fm_nodes_hosts.specs.States.{hosts_in, run_of};

use crate::state::NodeState;
use crate::stepping::asked_by;
use fm_base::{NoMemory, Path};
use fm_nodes_procs::{Asked, Runner, ended_children};
use std::alloc::Global;

// Whether what a process asks for can be had, if all arrives that was sent.
fn can_be_had<R: Runner>(
    alloc: Global,
    runner: &R,
    state: &NodeState<R::Process>,
    path: &Path,
    asked: &Asked,
) -> Result<bool, NoMemory>
    ensures { IfOk result (λ b. b
        ≡ steps_by (R.language runner.now).has_ended
        (hosts_in (R.seen runner.now) state.now.processes state.now.network) path.now (need_told asked.now)) }
{
    match asked {
        Asked::Rests => Ok(false),
        Asked::Goes => Ok(true),
        Asked::Makes(_, _) => Ok(true),
        Asked::Sends(channel, _, _) => Ok(state.network.channels.has(channel)),
        Asked::Receives(channel, _) => Ok(state.network.channels.is_left(channel)),
        Asked::Joins(of, count) => {
            let children = ended_children(alloc, runner, &state.processes, path, *of, *count)?;
            Ok(children.is_some())
        }
    }
}

// Whether the process of a number has a step, whatever arrives.
fn can_step<R: Runner>(
    alloc: Global,
    runner: &R,
    state: &NodeState<R::Process>,
    number: usize,
    path: &Path,
) -> Result<bool, NoMemory>
    requires who { slice_get (order_of state.now.processes) number ≡ Some path.now }
    requires sound { IsSound (R.language runner.now) (main_alone (R.main runner.now))
        (run_of (R.seen runner.now) state.now) }
    ensures { IfOk result (λ b. b ≡ is_some (language_step (R.language runner.now)
        (state_of (hosts_in (R.seen runner.now) state.now.processes state.now.network)) path.now)) }
{
    let request = asked_by(alloc, runner, state, number, path)?;
    can_be_had(alloc, runner, state, path, &request.asked)
}

/// Whether no process has a step any more, whatever arrives.
pub fn has_ended<R: Runner>(
    alloc: Global,
    runner: &R,
    state: &NodeState<R::Process>,
) -> Result<bool, NoMemory>
    requires { IsSound (R.language runner.now) (main_alone (R.main runner.now)) (run_of (R.seen runner.now) state.now) }
    ensures ended { IfOk result (λ over. over ≡ true
        → IsFinal (language_step (R.language runner.now)) (state_of (run_of (R.seen runner.now) state.now).hosts)) }
    ensures goes_on { IfOk result (λ over. over ≡ false
        → IsFinal (language_step (R.language runner.now)) (state_of (run_of (R.seen runner.now) state.now).hosts)
        → ⊥) }
{
    'processes: for number in 0..state.processes.len() {
        let path: &Path = &state.processes.paths()[number];
        if can_step(alloc, runner, state, number, path)? {
            return Ok(false);
        }
    }
    Ok(true)
}
