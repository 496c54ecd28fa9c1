//! The run of a plain program on hosts.

ghost use Rattle.std.specs.Prelude.{◌≡◌, ◌≤◌, ◌<◌, ◌^◌, ◌+◌, ◌%◌, None, IfOk, IfErr};
ghost use Rattle.std.specs.Arc.{arc_value};
ghost use Rattle.fm_sched.specs.Schedule.{IsFinal};
ghost use Rattle.fm_mean.specs.Steps.{first_proc, step};
ghost use Rattle.fm_nodes_hosts.specs.Runs.{first_run};
ghost use Rattle.fm_link_law.specs.Hosts.{state_of};
ghost use Rattle.fm_run.specs.Programs.{IsRun};
ghost use Rattle.fm_nodes_plain.specs.Lines.{IsFirstUnplain, IsPlainVerdict};
ghost use Rattle.fm_nodes.specs.Fails.{OnNotPlain};
ghost use Rattle.fm_nodes.specs.Ends.{EndsAs};
ghost use Rattle.fm_nodes.specs.Made.{GoesByLinks};

use crate::nodes::{Nodes, NodesFail};
use crate::playing::Playing;
use fm_base::{NoMemory, Plan};
use fm_nodes_rounds::{Driven, drive};
use fm_rules::Program;
use fm_run::{Ending, Run};
use std::alloc::Global;
use std::sync::Arc;

/// The seeds of the rounds are below this.
const SEEDS: u64 = 9_223_372_036_854_775_808;

// How many hosts there are, by the seed of the network.
fn hosts_for(number: u64) -> u32
    ensures { result ≡ 1 + number % 4 }
{
    1 + (number % 4) as u32
}

// The seed of the rounds: the number itself where it has at most 18 digits.
fn seed_of(number: u64) -> u64
    ensures { result ≡ number % 2 ^ 63 }
{
    number % SEEDS
}

// How the run ended.
fn ending_of(nodes: &Nodes, driven: Driven) -> Result<Ending, NoMemory>
    requires { driven ≡ Driven.Ended → IsFinal (step nodes.now.program) (state_of nodes.now.run.hosts) }
    ensures { IfOk result (EndsAs nodes.now driven) }
{
    match driven {
        Driven::Ended => match nodes.outcome()? {
            Some(outcome) => Ok(Ending::Ended(outcome)),
            None => unreachable!(),
        },
        Driven::Spent => Ok(Ending::Spent),
    }
}

// What came of the rounds, as a run.
fn run_in(playing: Playing, driven: Driven) -> Result<Run, NoMemory>
    requires ended { driven ≡ Driven.Ended
        → IsFinal (step playing.hosted.program) (state_of playing.hosted.run.hosts)
        × (playing.hosted.run.used ≤ playing.turns) }
    requires spent { driven ≡ Driven.Spent → playing.turns < playing.hosted.run.used }
    ensures run { IfOk result (λ r. IsRun playing.hosted.program playing.turns r) }
    ensures links { IfOk result (λ r. GoesByLinks playing.hosted.program r) }
{
    let nodes = playing.into_nodes();
    nodes.is_played();
    let ending = ending_of(&nodes, driven)?;
    let (history, paths) = nodes.into_parts();
    Ok(Run {
        history,
        paths,
        ending,
    })
}

// A plain program on hosts before any step, driven to its end, or as far as its turns.
fn drive_nodes(alloc: Global, nodes: Nodes, number: u64, turns: u64) -> Result<Run, NoMemory>
    requires first { nodes.run ≡ first_run (first_proc nodes.program) }
    requires turns { turns ≤ 1000000000 }
    ensures run { IfOk result (λ r. IsRun nodes.program turns r) }
    ensures links { IfOk result (λ r. GoesByLinks nodes.program r) }
{
    let mut playing = Playing::new(alloc, nodes, turns);
    let driven = drive(alloc, &mut playing, seed_of(number), turns)?;
    run_in(playing, driven)
}

/// The run of a program on 1 + N mod 4 hosts, whose rounds lose and repeat packets by the number N; or why there is
/// none. Over each channel it goes by a link: what its reader took is a prefix of what its writer sent.
pub fn run_on_hosts(
    alloc: Global,
    program: Arc<Program>,
    number: u64,
    turns: u64,
    plan: Plan,
) -> Result<Run, NodesFail>
    requires { turns ≤ 1000000000 }
    ensures run { IfOk result (λ r. IsRun (arc_value program) turns r) }
    ensures links { IfOk result (λ r. GoesByLinks (arc_value program) r) }
    ensures plain { IfOk result (λ r. ∥ IsPlainVerdict (arc_value program) None ∥₁) }
    ensures not_plain { IfErr result (λ e. OnNotPlain e (λ line. ∥ IsFirstUnplain (arc_value program) line ∥₁)) }
{
    let nodes = Nodes::new(alloc, program, hosts_for(number), plan)?;
    match drive_nodes(alloc, nodes, number, turns) {
        Ok(run) => Ok(run),
        Err(NoMemory) => Err(NodesFail::NoMemory),
    }
}
