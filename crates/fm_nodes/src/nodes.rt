//! A plain program on hosts.

ghost use Rattle.std.specs.Prelude.{◌≡◌, ◌≤◌, ◌^◌, ◌<◌, ◌↔◌, true, false, length, map, None, Ok, IsSome, MatchOption, option_and_then, option_copied, slice_get, IfOk, IfErr};
ghost use Rattle.std.specs.Arc.{arc_value};
ghost use Rattle.std.specs.FinMap.{entries, get, len};
ghost use Rattle.fm_finmap.specs.Rows.{places_in};
ghost use Rattle.fm_link.specs.Ends.{number_of};
ghost use Rattle.fm_link_law.specs.Hosts.{answered, delivered, lost, sent, state_of};
ghost use Rattle.fm_mean.specs.Outcome.{outcome_of};
ghost use Rattle.fm_mean.specs.Steps.{first_proc, language, step};
ghost use Rattle.fm_sched.specs.Schedule.{IsFinal};
ghost use Rattle.fm_nodes_plain.specs.Lines.{IsFirstUnplain, IsPlainVerdict};
ghost use Rattle.fm_nodes_hosts.specs.Runs.{IsMoved, IsTried, first_run};
ghost use Rattle.fm_nodes_rounds.specs.Rounds.{is_step};

use crate::outcome::outcome;
use fm_base::{ChanName, Line, NoMemory, Path, Plan, Turn};
use fm_mean::Outcome;
use fm_nodes_hosts::{NodeState, first_state, has_ended, restart, step};
use fm_nodes_plain::first_unplain;
use fm_nodes_procs::Runner;
use fm_nodes_rounds::NodeEvent;
use fm_nodes_trees::Trees;
use fm_plain_frame::PlainProc;
use fm_rules::Program;
use std::alloc::Global;
use std::marker::Model;
use std::sync::Arc;

/// Why a program doesn't run on hosts.
#[derive(Drop)]
pub enum NodesFail {
    /// It isn't plain: the least line, in a unit that main reaches, of a PROBE, of a MERGER with several writers, or of
    /// a declaration of ports over which ports go.
    NotPlain(Line),
    /// Memory was wanting.
    NoMemory,
}

/// A plain program on hosts, with channels that go over links. Contracts see the program, the hosts, and what has
/// happened so far.
pub struct Nodes {
    trees: Trees,
    alloc: Global,
    state: NodeState<PlainProc>,
}

impl Drop for Nodes {
    fn drop(self) {
        let Nodes {
            trees: _trees,
            alloc: _alloc,
            state: _state,
        } = self;
    }
}

impl From<NoMemory> for NodesFail {
    ghost use Rattle.fm_nodes.specs.declared.nodes.NodesFail.TheVariants as fails;

    ghost from_gives = { λ _ e. e ≡ fails.NoMemory };

    fn from(_error: NoMemory) -> NodesFail {
        NodesFail::NoMemory
    }
}

impl Model for Nodes {
    ghost use Rattle.std.specs.Coded.{codes};
    ghost use Rattle.std.specs.FinMap.{code};
    ghost use Rattle.fm_rules.specs.contracts.program.Program as e;
    ghost use Rattle.fm_nodes.specs.Nodes.{Hosted, IsHosted, hosted_of};

    ghost Value = { Hosted };

    ghost coded = { Prim.hlevel (codes, code, e.the_row.coded) };

    ghost view = { λ n. hosted_of n.trees n.state };

    ghost invariant = { λ n. IsHosted (hosted_of n.trees n.state) };
}

impl Nodes {
    ghost use Rattle.fm_nodes.specs.Nodes.{IsDone, IsHosted, IsRestarted, setting_of};
    ghost use Rattle.fm_nodes.specs.Fails.{OnNotPlain};

    /// A program on so many hosts, before any step: main alone, with no channel and nothing on the wire.
    pub fn new(
        alloc: Global,
        program: Arc<Program>,
        hosts: u32,
        plan: Plan,
    ) -> Result<Nodes, NodesFail>
        requires some { 1 ≤ hosts }
        requires few { hosts ≤ 64 }
        ensures program { IfOk result (λ n. n.program ≡ arc_value program) }
        ensures hosts { IfOk result (λ n. (n.hosts ≡ hosts) × (n.plan ≡ plan)) }
        ensures first { IfOk result (λ n. n.run ≡ first_run (first_proc n.program)) }
        ensures plain { IfOk result (λ n. ∥ IsPlainVerdict (arc_value program) None ∥₁) }
        ensures not_plain { IfErr result (λ e. OnNotPlain e (λ line. ∥ IsFirstUnplain (arc_value program) line ∥₁)) }
    {
        match first_unplain(alloc, &program)? {
            Some(line) => Err(NodesFail::NotPlain(line)),
            None => Ok(hosted(alloc, program, hosts, plan)?),
        }
    }

    /// The program is plain; the history and the paths tell a legal schedule, which leads to the state for which the
    /// hosts stand, at the cost of the steps.
    pub fn is_played(&self)
        ensures { IsHosted self.now }
    {
        let _used = self.state.used;
    }

    /// Does what happens, and tells whether it could: `IsDone` says of each event exactly when it can, and what it
    /// makes of the hosts, the history and the paths. Where it can't, and after want of memory, nothing has changed.
    pub fn act(&mut self, event: NodeEvent) -> Result<bool, NoMemory>
        requires { is_step event ≡ true → self.old.run.used ≤ 1000000000 }
        ensures same { setting_of self.new ≡ setting_of self.old }
        ensures done { IsDone self.old event self.new.run result }
    {
        match event {
            NodeEvent::Step(path) => self.step(&path),
            NodeEvent::Send(channel, place) => self.send(&channel, place),
            NodeEvent::Answer(channel) => self.answer(&channel),
            NodeEvent::Deliver(place) => self.deliver(place),
            NodeEvent::Lose(place) => Ok(self.lose(place)),
            NodeEvent::Restart(host) => self.restart(host),
        }
    }

    /// What the program shows, where no process has a step any more, whatever arrives.
    pub fn outcome(&self) -> Result<Option<Outcome>, NoMemory>
        ensures { IfOk result (λ o. MatchOption o
            (IsFinal (step self.now.program) (state_of self.now.run.hosts) → ⊥)
            (λ shown. IsFinal (step self.now.program) (state_of self.now.run.hosts)
            × (shown ≡ outcome_of self.now.program self.now.run.used (state_of self.now.run.hosts)))) }
    {
        if has_ended(self.alloc, &self.trees, &self.state)? {
            let shown = outcome(self.alloc, self.trees.program(), &self.state)?;
            return Ok(Some(shown));
        }
        Ok(None)
    }

    /// The entries of the history, one for each step.
    pub fn history(&self) -> &[Turn]
        ensures { result.now ≡ self.now.run.history }
    {
        self.state.history.as_slice()
    }

    /// The paths of the processes, in the order of starting.
    pub fn paths(&self) -> &[Arc<Path>]
        ensures { places_in result.now ≡ self.now.run.order }
    {
        self.state.processes.paths()
    }

    /// What the steps cost.
    pub fn used(&self) -> u64
        ensures { result ≡ self.now.run.used }
    {
        self.state.used
    }

    /// The channel at this place, from 0, in the order of their makers' paths and then of their numbers; none where
    /// there are fewer. Takes no memory.
    pub fn channel(&self, at: usize) -> Option<&ChanName>
        ensures { option_copied result ≡ slice_get (map (λ e. e.0) (entries self.now.run.hosts.channels)) at }
    {
        self.state.network.channels.name(at)
    }

    /// The number of the packet that would be sent; none where it can't be. Takes no memory.
    pub fn number(&self, channel: &ChanName, k: u32) -> Option<u64>
        ensures { result ≡ option_and_then (λ l. number_of l.outgoing k) (get self.now.run.hosts.channels channel.now) }
    {
        match self.state.network.channels.get(channel) {
            Some(channel) => channel.number(k as usize),
            None => None,
        }
    }

    /// How many things are on the wire. What is put there stands last. Takes no memory.
    pub fn wire(&self) -> usize
        ensures { result ≡ length self.now.run.hosts.wire }
    {
        self.state.network.wire.len()
    }

    /// Whether no process has a step any more, whatever arrives.
    pub fn has_ended(&self) -> Result<bool, NoMemory>
        ensures ended { IfOk result
            (λ over. over ≡ true → IsFinal (step self.now.program) (state_of self.now.run.hosts)) }
        ensures goes_on { IfOk result
            (λ over. over ≡ false → IsFinal (step self.now.program) (state_of self.now.run.hosts) → ⊥) }
    {
        has_ended(self.alloc, &self.trees, &self.state)
    }

    /// The path at this place, from 0, in path order, unless memory was wanting to put it there; none where there are
    /// fewer. Takes no memory.
    pub fn path(&self, place: usize) -> Option<&Path>
        ensures { IsSome result ↔ (place < length self.now.run.order) }
    {
        self.state.processes.path_at(place)
    }

    /// How many processes there are. Takes no memory.
    pub fn count(&self) -> usize
        ensures count { result ≡ length self.now.run.order }
        ensures few { result < 2 ^ 32 }
    {
        self.state.processes.len()
    }

    /// How many channels there are. Takes no memory.
    pub fn channels(&self) -> usize
        ensures { result ≡ len self.now.run.hosts.channels }
    {
        self.state.network.channels.len()
    }

    /// The history and the paths, which tell a legal schedule.
    pub fn into_parts(self) -> (Vec<Turn>, Vec<Arc<Path>>)
        ensures history { result.0.items ≡ self.run.history }
        ensures paths { places_in result.1.items ≡ self.run.order }
    {
        let Nodes {
            trees: _trees,
            alloc: _alloc,
            state,
        } = self;
        state.into_parts()
    }

    // A process makes a step, if it has one on what has arrived.
    fn step(&mut self, path: &Path) -> Result<bool, NoMemory>
        requires { self.old.run.used ≤ 1000000000 }
        ensures same { setting_of self.new ≡ setting_of self.old }
        ensures done { IsTried (language self.old.program) path.now self.old.run self.new.run result }
    {
        step(self.alloc, &self.trees, &mut self.state, path)
    }

    // A packet goes on the wire.
    fn send(&mut self, channel: &ChanName, place: u32) -> Result<bool, NoMemory>
        ensures same { setting_of self.new ≡ setting_of self.old }
        ensures done { IsMoved (sent self.old.run.hosts channel.now place) self.old.run self.new.run result }
    {
        self.state.network.send(self.alloc, channel, place as usize)
    }

    // A reader's end answers.
    fn answer(&mut self, channel: &ChanName) -> Result<bool, NoMemory>
        ensures same { setting_of self.new ≡ setting_of self.old }
        ensures done { IsMoved (answered self.old.run.hosts channel.now) self.old.run self.new.run result }
    {
        self.state.network.answer(self.alloc, channel)
    }

    // A thing on the wire comes to its end.
    fn deliver(&mut self, place: u32) -> Result<bool, NoMemory>
        ensures same { setting_of self.new ≡ setting_of self.old }
        ensures done { IsMoved (delivered self.old.run.hosts place) self.old.run self.new.run result }
    {
        self.state.network.deliver(self.alloc, place as usize)
    }

    // A thing on the wire is lost.
    fn lose(&mut self, place: u32) -> bool
        ensures same { setting_of self.new ≡ setting_of self.old }
        ensures done { IsMoved (lost self.old.run.hosts place) self.old.run self.new.run (Ok result) }
    {
        self.state.network.lose(place as usize)
    }

    // A host starts again.
    fn restart(&mut self, host: u32) -> Result<bool, NoMemory>
        ensures same { setting_of self.new ≡ setting_of self.old }
        ensures done { IsRestarted self.old host self.new.run result }
    {
        if host >= self.trees.hosts() {
            return Ok(false);
        }
        match restart(self.alloc, &self.trees, &mut self.state, host) {
            Ok(()) => Ok(true),
            Err(want) => Err(want),
        }
    }
}

// A plain program on so many hosts, before any step.
fn hosted(alloc: Global, program: Arc<Program>, hosts: u32, plan: Plan) -> Result<Nodes, NoMemory>
    requires plain { ∥ IsPlainVerdict (arc_value program) None ∥₁ }
    requires some { 1 ≤ hosts }
    ensures program { IfOk result (λ n. n.program ≡ arc_value program) }
    ensures hosts { IfOk result (λ n. (n.hosts ≡ hosts) × (n.plan ≡ plan)) }
    ensures first { IfOk result (λ n. n.run ≡ first_run (first_proc n.program)) }
{
    let trees = Trees::new(alloc, program, hosts, plan)?;
    let main = trees.first(alloc)?;
    let state = first_state(alloc, main)?;
    Ok(Nodes {
        trees,
        alloc,
        state,
    })
}
