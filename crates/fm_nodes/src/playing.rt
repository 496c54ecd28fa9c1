//! A plain program on hosts as the rounds drive it.

ghost use Rattle.std.specs.Prelude.{◌≡◌, ◌<◌, ◌≤◌, ◌^◌, length, true, false, IfOk, OnErr, OnOk};
ghost use Rattle.fm_mean.specs.Steps.{first_proc};
ghost use Rattle.fm_nodes_hosts.specs.Runs.{first_run};
ghost use Rattle.fm_nodes_rounds.specs.Rounds.{is_step};

use crate::nodes::Nodes;
use fm_base::{ChanName, NoMemory, Path};
use fm_nodes_rounds::{Hosts, NodeEvent};
use std::alloc::Global;
use std::marker::Model;

/// The numbers of packets are below this.
const MOST_PACKETS: u64 = 9_223_372_036_854_775_808;

/// A plain program on hosts, whose steps cost the turns at most before the last one. Contracts see what has happened,
/// and the turns.
pub(crate) struct Playing {
    alloc: Global,
    nodes: Nodes,
    /// The names of the channels, in order, as they were when all were looked up; they are asked twice in a round.
    names: Vec<ChanName>,
    turns: u64,
}

impl Drop for Playing {
    fn drop(self) {
        let Playing {
            alloc: _,
            nodes: _nodes,
            names: _names,
            turns: _,
        } = self;
    }
}

impl Model for Playing {
    ghost use Rattle.std.specs.Coded.{codes};
    ghost use Rattle.std.specs.FinMap.{code};
    ghost use Rattle.fm_rules.specs.contracts.program.Program as e;
    ghost use Rattle.fm_nodes.specs.Played.{IsWithin, Played, played_of};

    ghost Value = { Played };

    ghost coded = { Prim.hlevel (codes, code, e.the_row.coded) };

    ghost view = { λ p. played_of p.nodes p.turns };

    ghost invariant = { λ p. IsWithin (played_of p.nodes p.turns) };
}

// The names of the channels of a program on hosts, in order.
fn names_of(alloc: Global, nodes: &Nodes) -> Result<Vec<ChanName>, NoMemory> {
    let mut names = Vec::new(alloc);
    'channels: for at in 0..nodes.channels() {
        if let Some(channel) = nodes.channel(at) {
            names.push(channel.copy(alloc)?)?;
        }
    }
    Ok(names)
}

impl Playing {
    ghost use Rattle.fm_nodes.specs.Played.{HasNoStep, IsWithin, played_of};

    /// A program on hosts before any step, and its turns.
    pub(crate) fn new(alloc: Global, nodes: Nodes, turns: u64) -> Playing
        requires { nodes.run ≡ first_run (first_proc nodes.program) }
        ensures { result ≡ played_of nodes turns }
    {
        Playing {
            alloc,
            nodes,
            names: Vec::new(alloc),
            turns,
        }
    }

    /// The program on its hosts, as it stands.
    pub(crate) fn into_nodes(self) -> Nodes
        ensures hosted { result ≡ self.hosted }
        ensures within { IsWithin self }
    {
        let Playing {
            alloc: _,
            nodes,
            names: _names,
            turns: _,
        } = self;
        nodes
    }

    // A step of the process at this path, if it has one on what has arrived, and if the turns aren't spent.
    fn step(&mut self, path: Path) -> Result<bool, NoMemory>
        requires { self.old.hosted.run.used ≤ 1000000000 }
        ensures pays { IfOk result (λ done. done ≡ true → self.old.hosted.run.used < self.new.hosted.run.used) }
        ensures grows { OnOk result (length self.old.hosted.run.order ≤ length self.new.hosted.run.order) }
        ensures few { OnOk result (length self.new.hosted.run.order < 2 ^ 32) }
        ensures refused { IfOk result (λ done. done ≡ false → HasNoStep self.old.hosted.run self.new.hosted.run) }
        ensures err { OnErr result (HasNoStep self.old.hosted.run self.new.hosted.run) }
        ensures setting { (self.new.hosted.program ≡ self.old.hosted.program) × (self.new.turns ≡ self.old.turns) }
    {
        self.nodes.count();
        if self.nodes.used() > self.turns {
            return Ok(false);
        }
        self.nodes.is_played();
        let done = self.nodes.act(NodeEvent::Step(path))?;
        self.nodes.count();
        Ok(done)
    }

    // Looks up the names of the channels, where there are more than before. Without memory they are looked up one by
    // one.
    fn look_up(&mut self)
        ensures { self.new ≡ self.old }
    {
        if self.names.len() != self.nodes.channels() {
            match names_of(self.alloc, &self.nodes) {
                Ok(names) => self.names = names,
                Err(NoMemory) => {}
            }
        }
    }

    // What isn't a step of a process.
    fn move_on(&mut self, event: NodeEvent) -> Result<bool, NoMemory>
        requires { is_step event ≡ false }
        ensures same { HasNoStep self.old.hosted.run self.new.hosted.run }
        ensures few { length self.new.hosted.run.order < 2 ^ 32 }
        ensures setting { (self.new.hosted.program ≡ self.old.hosted.program) × (self.new.turns ≡ self.old.turns) }
    {
        let done = self.nodes.act(event);
        self.nodes.count();
        self.look_up();
        done
    }
}

impl Hosts for Playing {
    ghost use Rattle.std.specs.Prelude.{ℕ};
    ghost use Rattle.fm_sched.specs.Schedule.{IsFinal};
    ghost use Rattle.fm_rules.specs.declared.program.Program.{Program};
    ghost use Rattle.fm_mean.specs.Steps.{step};
    ghost use Rattle.fm_link_law.specs.Hosts.{state_of};

    ghost used = { λ p. p.hosted.run.used };

    ghost count = { λ p. length p.hosted.run.order };

    ghost HasEnded = { λ p. IsFinal (step p.hosted.program) (state_of p.hosted.run.hosts) };

    ghost Setting = { Program × ℕ };

    ghost setting = { λ p. (p.hosted.program, p.turns) };

    fn used(&self) -> u64 {
        self.nodes.used()
    }

    fn count(&self) -> usize {
        self.nodes.count()
    }

    fn path(&self, place: usize) -> Option<&Path> {
        self.nodes.path(place)
    }

    fn channels(&self) -> usize {
        self.nodes.channels()
    }

    fn channel(&self, place: usize) -> Option<&ChanName> {
        if self.names.len() == self.nodes.channels() {
            self.names.get(place)
        } else {
            self.nodes.channel(place)
        }
    }

    fn number(&self, channel: &ChanName, place: u32) -> Option<u64> {
        let number = self.nodes.number(channel, place)?;
        if number < MOST_PACKETS {
            Some(number)
        } else {
            None
        }
    }

    fn wire(&self) -> usize {
        self.nodes.wire()
    }

    fn has_ended(&self) -> Result<bool, NoMemory> {
        self.nodes.has_ended()
    }

    fn act(&mut self, event: NodeEvent) -> Result<bool, NoMemory> {
        match event {
            NodeEvent::Step(path) => self.step(path),
            NodeEvent::Send(channel, place) => self.move_on(NodeEvent::Send(channel, place)),
            NodeEvent::Answer(channel) => self.move_on(NodeEvent::Answer(channel)),
            NodeEvent::Deliver(place) => self.move_on(NodeEvent::Deliver(place)),
            NodeEvent::Lose(place) => self.move_on(NodeEvent::Lose(place)),
            NodeEvent::Restart(host) => self.move_on(NodeEvent::Restart(host)),
        }
    }
}
