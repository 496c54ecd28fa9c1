//! The runner over trees.

ghost use Rattle.std.specs.Prelude.{◌≡◌, ◌≤◌, None, IfOk};
ghost use Rattle.std.specs.Arc.{arc_value};
ghost use Rattle.std.proofs.Props.{props};
ghost use Rattle.fm_mean.specs.Machines.{main_nodes};
ghost use Rattle.fm_nodes_plain.specs.Lines.{IsPlainVerdict};

use crate::asking::asked;
use crate::drops::Drops;
use crate::going::{go_on, step_own};
use crate::holding::holds;
use crate::joining::join_children;
use fm_base::{NoMemory, Path, Plan, PortValue, Seq};
use fm_map::worker_of;
use fm_nodes_procs::{Gone, Request, Runner};
use fm_plain_frame::PlainProc;
use fm_plain_replies::{Ended, leave};
use fm_rules::Program;
use std::alloc::Global;
use std::sync::Arc;

/// Runs the processes of a plain program over trees, on so many hosts.
pub struct Trees {
    program: Arc<Program>,
    hosts: u32,
    plan: Plan,
    nodes: u32,
    ghost is_plain: { ∥ IsPlainVerdict (arc_value program) None ∥₁ } by { Prim.hlevel props },
    ghost some_hosts: { 1 ≤ hosts },
    ghost nodes_are: { nodes ≡ main_nodes (arc_value program) },
}

impl Drop for Trees {
    fn drop(self) {
        let Trees {
            program: _program,
            hosts: _hosts,
            plan: _plan,
            nodes: _nodes,
        } = self;
    }
}

impl Trees {
    ghost use Rattle.fm_nodes_trees.specs.Trees.{hosts_on, plan_of, program_of};

    /// The runner of a plain program on so many hosts.
    pub fn new(
        alloc: Global,
        program: Arc<Program>,
        hosts: u32,
        plan: Plan,
    ) -> Result<Trees, NoMemory>
        requires plain { ∥ IsPlainVerdict (arc_value program) None ∥₁ }
        requires some { 1 ≤ hosts }
        ensures program { IfOk result (λ t. program_of t ≡ arc_value program) }
        ensures hosts { IfOk result (λ t. (hosts_on t ≡ hosts) × (plan_of t ≡ plan)) }
    {
        let main = PlainProc::main(alloc, &program)?;
        let nodes = main.machine.count;
        Ok(Trees {
            program,
            hosts,
            plan,
            nodes,
        })
    }

    /// The program.
    pub fn program(&self) -> &Program
        ensures { result.now ≡ program_of self.now }
    {
        &self.program
    }

    /// How many hosts there are.
    pub fn hosts(&self) -> u32
        ensures { result ≡ hosts_on self.now }
    {
        self.hosts
    }
}

impl Runner for Trees {
    ghost use Rattle.std.specs.Prelude.{◌^◌, ◌<◌, ℕ, List, map, OnErr};
    ghost use Rattle.fm_base.specs.declared.path.ChanName as declared;
    ghost use Rattle.fm_net.specs.Machine.{Children, Go, Onward, Reply, reply_with};
    ghost use Rattle.fm_nodes_procs.specs.Asks.{AllLeft, GoesSo};
    ghost use Rattle.fm_mean.specs.Process as mean;
    ghost use Rattle.fm_mean.specs.Steps as steps;
    ghost use Rattle.fm_mean.proofs.Lawful.{lawful};
    ghost use Rattle.fm_mean.proofs.Laws.{first_owned};
    ghost use Rattle.fm_nodes_plain.proofs.Hosted.{asks_for_words};
    ghost use Rattle.fm_nodes_plain.proofs.Declared.{told_program};
    ghost use Rattle.fm_plain_frame.specs.Frames.{proc_of};
    ghost use Rattle.fm_plain_replies.specs.Joins.{frames_in, left_frames};
    ghost use Rattle.fm_nodes_trees.specs.Drops.{drops_in};
    ghost use Rattle.fm_nodes_trees.specs.Trees.{host_of, hosts_on, plan_of, program_of};

    type Process = PlainProc;

    type Drops = Drops;

    type Left = Ended;

    ghost Proc = { mean.Proc };

    ghost seen = { λ t x. proc_of (program_of t) x };

    ghost language = { λ t. steps.language (program_of t) };

    ghost main = { λ t. steps.first_proc (program_of t) };

    ghost let_go = { λ t d. drops_in (program_of t) d };

    ghost IsLeft = { λ t x left. left_frames (program_of t) left ≡ frames_in x };

    ghost host = { λ t x. host_of (program_of t) (hosts_on t) (plan_of t) x };

    ghost is_lawful = { λ t. lawful (program_of t) };

    ghost main_owns = { λ t. first_owned (program_of t) };

    ghost asks_for_words = { λ t. asks_for_words (program_of t) (told_program (program_of t) t.is_plain) };

    fn first(&self, alloc: Global) -> Result<PlainProc, NoMemory> {
        PlainProc::main(alloc, &self.program)
    }

    fn has_ended(&self, process: &PlainProc) -> bool {
        process.has_ended()
    }

    fn asked(&self, alloc: Global, process: &PlainProc) -> Result<Request, NoMemory> {
        asked(alloc, &self.program, process)
    }

    fn step_alone(
        &self,
        alloc: Global,
        process: &mut PlainProc,
    ) -> Result<Option<(Drops, u64)>, NoMemory> {
        step_own(alloc, &self.program, process)
    }

    fn go_on(
        &self,
        alloc: Global,
        process: &mut PlainProc,
        path: &Path,
        message: Option<&Seq<Seq<i64>>>,
        exceeds: bool,
    ) -> Result<Gone<PlainProc, Drops>, NoMemory> {
        go_on(alloc, &self.program, process, path, message, exceeds)
    }

    fn left(&self, alloc: Global, process: &PlainProc) -> Result<Ended, NoMemory> {
        let mut twin = process.twin(alloc, &self.program)?;
        Ok(leave(&mut twin, alloc))
    }

    fn join(
        &self,
        alloc: Global,
        process: &mut PlainProc,
        children: Vec<Ended>,
    ) -> Result<Gone<PlainProc, Drops>, NoMemory>
        ensures goes { IfOk result (λ g. (b n : ℕ) (f : declared.ChanName → Reply mean.Proc → Onward mean.Proc)
            (kids : List mean.Proc)
            → (steps.language (program_of self.now)).ask (proc_of (program_of self.now) process.old)
            ≡ Go (Children b n) f
            → AllLeft (λ x left. left_frames (program_of self.now) left ≡ frames_in x) kids children.items
            → (c : declared.ChanName)
            → GoesSo (proc_of (program_of self.now) process.new) (map (proc_of (program_of self.now)) g.starts.items)
            (drops_in (program_of self.now) g.drops) g.cost (f c (reply_with kids))) }
        ensures few { IfOk result (λ g. g.cost < 2 ^ 63) }
        ensures err { OnErr result
            (proc_of (program_of self.now) process.new ≡ proc_of (program_of self.now) process.old) }
    {
        join_children(alloc, &self.program, process, children)
    }

    fn empty(&self, alloc: Global, process: &mut PlainProc) {
        leave(process, alloc);
    }

    fn next_drop(&self, drops: &mut Drops) -> Option<PortValue> {
        drops.next(&self.program)
    }

    fn host(&self, process: &PlainProc) -> u32 {
        if process.node < self.nodes {
            worker_of(process.node, self.nodes, self.hosts, self.plan)
        } else {
            0
        }
    }

    fn has(&self, process: &PlainProc, port: &PortValue) -> bool {
        holds(&self.program, process, port)
    }
}
