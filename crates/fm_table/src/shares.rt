//! What of the queue the plan gives each worker.

ghost use Rattle.std.specs.Prelude.{◌≡◌, ◌<◌, ◌++◌, ◌∷◌, ◌==◌, ◌||◌, ℕ, [], true, None, drop, is_some, length, replicate, slice_index_or, slice_set, IfOk, IfSome, OnOk};
ghost use Rattle.fm_mean.specs.Machines.{main_nodes};
ghost use Rattle.fm_rules.specs.declared.program.Program.{Program};
ghost use Rattle.fm_run.specs.Orders.{Among, EachOnce, others_in};
ghost use Rattle.fm_run.specs.Programs.{Stand};
ghost use Rattle.fm_table.specs.Inside.{AreBehind, HasShares, HaveLeft, IsLive, IsLiveOn, IsStanding, outs_of, shares_of, stand_in, stand_kept};
ghost use Rattle.fm_table.specs.Planned.{first_of, mapped, worker_at};
ghost use Rattle.fm_table.specs.Told.{ready_in};

use crate::outside::{Taken, choose_ready};
use crate::programs::Compiled;
use crate::standing::Standing;
use fm_base::{NoMemory, Setup};
use fm_map::worker_of;
use fm_run::{Player, Queue};
use std::alloc::Global;
use std::collections::VecDeque;
use std::mem::replace;

/// What of the queue the plan gives each worker. It is kept from the first time on that it is asked for, so that who
/// asks need not look at others. Where there is one node or one worker, all belong to the first worker, and nothing is
/// kept.
#[derive(Drop)]
pub(crate) struct Shares {
    /// How many nodes the machine of main has.
    pub nodes: u32,
    /// For each worker those of the queue that the plan maps to it, as they stand there; none where they are to be made
    /// anew.
    pub lists: Option<Vec<Queue>>,
}

// The worker that the plan maps a process to that can step. Such a process has a body, so that one without it is
// answered as want of memory costs nothing.
fn worker_of_process(
    player: &Player<Compiled>,
    nodes: u32,
    setup: &Setup,
    number: u32,
) -> Result<u32, NoMemory>
    requires live { IsLiveOn nodes player.now }
    requires able { Among number player.now.able.numbers.items }
    ensures worker { IfOk result (λ w. (p : Program) → IsLive p player.now
        → nodes ≡ main_nodes p → w ≡ worker_at p setup.now (stand_in p player.now) number) }
    ensures below { IfOk result (λ w. w < setup.now.workers) }
{
    match player.net.body_of(number) {
        Some(body) => Ok(worker_of(body.node, nodes, setup.workers, setup.plan)),
        None => Err(NoMemory),
    }
}

// For each of so many workers nothing.
fn no_shares(alloc: Global, workers: u32) -> Result<Vec<Queue>, NoMemory>
    ensures { IfOk result (λ lists. shares_of lists.items ≡ replicate workers []) }
{
    let mut lists = Vec::new(alloc);
    'workers: for worker in 0..workers {
        lists.push(Queue::new(alloc))?;
    }
    Ok(lists)
}

// One more comes to a worker.
fn put_share(lists: &mut Vec<Queue>, worker: u32, number: u32) -> Result<(), NoMemory>
    requires { worker < length lists.old.items }
    ensures { OnOk result (shares_of lists.new.items
        ≡ slice_set (shares_of lists.old.items) worker
        (slice_index_or (shares_of lists.old.items) worker [] ++ number ∷ [])) }
{
    lists[worker as usize].put(number)
}

// One leaves a worker.
fn leave_share(lists: &mut Vec<Queue>, worker: u32, number: u32)
    requires there { worker < length lists.old.items }
    requires once { EachOnce (slice_index_or (shares_of lists.old.items) worker []) }
    ensures { shares_of lists.new.items
        ≡ slice_set (shares_of lists.old.items) worker
        (others_in number (slice_index_or (shares_of lists.old.items) worker [])) }
{
    lists[worker as usize].leave(number);
}

// Those of the queue from a place on come to their workers.
fn share_out(
    lists: &mut Vec<Queue>,
    player: &Player<Compiled>,
    nodes: u32,
    setup: &Setup,
    from: usize,
) -> Result<(), NoMemory>
    requires live { IsLiveOn nodes player.now }
    requires many { length (shares_of lists.old.items) ≡ setup.now.workers }
    ensures many { OnOk result (length (shares_of lists.new.items) ≡ setup.now.workers) }
    ensures shared { OnOk result ((p : Program) → IsLive p player.now
        → nodes ≡ main_nodes p → (w : ℕ) → w < setup.now.workers
        → slice_index_or (shares_of lists.new.items) w []
        ≡ slice_index_or (shares_of lists.old.items) w []
        ++ mapped p setup.now (stand_in p player.now) w (drop from player.now.able.numbers.items)) }
{
    let queue = &player.able.numbers;
    'queue: for place in from..queue.len() {
        let number = queue[place];
        let worker = worker_of_process(player, nodes, setup, number)?;
        put_share(lists, worker, number)?;
    }
    Ok(())
}

// The first one of a worker that is ready, or else the first one that is.
fn first_ready(own: &VecDeque<u32>, queue: &VecDeque<u32>, out: &[Taken]) -> Option<u32>
    ensures { result
        ≡ first_of (ready_in (outs_of out.now) own.now.items) (ready_in (outs_of out.now) queue.now.items) }
{
    match choose_ready(own, out, 0) {
        Some(number) => Some(number),
        None => choose_ready(queue, out, 0),
    }
}

impl Shares {
    /// Before the first piece nothing is kept. Main has a body, so that one without it is answered as want of memory
    /// costs nothing.
    pub fn first(player: &Player<Compiled>) -> Result<Shares, NoMemory>
        ensures nodes { (p : Program) → IsLive p player.now → player.now.net.history ≡ []
            → IfOk result (λ s. s.nodes ≡ main_nodes p) }
        ensures none { IfOk result (λ s. s.lists ≡ None) }
    {
        match player.net.body_of(0) {
            Some(body) => Ok(Shares {
                nodes: body.machine.count,
                lists: None,
            }),
            None => Err(NoMemory),
        }
    }

    /// Whether the plan maps all processes to the first worker: there is one node, or one worker.
    pub fn is_whole(&self, setup: &Setup) -> bool
        ensures { result ≡ (self.now.nodes == 1 || setup.now.workers == 1) }
    {
        self.nodes == 1 || setup.workers == 1
    }

    /// What the workers have isn't known any more.
    pub fn forget(&mut self)
        ensures nodes { self.new.nodes ≡ self.old.nodes }
        ensures none { self.new.lists ≡ None }
    {
        self.lists = None;
    }

    /// What the workers have without a process that is about to make an entry, where it is known; it isn't any more.
    pub fn leave(&mut self, standing: &Standing, setup: &Setup, number: u32) -> Option<Vec<Queue>>
        requires kept { (p : Program) × IsStanding p standing.now
            × HasShares p setup.now (stand_kept p standing.now) self.old }
        ensures left { (p : Program) → IsStanding p standing.now
            → HasShares p setup.now (stand_kept p standing.now) self.old
            → IfSome result (λ lists. HaveLeft p setup.now (stand_kept p standing.now) number (shares_of lists.items)) }
        ensures many { IfSome result (λ lists. length (shares_of lists.items) ≡ setup.now.workers) }
        ensures nodes { self.new.nodes ≡ self.old.nodes }
        ensures none { self.new.lists ≡ None }
    {
        let mut lists = replace(&mut self.lists, None)?;
        if !standing.is_live || !standing.player.is_able(number) {
            return None;
        }
        match worker_of_process(&standing.player, self.nodes, setup, number) {
            Ok(worker) => {
                leave_share(&mut lists, worker, number);
                Some(lists)
            }
            Err(NoMemory) => None,
        }
    }

    /// Behind the entry: those of the queue from a place on come to their workers.
    pub fn settle(
        &mut self,
        left: Option<Vec<Queue>>,
        player: &Player<Compiled>,
        setup: &Setup,
        from: usize,
    )
        requires live { IsLiveOn self.old.nodes player.now }
        requires many { IfSome left (λ lists. length (shares_of lists.items) ≡ setup.now.workers) }
        requires none { self.old.lists ≡ None }
        ensures settled { (p : Program) (a : Stand) (n : ℕ) → IsLive p player.now
            → self.old.nodes ≡ main_nodes p → IfSome left (λ lists. HaveLeft p setup.now a n (shares_of lists.items))
            → AreBehind p setup.now a (stand_in p player.now) n from
            → HasShares p setup.now (stand_in p player.now) self.new }
    {
        let Some(mut lists) = left else {
            return;
        };
        match share_out(&mut lists, player, self.nodes, setup, from) {
            Ok(()) => self.lists = Some(lists),
            Err(NoMemory) => {}
        }
    }

    /// Makes what the workers have, where it isn't known.
    pub fn make(
        &mut self,
        alloc: Global,
        player: &Player<Compiled>,
        setup: &Setup,
    ) -> Result<(), NoMemory>
        requires live { IsLiveOn self.old.nodes player.now }
        ensures kept { (p : Program) → IsLive p player.now → HasShares p setup.now (stand_in p player.now) self.old
            → HasShares p setup.now (stand_in p player.now) self.new }
        ensures there { OnOk result (is_some self.new.lists ≡ true) }
    {
        if self.lists.is_some() {
            return Ok(());
        }
        let mut lists = no_shares(alloc, setup.workers)?;
        share_out(&mut lists, player, self.nodes, setup, 0)?;
        self.lists = Some(lists);
        Ok(())
    }

    /// Who is taken for a worker.
    pub fn choose(&self, worker: u32, queue: &VecDeque<u32>, out: &[Taken]) -> Option<u32>
        requires there { is_some self.now.lists ≡ true }
        ensures { (p : Program) (setup : Setup) (a : Stand) → HasShares p setup a self.now
            → queue.now.items ≡ a.able → worker < setup.workers
            → result
            ≡ first_of (mapped p setup a worker (ready_in (outs_of out.now) queue.now.items))
            (ready_in (outs_of out.now) queue.now.items) }
    {
        match &self.lists {
            Some(lists) => match lists.get(worker as usize) {
                Some(own) => first_ready(&own.numbers, queue, out),
                None => choose_ready(queue, out, 0),
            },
            None => unreachable!(),
        }
    }
}
