//! Where a kept schedule leads, as it stands in memory.

ghost use Rattle.std.specs.Prelude.{◌≡◌, ◌≤◌, true, false, [], Ok, IfOk, OnErr, OnOk};
ghost use Rattle.fm_mean.specs.Outcome.{outcome_of};
ghost use Rattle.fm_run.specs.Entries.{turn_of};
ghost use Rattle.fm_rules.specs.declared.program.Program.{Program};
ghost use Rattle.fm_run.specs.Orders.{places_of};
ghost use Rattle.fm_run.specs.Programs.{can_at, first_stand};
ghost use Rattle.fm_table.specs.Inside.{HasEntered, IsAsItWas, IsAsked, IsStanding, MakesSo, stand_kept};
ghost use Rattle.fm_table.specs.Told.{cost_by, has_some};

use crate::making::{Way, let_go, make_steps, outcome_in, put_paths};
use crate::programs::Compiled;
use crate::reviving::play_again;
use fm_base::{NoMemory, Path};
use fm_mean::Outcome;
use fm_rules::Program;
use fm_run::{History, Net, Player, Queue};
use std::alloc::Global;
use std::sync::Arc;

/// Where a kept schedule leads. The processes are a cache of it: where memory was wanting they are let go, and the
/// schedule is played again when they are needed. The rest is told also then.
#[derive(Drop)]
pub(crate) struct Standing {
    /// The processes, while `is_live`; the schedule, and those that can step.
    pub player: Player<Compiled>,
    /// Whether the processes are there.
    pub is_live: bool,
    /// The paths of the processes, in the order of starting: of all where the processes aren't there, and else of the
    /// first of them.
    pub paths: Vec<Arc<Path>>,
    /// What the schedule costs.
    pub used: u64,
    /// Whether a process can step.
    pub is_ready: bool,
}

fn has_some(queue: &Queue) -> bool
    ensures { result ≡ has_some queue.now.numbers.items }
{
    !queue.numbers.is_empty()
}

impl Standing {
    /// Before the first piece.
    pub fn first(alloc: Global, program: &Program) -> Result<Standing, NoMemory>
        ensures standing { IfOk result (λ s. IsStanding program.now s) }
        ensures live { IfOk result (λ s. s.is_live ≡ true) }
        ensures history { IfOk result (λ s. s.player.net.history ≡ []) }
        ensures queue { IfOk result (λ s. s.player.able.numbers.items ≡ (first_stand program.now).able) }
    {
        let player: Player<Compiled> = Player::new(alloc, program)?;
        let paths = Vec::new(alloc);
        let is_ready = has_some(&player.able);
        Ok(Standing {
            player,
            is_live: true,
            paths,
            used: 0,
            is_ready,
        })
    }

    /// Makes the processes again where they were let go.
    pub fn revive(&mut self, alloc: Global, program: &Program) -> Result<(), NoMemory>
        requires { IsStanding program.now self.old }
        ensures standing { IsStanding program.now self.new }
        ensures live { OnOk result (self.new.is_live ≡ true) }
        ensures same { IsAsItWas self.old self.new }
    {
        if self.is_live {
            return Ok(());
        }
        self.make_again(alloc, program)
    }

    // Makes the processes again, which were let go. That is rare, and stands apart so that nothing is laid out for it
    // where they are there.
    #[cold]
    #[inline(never)]
    fn make_again(&mut self, alloc: Global, program: &Program) -> Result<(), NoMemory>
        requires standing { IsStanding program.now self.old }
        requires gone { self.old.is_live ≡ false }
        ensures standing { IsStanding program.now self.new }
        ensures live { OnOk result (self.new.is_live ≡ true) }
        ensures same { IsAsItWas self.old self.new }
    {
        let entries = self.player.net.history.copied(alloc)?;
        let Player {
            net,
            parents,
            ended,
            able,
            used,
            ..
        } = play_again(alloc, program, entries.as_slice())?;
        self.player.net = net;
        self.player.parents = parents;
        self.player.ended = ended;
        self.player.able.marks = able.marks;
        self.player.used = used;
        self.is_live = true;
        Ok(())
    }

    /// Makes steps of the process of a number, as they are asked for, which are an entry: how many. None where it can't
    /// step; then nothing changes.
    ///
    /// # Errors
    /// `NoMemory` is want of memory, and changes nothing of where the schedule leads.
    pub fn make(
        &mut self,
        alloc: Global,
        program: &Program,
        number: u32,
        way: Way,
    ) -> Result<u32, NoMemory>
        requires some { IsAsked way }
        requires standing { IsStanding program.now self.old }
        ensures standing { IsStanding program.now self.new }
        ensures live { OnOk result (self.new.is_live ≡ true) }
        ensures none { result ≡ Ok 0
            → IsAsItWas self.old self.new
            × (can_at program.now (stand_kept program.now self.old).state (stand_kept program.now self.old).places
            number ≡ false) }
        ensures made { IfOk result
            (λ steps. 1 ≤ steps → HasEntered program.now (turn_of number steps) self.old self.new) }
        ensures so { IfOk result (λ steps. 1 ≤ steps
            → MakesSo way.entry program.now (stand_kept program.now self.old) (stand_kept program.now self.new) number
            steps) }
        ensures stays { OnErr result (IsAsItWas self.old self.new) }
    {
        self.revive(alloc, program)?;
        put_paths(&mut self.paths, self.player.net.stacks.entries.rows.paths())?;
        let entries = self.player.net.history.len();
        let queued = self.player.able.numbers.len();
        match make_steps(alloc, program, &mut self.player, number, way) {
            Ok(steps) => {
                self.used = self.player.used;
                self.is_ready = has_some(&self.player.able);
                Ok(steps)
            }
            Err(want) => {
                let_go(alloc, &mut self.player, entries, queued);
                self.is_live = false;
                Err(want)
            }
        }
    }

    /// The paths of the processes, in the order of starting.
    pub fn paths(&self) -> &[Arc<Path>]
        ensures { (p : Program) → IsStanding p self.now → places_of result.now ≡ (stand_kept p self.now).places }
    {
        if self.is_live {
            self.player.net.stacks.entries.rows.paths()
        } else {
            self.paths.as_slice()
        }
    }

    /// The schedule, and the paths of the processes. Takes no memory.
    pub fn into_parts(self) -> (History, Vec<Arc<Path>>)
        ensures history { result.0 ≡ self.player.net.history }
        ensures paths { (p : Program) → IsStanding p self → places_of result.1.items ≡ (stand_kept p self).places }
    {
        let Standing {
            player,
            is_live,
            paths,
            used: _used,
            is_ready: _is_ready,
        } = self;
        let (history, all) = player.net.into_parts();
        if is_live {
            (history, all)
        } else {
            (history, paths)
        }
    }

    /// What a run shows that ended here.
    pub fn outcome(&self, alloc: Global, program: &Program) -> Result<Outcome, NoMemory>
        requires { IsStanding program.now self.now }
        ensures { IfOk result (λ o. o
            ≡ outcome_of program.now (cost_by program.now self.now.player.net.history)
            (stand_kept program.now self.now).state) }
    {
        if self.is_live {
            return outcome_in(alloc, program, &self.player);
        }
        let entries = self.player.net.history.copied(alloc)?;
        let player = play_again(alloc, program, entries.as_slice())?;
        outcome_in(alloc, program, &player)
    }
}
