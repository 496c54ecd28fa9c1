//! The table.

ghost use Rattle.std.specs.Prelude.{◌≡◌, ◌≤◌, ◌<◌, ℕ, nat_lt, true, false, Ok, Some, None, slice_get, IfErr, IfOk, IfSome, OnErr};
ghost use Rattle.fm_sched.specs.Schedule.{IsFinal};
ghost use Rattle.fm_mean.specs.Outcome.{outcome_of};
ghost use Rattle.fm_mean.specs.Steps.{step};
ghost use Rattle.fm_run.specs.Orders.{Among, place_in, places_of};
ghost use Rattle.fm_run.specs.Programs.{can_at};
ghost use Rattle.fm_table.specs.Giving.{CallsBack, GivenTo, TakesTo, taken, taken_for};
ghost use Rattle.fm_table.specs.Inside.{EntersTo, IsAsked};
ghost use Rattle.fm_table.specs.Told.{IsBodyOf, IsIdle, IsKept, cost_of, first_told, phase_by, phase_of, ready_of, stand_of};
ghost use Rattle.fm_table.specs.Turning.{PlaysTo, TurnsInside, TurnsTo};

use crate::home::{HOME_SLICE, Home, body_words, home_behind, home_for, home_of};
use crate::making::Way;
use crate::outside::{
    Taken, call_back, choose_ready, forget, is_out, is_taken, put_back, ready_beside,
};
use crate::piece::{Piece, slice_for};
use crate::reviving::is_empty;
use crate::shares::Shares;
use crate::standing::Standing;
use crate::taking::{Start, start_of};
use crate::weights::{is_heavy, is_worth, weigh};
use fm_base::{NoMemory, Path, Setup, Turn};
use fm_machine::Done;
use fm_mean::Outcome;
use fm_rules::Program;
use fm_run::History;
use fm_same::same_program;
use fm_workers::{Given, Phase};
use std::alloc::Global;
use std::marker::Model;
use std::sync::Arc;

/// The table of a run: its program and setup, the schedule that was kept, in which order those that can step are
/// served, and whose pieces are made outside. Contracts see these; where the schedule leads is a function of it.
pub struct Table {
    program: Arc<Program>,
    setup: Setup,
    standing: Standing,
    out: Vec<Taken>,
    shares: Shares,
    heavy: Vec<bool>,
    home: Option<Home>,
}

impl Drop for Table {
    fn drop(self) {
        let Table {
            program: _program,
            setup: _setup,
            standing: _standing,
            out: _out,
            shares: _shares,
            heavy: _heavy,
            home: _home,
        } = self;
    }
}

impl Model for Table {
    ghost use Rattle.std.specs.Coded.{codes};
    ghost use Rattle.fm_rules.specs.contracts.program.Program as e;
    ghost use Rattle.fm_base.specs.contracts.schedule.Setup as f;
    ghost use Rattle.fm_code.specs.contracts.body.Body as b;
    ghost use Rattle.fm_table.specs.Told.{Told};
    ghost use Rattle.fm_table.specs.Inside.{IsTable, outs_of, told_in};

    ghost Value = { Told };

    ghost coded = { Prim.hlevel (codes, e.the_row.coded, f.the_row.coded, b.the_row.coded) };

    ghost view = { λ t. told_in t.program.value t.setup t.standing (outs_of t.out.items) };

    ghost invariant = { λ t. IsTable t.program.value t.setup t.standing (outs_of t.out.items) t.shares };
}

// Whether a cost is over the turns.
fn is_over(used: u64, turns: u64) -> bool
    ensures { result ≡ nat_lt turns used }
{
    turns < used
}

fn phase_by(is_spent: bool, can_step: bool) -> Phase
    ensures { result ≡ phase_by is_spent can_step }
{
    if is_spent {
        Phase::Spent
    } else if can_step {
        Phase::Going
    } else {
        Phase::Ended
    }
}

// What came of an entry of which so many steps were made.
fn missing(done: u32, steps: u32) -> Option<u32>
    requires { done ≤ steps }
    ensures none { result ≡ None → done ≡ steps }
    ensures some { (k : ℕ) → result ≡ Some k → (k ≡ done) × (k < steps) }
{
    if done < steps { Some(done) } else { None }
}

impl Table {
    /// The table of a program before its first piece.
    pub fn new(alloc: Global, program: Arc<Program>, setup: Setup) -> Result<Table, NoMemory>
        ensures { IfOk result (λ t. t ≡ first_told program.value setup) }
    {
        let standing = Standing::first(alloc, &program)?;
        let shares = Shares::first(&standing.player)?;
        Ok(Table {
            program,
            setup,
            standing,
            out: Vec::new(alloc),
            shares,
            heavy: Vec::new(alloc),
            home: None,
        })
    }

    /// What is so of every table: the schedule is one of the program, and leads to the stand that is told; it costs
    /// more than the turns by its last entry at most; those that can step are told, each once, and those that are out
    /// are among them.
    pub fn promise(&self)
        ensures { IsKept self.now }
    {
        let _ = &self.setup;
    }

    /// Whether it is a table of a program and a setup, each part of both alike. It takes no memory.
    pub fn same(&self, program: &Program, setup: &Setup) -> bool
        ensures yes { result ≡ true → (self.now.program ≡ program.now) × (self.now.setup ≡ setup.now) }
        ensures no { result ≡ false → self.now.program ≡ program.now → self.now.setup ≡ setup.now → ⊥ }
    {
        same_program(&self.program, program) && self.setup == *setup
    }

    /// How far it is.
    pub fn phase(&self) -> Phase
        ensures phase { result ≡ phase_of self.now }
        // Where it has ended, no process can step.
        ensures ended { result ≡ Phase.Ended → IsFinal (step self.now.program) (stand_of self.now).state }
    {
        phase_by(
            is_over(self.standing.used, self.setup.turns),
            self.standing.is_ready,
        )
    }

    /// Whether the schedule costs more than the turns.
    pub fn is_spent(&self) -> bool
        ensures { result ≡ nat_lt self.now.setup.turns (cost_of self.now) }
    {
        is_over(self.standing.used, self.setup.turns)
    }

    /// Makes a piece of the process at a place among those that are ready, modulo their number, and looks who can step
    /// then. Where no piece can be made, for the turns are spent or nobody is ready, it answers false, and nothing
    /// changes.
    ///
    /// Those that can step stand in a queue: the one that made its piece leaves its place; others that have become able
    /// come behind, in the order of starting, and behind them the one itself, where it can step still. Those of them
    /// are ready that aren't out.
    ///
    /// # Errors
    /// `NoMemory` is want of memory, and changes nothing.
    pub fn turn(&mut self, alloc: Global, choice: u64) -> Result<bool, NoMemory>
        ensures turned { IfOk result (λ r. r ≡ true → TurnsTo choice self.old self.new) }
        ensures idle { IfOk result (λ r. r ≡ false → IsIdle self.old × (self.new ≡ self.old)) }
        // A piece costs something.
        ensures used { IfOk result (λ r. r ≡ true → cost_of self.old < cost_of self.new) }
        ensures stays { OnErr result (self.new ≡ self.old) }
    {
        if is_over(self.standing.used, self.setup.turns) {
            return Ok(false);
        }
        self.promise();
        let queue = &self.standing.player.able.numbers;
        match choose_ready(queue, self.out.as_slice(), choice) {
            None => Ok(false),
            Some(number) => {
                let slice = Way::Slice(self.setup.slice);
                let steps = self.enter(alloc, number, slice)?;
                Ok(steps != 0)
            }
        }
    }

    /// Makes the steps of an entry, one behind the other. None where all were made; else so many, behind which the
    /// process has no step more, or where there is no process of this number. What was made is an entry of the
    /// schedule, where it is a step or more; the process isn't out then.
    ///
    /// # Errors
    /// `NoMemory` is want of memory, and changes nothing.
    pub fn play(&mut self, alloc: Global, entry: Turn) -> Result<Option<u32>, NoMemory>
        requires { cost_of self.old ≤ self.old.setup.turns }
        ensures played { IfOk result (λ r. PlaysTo entry self.old self.new r) }
        ensures stays { OnErr result (self.new ≡ self.old) }
    {
        if is_empty(entry) {
            return Ok(None);
        }
        let steps = Way::Steps(entry.steps);
        let done = self.enter(alloc, entry.number, steps)?;
        Ok(missing(done, entry.steps))
    }

    // Who is taken for a worker: the first one that is ready and that the plan maps to it, or else the first one that
    // is ready. Where the plan maps all to the first worker, or none to this one, that is the first one.
    fn choose_for(&mut self, alloc: Global, worker: u32) -> Result<Option<u32>, NoMemory>
        ensures chosen { IfOk result (λ r. r ≡ taken_for worker self.old) }
        ensures same { self.new ≡ self.old }
    {
        if self.shares.is_whole(&self.setup) || self.setup.workers <= worker {
            let queue = &self.standing.player.able.numbers;
            return Ok(choose_ready(queue, self.out.as_slice(), 0));
        }
        self.standing.revive(alloc, &self.program)?;
        self.shares.make(alloc, &self.standing.player, &self.setup)?;
        let queue = &self.standing.player.able.numbers;
        Ok(self.shares.choose(worker, queue, self.out.as_slice()))
    }

    /// Takes a process out for a worker, so that its piece can be made outside, from a copy of it: the first one that
    /// is ready and that the plan maps to this worker, or else the first one that is ready. None where no piece can be
    /// made, for the turns are spent or nobody is ready; then nothing changes.
    ///
    /// # Errors
    /// `NoMemory` is want of memory, and changes nothing.
    pub fn take(&mut self, alloc: Global, worker: u32) -> Result<Option<Piece>, NoMemory>
        ensures taken { IfOk result
            (λ r. IfSome r (λ p. TakesTo worker p.process (place_in p.path) p.start.value self.old self.new)) }
        ensures idle { IfOk result (λ r. r ≡ None → IsIdle self.old × (self.new ≡ self.old)) }
        ensures stays { OnErr result (self.new ≡ self.old) }
    {
        if is_over(self.standing.used, self.setup.turns) {
            return Ok(None);
        }
        match self.choose_for(alloc, worker)? {
            None => Ok(None),
            Some(number) => {
                let piece = self.hand_out(alloc, number)?;
                Ok(Some(piece))
            }
        }
    }

    // Takes a process out that is ready.
    fn hand_out(&mut self, alloc: Global, number: u32) -> Result<Piece, NoMemory>
        requires { Among number (ready_of self.old) }
        ensures process { IfOk result (λ p. p.process ≡ number) }
        ensures path { IfOk result (λ p. slice_get (stand_of self.old).places number ≡ Some (place_in p.path)) }
        ensures own { IfOk result (λ p. IsBodyOf self.old.program (stand_of self.old) number p.start.value) }
        ensures taken { IfOk result (λ p. self.new ≡ taken number p.start.value self.old) }
        ensures stays { OnErr result (self.new ≡ self.old) }
    {
        self.standing.revive(alloc, &self.program)?;
        let Start { start, kept, path } = start_of(alloc, &self.standing.player.net, number)?;
        let ready = self.standing.player.able.numbers.len();
        let heavy = is_worth(self.setup.workers, ready, self.heavy.as_slice(), number);
        let slice = slice_for(self.setup.slice, body_words(&start), heavy);
        self.out.push(Taken {
            number,
            start: kept,
        })?;
        Ok(Piece {
            process: number,
            path,
            start,
            slice,
        })
    }

    /// Makes a piece in place for a worker, where nothing is gained outside: of the process that stays at home with it,
    /// or of the one that would be taken for it, where this is light (its last piece didn't use up its slice, or it
    /// hasn't made one), no other worker could play another process meanwhile, or its body is so large that it stays at
    /// home. False where that one goes out, or where no piece can be made; then nothing changes. A slice at home is as
    /// long as the setup says, or longer.
    ///
    /// # Errors
    /// `NoMemory` is want of memory, and changes nothing.
    pub fn turn_light(&mut self, alloc: Global, worker: u32) -> Result<bool, NoMemory>
        ensures turned { IfOk result (λ r. r ≡ true → TurnsInside self.old self.new) }
        ensures none { IfOk result (λ r. r ≡ false → self.new ≡ self.old) }
        ensures stays { OnErr result (self.new ≡ self.old) }
    {
        if is_over(self.standing.used, self.setup.turns) {
            return Ok(false);
        }
        if self.turn_home(alloc, worker)? {
            return Ok(true);
        }
        self.turn_here(alloc, worker)
    }

    // Makes a piece of the process that stays at home with a worker. False where none does any more.
    fn turn_home(&mut self, alloc: Global, worker: u32) -> Result<bool, NoMemory>
        requires { cost_of self.old ≤ self.old.setup.turns }
        ensures turned { IfOk result (λ r. r ≡ true → TurnsInside self.old self.new) }
        ensures none { IfOk result (λ r. r ≡ false → self.new ≡ self.old) }
        ensures stays { OnErr result (self.new ≡ self.old) }
    {
        let Some(home) = home_of(self.home, worker) else {
            return Ok(false);
        };
        self.home = None;
        if is_out(self.out.as_slice(), home.number) || self.is_crowded(home.number) {
            return Ok(false);
        }
        self.promise();
        let slice = self.setup.slice.max(HOME_SLICE);
        let steps = self.enter(alloc, home.number, Way::Slice(slice))?;
        self.home = home_behind(home, steps, slice);
        Ok(steps != 0)
    }

    // Makes a piece of the process that would be taken for a worker, where it doesn't go out.
    fn turn_here(&mut self, alloc: Global, worker: u32) -> Result<bool, NoMemory>
        requires { cost_of self.old ≤ self.old.setup.turns }
        ensures turned { IfOk result (λ r. r ≡ true → TurnsInside self.old self.new) }
        ensures none { IfOk result (λ r. r ≡ false → self.new ≡ self.old) }
        ensures stays { OnErr result (self.new ≡ self.old) }
    {
        match self.choose_for(alloc, worker)? {
            None => Ok(false),
            Some(number) => {
                if !self.stays_inside(worker, number) {
                    return Ok(false);
                }
                let slice = Way::Slice(self.setup.slice);
                let steps = self.enter(alloc, number, slice)?;
                Ok(steps != 0)
            }
        }
    }

    // Whether the piece of a process is worth being made outside: its last one used up its slice, and another worker
    // could play another process meanwhile.
    fn goes_out(&self, number: u32) -> bool {
        let ready = self.standing.player.able.numbers.len();
        is_worth(self.setup.workers, ready, self.heavy.as_slice(), number)
    }

    // The first one that is ready beside this one.
    fn ready_beside(&self, number: u32) -> Option<u32> {
        let queue = &self.standing.player.able.numbers;
        ready_beside(queue, self.out.as_slice(), number)
    }

    // Whether the first one that is ready beside this one is light, and so is to be played in place.
    fn is_crowded(&self, number: u32) -> bool {
        match self.ready_beside(number) {
            Some(other) => !is_heavy(self.heavy.as_slice(), other),
            None => false,
        }
    }

    // Whether the piece of a process is made in place: nothing is gained outside, and then nobody else stays at home;
    // or it is at home; or it comes home to this worker, as nobody else is there, its body is large, and no light one
    // waits.
    fn stays_inside(&mut self, worker: u32, number: u32) -> bool
        ensures { self.new ≡ self.old }
    {
        if !self.goes_out(number) {
            self.home = None;
            return true;
        }
        if let Some(home) = self.home {
            return home.number == number;
        }
        if self.is_crowded(number) {
            return false;
        }
        let net = &self.standing.player.net;
        self.home = home_for(net, worker, number, self.setup.slice);
        self.home.is_some()
    }

    /// Whether a process stays at home with a worker, while another one is ready.
    pub(crate) fn offers(&self, worker: u32) -> bool {
        match home_of(self.home, worker) {
            Some(home) => self.ready_beside(home.number).is_some(),
            None => false,
        }
    }

    /// Plays what came of a piece that was made outside, as one entry: its statements, and one step more where that
    /// concerns others and the process can make it. What wasn't made of a process that is out, from the body with which
    /// it was taken, is a stranger; then the process, if it is out, is ready again, behind the others.
    ///
    /// # Errors
    /// `NoMemory` is want of memory; it changes nothing, and what came of the piece is handed back.
    pub fn give(&mut self, alloc: Global, done: Done) -> Result<Given, (Done, NoMemory)>
        ensures given { IfOk result (λ g. GivenTo done self.old self.new g) }
        ensures back { IfErr result (λ e. e.0 ≡ done) }
        ensures stays { OnErr result (self.new ≡ self.old) }
    {
        match self.given(alloc, &done) {
            Ok(given) => Ok(given),
            Err(want) => Err((done, want)),
        }
    }

    // What comes of a piece that was made outside.
    fn given(&mut self, alloc: Global, done: &Done) -> Result<Given, NoMemory>
        ensures given { IfOk result (λ g. GivenTo done.now self.old self.new g) }
        ensures stays { OnErr result (self.new ≡ self.old) }
    {
        if is_over(self.standing.used, self.setup.turns) {
            return Ok(Given::Over);
        }
        self.promise();
        let number = done.process();
        if !is_taken(self.out.as_slice(), done) {
            put_back(&mut self.standing.player.able, &mut self.out, number);
            self.shares.forget();
            return Ok(Given::Stranger);
        }
        self.enter(alloc, number, Way::Given(done))?;
        Ok(Given::Played)
    }

    // Makes steps of the process of a number, as they are asked for, which are an entry more: how many. None where it
    // can't step; then nothing changes. The process isn't out then.
    fn enter(&mut self, alloc: Global, number: u32, way: Way) -> Result<u32, NoMemory>
        requires some { IsAsked way }
        requires going { cost_of self.old ≤ self.old.setup.turns }
        ensures none { result ≡ Ok 0
            → (self.new ≡ self.old)
            × (can_at self.old.program (stand_of self.old).state (stand_of self.old).places number ≡ false) }
        ensures made { IfOk result (λ steps. 1 ≤ steps → EntersTo way.entry number steps self.old self.new) }
        ensures stays { OnErr result (self.new ≡ self.old) }
    {
        let left = self.shares.leave(&self.standing, &self.setup, number);
        let queued = self.standing.player.able.numbers.len();
        let steps = self.standing.make(alloc, &self.program, number, way)?;
        if steps == 0 {
            return Ok(0);
        }
        let player = &self.standing.player;
        self.shares
            .settle(left, player, &self.setup, queued.saturating_sub(1));
        weigh(&mut self.heavy, number, steps >= self.setup.slice);
        forget(&mut self.out, number);
        Ok(steps)
    }

    /// All processes that are out are ready again, behind the others, in the order of their numbers. Takes no memory.
    pub fn recall(&mut self)
        ensures { CallsBack self.old self.new }
    {
        call_back(&mut self.standing.player.able, &mut self.out);
        self.shares.forget();
    }

    /// The schedule.
    pub fn history(&self) -> &History
        ensures { result.now ≡ self.now.history }
    {
        &self.standing.player.net.history
    }

    /// The paths of the processes, in the order of starting.
    pub fn paths(&self) -> &[Arc<Path>]
        ensures { places_of result.now ≡ (stand_of self.now).places }
    {
        self.standing.paths()
    }

    /// What the schedule costs.
    pub fn used(&self) -> u64
        ensures { result ≡ cost_of self.now }
    {
        self.standing.used
    }

    /// What a run shows that ended here.
    ///
    /// # Errors
    /// `NoMemory` is want of memory.
    pub fn outcome(&self, alloc: Global) -> Result<Outcome, NoMemory>
        ensures { IfOk result (λ o. o ≡ outcome_of self.now.program (cost_of self.now) (stand_of self.now).state) }
    {
        self.standing.outcome(alloc, &self.program)
    }

    /// The schedule, and the paths of the processes. Takes no memory.
    pub fn parts(self) -> (History, Vec<Arc<Path>>)
        ensures history { result.0 ≡ self.history }
        ensures paths { places_of result.1.items ≡ (stand_of self).places }
    {
        let Table {
            program: _program,
            setup: _setup,
            standing,
            out: _out,
            shares: _shares,
            heavy: _heavy,
            home: _home,
        } = self;
        standing.into_parts()
    }
}
