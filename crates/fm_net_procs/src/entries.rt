//! The processes of a run, by number.

ghost use Rattle.std.specs.Prelude.{◌≡◌, ◌∷◌, ◌++◌, true, is_some, [], Some, None, IfOk, OnOk, option_map};
ghost use Rattle.std.specs.Arc.{arc_value};
ghost use Rattle.std.specs.FinMap.{get, insert, empty};
ghost use Rattle.std.specs.Option.{option_copied};
ghost use Rattle.fm_net.specs.Machine.{Place, State};
ghost use Rattle.fm_finmap.specs.Rows.{numbered_map, place_at, places_in};
ghost use Rattle.fm_net_procs.specs.Kept.{AreFamilies, AreFamiliesBut, AreTold, AreToldBut, HasFamily, IsTold};
ghost use Rattle.fm_net_procs.specs.Readings.{IsActor, actor_place, order_of, proc_in, procs_of};

use crate::process::Proc;
use fm_base::{NoMemory, Path};
use fm_finmap::PathTable;
use std::alloc::Global;
use std::mem::replace;
use std::sync::Arc;

/// A process, and what is kept of it.
#[derive(Drop)]
pub struct Entry<P, L> {
    /// The process.
    pub process: P,
    /// What it does next.
    pub next: L,
    /// The number of the first child of the block that it started last.
    pub first_child: u32,
}

/// The processes by their numbers, in the order of starting, also those that have ended. Contracts see a finite map by
/// place (`procs_of`), and the places in their order (`order_of`).
#[derive(Drop)]
pub struct Entries<P, L> {
    /// The processes, each at its path.
    pub rows: PathTable<Entry<P, L>>,
}

/// A process that makes a piece, by its number and its path.
#[derive(Drop)]
pub struct Actor {
    /// Its number.
    pub number: u32,
    /// Its path.
    pub path: Arc<Path>,
}

impl<L: Drop, P: Proc<Look = L>> Entries<P, L> {
    /// No process. Takes no memory.
    pub fn new(alloc: Global) -> Entries<P, L>
        ensures processes { (p : P.Program) → procs_of (P.seen p) result ≡ empty }
        ensures order { order_of result ≡ [] }
        ensures told { (p : P.Program) → AreTold (P.seen p) (P.IsNext p) result }
        ensures families { (p : P.Program) → AreFamilies (P.seen p) P.awaits result }
    {
        Entries {
            rows: PathTable::new(alloc),
        }
    }

    /// The paths of the processes alone, in the order of starting.
    pub fn into_paths(self) -> Vec<Arc<Path>>
        ensures { places_in result.items ≡ order_of self }
    {
        let Entries { rows } = self;
        rows.into_paths()
    }

    /// The process of a number.
    pub fn process(&self, number: u32) -> Option<&P>
        ensures { (p : P.Program) (q : Place) → place_at self.now.rows number ≡ Some q
            → option_map (P.seen p) (option_copied result) ≡ get (procs_of (P.seen p) self.now) q }
    {
        match self.rows.get(number) {
            Some(entry) => Some(&entry.process),
            None => None,
        }
    }

    /// A copy of the path of a number, if it's one of a process.
    pub fn path_of(&self, alloc: Global, number: u32) -> Result<Option<Path>, NoMemory>
        ensures { IfOk result (λ o. o ≡ place_at self.now.rows number) }
    {
        match self.rows.path(number) {
            Some(path) => Ok(Some(path.copy(alloc)?)),
            None => Ok(None),
        }
    }

    /// The process of a number, as one that makes a piece.
    pub fn actor(&self, number: u32) -> Result<Actor, NoMemory>
        requires { is_some (place_at self.now.rows number) ≡ true }
        ensures actor { IfOk result (λ a. IsActor self.now a) }
        ensures number { IfOk result (λ a. a.number ≡ number) }
    {
        match self.rows.path(number) {
            Some(path) => {
                let path = Arc::try_clone(path)?;
                Ok(Actor { number, path })
            }
            None => unreachable!(),
        }
    }

    /// Puts a process at a new path.
    pub fn push(&mut self, path: Arc<Path>, entry: Entry<P, L>) -> Result<(), NoMemory>
        requires { get (numbered_map self.old.rows) (arc_value path) ≡ None }
        ensures entries { OnOk result
            (numbered_map self.new.rows ≡ insert (numbered_map self.old.rows) (arc_value path) entry) }
        ensures processes { OnOk result ((p : P.Program)
            → procs_of (P.seen p) self.new
            ≡ insert (procs_of (P.seen p) self.old) (arc_value path) (proc_in (P.seen p) entry)) }
        ensures order { OnOk result (order_of self.new ≡ order_of self.old ++ arc_value path ∷ []) }
        ensures told { OnOk result ((p : P.Program) (own : Place)
            → IsTold (P.seen p) (P.IsNext p) entry → AreToldBut (P.seen p) (P.IsNext p) own self.old
            → AreToldBut (P.seen p) (P.IsNext p) own self.new) }
        ensures families { OnOk result ((p : P.Program) (own : Place)
            → HasFamily (order_of self.new) (arc_value path) (P.awaits (proc_in (P.seen p) entry)) entry.first_child
            → AreFamiliesBut (P.seen p) P.awaits own self.old
            → AreFamiliesBut (P.seen p) P.awaits own self.new) }
    {
        self.rows.push(path, entry)
    }

    /// Takes out what a process does next.
    pub fn take_next(&mut self, actor: &Actor) -> L
        requires { IsActor self.old actor.now }
        ensures processes { (p : P.Program) → procs_of (P.seen p) self.new ≡ procs_of (P.seen p) self.old }
        ensures order { order_of self.new ≡ order_of self.old }
        ensures told { (p : P.Program) → AreTold (P.seen p) (P.IsNext p) self.old
            → AreToldBut (P.seen p) (P.IsNext p) (actor_place actor.now) self.new }
        ensures next { (p : P.Program) (y : P.Seen) → AreTold (P.seen p) (P.IsNext p) self.old
            → get (procs_of (P.seen p) self.old) (actor_place actor.now) ≡ Some y
            → P.IsNext p y result }
        ensures families { (p : P.Program) → AreFamilies (P.seen p) P.awaits self.old
            → AreFamilies (P.seen p) P.awaits self.new }
    {
        match self.rows.get_mut(actor.number) {
            Some(entry) => replace(&mut entry.next, P::rests()),
            None => P::rests(),
        }
    }

    /// Keeps what a process does next.
    pub fn keep_next(&mut self, actor: &Actor, next: L)
        requires { IsActor self.old actor.now }
        ensures processes { (p : P.Program) → procs_of (P.seen p) self.new ≡ procs_of (P.seen p) self.old }
        ensures order { order_of self.new ≡ order_of self.old }
        ensures told { (p : P.Program)
            → ((y : P.Seen) → get (procs_of (P.seen p) self.old) (actor_place actor.now) ≡ Some y → P.IsNext p y next)
            → AreToldBut (P.seen p) (P.IsNext p) (actor_place actor.now) self.old
            → AreTold (P.seen p) (P.IsNext p) self.new }
        ensures families { (p : P.Program) → AreFamilies (P.seen p) P.awaits self.old
            → AreFamilies (P.seen p) P.awaits self.new }
    {
        match self.rows.get_mut(actor.number) {
            Some(entry) => entry.next = next,
            None => {}
        }
    }

    /// Looks what a process does next.
    pub fn look(
        &mut self,
        alloc: Global,
        program: &P::Program,
        work: &mut P::Work,
        actor: &Actor,
    ) -> Result<(), NoMemory>
        requires { IsActor self.old actor.now }
        ensures processes { OnOk result
            ((p : P.Program) → procs_of (P.seen p) self.new ≡ procs_of (P.seen p) self.old) }
        ensures order { OnOk result (order_of self.new ≡ order_of self.old) }
        ensures told { OnOk result (AreToldBut (P.seen program.now) (P.IsNext program.now) (actor_place actor.now)
            self.old → AreTold (P.seen program.now) (P.IsNext program.now) self.new) }
        ensures fits { OnOk result
            ((s : State P.Seen) → P.Fits program.now work.old s → P.Fits program.now work.new s) }
        ensures families { OnOk result
            ((p : P.Program) → AreFamilies (P.seen p) P.awaits self.old → AreFamilies (P.seen p) P.awaits self.new) }
    {
        let next = match self.rows.get(actor.number) {
            Some(entry) => entry.process.look(alloc, program, work)?,
            None => return Ok(()),
        };
        self.keep_next(actor, next);
        Ok(())
    }
}
