//! The children of processes: those that start, those that are waited for, and those that are joined.

ghost use Rattle.std.specs.Prelude.{◌≡◌, ◌++◌, ◌∷◌, ◌+◌, ◌<◌, ◌≤◌, ℕ, true, false, is_some, List, [], length, map, Some, None, option_map, option_to_list, IfOk, OnOk};
ghost use Rattle.std.specs.FinMap.{get, insert};
ghost use Rattle.std.specs.List.{AllByRecursion};
ghost use Rattle.fm_finmap.specs.Changes.{alter, alters};
ghost use Rattle.fm_finmap.specs.Rows.{numbered_map, place_at};
ghost use Rattle.fm_net.specs.Machine.{Place, State, child, child_changes, gathered, start_changes};
ghost use Rattle.fm_net.specs.Starts.{child_places};
ghost use Rattle.fm_net_procs.specs.declared.entries.Entry as declared_entry;
ghost use Rattle.fm_net_procs.specs.Awaited.{AreKnown, EndedSoFar, HasOneLeft, HaveEnded, IsAwaited, child_ended};
ghost use Rattle.fm_net_procs.specs.Kept.{AreChildren, AreFamilies, AreFamiliesBut, AreToldBut, HasFamily, count_awaited};
ghost use Rattle.fm_net_procs.specs.Readings.{IsActor, actor_place, ended_at, order_of, proc_in, procs_of};

use crate::entries::{Actor, Entries, Entry};
use crate::process::Proc;
use fm_base::NoMemory;
use fm_net::{Endings, Family, child_path, count_ended, number_behind};
use std::alloc::Global;
use std::sync::Arc;

/// What is known of the children that a process waits for.
#[derive(Clone, Copy)]
pub struct Awaited {
    /// How many of them are known to have ended, from the first on.
    pub ended: usize,
    /// Whether it waits for one of them still.
    pub waits: bool,
}

impl<L: Drop, P: Proc<Look = L>> Endings for Entries<P, L> {
    ghost use Rattle.fm_net_procs.specs.Readings.{over_in};

    ghost over = { λ x n. over_in P.over x n };

    fn is_over(&self, number: u32) -> bool {
        match self.rows.get(number) {
            Some(entry) => entry.process.has_ended(),
            None => false,
        }
    }
}

impl<L: Drop, P: Proc<Look = L>> Entry<P, L> {
    /// The children that the process waits for.
    pub fn family(&self) -> Family
        ensures first { result.first ≡ self.now.first_child }
        ensures count { (p : P.Program) → result.count ≡ count_awaited (P.awaits (proc_in (P.seen p) self.now)) }
    {
        Family::new(self.first_child, self.process.kid_count())
    }
}

impl<L: Drop, P: Proc<Look = L>> Entries<P, L> {
    /// Whether the process of a number has ended.
    pub fn has_ended(&self, number: u32) -> bool
        ensures { (p : P.Program) (q : Place) → place_at self.now.rows number ≡ Some q
            → result ≡ ended_at (P.language p).has_ended (get (procs_of (P.seen p) self.now) q) }
    {
        self.is_over(number)
    }

    /// How many of some children have ended, from the first on, where so many are known to have.
    pub fn count_ended(&self, family: Family, from: usize) -> Result<usize, NoMemory>
        ensures within { IfOk result (λ r. from ≤ family.count → r ≤ family.count) }
        ensures ended { IfOk result (λ r. (p : P.Program) (q : Place) (b : ℕ)
            → AreChildren (order_of self.now) family.first q b family.count
            → is_some (gathered (P.language p).has_ended (procs_of (P.seen p) self.now) q b 1 from) ≡ true
            → is_some (gathered (P.language p).has_ended (procs_of (P.seen p) self.now) q b 1 r) ≡ true) }
        ensures not_all { IfOk result (λ r. (p : P.Program) (q : Place) (b : ℕ)
            → AreChildren (order_of self.now) family.first q b family.count
            → r < family.count
            → is_some (gathered (P.language p).has_ended (procs_of (P.seen p) self.now) q b 1 family.count) ≡ false) }
        ensures next { IfOk result (λ r. (p : P.Program) (q : Place) (b : ℕ)
            → AreChildren (order_of self.now) family.first q b family.count
            → r < family.count
            → child_ended (P.language p).has_ended (procs_of (P.seen p) self.now) q b (r + 1) ≡ false) }
        ensures so_far { IfOk result (λ r. (p : P.Program) (q : Place) (b : ℕ)
            → AreChildren (order_of self.now) family.first q b family.count
            → HaveEnded (child_ended (P.language p).has_ended (procs_of (P.seen p) self.now) q) b family.count from
            → EndedSoFar (child_ended (P.language p).has_ended (procs_of (P.seen p) self.now) q) b family.count r) }
    {
        count_ended(self, family, from)
    }

    /// Whether children have all ended.
    pub fn have_ended(&self, family: Family) -> Result<bool, NoMemory>
        ensures { IfOk result (λ r. (p : P.Program) (q : Place) (b : ℕ)
            → AreChildren (order_of self.now) family.first q b family.count
            → r ≡ is_some (gathered (P.language p).has_ended (procs_of (P.seen p) self.now) q b 1 family.count)) }
    {
        let ended = self.count_ended(family, 0)?;
        Ok(ended == family.count)
    }

    /// The children that the process of a number waits for.
    pub fn family(&self, number: u32) -> Family
        ensures count { (p : P.Program) (q : Place) (y : P.Seen)
            → place_at self.now.rows number ≡ Some q → get (procs_of (P.seen p) self.now) q ≡ Some y
            → result.count ≡ count_awaited (P.awaits y) }
        ensures first { (p : P.Program) (q : Place) (y : P.Seen)
            → place_at self.now.rows number ≡ Some q → get (procs_of (P.seen p) self.now) q ≡ Some y
            → AreFamilies (P.seen p) P.awaits self.now → HasFamily (order_of self.now) q (P.awaits y) result.first }
    {
        match self.rows.get(number) {
            Some(entry) => entry.family(),
            None => Family::new(0, 0),
        }
    }

    /// What is known of the children that the process of a number waits for, where so many of them, from the first on,
    /// are known to have ended.
    pub fn awaited(&self, number: u32, before: usize) -> Result<Awaited, NoMemory>
        ensures told { IfOk result (λ r. (p : P.Program) (q : Place) (y : P.Seen)
            → AreFamilies (P.seen p) P.awaits self.now → place_at self.now.rows number ≡ Some q
            → get (procs_of (P.seen p) self.now) q ≡ Some y
            → AreKnown (child_ended (P.language p).has_ended (procs_of (P.seen p) self.now) q) (P.awaits y) before
            → IsAwaited (child_ended (P.language p).has_ended (procs_of (P.seen p) self.now) q) (P.awaits y) r) }
        ensures left { IfOk result (λ r. (p : P.Program) (q : Place) (y : P.Seen)
            → AreFamilies (P.seen p) P.awaits self.now → place_at self.now.rows number ≡ Some q
            → get (procs_of (P.seen p) self.now) q ≡ Some y → r.waits ≡ true
            → HasOneLeft (child_ended (P.language p).has_ended (procs_of (P.seen p) self.now) q) (P.awaits y)) }
    {
        let family = self.family(number);
        let ended = self.count_ended(family, before)?;
        Ok(Awaited {
            ended,
            waits: ended < family.count,
        })
    }

    /// The number of the block that a process starts next.
    pub fn next_block(&self, number: u32) -> u32
        ensures { (p : P.Program) (q : Place) (y : P.Seen) → place_at self.now.rows number ≡ Some q
            → get (procs_of (P.seen p) self.now) q ≡ Some y → result ≡ (P.language p).next_block y }
    {
        match self.rows.get(number) {
            Some(entry) => entry.process.next_block(),
            None => 0,
        }
    }

    // Keeps the number of the first child of a process.
    fn keep_first(&mut self, actor: &Actor, first: u32)
        requires { IsActor self.old actor.now }
        ensures processes { (p : P.Program) → procs_of (P.seen p) self.new ≡ procs_of (P.seen p) self.old }
        ensures order { order_of self.new ≡ order_of self.old }
        ensures told { (p : P.Program) → AreToldBut (P.seen p) (P.IsNext p) (actor_place actor.now) self.old
            → AreToldBut (P.seen p) (P.IsNext p) (actor_place actor.now) self.new }
        ensures families { (p : P.Program) → AreFamiliesBut (P.seen p) P.awaits (actor_place actor.now) self.old
            → AreFamiliesBut (P.seen p) P.awaits (actor_place actor.now) self.new }
        ensures first { (e : declared_entry.Entry P L)
            → get (numbered_map self.new.rows) (actor_place actor.now) ≡ Some e
            → e.first_child ≡ first }
    {
        match self.rows.get_mut(actor.number) {
            Some(entry) => entry.first_child = first,
            None => {}
        }
    }

    // Starts the child at this place, from 0, among those of a block.
    fn start(
        &mut self,
        alloc: Global,
        program: &P::Program,
        work: &mut P::Work,
        actor: &Actor,
        block: u32,
        place: usize,
        process: P,
    ) -> Result<(), NoMemory>
        requires { get (procs_of (P.seen program.now) self.old) (child (actor_place actor.now) block (place + 1))
            ≡ None }
        ensures entries { OnOk result ((e : declared_entry.Entry P L)
            → get (numbered_map self.new.rows) (actor_place actor.now) ≡ Some e
            → get (numbered_map self.old.rows) (actor_place actor.now) ≡ Some e) }
        ensures processes { OnOk result (procs_of (P.seen program.now) self.new
            ≡ insert (procs_of (P.seen program.now) self.old) (child (actor_place actor.now) block (place + 1))
            (P.seen program.now process)) }
        ensures order { OnOk result
            (order_of self.new ≡ order_of self.old ++ child (actor_place actor.now) block (place + 1) ∷ []) }
        ensures fits { OnOk result
            ((s : State P.Seen) → P.Fits program.now work.old s → P.Fits program.now work.new s) }
        ensures told { OnOk result ((own : Place) → AreToldBut (P.seen program.now) (P.IsNext program.now) own self.old
            → AreToldBut (P.seen program.now) (P.IsNext program.now) own self.new) }
        ensures families { OnOk result ((own : Place) → P.awaits (P.seen program.now process) ≡ None
            → AreFamiliesBut (P.seen program.now) P.awaits own self.old
            → AreFamiliesBut (P.seen program.now) P.awaits own self.new) }
    {
        let at = child_path(alloc, &actor.path, block, place)?;
        let path = Arc::new(alloc, at)?;
        let next = process.look(alloc, program, work)?;
        let first_child = 0;
        self.push(
            path,
            Entry {
                process,
                next,
                first_child,
            },
        )
    }

    /// Starts children in the block of a process, in order.
    pub fn start_all(
        &mut self,
        alloc: Global,
        program: &P::Program,
        work: &mut P::Work,
        actor: &Actor,
        block: u32,
        children: Vec<P>,
    ) -> Result<(), NoMemory>
        requires actor { IsActor self.old actor.now }
        requires new { (i : ℕ)
            → get (procs_of (P.seen program.now) self.old) (child (actor_place actor.now) block i) ≡ None }
        requires run { AllByRecursion (λ (y : P.Seen). P.awaits y ≡ None) (map (P.seen program.now) children.items) }
        ensures told { OnOk result (AreToldBut (P.seen program.now) (P.IsNext program.now) (actor_place actor.now)
            self.old → AreToldBut (P.seen program.now) (P.IsNext program.now) (actor_place actor.now) self.new) }
        ensures processes { OnOk result (procs_of (P.seen program.now) self.new
            ≡ alters (start_changes (actor_place actor.now) block 1 (map (P.seen program.now) children.items))
            (procs_of (P.seen program.now) self.old)) }
        ensures order { OnOk result (order_of self.new
            ≡ order_of self.old ++ child_places (actor_place actor.now) block 1 (length children.items)) }
        ensures fits { OnOk result
            ((s : State P.Seen) → P.Fits program.now work.old s → P.Fits program.now work.new s) }
        ensures families { OnOk result ((y : P.Seen)
            → get (procs_of (P.seen program.now) self.old) (actor_place actor.now) ≡ Some y
            → ((b n : ℕ) → P.awaits y ≡ Some (b, n) → (b ≡ block) × (n ≡ length children.items))
            → AreFamiliesBut (P.seen program.now) P.awaits (actor_place actor.now) self.old
            → AreFamilies (P.seen program.now) P.awaits self.new) }
    {
        let first = number_behind(0, self.rows.len())?;
        self.keep_first(actor, first);
        let mut place = 0;
        'children: for process in children {
            self.start(alloc, program, work, actor, block, place, process)?;
            place += 1;
        }
        Ok(())
    }

    /// Takes out what the process of a number leaves, which has ended.
    pub fn release(&mut self, alloc: Global, number: u32) -> Option<P::Left>
        ensures processes { (p : P.Program) (q : Place) → place_at self.old.rows number ≡ Some q
            → procs_of (P.seen p) self.new
            ≡ alter (procs_of (P.seen p) self.old) q (option_map (P.language p).emptied) }
        ensures order { order_of self.new ≡ order_of self.old }
        ensures left { (p : P.Program) (q : Place) → place_at self.old.rows number ≡ Some q
            → option_map (P.left_of p) result ≡ option_map P.left_by (get (procs_of (P.seen p) self.old) q) }
        ensures told { (p : P.Program) (own q : Place) → place_at self.old.rows number ≡ Some q
            → ended_at (P.language p).has_ended (get (procs_of (P.seen p) self.old) q) ≡ true
            → AreToldBut (P.seen p) (P.IsNext p) own self.old
            → AreToldBut (P.seen p) (P.IsNext p) own self.new }
        ensures families { (p : P.Program) → AreFamilies (P.seen p) P.awaits self.old
            → AreFamilies (P.seen p) P.awaits self.new }
    {
        let entry = match self.rows.get_mut(number) {
            Some(entry) => entry,
            None => return None,
        };
        entry.next = P::rests();
        Some(entry.process.release(alloc))
    }

    /// Takes out what the children of a family leave, which have ended, in order.
    pub fn release_all(&mut self, alloc: Global, family: Family) -> Result<Vec<P::Left>, NoMemory>
        ensures processes { OnOk result ((p : P.Program) (q : Place) (b : ℕ)
            → AreChildren (order_of self.old) family.first q b family.count
            → procs_of (P.seen p) self.new
            ≡ alters (child_changes (P.language p).emptied q b 1 family.count) (procs_of (P.seen p) self.old)) }
        ensures order { OnOk result (order_of self.new ≡ order_of self.old) }
        ensures left { IfOk result (λ v. (p : P.Program) (q : Place) (b : ℕ) (kids : List P.Seen)
            → AreChildren (order_of self.old) family.first q b family.count
            → gathered (P.language p).has_ended (procs_of (P.seen p) self.old) q b 1 family.count ≡ Some kids
            → map P.left_by kids ≡ map (P.left_of p) v.items) }
        ensures told { OnOk result ((p : P.Program) (own q : Place) (b : ℕ) (kids : List P.Seen)
            → AreChildren (order_of self.old) family.first q b family.count
            → gathered (P.language p).has_ended (procs_of (P.seen p) self.old) q b 1 family.count ≡ Some kids
            → AreToldBut (P.seen p) (P.IsNext p) own self.old
            → AreToldBut (P.seen p) (P.IsNext p) own self.new) }
        ensures families { OnOk result
            ((p : P.Program) → AreFamilies (P.seen p) P.awaits self.old → AreFamilies (P.seen p) P.awaits self.new) }
    {
        let mut all = Vec::with_capacity(alloc, family.count)?;
        'children: for place in 0..family.count {
            let number = number_behind(family.first, place)?;
            push_some(&mut all, self.release(alloc, number))?;
        }
        Ok(all)
    }
}

fn push_some<T: Drop>(all: &mut Vec<T>, left: Option<T>) -> Result<(), NoMemory>
    ensures { OnOk result (all.new.items ≡ all.old.items ++ option_to_list left) }
{
    match left {
        Some(left) => {
            all.push(left)?;
            Ok(())
        }
        None => Ok(()),
    }
}
