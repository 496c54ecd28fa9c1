//! What the owner of a lane and its thieves do.

ghost use Rattle.std.specs.Prelude.{◌≡◌, ◌-◌, ◌+◌, ◌<◌, ◌≤◌, [], ◌∷◌, ◌++◌, length, All, IfOk, IfErr, MatchResult, MatchOption, IsPermutation, vec_capacity};
ghost use Rattle.crossbeam_deque.specs.Handles.{view, worker_deque, worker_port, worker_flavor, worker_view, worker_capacity, worker_index, stealer_deque, stealer_flavor, IsPassOf};
ghost use Rattle.fm_steal.specs.Deals.{hand, AreAll, AreTaken, HasTaken, HasTicket, IsFirst, Rises, WasEmpty};
ghost use Rattle.fm_steal.specs.Lanes.{put_list, got_list, loot_list, all_loot_list, AreThievesOf, FoundEmpty, IsNewLane, AreNewThieves, IsPut, IsRefused, SameLane, SameThief, IsOwner};

use crate::hand::{Cut, Left, Owner, Popped, Put, Reach, Token, Took};
use crate::handles::{Lane, Thief};
use crossbeam_deque::Steal;
use fm_base::NoMemory;
use std::alloc::{AllocError, Global};
use std::sync::Wait;

/// An empty lane that takes so many items in all, with so many thieves. All memory that putting, taking and stealing
/// want is taken here.
pub fn lane<T: Drop>(
    alloc: Global,
    capacity: usize,
    thieves: u32,
) -> Result<(Lane<T>, Vec<Thief<T>>), NoMemory>
    requires capacity { (0 < capacity) × (capacity ≤ 65536) }
    requires thieves { thieves ≤ 63 }
    ensures lane { IfOk result (λ r. IsNewLane capacity thieves r.0) }
    ensures thieves { IfOk result (λ r. AreNewThieves thieves r.0 r.1.items) }
{
    let mut worker = Owner::fifo_as(alloc, capacity)?;
    let mut made = Vec::with_capacity(alloc, thieves as usize)?;
    let mut number = 0;
    'thieves: while number < thieves {
        made.push_reserved(thief(&mut worker)?);
        number += 1;
    }
    Ok((owner(worker, capacity as u64, thieves), made))
}

// The lane of a deque from which nothing was taken, all but so many parts of whose rights are with thieves.
fn owner<T>(worker: Owner<T>, room: u64, thieves: u32) -> Lane<T>
    requires { IsOwner worker × (worker_view worker ≡ hand (64 - thieves) [] []) × (worker_index worker ≡ 0)
        × (room ≤ worker_capacity worker) × (thieves ≤ 63) }
    ensures { (result.worker ≡ worker) × (result.room ≡ room) × (result.thieves ≡ thieves) }
{
    Lane {
        worker,
        puts: 0,
        room,
        thieves,
    }
}

// One thief more, with one part of the owner's rights.
fn thief<T>(worker: &mut Owner<T>) -> Result<Thief<T>, AllocError>
    requires { IsOwner worker.old × (1 < (worker_view worker.old).parts) }
    ensures worker { IfOk result (λ _. IsOwner worker.new × (worker_deque worker.new ≡ worker_deque worker.old)
        × (worker_index worker.new ≡ worker_index worker.old)
        × (worker_capacity worker.old ≤ worker_capacity worker.new)
        × (worker_view worker.new ≡ hand ((worker_view worker.old).parts - 1) (worker_view worker.old).put
        (worker_view worker.old).got)) }
    ensures thief { IfOk result (λ t. (stealer_deque t.stealer ≡ worker_deque worker.old) × (loot_list t ≡ [])) }
{
    let stealer = worker.stealer()?;
    let pass = worker.another::<Cut>();
    Ok(Thief { stealer, pass })
}

impl<T> Lane<T> {
    /// Puts the item in, and answers its ticket. It comes back exactly where the lane has taken as many items as it
    /// can. Takes no memory.
    pub fn put(&mut self, item: T) -> Result<u64, T>
        ensures put { MatchResult result (IsPut self.old self.new item) (IsRefused self.old self.new item) }
        ensures same { SameLane self.old self.new × (got_list self.new ≡ got_list self.old) }
    {
        if self.puts == self.room {
            return Err(item);
        }
        match self.worker.push_as::<Put>((self.puts, item)) {
            Ok(()) => {
                let ticket = self.puts;
                self.puts += 1;
                Ok(ticket)
            }
            Err(_) => unreachable!(),
        }
    }

    /// Takes the first item, with its ticket. None comes only where all that was put had been taken.
    pub fn pop(&mut self) -> Option<(u64, T)>
        ensures taken { MatchOption result
            ((got_list self.new ≡ got_list self.old) × AreTaken (put_list self.old) (got_list self.old))
            (λ p. (got_list self.new ≡ got_list self.old ++ p ∷ []) × IsFirst (got_list self.old) p
            × HasTicket (put_list self.old) p) }
        ensures same { SameLane self.old self.new × (put_list self.new ≡ put_list self.old) }
    {
        self.worker.pop_as::<Popped>()
    }

    /// Ends the lane with all its thieves, and gives what is left. What the owner took, what its thieves took and what
    /// is left is together what was put, each item once; and the tickets of each rise. At want of memory all come back.
    pub fn close(
        self,
        alloc: Global,
        thieves: Vec<Thief<T>>,
    ) -> Result<Vec<(u64, T)>, (Lane<T>, Vec<Thief<T>>, NoMemory)>
    where
        T: Drop,
        requires { AreThievesOf self thieves.items }
        ensures all { IfOk result (λ left.
            AreAll (put_list self) ((got_list self ++ all_loot_list thieves.items) ++ left.items)) }
        ensures rise { Rises (got_list self) × All (λ t. Rises (loot_list t)) thieves.items }
        ensures err { IfErr result (λ e. (e.0 ≡ self) × (e.1 ≡ thieves)) }
    {
        let Ok(room) = Vec::with_capacity(alloc, self.puts as usize) else {
            return Err((self, thieves, NoMemory));
        };
        let Lane {
            worker,
            puts: _,
            room: _,
            thieves: _,
        } = self;
        Ok(rest(gathered(worker, thieves), room))
    }
}

// Takes in what the thieves know.
fn gathered<T: Drop>(mut worker: Owner<T>, mut thieves: Vec<Thief<T>>) -> Owner<T>
    requires owner { IsOwner worker × ((worker_view worker).parts + length thieves.items ≡ 64) }
    requires thieves { All (λ t. stealer_deque t.stealer ≡ worker_deque worker) thieves.items }
    ensures owner { IsOwner result × ((worker_view result).parts ≡ 64)
        × ((worker_view result).put ≡ (worker_view worker).put) }
    ensures got { IsPermutation ((worker_view worker).got ++ all_loot_list thieves.items) (worker_view result).got }
{
    'thieves: while let Some(thief) = thieves.pop() {
        let Thief { stealer: _, pass } = thief;
        worker.absorb::<Cut>(pass);
    }
    worker
}

// Takes all that is left.
fn rest<T: Drop>(mut worker: Owner<T>, mut room: Vec<(u64, T)>) -> Vec<(u64, T)>
    requires { IsOwner worker × ((worker_view worker).parts ≡ 64) × (room.items ≡ [])
        × (length (worker_view worker).put ≤ vec_capacity room) }
    ensures { AreAll (worker_view worker).put ((worker_view worker).got ++ result.items) }
{
    let mut left = worker.len_as::<Left>();
    'items: while left > 0 {
        match worker.pop_as::<Popped>() {
            Some(pair) => room.push_reserved(pair),
            None => unreachable!(),
        }
        left -= 1;
    }
    worker.len_as::<Left>();
    room
}

impl<T> Thief<T> {
    /// Takes the first item, with its ticket. None comes only where the lane was empty. Where another thread is in the
    /// middle of taking it tries again, and so may wait for that thread.
    pub fn steal<R: Wait>(&mut self, rt: &R) -> Option<(u64, T)>
        ensures taken { MatchOption result
            ((loot_list self.new ≡ loot_list self.old) × FoundEmpty self.old)
            (λ p. (loot_list self.new ≡ loot_list self.old ++ p ∷ []) × IsFirst (loot_list self.old) p) }
        ensures same { SameThief self.old self.new }
    {
        stolen(rt, &self.stealer, &mut self.pass)
    }
}

// Tries until the deque doesn't ask for it again.
fn stolen<T, R: Wait>(rt: &R, stealer: &Reach<T>, pass: &mut Token<T>) -> Option<(u64, T)>
    requires { IsPassOf (stealer_deque stealer.now) pass.old × (stealer_flavor stealer.now ≡ 0)
        × (0 < (view pass.old).parts) }
    ensures same { IsPassOf (stealer_deque stealer.now) pass.new }
    ensures taken { MatchOption result
        ((view pass.new ≡ view pass.old) × WasEmpty (view pass.old))
        (λ p. HasTaken (view pass.old) (p ∷ []) (view pass.new)) }
{
    'tries: for _ in rt.forever() {
        match stealer.steal_as::<Took>(pass) {
            Steal::Success(pair) => return Some(pair),
            Steal::Empty => return None,
            Steal::Retry => {}
        }
    }
    unreachable!()
}
