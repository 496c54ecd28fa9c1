//! The workers, each with a lane and with ways into the lanes of the others.

ghost use Rattle.std.specs.Prelude.{◌≡◌, ◌≤◌, ◌<◌, length, IfNone};
ghost use Rattle.fm_steal_pool.specs.Workers.{HandsOn, HasPutNothing, IsBare, SameElsewhere, WasEmptyAt, WereEmpty};

use fm_base::NoMemory;
use fm_steal::{Lane, Thief, lane};
use std::alloc::Global;
use std::sync::Wait;

// How many pieces a lane takes in all.
const ROOM: usize = 65_536;

/// A worker.
#[derive(Drop)]
pub struct Worker<P> {
    /// Its number.
    pub number: u32,
    /// Its own lane.
    pub lane: Lane<P>,
    /// Its ways into the lanes of the others.
    pub others: Vec<Thief<P>>,
    /// Ways into its lane that no other worker has yet.
    pub ways: Vec<Thief<P>>,
}

impl<P> Worker<P> {
    /// The first piece of its own lane. None comes only where all that had been put there had been taken.
    pub fn first(&mut self) -> Option<P>
        ensures hands { HandsOn self.old self.new result }
        ensures same { HasPutNothing self.old self.new }
        ensures others { self.new.others ≡ self.old.others }
        ensures bare { IfNone result (IsBare self.old) }
    {
        match self.lane.pop() {
            Some((_, piece)) => Some(piece),
            None => None,
        }
    }

    /// The first piece of its own lane, or else of another worker's. None comes only where all of these were empty.
    pub fn reach<R: Wait>(&mut self, rt: &R) -> Option<P>
        ensures hands { HandsOn self.old self.new result }
        ensures same { HasPutNothing self.old self.new }
        ensures bare { IfNone result (IsBare self.old) }
        ensures empty { IfNone result (WereEmpty self.old.others.items) }
    {
        match self.first() {
            Some(piece) => Some(piece),
            None => self.steal(rt),
        }
    }

    /// The first piece of another worker's lane. It tries each: none comes only where each of these was empty.
    pub fn steal<R: Wait>(&mut self, rt: &R) -> Option<P>
        ensures hands { HandsOn self.old self.new result }
        ensures same { HasPutNothing self.old self.new }
        ensures empty { IfNone result (WereEmpty self.old.others.items) }
    {
        'others: for place in 0..self.others.len() {
            match self.steal_at(rt, place) {
                Some(piece) => return Some(piece),
                None => {}
            }
        }
        None
    }

    // The first piece of the lane to which the way at this place leads, if it has one.
    fn steal_at<R: Wait>(&mut self, rt: &R, place: usize) -> Option<P>
        requires { place < length self.old.others.items }
        ensures hands { HandsOn self.old self.new result }
        ensures same { HasPutNothing self.old self.new }
        ensures others { SameElsewhere place self.old.others.items self.new.others.items }
        ensures empty { IfNone result (WasEmptyAt place self.old.others.items) }
    {
        match self.others[place].steal(rt) {
            Some((_, piece)) => Some(piece),
            None => None,
        }
    }
}

// A worker with no way into other lanes, and with as many into its own as there are others.
fn alone<P: Drop>(alloc: Global, number: u32, count: u32) -> Result<Worker<P>, NoMemory>
    requires { (1 ≤ count) × (count ≤ 64) }
{
    let (lane, ways) = lane::<P>(alloc, ROOM, count - 1)?;
    Ok(Worker {
        number,
        lane,
        others: Vec::new(alloc),
        ways,
    })
}

// Each of the two gets a way into the other's lane.
fn meet<P: Drop>(one: &mut Worker<P>, two: &mut Worker<P>) -> Result<(), NoMemory> {
    if let Some(way) = one.ways.pop() {
        two.others.push(way)?;
    }
    if let Some(way) = two.ways.pop() {
        one.others.push(way)?;
    }
    Ok(())
}

// The new one meets all others.
fn meet_all<P: Drop>(others: &mut [Worker<P>], new: &mut Worker<P>) -> Result<(), NoMemory> {
    'others: for other in others {
        meet(other, new)?;
    }
    Ok(())
}

/// So many workers, each with a way into the lane of each other.
pub fn crew<P: Drop>(alloc: Global, count: u32) -> Result<Vec<Worker<P>>, NoMemory>
    requires { (1 ≤ count) × (count ≤ 64) }
{
    let mut made = Vec::with_capacity(alloc, count as usize)?;
    'workers: for number in 0..count {
        let mut new = alone(alloc, number, count)?;
        meet_all(made.as_mut_slice(), &mut new)?;
        made.push(new)?;
    }
    Ok(made)
}
