//! Units at work.

ghost use Rattle.std.specs.Prelude.{◌≡◌, OnErr, OnOk};
ghost use Rattle.std.specs.FinMap.{get, insert};
ghost use Rattle.std.specs.Option.{option_map};
ghost use Rattle.fm_mean.specs.Calls.{new_frame};
ghost use Rattle.fm_mean.specs.Fits.{variables_of};
ghost use Rattle.fm_rules.specs.declared.program.Program.{Program};
ghost use Rattle.fm_plain_frame.specs.Frames.{frame_of, loops_of, trips_of};
ghost use Rattle.fm_plain_frame.specs.Memory.{values_of};

use crate::word::Word;
use fm_base::{Machine, NoMemory, Seq};
use fm_mean::Back;
use std::alloc::Global;
use std::collections::BTreeMap;

/// A loop at work.
#[derive(Clone, Copy)]
pub struct Trips {
    /// How many trips are left behind the next one, or none where no trip is left.
    pub behind: Option<u64>,
    /// What is added to the variable.
    pub by: i64,
}

/// A process that starts with its block.
#[derive(Drop)]
pub struct Start {
    /// The number of its unit.
    pub unit: u32,
    /// The memory with which its frame begins.
    pub memory: Vec<Word>,
    /// What it gives back in the end.
    pub backs: Seq<Back>,
    /// Its machine.
    pub machine: Machine,
    /// Its node.
    pub node: u32,
}

/// A unit at work.
#[derive(Drop)]
pub struct Frame {
    /// The number of the unit, from 0.
    pub unit: u32,
    /// The entry that it does next.
    pub entry: u32,
    /// The words of its variables.
    pub memory: Vec<Word>,
    /// Its loops, by the entries that open them.
    pub loops: BTreeMap<u32, Trips>,
    /// The results of those references of this entry that are done.
    pub results: Vec<i64>,
    /// The starts of its open block.
    pub starts: Vec<Start>,
    /// What it gives back to the frame below.
    pub backs: Seq<Back>,
}

impl Frame {
    /// A frame at its first entry. Takes no memory.
    pub fn new(alloc: Global, unit: u32, memory: Vec<Word>, backs: Seq<Back>) -> Frame
        ensures { (p : Program)
            → frame_of p result ≡ new_frame unit (values_of (variables_of p unit) memory.items) backs }
    {
        Frame {
            unit,
            entry: 0,
            memory,
            loops: BTreeMap::new(alloc),
            results: Vec::new(alloc),
            starts: Vec::new(alloc),
            backs,
        }
    }

    /// The trips of the loop that this entry opens, if it is at work.
    pub fn trips_at(&self, opener: u32) -> Option<Trips>
        ensures { option_map trips_of result ≡ get (loops_of self.now.loops) opener }
    {
        self.loops.get(&opener).copied()
    }

    /// Gives the loop that this entry opens these trips. After want of memory the frame is as it was.
    pub fn set_trips(&mut self, opener: u32, trips: Trips) -> Result<(), NoMemory>
        ensures ok { OnOk result ((p : Program)
            → frame_of p self.new
            ≡ record (frame_of p self.old) { loops = insert (loops_of self.old.loops) opener (trips_of trips) }) }
        ensures err { OnErr result ((p : Program) → frame_of p self.new ≡ frame_of p self.old) }
    {
        self.loops.insert(opener, trips)?;
        Ok(())
    }
}
