//! Where the children of a process stand, and how many of them have ended.

ghost use Rattle.std.specs.Prelude.{◌≡◌, ◌+◌, ℕ, Bool, IfOk};
ghost use Rattle.fm_net.specs.Endings.{IsCounted};
ghost use Rattle.fm_net.specs.Machine.{child};

use fm_base::{NoMemory, Path};
use std::alloc::Global;

/// The path of the child at this place, from 0, among those of a block.
pub fn child_path(alloc: Global, path: &Path, block: u32, place: usize) -> Result<Path, NoMemory>
    ensures { IfOk result (λ p. p ≡ child path.now block (place + 1)) }
{
    match u32::try_from(place) {
        Ok(before) => match before.checked_add(1) {
            Some(index) => path.child(alloc, block, index),
            None => Err(NoMemory),
        },
        Err(_) => Err(NoMemory),
    }
}

/// The number of the process so many behind another one.
pub fn number_behind(first: u32, place: usize) -> Result<u32, NoMemory>
    ensures { IfOk result (λ n. n ≡ first + place) }
{
    match u32::try_from(place) {
        Ok(place) => first.checked_add(place).ok_or(NoMemory),
        Err(_) => Err(NoMemory),
    }
}

/// The children that a process waits for, whose numbers are one behind the other.
#[derive(Clone, Copy)]
pub struct Family {
    /// The number of the first one.
    pub first: u32,
    /// How many they are.
    pub count: usize,
}

impl Family {
    /// So many from a number on.
    pub fn new(first: u32, count: usize) -> Family
        ensures { result ≡ record { first = first; count = count } }
    {
        Family { first, count }
    }
}

/// Processes by their numbers.
pub trait Endings {
    /// Whether the process of a number has ended.
    ghost over: { Self → ℕ → Bool };

    /// Whether the process of a number has ended.
    fn is_over(&self, number: u32) -> bool
        ensures { result ≡ over self.now number };
}

/// How many of some children have ended, from the first on, where so many are known to have.
pub fn count_ended<E: Endings>(all: &E, family: Family, before: usize) -> Result<usize, NoMemory>
    ensures { IfOk result (λ n. IsCounted (E.over all.now) family.first family.count before n) }
{
    let mut place = before;
    'children: while place < family.count {
        let number = number_behind(family.first, place)?;
        if !all.is_over(number) {
            return Ok(place);
        }
        place += 1;
    }
    Ok(place)
}
