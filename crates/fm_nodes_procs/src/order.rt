//! Processes in path order.

ghost use Rattle.std.specs.Prelude.{◌↔◌, ◌<◌, length, IsSome};

use fm_base::{NoMemory, Path, order_of_paths};
use std::alloc::Global;
use std::sync::Arc;

/// The numbers of processes in the order of their paths, with a gap at the place where the last one was put. The next
/// one is put there once the gap has moved to its place. Rounds put numbers in path order, so the gap passes each
/// number twice in a round at most, and a start costs no pass over all processes.
pub(crate) struct Order {
    /// The numbers in front of the gap.
    before: Vec<u32>,
    /// Those behind it, the last one first.
    behind: Vec<u32>,
}

impl Drop for Order {
    fn drop(self) {
        let Order {
            before: _before,
            behind: _behind,
        } = self;
    }
}

// Whether the path of a number comes before this one.
fn is_before(paths: &[Arc<Path>], number: u32, path: &Path) -> bool {
    match paths.get(number as usize) {
        Some(other) => order_of_paths(other, path).is_lt(),
        None => false,
    }
}

// Of numbers in path order the first one whose path doesn't come before this one.
fn first_from(numbers: &[u32], paths: &[Arc<Path>], path: &Path) -> Option<u32> {
    let place = numbers.partition_point(|number: &u32| -> bool { is_before(paths, *number, path) });
    numbers.get(place).copied()
}

// The same, of numbers in the reverse order.
fn last_from(numbers: &[u32], paths: &[Arc<Path>], path: &Path) -> Option<u32> {
    let count = numbers.partition_point(|number: &u32| -> bool {
        !is_before(paths, *number, path)
    });
    numbers.get(count.checked_sub(1)?).copied()
}

impl Order {
    /// No number. Takes no memory.
    pub(crate) fn new(alloc: Global) -> Order {
        Order {
            before: Vec::new(alloc),
            behind: Vec::new(alloc),
        }
    }

    // How many numbers there are.
    fn len(&self) -> usize {
        self.before.len().saturating_add(self.behind.len())
    }

    // Moves the gap in front of those numbers whose paths don't come before this one.
    fn move_back(&mut self, paths: &[Arc<Path>], path: &Path) -> Result<(), NoMemory> {
        'numbers: for _number in 0..self.before.len() {
            let Some(last) = self.before.last().copied() else {
                return Ok(());
            };
            if is_before(paths, last, path) {
                return Ok(());
            }
            self.behind.push(last)?;
            self.before.pop();
        }
        Ok(())
    }

    // Moves the gap behind those numbers whose paths come before this one.
    fn move_on(&mut self, paths: &[Arc<Path>], path: &Path) -> Result<(), NoMemory> {
        'numbers: for _number in 0..self.behind.len() {
            let Some(next) = self.behind.last().copied() else {
                return Ok(());
            };
            if !is_before(paths, next, path) {
                return Ok(());
            }
            self.before.push(next)?;
            self.behind.pop();
        }
        Ok(())
    }

    // Puts a number at the place of its path.
    fn rank(&mut self, paths: &[Arc<Path>], number: usize) -> Result<(), NoMemory> {
        let Ok(own) = u32::try_from(number) else {
            return Err(NoMemory);
        };
        let Some(path) = paths.get(number) else {
            return Err(NoMemory);
        };
        self.move_back(paths, path)?;
        self.move_on(paths, path)?;
        self.before.push(own)?;
        Ok(())
    }

    /// Puts the numbers that lack at the places of their paths. Where memory is wanting they lack on.
    pub(crate) fn rank_all(&mut self, paths: &[Arc<Path>]) {
        'numbers: for number in self.len()..paths.len() {
            match self.rank(paths, number) {
                Ok(()) => {}
                Err(NoMemory) => return,
            }
        }
    }

    /// The number at which a process is looked for first: that of its path, if it is in order.
    pub(crate) fn likely_number(&self, paths: &[Arc<Path>], path: &Path) -> usize {
        let found = match first_from(self.before.as_slice(), paths, path) {
            Some(number) => Some(number),
            None => last_from(self.behind.as_slice(), paths, path),
        };
        found.unwrap_or(0) as usize
    }

    // The number at this place.
    fn number_at(&self, place: usize) -> Option<u32> {
        match place.checked_sub(self.before.len()) {
            Some(further) => {
                let left = self.behind.len().checked_sub(further)?;
                self.behind.get(left.checked_sub(1)?).copied()
            }
            None => self.before.get(place).copied(),
        }
    }

    /// The path at this place in path order; behind those that are in order, by the number.
    pub(crate) fn path_at<'a>(&self, paths: &'a [Arc<Path>], place: usize) -> Option<&'a Path>
        ensures { IsSome result ↔ (place < length paths.now) }
    {
        let own = paths.get(place)?;
        let path: &Path = match self.number_at(place) {
            Some(number) => match paths.get(number as usize) {
                Some(path) => path,
                None => own,
            },
            None => own,
        };
        Some(path)
    }
}
