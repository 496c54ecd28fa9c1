//! The processes on hosts.

ghost use Rattle.std.specs.Prelude.{◌≡◌, ◌↔◌, ◌<◌, ◌++◌, ◌^◌, [], ◌∷◌, Some, IfNone, IfOk, IfSome, IsSome, OnErr, OnOk, length, map, slice_get};
ghost use Rattle.std.proofs.Props.{props};
ghost use Rattle.std.specs.FinMap.{empty, get, insert};
ghost use Rattle.fm_finmap.specs.Rows.{AreDistinct, HasRows, numbered_map, places_in};
ghost use Rattle.fm_net.specs.Machine.{Place};

use crate::order::Order;
use fm_base::{NoMemory, Path, order_of_paths};
use std::alloc::Global;
use std::sync::Arc;

/// Processes at their paths, numbered from 0 in the order of starting, with room for more. Contracts see the finite map
/// by their paths (`by_path`), and the paths in the order of the numbers (`order_of`).
pub struct Processes<X> {
    pub(crate) paths: Vec<Arc<Path>>,
    pub(crate) values: Vec<X>,
    /// The numbers in the order of their paths; fewer where memory was wanting.
    order: Order,
    ghost rows: { HasRows (places_in paths.items) values.items } by { Prim.hlevel props },
    ghost few: { length values.items < 2 ^ 32 },
}

impl<X: Drop> Drop for Processes<X> {
    fn drop(self) {
        let Processes {
            paths: _paths,
            values: _values,
            order: _order,
        } = self;
    }
}

impl<X> Processes<X> {
    ghost use Rattle.std.specs.FinMap.{entries};
    ghost use Rattle.std.specs.Map.Iter.{deref_pair};
    ghost use Rattle.fm_nodes_procs.specs.Processes.{HasRoom, by_path, is_the, order_of, rows_in};

    /// No process. Takes no memory.
    pub fn new(alloc: Global) -> Processes<X>
        ensures map { by_path result ≡ empty }
        ensures order { order_of result ≡ [] }
    {
        Processes {
            paths: Vec::new(alloc),
            values: Vec::new(alloc),
            order: Order::new(alloc),
        }
    }

    /// How many there are.
    pub fn len(&self) -> usize
        ensures count { result ≡ length (order_of self.now) }
        ensures few { result < 2 ^ 32 }
    {
        self.values.len()
    }

    // Whether this is the path of a number.
    fn is_at(&self, number: usize, path: &Path) -> bool
        ensures { result ≡ is_the path.now (slice_get (order_of self.now) number) }
    {
        match self.paths.get(number) {
            Some(there) => {
                let known: &Path = there;
                order_of_paths(known, path).is_eq()
            }
            None => false,
        }
    }

    // The number of the process at a path.
    fn find(&self, path: &Path) -> Option<usize>
        ensures there { IfSome result (λ n. slice_get (order_of self.now) n ≡ Some path.now) }
        ensures none { IfNone result (get (by_path self.now) path.now ≡ None) }
    {
        'paths: for number in 0..self.paths.len() {
            if self.is_at(number, path) {
                return Some(number);
            }
        }
        None
    }

    // The number of the process at a path, looked for by the order of the paths, and one by one where it isn't in
    // order.
    fn seek(&self, path: &Path) -> Option<usize>
        ensures there { IfSome result (λ n. slice_get (order_of self.now) n ≡ Some path.now) }
        ensures none { IfNone result (get (by_path self.now) path.now ≡ None) }
    {
        let likely = self.order.likely_number(self.paths.as_slice(), path);
        if self.is_at(likely, path) {
            Some(likely)
        } else {
            self.find(path)
        }
    }

    /// The number of the process at a path, looked for at a likely number first.
    pub fn number(&self, path: &Path, likely: usize) -> Option<usize>
        ensures there { IfSome result (λ n. slice_get (order_of self.now) n ≡ Some path.now) }
        ensures none { IfNone result (get (by_path self.now) path.now ≡ None) }
    {
        if self.is_at(likely, path) {
            Some(likely)
        } else {
            self.seek(path)
        }
    }

    /// The path at this place, from 0, in path order, unless memory was wanting to put it there; none where there are
    /// fewer. Takes no memory.
    pub fn path_at(&self, place: usize) -> Option<&Path>
        ensures { IsSome result ↔ (place < length (order_of self.now)) }
    {
        self.order.path_at(self.paths.as_slice(), place)
    }

    /// The process of a number.
    pub fn get(&self, number: usize) -> &X
        requires { number < length (order_of self.now) }
        ensures { (p : Place) → slice_get (order_of self.now) number ≡ Some p
            → get (by_path self.now) p ≡ Some result.now }
    {
        &self.values[number]
    }

    /// The paths, in the order of the numbers.
    pub fn paths(&self) -> &[Arc<Path>]
        ensures { places_in result.now ≡ order_of self.now }
    {
        self.paths.as_slice()
    }

    /// The processes with their paths, in path order.
    pub fn in_path_order(&self, alloc: Global) -> Result<Vec<(&Path, &X)>, NoMemory>
        ensures { IfOk result (λ v. map deref_pair v.items ≡ entries (by_path self.now)) }
    {
        let mut rows = Vec::new(alloc);
        'rows: for number in 0..self.paths.len() {
            let path: &Path = &self.paths[number];
            rows.push((path, &self.values[number]))?;
        }
        rows.sort_by_key(|row| row.0)?;
        Ok(rows)
    }

    /// Makes room for so many more. Want of memory changes nothing, and 2^32 processes are told as such.
    pub fn reserve(&mut self, count: usize) -> Result<(), NoMemory>
        ensures map { by_path self.new ≡ by_path self.old }
        ensures order { order_of self.new ≡ order_of self.old }
        ensures ok { OnOk result (HasRoom self.new count) }
    {
        if count >= 4_294_967_296 - self.values.len() {
            return Err(NoMemory);
        }
        self.paths.reserve(count)?;
        self.values.reserve(count)?;
        Ok(())
    }
}

impl<X: Drop> Processes<X> {
    ghost use Rattle.fm_nodes_procs.specs.Processes.{HasRoom, by_path, order_of, rows_in};

    /// Puts processes at new paths, for which there is room; their numbers follow those that there were. Takes no
    /// memory.
    pub fn append(&mut self, paths: Vec<Arc<Path>>, values: Vec<X>)
        requires each { length values.items ≡ length paths.items }
        requires once { AreDistinct (order_of self.old ++ places_in paths.items) }
        requires room { HasRoom self.old (length values.items) }
        ensures map { by_path self.new
            ≡ numbered_map (rows_in self.old.paths.items self.old.values.items ++ rows_in paths.items values.items) }
        ensures order { order_of self.new ≡ order_of self.old ++ places_in paths.items }
    {
        let mut paths = paths;
        let mut values = values;
        match self.paths.append(&mut paths) {
            Ok(()) => {}
            Err(_) => unreachable!(),
        }
        match self.values.append(&mut values) {
            Ok(()) => {}
            Err(_) => unreachable!(),
        }
        self.order.rank_all(self.paths.as_slice());
    }

    /// The paths alone, in the order of the numbers. Takes no memory.
    pub fn into_paths(self) -> Vec<Arc<Path>>
        ensures { places_in result.items ≡ order_of self }
    {
        let Processes {
            paths,
            values: _values,
            order: _order,
        } = self;
        paths
    }

    /// Puts the first process, at this path.
    pub fn start(&mut self, alloc: Global, path: Path, process: X) -> Result<(), NoMemory>
        requires { order_of self.old ≡ [] }
        ensures map { OnOk result (by_path self.new ≡ insert empty path process) }
        ensures order { OnOk result (order_of self.new ≡ path ∷ []) }
        ensures err { OnErr result ((order_of self.new ≡ order_of self.old) × (by_path self.new ≡ by_path self.old)) }
    {
        let shared = Arc::new(alloc, path)?;
        let mut paths = Vec::new(alloc);
        paths.push(shared)?;
        let mut values = Vec::new(alloc);
        values.push(process)?;
        self.reserve(1)?;
        self.append(paths, values);
        Ok(())
    }
}
