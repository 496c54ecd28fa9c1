//! Values at paths, by number.

ghost use Rattle.std.specs.Prelude.{◌≡◌, [], ◌∷◌, ◌++◌, None, length, map, option_map, IfOk, OnOk, OnErr};
ghost use Rattle.std.specs.Arc.{arc_value};
ghost use Rattle.std.specs.Borrow.{sem};
ghost use Rattle.std.specs.FinMap.{entries, get};
ghost use Rattle.std.specs.Map.Iter.{deref_pair};
ghost use Rattle.std.specs.Option.{option_copied, option_copied_mut};
ghost use Rattle.fm_finmap.specs.Rows.{AreDistinct, numbered_map, place_at, places, places_in, value_at};
ghost use Rattle.fm_finmap.specs.TableLends.{lends_value};

use fm_base::{NoMemory, Path};
use std::alloc::Global;
use std::marker::Model;
use std::sync::Arc;

/// Values at paths, by number. Contracts see the rows of place and value, in the order of the numbers.
pub struct PathTable<T> {
    paths: Vec<Arc<Path>>,
    values: Vec<T>,
}

impl<T: Drop> Drop for PathTable<T> {
    fn drop(self) {
        let PathTable {
            paths: _paths,
            values: _values,
        } = self;
    }
}

impl<T> Model for PathTable<T> {
    ghost use Rattle.std.specs.Prelude.{List, ℕ};
    ghost use Rattle.std.specs.List.{zip};
    ghost use Rattle.fm_finmap.specs.Rows.{HasRows, places_in};

    ghost Value = { List (List (ℕ × ℕ) × T) };

    ghost view = { λ n. zip (places_in n.paths.items) n.values.items };

    ghost invariant = { λ n. HasRows (places_in n.paths.items) n.values.items };
}

impl<T> PathTable<T> {
    /// No values. Takes no memory.
    pub fn new(alloc: Global) -> PathTable<T>
        ensures { result ≡ [] }
    {
        PathTable {
            paths: Vec::new(alloc),
            values: Vec::new(alloc),
        }
    }

    /// How many values there are.
    pub fn len(&self) -> usize
        ensures { result ≡ length self.now }
    {
        self.values.len()
    }

    /// The value of a number.
    pub fn get(&self, number: u32) -> Option<&T>
        ensures { option_copied result ≡ value_at self.now number }
    {
        self.values.get(number as usize)
    }

    /// The value of a number, to be changed.
    pub fn get_mut(&mut self, number: u32) -> Option<&mut T>
        ensures* writes_back { sem 𝓛 (lends_value T.row self.entry number result) }
        ensures value { option_copied_mut result ≡ value_at self.old number }
    {
        self.values.get_mut(number as usize)
    }

    /// The path of a number.
    pub fn path(&self, number: u32) -> Option<&Arc<Path>>
        ensures { option_map arc_value (option_copied result) ≡ place_at self.now number }
    {
        self.paths.get(number as usize)
    }

    /// The paths, in the order of the numbers.
    pub fn paths(&self) -> &[Arc<Path>]
        ensures { places_in result.now ≡ places self.now }
    {
        self.paths.as_slice()
    }

    /// The values with their paths, in the order of the numbers; no path is there twice.
    pub fn rows(&self, alloc: Global) -> Result<Vec<(&Path, &T)>, NoMemory>
        ensures rows { IfOk result (λ v. map deref_pair v.items ≡ self.now) }
        ensures once { OnOk result (AreDistinct (places self.now)) }
    {
        let mut rows = Vec::new(alloc);
        'rows: for number in 0..self.paths.len() {
            let path: &Path = &self.paths[number];
            rows.push((path, &self.values[number]))?;
        }
        Ok(rows)
    }

    /// The values with their paths, in path order.
    pub fn in_path_order(&self, alloc: Global) -> Result<Vec<(&Path, &T)>, NoMemory>
        ensures { IfOk result (λ v. map deref_pair v.items ≡ entries (numbered_map self.now)) }
    {
        let mut rows = self.rows(alloc)?;
        rows.sort_by_key(|row| row.0)?;
        Ok(rows)
    }
}

impl<T: Drop> PathTable<T> {
    /// Puts a value at a new path; its number is how many there were. After want of memory nothing has changed.
    pub fn push(&mut self, path: Arc<Path>, value: T) -> Result<(), NoMemory>
        requires { get (numbered_map self.old) (arc_value path) ≡ None }
        ensures ok { OnOk result (self.new ≡ self.old ++ (arc_value path, value) ∷ []) }
        ensures err { OnErr result (self.new ≡ self.old) }
    {
        self.paths.reserve(1)?;
        self.values.reserve(1)?;
        self.paths.push(path)?;
        self.values.push(value)?;
        Ok(())
    }

    /// The paths alone, in the order of the numbers.
    pub fn into_paths(self) -> Vec<Arc<Path>>
        ensures { places_in result.items ≡ places self }
    {
        let PathTable { paths, values: _ } = self;
        paths
    }
}
