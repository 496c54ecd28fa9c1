//! Values by names, in the order in which the names came.

ghost use Rattle.std.specs.Prelude.{◌≡◌, ℕ, List, [], OnOk, OnErr};
ghost use Rattle.std.specs.Map.Iter.{GivesInOrder};
ghost use Rattle.fm_finmap.specs.Table.{added};

use fm_base::{Name, NoMemory};
use indexmap::IndexMap;
use indexmap::map::IntoIter;
use std::alloc::Global;
use std::marker::Model;

/// Values by names, in the order in which the names came. Contracts see the entries, each a name and its value.
pub struct NameTable<V> {
    table: IndexMap<Name, V>,
}

impl<V: Drop> Drop for NameTable<V> {
    fn drop(self) {
        let NameTable { table: _table } = self;
    }
}

impl<V> Model for NameTable<V> {
    ghost use Rattle.std.specs.Prelude.{List, ℕ};

    ghost Value = { List (List ℕ × V) };

    ghost view = { λ t. t.table.entries };
}

impl<V> NameTable<V> {
    /// No names. Takes no memory.
    pub fn new(alloc: Global) -> NameTable<V>
        ensures { result ≡ [] }
    {
        NameTable {
            table: IndexMap::new(alloc),
        }
    }
}

impl<V: Drop> NameTable<V> {
    /// Puts a name with its value behind the others, unless the name is there. After want of memory nothing has
    /// changed.
    pub fn insert_new(&mut self, alloc: Global, name: &Name, value: V) -> Result<(), NoMemory>
        ensures ok { OnOk result (self.new ≡ added self.old name.now value) }
        ensures err { OnErr result (self.new ≡ self.old) }
    {
        if self.table.contains_key(name) {
            return Ok(());
        }
        self.table.insert(name.copy(alloc)?, value)?;
        Ok(())
    }
}

impl<V: Drop> IntoIterator for NameTable<V> {
    type Item = (Name, V);

    type IntoIter = IntoIter<Name, V>;

    ghost into_iter_gives = { λ t r. (r ≡ t) × GivesInOrder (List ℕ × V) };

    fn into_iter(self) -> IntoIter<Name, V> {
        let NameTable { table } = self;
        table.into_iter()
    }
}
