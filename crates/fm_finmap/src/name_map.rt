//! A map whose keys are names.

ghost use Rattle.std.specs.Prelude.{◌≡◌, ℕ, List, ◌^◌, ◌<◌, OnOk, OnErr, IfOk, IfErr};
ghost use Rattle.std.specs.FinMap.{empty, get, contains_key, insert, remove, len, entries};
ghost use Rattle.std.specs.Map.Iter.{ShowsInOrder, GivesInOrder, deref_pair};
ghost use Rattle.std.specs.Option.{option_copied};

use crate::map::Map;
use fm_base::{Name, NoMemory};
use std::alloc::{AllocFailed, Global};
use std::collections::btree_map::{IntoIter, Iter};
use std::marker::Model;

/// Values by names. Contracts see a finite map from the bytes of names.
pub struct NameMap<V> {
    values: Map<Name, V>,
}

impl<V: Drop> Drop for NameMap<V> {
    fn drop(self) {
        let NameMap { values: _values } = self;
    }
}

impl<V> Model for NameMap<V> {
    ghost use Rattle.std.specs.FinMap.{FinMap, code};
    ghost use Rattle.std.specs.Ordering.{nat_cmp};
    ghost use Rattle.std.specs.Cmp.Lexicographic.{slice_cmp};
    ghost use Rattle.std.specs.Coded.{coded_list, coded_ℕ};
    ghost use Rattle.fm_finmap.specs.Map.{map_of};

    ghost Value = { FinMap (slice_cmp nat_cmp) V };

    ghost coded = { code (coded_list coded_ℕ) V.code };

    ghost view = { λ m. map_of (slice_cmp nat_cmp) m.values };
}

impl<V> NameMap<V> {
    /// No name has a value. Takes no memory.
    pub fn new(alloc: Global) -> NameMap<V>
        ensures { result ≡ empty }
    {
        NameMap {
            values: Map::new(alloc),
        }
    }

    /// The value of a name.
    pub fn get(&self, name: &Name) -> Option<&V>
        ensures { option_copied result ≡ get self.now name.now }
    {
        self.values.get(name)
    }

    /// Whether a name has a value.
    pub fn contains_key(&self, name: &Name) -> bool
        ensures { result ≡ contains_key self.now name.now }
    {
        self.values.contains_key(name)
    }

    /// The number of names that have a value.
    pub fn len(&self) -> usize
        ensures count { result ≡ len self.now }
        ensures small { result < 2 ^ 63 }
    {
        self.values.len()
    }

    /// The names with their values, in byte order of the names.
    pub fn iter(&self) -> Iter<'_, Name, V>
        ensures rest { result ≡ entries self.now }
        ensures runs { ShowsInOrder (deref_pair {K = List ℕ} {X = V}) }
    {
        self.values.iter()
    }
}

impl<V: Drop> NameMap<V> {
    /// Gives a name a value, and answers the one that it had. After want of memory the map is as it
    /// was, and the name and the value come back.
    pub fn insert(&mut self, name: Name, value: V) -> Result<Option<V>, AllocFailed<(Name, V)>>
        ensures ok { OnOk result (self.new ≡ insert self.old name value) }
        ensures before { IfOk result (λ o. o ≡ get self.old name) }
        ensures back { IfErr result (λ e. e.value ≡ (name, value)) }
        ensures err { OnErr result (self.new ≡ self.old) }
    {
        self.values.insert(name, value)
    }

    /// Takes the value of a name, which has none then.
    pub fn remove(&mut self, name: &Name) -> Option<V>
        ensures map { self.new ≡ remove self.old name.now }
        ensures value { result ≡ get self.old name.now }
    {
        self.values.remove(name)
    }

    /// The names with their values, in byte order of the names.
    pub fn into_entries(self, alloc: Global) -> Result<Vec<(Name, V)>, NoMemory>
        ensures { IfOk result (λ v. v.items ≡ entries self) }
    {
        let mut all = Vec::new(alloc);
        'entries: for entry in self {
            all.push(entry)?;
        }
        Ok(all)
    }
}

impl<V: Drop> IntoIterator for NameMap<V> {
    type Item = (Name, V);

    type IntoIter = IntoIter<Name, V>;

    ghost into_iter_gives = { λ m r. (r ≡ entries m) × GivesInOrder (List ℕ × V) };

    fn into_iter(self) -> IntoIter<Name, V> {
        let NameMap { values } = self;
        values.into_iter()
    }
}
