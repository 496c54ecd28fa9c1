//! A map over the standard ordered map.

ghost use Rattle.std.specs.Prelude.{◌≡◌, ◌^◌, ◌<◌, ◌==◌, OnOk, OnErr, IfOk, IfErr};
ghost use Rattle.std.specs.Borrow.{sem};
ghost use Rattle.std.specs.FinMap.{empty, get, contains_key, insert, remove, len, entries, IsAntisymmetric};
ghost use Rattle.std.specs.Map.Iter.{ShowsInOrder, GivesInOrder, deref_pair};
ghost use Rattle.std.specs.Option.{option_copied, option_copied_mut};
ghost use Rattle.fm_finmap.specs.Map.{map_of};
ghost use Rattle.fm_finmap.specs.Lends.{lends_value};

use fm_base::{ChanName, Name, Path};
use std::alloc::{AllocFailed, Global};
use std::collections::BTreeMap;
use std::collections::btree_map::{IntoIter, Iter};
use std::marker::Model;

/// A key. Keys that compare equal are one.
pub trait Key: Ord {
    ghost exact: { IsAntisymmetric Self.cmp };
}

impl Key for Name {
    ghost use Rattle.std.specs.FinMap.{slice_cmp-IsAntisymmetric, nat_cmp-IsAntisymmetric};

    ghost exact = { slice_cmp-IsAntisymmetric nat_cmp-IsAntisymmetric };
}

impl Key for Path {
    ghost use Rattle.fm_base.proofs.PathLaws.{path_exact};

    ghost exact = { path_exact };
}

impl Key for ChanName {
    ghost use Rattle.fm_base.proofs.PathLaws.{channel_exact};

    ghost exact = { channel_exact };
}

/// Values by keys. Contracts see the list of its entries in the order of the keys, and say what a call
/// does to the finite map of these entries (`map_of`).
pub struct Map<K: Key, V> {
    tree: BTreeMap<K, V>,
}

impl<K: Key + Drop, V: Drop> Drop for Map<K, V> {
    fn drop(self) {
        let Map { tree: _tree } = self;
    }
}

impl<K: Key, V> Model for Map<K, V> {
    ghost use Rattle.std.specs.Prelude.{List};

    ghost Value = { List (K × V) };

    ghost view = { λ m. m.tree.entries };
}

impl<K: Key, V> Map<K, V> {
    /// No key has a value. Takes no memory.
    pub fn new(alloc: Global) -> Map<K, V>
        ensures { map_of K.cmp result ≡ empty }
    {
        Map {
            tree: BTreeMap::new(alloc),
        }
    }

    /// The value of a key.
    pub fn get(&self, key: &K) -> Option<&V>
        ensures { option_copied result ≡ get (map_of K.cmp self.now) key.now }
    {
        self.tree.get(key)
    }

    /// The value of a key, to be changed.
    pub fn get_mut(&mut self, key: &K) -> Option<&mut V>
        ensures* writes_back { sem 𝓛 (lends_value K.row V.row K.Ord self.entry key.now result) }
        ensures value { option_copied_mut result ≡ get (map_of K.cmp self.old) key.now }
    {
        self.tree.get_mut(key)
    }

    /// Whether a key has a value.
    pub fn contains_key(&self, key: &K) -> bool
        ensures { result ≡ contains_key (map_of K.cmp self.now) key.now }
    {
        self.tree.contains_key(key)
    }

    /// The number of keys that have a value.
    pub fn len(&self) -> usize
        ensures count { result ≡ len (map_of K.cmp self.now) }
        ensures small { result < 2 ^ 63 }
    {
        self.tree.len()
    }

    /// Whether no key has a value.
    pub fn is_empty(&self) -> bool
        ensures { result ≡ (len (map_of K.cmp self.now) == 0) }
    {
        self.tree.len() == 0
    }

    /// The keys with their values, in the order of the keys.
    pub fn iter(&self) -> Iter<'_, K, V>
        ensures rest { result ≡ entries (map_of K.cmp self.now) }
        ensures runs { ShowsInOrder (deref_pair {K = K} {X = V}) }
    {
        self.tree.iter()
    }
}

impl<K: Key + Drop, V: Drop> Map<K, V> {
    /// Gives a key a value, and answers the one that it had. After want of memory the map is as it was,
    /// and the key and the value come back.
    pub fn insert(&mut self, key: K, value: V) -> Result<Option<V>, AllocFailed<(K, V)>>
        ensures ok { OnOk result (map_of K.cmp self.new ≡ insert (map_of K.cmp self.old) key value) }
        ensures before { IfOk result (λ o. o ≡ get (map_of K.cmp self.old) key) }
        ensures back { IfErr result (λ e. e.value ≡ (key, value)) }
        ensures err { OnErr result (self.new ≡ self.old) }
    {
        self.tree.insert(key, value)
    }

    /// Takes the value of a key, which has none then.
    pub fn remove(&mut self, key: &K) -> Option<V>
        ensures map { map_of K.cmp self.new ≡ remove (map_of K.cmp self.old) key.now }
        ensures value { result ≡ get (map_of K.cmp self.old) key.now }
    {
        self.tree.remove(key)
    }
}

impl<K: Key + Drop, V: Drop> IntoIterator for Map<K, V> {
    type Item = (K, V);

    type IntoIter = IntoIter<K, V>;

    ghost into_iter_gives = { λ m r. (r ≡ entries (map_of K.cmp m)) × GivesInOrder (K × V) };

    fn into_iter(self) -> IntoIter<K, V> {
        let Map { tree } = self;
        tree.into_iter()
    }
}
