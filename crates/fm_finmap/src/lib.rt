//! Finite maps: `Map` and `NameMap`, which contracts see as finite maps, and the laws of changes at a
//! key, of lists of changes that commute, and of sums over the values.
//!
//! `NameMap<V>` has values by names, and is seen as `FinMap (slice_cmp nat_cmp) V`: `get self.now name.now`,
//! `self.new ≡ insert self.old name value`. `Map<K, V>` has any `Key`, and is seen as the list of its
//! entries in order; `map_of R m` is the finite map of these (`path_cmp` for `Path`, `channel_cmp` for
//! `ChanName`). A struct over a `Map` whose values have a reading of their own, as a body in memory has
//! as a plain record, has the view `map_values reading (map_of R m)`: `proofs/Maps.antt` has what `get`,
//! `insert`, `remove`, `entries` and a change through `get_mut` are to it (`get-map_values`,
//! `map_values-insert`, `map_values-adjust` and the like), and `proofs/Keys.antt` the orders of keys
//! (`nat_list_order`, `path_order`, `channel_order`).
//!
//! The laws hold for every total order of keys in which only equal keys tie (`IsKeyOrder`). The
//! definitions stand in `specs/`. Each function here has an empty body: its contract is a law. Laws over
//! every fact of entries, which a contract can't state, are lemmas in `proofs/Facts.antt`.
//!
//! Values at the paths of processes, numbered from 0 in the order in which they came: a look-up by
//! number compares no paths.
//!
//! Contracts see a `PathTable` as its rows, each a place and the value there, in the order of the
//! numbers; of these `places` are the places, `numbered_map` is the finite map from the places, and
//! `place_at` and `value_at` are the place of a number and the value at that place. A `PathTable` has
//! each place once. `proofs/Rows.antt` has the laws, which hold of any list of rows.
//!
//! Values by names, in the order in which the names came: contracts see a `NameTable` as its entries,
//! each a name and its value, and `look_up` and `added` say what it has and what an insertion makes of it.
#![tactic(auto)]

mod map;
mod name_map;
mod name_table;
mod path_table;

ghost use Rattle.std.specs.Prelude.{◌≡◌, ◌≢◌, ◌⊎◌, ◌+◌, ◌<◌, ◌≤◌, ◌++◌, [], ◌∷◌, ℕ, Option, Some, None, List, option_map};
ghost use Rattle.std.specs.Ordering.{on, nat_cmp};
ghost use Rattle.std.specs.Cmp.Lexicographic.{slice_cmp};
ghost use Rattle.std.specs.FinMap.{FinMap, empty, get, insert, remove, len};
ghost use Rattle.std.specs.declared.cmp.Ordering.{Ordering};
ghost use Rattle.fm_finmap.specs.Keys.{IsKeyOrder};
ghost use Rattle.fm_finmap.specs.Map.{map_values};
ghost use Rattle.fm_finmap.specs.Changes.{Change, adjust, alter, alters, Off, Apart, EachOnce};
ghost use Rattle.fm_finmap.specs.Sums.{total, value_or_zero, sum_before, sum_after};

pub use map::{Key, Map};
pub use name_map::NameMap;
pub use name_table::NameTable;
pub use path_table::PathTable;

/// Numbers and lists of numbers are keys, and so is whatever has such a key of its own. Equality of
/// keys can be decided.
pub fn key_orders<K, N>()
    ensures numbers { IsKeyOrder nat_cmp }
    ensures number_lists { IsKeyOrder (slice_cmp nat_cmp) }
    ensures by_number { (R : N → N → Ordering) → IsKeyOrder R → (number : K → N) →
        ((x y : K) → number x ≡ number y → x ≡ y) → IsKeyOrder (on number R) }
    ensures decide { (R : K → K → Ordering) → IsKeyOrder R → (x y : K) → Dec (x ≡ y) }
{}

/// An insertion: the key has the value, other keys have what they had. Of two at one key the later
/// holds, at two keys the order doesn't matter, and to insert what is there changes nothing.
pub fn insertion<K, X>()
    ensures here { (R : K → K → Ordering) → IsKeyOrder R → (m : FinMap R X) (k : K) (v : X) →
        get (insert m k v) k ≡ Some v }
    ensures there { (R : K → K → Ordering) → IsKeyOrder R → (m : FinMap R X) (k : K) (v : X) (q : K) →
        (q ≢ k) → get (insert m k v) q ≡ get m q }
    ensures cases { (R : K → K → Ordering) → IsKeyOrder R → (m : FinMap R X) (k : K) (v : X) (q : K) (x : X) →
        get (insert m k v) q ≡ Some x → ((q ≡ k) × (v ≡ x)) ⊎ ((q ≢ k) × (get m q ≡ Some x)) }
    ensures again { (R : K → K → Ordering) → IsKeyOrder R → (m : FinMap R X) (k : K) (v w : X) →
        insert (insert m k v) k w ≡ insert m k w }
    ensures swap { (R : K → K → Ordering) → IsKeyOrder R → (m : FinMap R X) (k j : K) (v w : X) → (k ≢ j) →
        insert (insert m k v) j w ≡ insert (insert m j w) k v }
    ensures same { (R : K → K → Ordering) → IsKeyOrder R → (m : FinMap R X) (k : K) (v : X) →
        get m k ≡ Some v → insert m k v ≡ m }
{}

/// A removal: the key has nothing, other keys have what they had. Where the key had nothing, nothing
/// changes. A removal and an insertion undo each other.
pub fn removal<K, X>()
    ensures here { (R : K → K → Ordering) → IsKeyOrder R → (m : FinMap R X) (k : K) →
        get (remove m k) k ≡ None }
    ensures there { (R : K → K → Ordering) → IsKeyOrder R → (m : FinMap R X) (k q : K) → (q ≢ k) →
        get (remove m k) q ≡ get m q }
    ensures absent { (R : K → K → Ordering) → IsKeyOrder R → (m : FinMap R X) (k : K) → get m k ≡ None →
        remove m k ≡ m }
    ensures then_insert { (R : K → K → Ordering) → IsKeyOrder R → (m : FinMap R X) (k : K) (v : X) →
        get m k ≡ Some v → insert (remove m k) k v ≡ m }
    ensures of_insert { (R : K → K → Ordering) → IsKeyOrder R → (m : FinMap R X) (k : K) (v : X) →
        get m k ≡ None → remove (insert m k v) k ≡ m }
{}

/// A change of the value at a key: the key has the changed value, if it had one, and other keys have
/// what they had. Two at one key are one, and two commute where they do at the value that is there or
/// the keys differ.
pub fn adjustment<K, X>()
    ensures here { (R : K → K → Ordering) → IsKeyOrder R → (m : FinMap R X) (k : K) (f : X → X) →
        get (adjust m k f) k ≡ option_map f (get m k) }
    ensures there { (R : K → K → Ordering) → IsKeyOrder R → (m : FinMap R X) (k : K) (f : X → X) (q : K) →
        (q ≢ k) → get (adjust m k f) q ≡ get m q }
    ensures present { (R : K → K → Ordering) → IsKeyOrder R → (m : FinMap R X) (k : K) (f : X → X) (x : X) →
        get m k ≡ Some x → adjust m k f ≡ insert m k (f x) }
    ensures absent { (R : K → K → Ordering) → IsKeyOrder R → (m : FinMap R X) (k : K) (f : X → X) →
        get m k ≡ None → adjust m k f ≡ m }
    ensures again { (R : K → K → Ordering) → IsKeyOrder R → (m : FinMap R X) (k : K) (f g : X → X) →
        adjust (adjust m k g) k f ≡ adjust m k (λ x. f (g x)) }
    ensures swap { (R : K → K → Ordering) → IsKeyOrder R → (m : FinMap R X) (k j : K) (f g : X → X) →
        (k ≡ j → (x : X) → get m k ≡ Some x → f (g x) ≡ g (f x)) →
        adjust (adjust m j g) k f ≡ adjust (adjust m k f) j g }
    ensures past_insert { (R : K → K → Ordering) → IsKeyOrder R → (m : FinMap R X) (k j : K) (f : X → X) (v : X) →
        (k ≢ j) → adjust (insert m j v) k f ≡ insert (adjust m k f) j v }
{}

/// A change of what the map has at a key, be it a value or none: the key has what it gives, and other
/// keys have what they had. Two at one key are one, and two commute where they do at what is there or
/// the keys differ.
pub fn alteration<K, X>()
    ensures here { (R : K → K → Ordering) → IsKeyOrder R → (m : FinMap R X) (k : K)
        (f : Option X → Option X) → get (alter m k f) k ≡ f (get m k) }
    ensures there { (R : K → K → Ordering) → IsKeyOrder R → (m : FinMap R X) (k : K) (f : Option X → Option X)
        (q : K) → (q ≢ k) → get (alter m k f) q ≡ get m q }
    ensures same { (R : K → K → Ordering) → IsKeyOrder R → (m : FinMap R X) (k : K)
        (f : Option X → Option X) → f (get m k) ≡ get m k → alter m k f ≡ m }
    ensures alike { (R : K → K → Ordering) → IsKeyOrder R → (m : FinMap R X) (k : K)
        (f g : Option X → Option X) → f (get m k) ≡ g (get m k) → alter m k f ≡ alter m k g }
    ensures again { (R : K → K → Ordering) → IsKeyOrder R → (m : FinMap R X) (k : K)
        (f g : Option X → Option X) → alter (alter m k g) k f ≡ alter m k (λ v. f (g v)) }
    ensures swap { (R : K → K → Ordering) → IsKeyOrder R → (m : FinMap R X) (k j : K)
        (f g : Option X → Option X) → (k ≡ j → f (g (get m k)) ≡ g (f (get m k))) →
        alter (alter m j g) k f ≡ alter (alter m k f) j g }
    ensures of_values { (R : K → K → Ordering) → IsKeyOrder R → (m : FinMap R X) (k : K) (f : X → X) →
        adjust m k f ≡ alter m k (option_map f) }
{}

/// A list of changes, of which the last is made first: a key has what its one change gives, or what it
/// had where it has none. Two lists commute where no key changes in both.
pub fn alterations<K, X>()
    ensures in_turn { (R : K → K → Ordering) → IsKeyOrder R → (ws vs : List (Change K X)) (m : FinMap R X) →
        alters (ws ++ vs) m ≡ alters ws (alters vs m) }
    ensures here { (R : K → K → Ordering) → IsKeyOrder R → (ws vs : List (Change K X)) (k : K)
        (f : Option X → Option X) (m : FinMap R X) → Off k ws → Off k vs →
        get (alters (ws ++ (k, f) ∷ vs) m) k ≡ f (get m k) }
    ensures there { (R : K → K → Ordering) → IsKeyOrder R → (ws : List (Change K X)) (m : FinMap R X)
        (q : K) → Off q ws → get (alters ws m) q ≡ get m q }
    ensures past { (R : K → K → Ordering) → IsKeyOrder R → (vs : List (Change K X)) (m : FinMap R X) (k : K)
        (f : Option X → Option X) → Off k vs → alter (alters vs m) k f ≡ alters vs (alter m k f) }
    ensures swap { (R : K → K → Ordering) → IsKeyOrder R → (ws vs : List (Change K X)) (m : FinMap R X) →
        Apart ws vs → alters ws (alters vs m) ≡ alters vs (alters ws m) }
{}

/// The sum over the values after a change, with the old value, is the sum before it with the new one.
pub fn sum_after_change<K, X>()
    ensures inserted { (R : K → K → Ordering) → IsKeyOrder R → (f : X → ℕ) (m : FinMap R X) (k : K) (v : X) →
        total f (insert m k v) + value_or_zero f (get m k) ≡ total f m + f v }
    ensures removed { (R : K → K → Ordering) → IsKeyOrder R → (f : X → ℕ) (m : FinMap R X) (k : K) →
        total f (remove m k) + value_or_zero f (get m k) ≡ total f m }
    ensures adjusted { (R : K → K → Ordering) → IsKeyOrder R → (f : X → ℕ) (m : FinMap R X) (k : K) (g : X → X) →
        total f (adjust m k g) + value_or_zero f (get m k) ≡ total f m + value_or_zero f (option_map g (get m k)) }
    ensures altered { (R : K → K → Ordering) → IsKeyOrder R → (f : X → ℕ) (m : FinMap R X) (k : K)
        (g : Option X → Option X) →
        total f (alter m k g) + value_or_zero f (get m k) ≡ total f m + value_or_zero f (g (get m k)) }
    ensures altered_by_list { (R : K → K → Ordering) → IsKeyOrder R → (f : X → ℕ) (ws : List (Change K X))
        (m : FinMap R X) → EachOnce ws →
        total f (alters ws m) + sum_before f m ws ≡ total f m + sum_after f m ws }
{}

/// Values that are read through a function: each key has what the function gives of its value, and an
/// insertion or a removal is one of what is read.
pub fn reading<K, X, Y>()
    ensures found { (R : K → K → Ordering) (f : X → Y) (m : FinMap R X) (q : K) →
        get (map_values f m) q ≡ option_map f (get m q) }
    ensures nothing { (R : K → K → Ordering) (f : X → Y) → map_values f (empty {R = R}) ≡ empty }
    ensures inserted { (R : K → K → Ordering) (f : X → Y) → IsKeyOrder R → (m : FinMap R X) (k : K) (x : X) →
        map_values f (insert m k x) ≡ insert (map_values f m) k (f x) }
    ensures removed { (R : K → K → Ordering) (f : X → Y) → IsKeyOrder R → (m : FinMap R X) (k : K) →
        map_values f (remove m k) ≡ remove (map_values f m) k }
{}

/// What one key or two keys have is at most the sum, and a sum over 0 has a value over 0.
pub fn parts_of_sum<K, X>()
    ensures one { (R : K → K → Ordering) → IsKeyOrder R → (f : X → ℕ) (m : FinMap R X) (k : K) →
        value_or_zero f (get m k) ≤ total f m }
    ensures two { (R : K → K → Ordering) → IsKeyOrder R → (f : X → ℕ) (m : FinMap R X) (k j : K) → (k ≢ j) →
        value_or_zero f (get m k) + value_or_zero f (get m j) ≤ total f m }
    ensures some { (R : K → K → Ordering) → IsKeyOrder R → (f : X → ℕ) (m : FinMap R X) → 0 < total f m →
        (k : K) × (x : X) × (get m k ≡ Some x) × (0 < f x) }
{}

/// Sums are as the values are: 0 where all give 0, equal where all give the same, at most another
/// where each value is, the sum of two sums where each value is. The empty map sums to 0, and counting
/// gives the length.
pub fn sums_compared<K, X>()
    ensures nothing { (R : K → K → Ordering) (f : X → ℕ) → total f (empty {X = X} {R = R}) ≡ 0 }
    ensures zeros { (R : K → K → Ordering) → IsKeyOrder R → (f : X → ℕ) (m : FinMap R X) →
        ((k : K) (x : X) → get m k ≡ Some x → f x ≡ 0) → total f m ≡ 0 }
    ensures no_part { (R : K → K → Ordering) → IsKeyOrder R → (f : X → ℕ) (m : FinMap R X) (k : K) (x : X) →
        total f m ≡ 0 → get m k ≡ Some x → f x ≡ 0 }
    ensures alike { (R : K → K → Ordering) → IsKeyOrder R → (f g : X → ℕ) (m : FinMap R X) →
        ((k : K) (x : X) → get m k ≡ Some x → f x ≡ g x) → total f m ≡ total g m }
    ensures at_most { (R : K → K → Ordering) → IsKeyOrder R → (f g : X → ℕ) (m : FinMap R X) →
        ((k : K) (x : X) → get m k ≡ Some x → f x ≤ g x) → total f m ≤ total g m }
    ensures added { (R : K → K → Ordering) → (f g : X → ℕ) (m : FinMap R X) →
        total (λ x. f x + g x) m ≡ total f m + total g m }
    ensures counted { (R : K → K → Ordering) → (m : FinMap R X) → total (λ x. 1) m ≡ len m }
{}
