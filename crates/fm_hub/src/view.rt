//! What each seat knows, the rule of the table behind the word, and what each step tells.

use atomic_table::{Join, Play, Seat, Split, TableRule};
use fm_base::Turn;
use fm_workers::KeepsHistory;
use std::alloc::Global;
use std::collections::LinkedList;
use std::snapshot::Snapshot;

/// What a seat has seen and made. No value of it is made.
pub struct SeatView {
    /// A beginning of the history that was seen.
    pub seen: LinkedList<Turn>,
    /// The entries that this seat played, each with its place.
    pub mine: LinkedList<(usize, Turn)>,
    /// How often it tried for the turn.
    pub tries: u64,
    /// The word that it found then.
    pub last: u64,
    /// The history at the step that won the turn.
    pub held: Option<LinkedList<Turn>>,
    /// Another beginning, between the two steps of a join.
    pub told: LinkedList<Turn>,
}

// The rule.
pub struct Turns;

impl<T: KeepsHistory> TableRule<Option<T>, SeatView, Snapshot<T>> for Turns {
    ghost use Rattle.fm_hub.specs.Rules.{SeatRule, newcomer};

    ghost holds = { λ key s. SeatRule T.history_of s };

    ghost first = { λ key. newcomer (T.history_of key.value) };
}

// A try for the turn.
pub struct Try;

impl<T: KeepsHistory> Play<Option<T>, SeatView> for Try {
    ghost use Rattle.fm_hub.specs.Rules.{Tries};

    ghost then = { Tries T.history_of };
}

// The turn is given back.
pub struct Free;

impl<T: KeepsHistory> Play<Option<T>, SeatView> for Free {
    ghost use Rattle.fm_hub.specs.Rules.{Frees};

    ghost then = { Frees T.history_of };
}

// Two beginnings are compared.
pub struct Compare;

impl<T> Play<Option<T>, SeatView> for Compare {
    ghost use Rattle.fm_hub.specs.Rules.{Compares};

    ghost then = { Compares };
}

// How seats come and go.
pub struct Half;

impl Split<SeatView> for Half {
    ghost use Rattle.fm_hub.specs.Rules.{newcomer};

    ghost left = { λ v. v };

    ghost right = { λ v. newcomer v.seen };
}

impl Join<SeatView> for Half {
    ghost use Rattle.std.specs.Prelude.{[]};
    ghost use Rattle.fm_hub.specs.Rules.{newcomer, joined};

    ghost both = { joined };

    ghost spent = { newcomer [] };
}

// The word and the slot.
pub type Shelf<T> = atomic_table::Table<Option<T>, SeatView, Snapshot<T>, Turns, Global>;

// A seat at them.
pub type Place<T> = Seat<Option<T>, SeatView>;
