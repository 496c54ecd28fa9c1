//! What each pass of a lane knows, and the rule that the lane keeps.

use crossbeam_deque::protocol::{Join, Lesson, Outcome, Protocol, Split};
use crossbeam_deque::{Pass, Stealer, Worker};
use std::alloc::Global;
use std::collections::LinkedList;

/// What was put, as far as the pass is the owner's, and what the pass has taken, each with its ticket. Of 64 parts each
/// pass has some. No value of it is made.
pub struct Hand<T> {
    pub parts: u64,
    pub put: LinkedList<T>,
    pub got: LinkedList<(u64, T)>,
}

// The rule.
pub struct Deal;

impl<T> Protocol<(u64, T), Hand<T>> for Deal {
    ghost use Rattle.std.specs.Prelude.{[]};
    ghost use Rattle.fm_steal.specs.Deals.{hand, IsDealt};

    ghost holds = { IsDealt };

    ghost first = { hand 64 [] [] };

    ghost guest = { hand 0 [] [] };
}

// A thief's part is cut off.
pub struct Cut;

impl<T> Split<Hand<T>> for Cut {
    ghost use Rattle.std.specs.Prelude.{[], ◌-◌};
    ghost use Rattle.fm_steal.specs.Deals.{hand};

    ghost left = { λ v. hand (v.parts - 1) v.put v.got };

    ghost right = { λ v. hand 1 [] [] };
}

// What a thief has taken is added.
impl<T> Join<Hand<T>> for Cut {
    ghost use Rattle.std.specs.Prelude.{[], ◌+◌, ◌++◌};
    ghost use Rattle.fm_steal.specs.Deals.{hand};

    ghost both = { λ v w. hand (v.parts + w.parts) v.put (v.got ++ w.got) };

    ghost spent = { hand 0 [] [] };
}

// An item is put in.
pub struct Put;

impl<T> Outcome<(u64, T), Hand<T>> for Put {
    ghost use Rattle.fm_steal.specs.Deals.{HavePut};

    ghost then = { HavePut };
}

// The first item is taken by a thief.
pub struct Took;

impl<T> Outcome<(u64, T), Hand<T>> for Took {
    ghost use Rattle.fm_steal.specs.Deals.{HasTaken, WasEmpty};

    ghost then = { HasTaken };

    ghost empty = { WasEmpty };
}

// The first item is taken by the owner.
pub struct Popped;

impl<T> Outcome<(u64, T), Hand<T>> for Popped {
    ghost use Rattle.fm_steal.specs.Deals.{HasPopped, IsUsedUp};

    ghost then = { HasPopped };

    ghost empty = { IsUsedUp };
}

// What the pass with all parts knows of the items that are left.
pub struct Left;

impl<T> Lesson<(u64, T), Hand<T>> for Left {
    ghost use Rattle.fm_steal.specs.Deals.{HoldsRest};

    ghost fact = { HoldsRest };
}

pub type Owner<T> = Worker<(u64, T), Global, Hand<T>, Deal>;

pub type Reach<T> = Stealer<(u64, T), Global, Hand<T>, Deal>;

pub type Token<T> = Pass<(u64, T), Hand<T>>;
