//! Whom the waiting processes of a run wait for, and the cycles among them.
#![tactic(auto)]

ghost use Rattle.std.specs.Prelude.{◌↔◌, List, Contains};
ghost use Rattle.fm_wait.specs.Waits.{Pairs};
ghost use Rattle.fm_wait.specs.Cycles.{cycles_of, AreInOrder, IsCycle};
ghost use Rattle.fm_mean.specs.declared.outcome.Outcome.{Outcome};

mod answer;
mod cycles;
mod holders;
mod places;
mod waiting;

pub use answer::Waits;
pub use waiting::waits;

/// The listed lists are the cycles, and each is listed once: they stand strictly in order of the paths that they
/// begin with.
pub fn cycles_are_listed_once()
    ensures exact { (outcome : Outcome) (paths : List Pairs)
        → Contains (cycles_of outcome) paths ↔ IsCycle outcome paths }
    ensures ordered { (outcome : Outcome) → AreInOrder (cycles_of outcome) }
{}
