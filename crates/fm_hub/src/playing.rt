//! What a seat that has the turn does to the table: what the table does, and nothing else.

ghost use Rattle.std.specs.Prelude.{◌≡◌, false, IfOk, IfErr, OnErr};
ghost use Rattle.fm_workers.specs.Histories.{HasGrown, IsGiven};
ghost use Rattle.fm_hub.specs.Hubs.{HasMade, made_at};

use crate::handles::Held;
use fm_base::NoMemory;
use fm_workers::{Given, Phase, SharedTable};
use std::alloc::Global;

impl<T: SharedTable> Held<T> {
    /// As the table's.
    pub fn take(&mut self, alloc: Global, worker: u32) -> Result<Option<T::Piece>, NoMemory>
        ensures same { self.new.place ≡ self.old.place }
        ensures does { T.take_does worker self.old.table result self.new.table }
        ensures history { T.history_of self.new.table ≡ T.history_of self.old.table }
    {
        self.table.take(alloc, worker)
    }

    /// As the table's.
    pub fn give(&mut self, alloc: Global, done: T::Done) -> Result<Given, (T::Done, NoMemory)>
        ensures same { self.new.place ≡ self.old.place }
        ensures does { T.give_does done self.old.table result self.new.table }
        ensures given { IfOk result
            (λ g. IsGiven g (T.process_of done) (T.history_of self.old.table) (T.history_of self.new.table)) }
        ensures unchanged { OnErr result (T.history_of self.new.table ≡ T.history_of self.old.table) }
        ensures back { IfErr result (λ e. e.0 ≡ done) }
    {
        self.table.give(alloc, done)
    }

    /// As the table's. What it makes is made by the seat that has the turn: it comes behind all that this one has made,
    /// at the place that ends the history.
    pub fn turn_light(&mut self, alloc: Global, worker: u32) -> Result<bool, NoMemory>
        ensures same { self.new.place ≡ self.old.place }
        ensures does { T.turn_does worker self.old.table result self.new.table }
        ensures grown { IfOk result (λ _. HasGrown (T.history_of self.old.table) (T.history_of self.new.table)) }
        ensures none { IfOk result (λ r. r ≡ false → T.history_of self.new.table ≡ T.history_of self.old.table) }
        ensures unchanged { OnErr result (T.history_of self.new.table ≡ T.history_of self.old.table) }
        ensures made { HasMade (T.history_of self.old.table) (made_at self.old.place (T.history_of self.old.table))
            (made_at self.new.place (T.history_of self.new.table)) }
    {
        self.table.turn_light(alloc, worker)
    }

    /// As the table's.
    pub fn recall(&mut self)
        ensures same { self.new.place ≡ self.old.place }
        ensures does { T.recall_does self.old.table self.new.table }
        ensures history { T.history_of self.new.table ≡ T.history_of self.old.table }
    {
        self.table.recall();
    }

    /// As the table's.
    pub fn phase(&self) -> Phase
        ensures { T.phase_tells self.now.table result }
    {
        self.table.phase()
    }
}
