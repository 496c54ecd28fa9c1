//! The table as one whose pieces workers compute.

ghost use Rattle.std.specs.Prelude.{◌≡◌, true, false, None, IfOk, IfErr, IfSome, OnErr};
ghost use Rattle.fm_run.specs.Orders.{place_in};
ghost use Rattle.fm_table.specs.Giving.{CallsBack, GivenTo, TakesTo};
ghost use Rattle.fm_table.specs.Told.{IsIdle, phase_of};
ghost use Rattle.fm_table.specs.Turning.{TurnsInside};

use crate::piece::Piece;
use crate::table::Table;
use fm_base::NoMemory;
use fm_machine::Done;
use fm_workers::{Given, KeepsHistory, Phase, SharedTable};
use std::alloc::Global;

impl KeepsHistory for Table {
    ghost history_of = { λ table. table.history };

    fn entries(&self) -> usize {
        self.promise();
        self.history().len()
    }
}

impl SharedTable for Table {
    type Piece = Piece;

    type Done = Done;

    ghost process_of = { λ done. done.process };

    // What the table's own call ensures, as of the four below.
    ghost take_does = { λ worker a answer b.
        IfOk answer (λ r. IfSome r (λ p. TakesTo worker p.process (place_in p.path) p.start.value a b))
        × IfOk answer (λ r. r ≡ None → IsIdle a × (b ≡ a))
        × OnErr answer (b ≡ a) };

    ghost give_does = { λ done a answer b.
        IfOk answer (λ g. GivenTo done a b g) × IfErr answer (λ e. e.0 ≡ done) × OnErr answer (b ≡ a) };

    ghost turn_does = { λ worker a answer b.
        IfOk answer (λ r. r ≡ true → TurnsInside a b) × IfOk answer (λ r. r ≡ false → b ≡ a) × OnErr answer (b ≡ a) };

    ghost recall_does = { CallsBack };

    ghost phase_tells = { λ a phase. phase ≡ phase_of a };

    fn advance(alloc: Global, piece: Piece) -> Result<Done, NoMemory> {
        piece.advance(alloc)
    }

    fn take(&mut self, alloc: Global, worker: u32) -> Result<Option<Piece>, NoMemory> {
        Table::take(self, alloc, worker)
    }

    fn give(&mut self, alloc: Global, done: Done) -> Result<Given, (Done, NoMemory)> {
        Table::give(self, alloc, done)
    }

    fn turn_light(&mut self, alloc: Global, worker: u32) -> Result<bool, NoMemory> {
        Table::turn_light(self, alloc, worker)
    }

    fn offers(&self, worker: u32) -> bool {
        Table::offers(self, worker)
    }

    fn recall(&mut self) {
        Table::recall(self);
    }

    fn phase(&self) -> Phase {
        Table::phase(self)
    }
}
