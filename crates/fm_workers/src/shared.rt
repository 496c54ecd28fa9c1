//! A table that gives pieces out, and takes back what they came to.

ghost use Rattle.std.specs.Prelude.{◌≡◌, ◌≤◌, ℕ, Bool, Option, Result, List, length, false, IfOk, IfErr, OnErr};
ghost use Rattle.fm_base.specs.declared.memory.NoMemory as of_memory;
ghost use Rattle.fm_base.specs.declared.schedule.Turn as declared_turn;
ghost use Rattle.fm_workers.specs.declared.shared.Given as of_given;
ghost use Rattle.fm_workers.specs.declared.shared.Phase as declared_phase;
ghost use Rattle.fm_workers.specs.Histories.{HasGrown, IsGiven};

use fm_base::NoMemory;
use std::alloc::Global;

/// What a table answers to what a piece came to.
#[derive(Clone, Copy, Debug, PartialEq, Eq)]
pub enum Given {
    /// The piece was played.
    Played,
    /// The piece isn't one that is out: nothing was played.
    Stranger,
    /// The turns had been spent before: nothing was played.
    Over,
}

/// How far a table is.
#[derive(Clone, Copy, Debug, PartialEq, Eq)]
pub enum Phase {
    /// A process can step, or a piece is out; the turns aren't spent.
    Going,
    /// No process can step, and no piece is out; the turns aren't spent.
    Ended,
    /// The schedule costs more than the turns.
    Spent,
}

/// Something with a history.
pub trait KeepsHistory {
    /// The entries, from the first on.
    ghost history_of: { Self → List declared_turn.Turn };

    /// How many entries it has.
    fn entries(&self) -> usize
        ensures value { result ≡ length (history_of self.now) }
        ensures few { result ≤ 1000000001 };
}

/// Processes whose pieces are computed outside.
///
/// What a call does is told by a relation of the table's own, between the table before, the answer and the table after.
/// It holds whatever the answer is, want of memory among them. So who passes a call on, and owes the same relation, has
/// made that call once, and has neither lost nor made up an answer.
pub trait SharedTable: KeepsHistory {
    /// A process that is out, with all that its piece needs.
    type Piece: Drop + Send;

    /// What a piece came to.
    type Done: Drop + Send;

    /// The process that made the piece, by its place in the order of starting.
    ghost process_of: { Self.Done → ℕ };

    /// What `take` does, for a worker.
    ghost take_does: { ℕ → Self → Result (Option Self.Piece) of_memory.NoMemory → Self → Type 0 };

    /// What `give` does, with what a piece came to.
    ghost give_does: { Self.Done → Self → Result of_given.Given (Self.Done × of_memory.NoMemory) → Self → Type 0 };

    /// What `turn_light` does, for a worker.
    ghost turn_does: { ℕ → Self → Result Bool of_memory.NoMemory → Self → Type 0 };

    /// What `recall` does.
    ghost recall_does: { Self → Self → Type 0 };

    /// What `phase` tells of a table.
    ghost phase_tells: { Self → declared_phase.Phase → Type 0 };

    /// Computes a piece.
    fn advance(alloc: Global, piece: Self::Piece) -> Result<Self::Done, NoMemory>;

    /// Gives out a piece, for this worker if it can choose. None comes where none is ready.
    fn take(&mut self, alloc: Global, worker: u32) -> Result<Option<Self::Piece>, NoMemory>
        ensures does { take_does worker self.old result self.new }
        ensures history { Self.history_of self.new ≡ Self.history_of self.old };

    /// Plays what a piece came to, or doesn't know it.
    fn give(&mut self, alloc: Global, done: Self::Done) -> Result<Given, (Self::Done, NoMemory)>
        ensures does { give_does done self.old result self.new }
        ensures given { IfOk result
            (λ g. IsGiven g (process_of done) (Self.history_of self.old) (Self.history_of self.new)) }
        ensures unchanged { OnErr result (Self.history_of self.new ≡ Self.history_of self.old) }
        ensures back { IfErr result (λ e. e.0 ≡ done) };

    /// Makes a piece by itself, of a process that isn't worth giving out. False where it made none.
    fn turn_light(&mut self, alloc: Global, worker: u32) -> Result<bool, NoMemory>
        ensures does { turn_does worker self.old result self.new }
        ensures grown { IfOk result (λ _. HasGrown (Self.history_of self.old) (Self.history_of self.new)) }
        ensures none { IfOk result (λ r. r ≡ false → Self.history_of self.new ≡ Self.history_of self.old) }
        ensures unchanged { OnErr result (Self.history_of self.new ≡ Self.history_of self.old) };

    /// Whether it goes on by itself with a process for this worker while another one is ready, so that others are to
    /// come in.
    fn offers(&self, _worker: u32) -> bool {
        false
    }

    /// Makes every process ready that is out.
    fn recall(&mut self)
        ensures does { recall_does self.old self.new }
        ensures history { Self.history_of self.new ≡ Self.history_of self.old };

    /// How far the table is.
    fn phase(&self) -> Phase
        ensures { phase_tells self.now result };
}
