//! A net whose pieces may be made outside of it.

ghost use Rattle.std.specs.Prelude.{◌≡◌, ◌⊎◌, ◌+◌, ◌++◌, ℕ, true, false, [], slice_index_or, IfOk, OnErr, OnOk};
ghost use Rattle.fm_chan.specs.Woken.{WakesAll};
ghost use Rattle.fm_sched.specs.Schedule.{IsReached};
ghost use Rattle.fm_net.specs.Starts.{child_places};
ghost use Rattle.fm_run.specs.Plays.{first, step};
ghost use Rattle.fm_run.specs.Entries.{with_piece};
ghost use Rattle.fm_run.specs.Orders.{can_at};
ghost use Rattle.fm_run.specs.Pieces.{IsPiece};

use crate::net::Net;
use fm_base::NoMemory;
use fm_net_procs::Piece;
use std::alloc::Global;

/// A net that takes over what came of a slice of local steps which was made outside, of a copy of the process.
pub trait OutsideNet: Net {
    /// What came of a slice that was made outside.
    type Done: Drop;

    /// How many local steps it has.
    ghost steps_of: { Self.Done → ℕ };

    /// It was made of the process of this number as it stands here.
    ghost is_own: { Self → ℕ → Self.Done → Type 0 };

    /// Makes a piece of a process, which can step, by what came of a slice that was made of it outside: its local
    /// steps, and then a step that isn't local, where it comes to one that it can make. The piece is an entry.
    fn give_piece(
        &mut self,
        alloc: Global,
        program: &Self::Source,
        number: u32,
        done: &Self::Done,
    ) -> Result<Piece, NoMemory>
        requires reached { IsReached (step (Self.play program.now)) (first (Self.play program.now))
            (Self.state program.now self.old) }
        requires sound { Self.IsSound program.now self.old }
        requires able { can_at (Self.play program.now) (Self.state program.now self.old) (Self.order self.old) number
            ≡ true }
        requires own { is_own self.old number done.now }
        ensures sound { OnOk result (Self.IsSound program.now self.new) }
        ensures order { IfOk result (λ r. Self.order self.new
            ≡ Self.order self.old
            ++ child_places (slice_index_or (Self.order self.old) number []) r.block 1 r.started) }
        ensures piece { IfOk result (λ r. IsPiece (Self.play program.now) (steps_of done.now) true
            (Self.state program.now self.old) (slice_index_or (Self.order self.old) number []) r
            (Self.state program.now self.new)) }
        ensures steps { IfOk result (λ r. (r.steps ≡ steps_of done.now) ⊎ (r.steps ≡ steps_of done.now + 1)) }
        ensures history { IfOk result
            (λ r. Self.history self.new ≡ with_piece false (Self.history self.old) number r.steps) }
        ensures stays { OnErr result (Self.history self.new ≡ Self.history self.old) }
        ensures waking { OnOk result (WakesAll (Self.channels self.old) (Self.channels self.new)) };
}
