//! What runs as stack code.

ghost use Rattle.std.specs.Prelude.{◌≡◌, ◌∷◌, [], Some, IfOk};
ghost use Rattle.fm_finmap.specs.Rows.{place_at};
ghost use Rattle.fm_net.specs.Correspondence.{StandsFor};
ghost use Rattle.fm_net.specs.Machine.{State};
ghost use Rattle.fm_proc_language.specs.Processes.{CodeProc};
ghost use Rattle.fm_procs.specs.Kept.{AreKept};
ghost use Rattle.fm_procs.specs.Readings.{order_of, state_of};
ghost use Rattle.fm_run.specs.Plays.{Play, first, outcome_of};
ghost use Rattle.fm_run_code.specs.Coded.{IsCoded};

use fm_base::NoMemory;
use fm_mean::Outcome;
use fm_procs::CodeProcs;
use std::alloc::Global;

/// A kind of source that runs as stack code: each process of what is run corresponds to one of stack code, which does
/// and needs the same.
pub trait Coded {
    /// Of what it is the code, such as a program or an image.
    type Source;

    /// What is run.
    ghost play: { Self.Source → Play };

    /// When a process of stack code corresponds to one of what is run.
    ghost Corresponds: { (p : Self.Source) → CodeProc → (play p).Proc → Type 0 };

    /// What holds of each state of what is run that is reached.
    ghost IsLive: { (p : Self.Source) → State (play p).Proc → Type 0 };

    /// The processes of stack code before the first piece: main alone.
    fn first_stacks(alloc: Global, source: &Self::Source) -> Result<CodeProcs, NoMemory>
        ensures stands { IfOk result
            (λ s. StandsFor (Corresponds source.now) (IsLive source.now) (state_of s) (first (play source.now))) }
        ensures order { IfOk result (λ s. order_of s.entries ≡ [] ∷ []) }
        ensures kept { IfOk result (λ s. AreKept s.entries) };

    /// What a run shows when it has ended at this cost in turns.
    fn outcome(
        alloc: Global,
        source: &Self::Source,
        stacks: &CodeProcs,
        used: u64,
    ) -> Result<Outcome, NoMemory>
        requires kept { AreKept stacks.now.entries }
        requires main { place_at stacks.now.entries.rows 0 ≡ Some [] }
        ensures { IfOk result (λ o. (s : State (play source.now).Proc)
            → StandsFor (Corresponds source.now) (IsLive source.now) (state_of stacks.now) s
            → o ≡ outcome_of (play source.now) used s) };

    /// What is run does and needs what stack code does.
    ghost is_coded: { (p : Self.Source) → IsCoded (play p) (Corresponds p) (IsLive p) };
}
