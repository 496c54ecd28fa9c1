//! Processes of stack code do what those of the meaning do, and show the same: the language of stack code
//! (`fm_proc_language`) corresponds to that of the program (`fm_mean`), for the code that `fm_gen` generates.
//! `specs/Corresponds` tells when a process of the one corresponds to one of the other, `specs/SlotWords` how the words
//! of frames, with ports in the slots of their process, stand for values, and `specs/Shown` what they show. The
//! functions here have empty bodies: their contracts are laws.

ghost use Rattle.std.specs.Prelude.{◌≡◌, ℕ, Some, is_some};
ghost use Rattle.std.specs.FinMap.{get};
ghost use Rattle.fm_net.specs.Machine.{Place, State};
ghost use Rattle.fm_net.specs.Correspondence.{StandsFor, AreAlike, IsCorrespondence};
ghost use Rattle.fm_rules.specs.declared.program.Program.{Program};
ghost use Rattle.fm_mean.specs.Actions.{local_step};
ghost use Rattle.fm_mean.specs.Outcome as outcome;
ghost use Rattle.fm_mean.specs.Outcome.{outcome_of};
ghost use Rattle.fm_mean.specs.Process.{Proc};
ghost use Rattle.fm_mean.specs.Steps.{language, first_proc};
ghost use Rattle.fm_proc_language.specs.Processes.{CodeProc, code_language};
ghost use Rattle.fm_proc_language.specs.Needs.{need_of, is_local};
ghost use Rattle.fm_proc_simulation.specs.Corresponds.{Corresponds, IsLive};
ghost use Rattle.fm_proc_simulation.specs.Shown.{outcome_by, first_process};

/// The language of stack code corresponds to that of a program, and so the machines of both do the same from states
/// that stand for one another: the same steps at the same places, of the same cost, with the same channels, and the
/// same children start in the same order.
pub fn machines_are_alike()
    ensures corresponds { (p : Program) → IsCorrespondence (Corresponds p) (IsLive p) (language p) code_language }
    ensures alike { (p : Program) → AreAlike (Corresponds p) (IsLive p) (language p) code_language }
{}

/// What processes of stack code show and need is what those of a program do: whether the next step of one is local,
/// what it needs, the outcome of a state, and the process with which the program begins.
pub fn processes_are_alike()
    ensures local { (p : Program) (s : State Proc) → IsLive p s
        → (q : Place) (x : Proc) (y : CodeProc) → get s.procs q ≡ Some x
        → Corresponds p y x → is_local y ≡ is_some (local_step p x) }
    ensures needs { (p : Program) (s : State Proc) → IsLive p s
        → (q : Place) (x : Proc) (y : CodeProc) → get s.procs q ≡ Some x
        → Corresponds p y x → need_of y ≡ outcome.need_of p x }
    ensures outcomes { (p : Program) (used : ℕ) (s : State Proc) (t : State CodeProc)
        → StandsFor (Corresponds p) (IsLive p) t s → outcome_by p used t ≡ outcome_of p used s }
    ensures first { (p : Program) → Corresponds p (first_process p) (first_proc p) }
{}
