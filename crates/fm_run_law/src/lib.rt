//! Laws of runs and of their schedules.
//!
//! The entries of a schedule stand for one list of choices (`AreSteps` of `specs/Entries`). A run in which nobody
//! chooses serves those that can step in turn, and so it is fair (`IsFair` of `specs/Fair`). Two runs under the same
//! turns that follow the same choices are one (`AreOneRun` of `specs/One`). Each function here has an empty body: its
//! contract is a law.
#![tactic(auto)]

ghost use Rattle.std.specs.Prelude.{◌≡◌, ℕ, ◌≤◌, List, [], ◌++◌, ◌∷◌};
ghost use Rattle.fm_base.specs.declared.schedule.Turn.{Turn};
ghost use Rattle.fm_net.specs.Machine.{Place};
ghost use Rattle.fm_rules.specs.declared.program.Program.{Program};
ghost use Rattle.fm_run.specs.Orders.{places_of};
ghost use Rattle.fm_run.specs.Plays.{IsLawfulPlay};
ghost use Rattle.fm_run.specs.Runs.{Follows, IsRun, after_entries, first_stand};
ghost use Rattle.fm_run.specs.declared.run.Run as declared_run;
ghost use Rattle.fm_run_law.specs.Entries.{AreSteps, GoesOnWith, HasItsSteps};
ghost use Rattle.fm_run_law.specs.Fair.{IsFair};
ghost use Rattle.fm_run_law.specs.One.{AreOneRun};

use fm_run::Net;

/// A schedule in which each piece goes to the first of those that can step is fair: each process that can step comes
/// before as many entries as there are processes.
pub fn first_come_is_fair<N: Net>()
    ensures { (source : N.Source) → IsLawfulPlay (N.play source)
        → (slice : ℕ) (history : List Turn) → Follows (N.play source) slice [] history
        → IsFair (N.play source) history (after_entries (N.play source) (first_stand (N.play source)) history).places }
{}

/// So is that of a run in which nobody chooses.
pub fn run_is_fair<N: Net>()
    ensures { (source : N.Source) → IsLawfulPlay (N.play source)
        → (slice turns : ℕ) (run : declared_run.Run) → IsRun (N.play source) turns run
        → Follows (N.play source) slice [] run.history.items
        → IsFair (N.play source) run.history.items (places_of run.paths.items) }
{}

/// Two runs under the same turns that follow the same choices, in pieces of the same slice, are one.
pub fn one_run<N: Net>()
    ensures { (source : N.Source) (slice turns : ℕ) (choices : List ℕ) (a b : declared_run.Run)
        → IsRun (N.play source) turns a → IsRun (N.play source) turns b
        → Follows (N.play source) slice choices a.history.items
        → Follows (N.play source) slice choices b.history.items
        → AreOneRun a b }
{}

/// The entries of a schedule stand for one list of choices: two legal lists that both are told by them, each with the
/// processes in the order in which it starts them, are the same. And what the first of them stand for begins what all
/// of them do, and there the next of them has its steps.
pub fn entries_have_one_list()
    ensures one { (p : Program) (entries : List Turn) (cs ds : List Place)
        → AreSteps p entries cs → AreSteps p entries ds → cs ≡ ds }
    ensures front { (p : Program) (entries more : List Turn) (cs ds : List Place)
        → AreSteps p (entries ++ more) cs → AreSteps p entries ds
        → GoesOnWith p more ds cs }
    ensures steps { (p : Program) (before : List Turn) (t : Turn) (more : List Turn) (cs ds : List Place)
        → AreSteps p (before ++ t ∷ more) cs → AreSteps p before ds
        → 1 ≤ t.steps → HasItsSteps p t ds }
{}
