//! A run in which nobody chooses is fair.

ghost use Rattle.std.specs.Prelude.{ℕ, List, []};
ghost use Rattle.fm_base.specs.declared.schedule.Turn.{Turn};
ghost use Rattle.fm_rules.specs.declared.program.Program.{Program};
ghost use Rattle.fm_run.specs.Orders.{places_of};
ghost use Rattle.fm_run.specs.Programs.{Follows, IsRun, after_entries, first_stand, play_of};
ghost use Rattle.fm_run.specs.declared.run.Run as declared_run;
ghost use Rattle.fm_run_law.specs.Fair.{IsFair};

/// A schedule in which each piece goes to the first of those that can step is fair: each process that can step comes
/// before as many entries as there are processes.
pub fn first_come_is_fair()
    ensures { (program : Program) (slice : ℕ) (history : List Turn) → Follows program slice [] history →
        IsFair (play_of program) history (after_entries program (first_stand program) history).places }
{}

/// So is that of a run in which nobody chooses.
pub fn run_is_fair()
    ensures { (program : Program) (slice turns : ℕ) (run : declared_run.Run)
        → IsRun program turns run → Follows program slice [] run.history.items
        → IsFair (play_of program) run.history.items (places_of run.paths.items) }
{}
