//! Main alone, before the first piece.

ghost use Rattle.std.specs.Prelude.{◌≡◌, ◌∷◌, [], IfOk};
ghost use Rattle.fm_net.specs.Owned.{main_alone};
ghost use Rattle.fm_procs.specs.Kept.{AreKept};
ghost use Rattle.fm_procs.specs.Readings.{order_of, state_of};
ghost use Rattle.fm_proc_simulation.specs.Shown.{first_process};

use fm_base::NoMemory;
use fm_gen::generate;
use fm_procs::CodeProcs;
use fm_rules::Program;
use fm_shown::first_stacks;
use std::alloc::Global;

/// Main alone, with no channel: the PROGRAM as a process of the code that is generated.
pub fn program_stacks(alloc: Global, program: &Program) -> Result<CodeProcs, NoMemory>
    ensures state { IfOk result (λ s. state_of s ≡ main_alone (first_process program.now)) }
    ensures order { IfOk result (λ s. order_of s.entries ≡ [] ∷ []) }
    ensures kept { IfOk result (λ s. AreKept s.entries) }
{
    let code = generate(alloc, program)?;
    first_stacks(alloc, code, program.main())
}
