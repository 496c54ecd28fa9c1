//! A process meets a fault.

ghost use Rattle.std.specs.Prelude.{◌≡◌, true, []};
ghost use Rattle.fm_base.specs.Channels.{Chans};
ghost use Rattle.fm_code.specs.declared.ask.Ask.TheVariants as ask;
ghost use Rattle.fm_machine_calls.specs.declared.looking.Look.TheVariants.{Asks};
ghost use Rattle.fm_net.specs.Machine.{Place};
ghost use Rattle.fm_proc_events.specs.Performs.{Performs};
ghost use Rattle.fm_proc_events.specs.Phases.{proc_of};
ghost use Rattle.fm_proc_events.specs.Told.{is_running, look_of};

use crate::process::{Phase, Process};
use fm_base::{Fault, Line};

/// The process meets a fault. The cost is 1.
pub fn fail(process: &mut Process, line: Line, fault: Fault)
    requires look { look_of (proc_of process.old) ≡ Asks (ask.Fail line fault) }
    requires running { is_running (proc_of process.old) ≡ true }
    ensures { (p : Place) (cs : Chans) → Performs p (proc_of process.old) cs (proc_of process.new) [] cs 1 }
{
    process.phase = Phase::Faulted { line, fault };
}
