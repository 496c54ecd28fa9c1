//! The processes and channels of a run.

ghost use Rattle.std.specs.Prelude.{◌≡◌, true, false, [], Some, IfOk, OnOk};
ghost use Rattle.std.specs.FinMap.{contains_key, empty, get};
ghost use Rattle.fm_base.specs.declared.path.ChanName as declared_channel;
ghost use Rattle.fm_chan.specs.Bodies.{chans_of};
ghost use Rattle.fm_chan.specs.Woken.{WakesAll, woken_of};
ghost use Rattle.fm_finmap.specs.Rows.{place_at};
ghost use Rattle.fm_net.specs.Machine.{Place};
ghost use Rattle.fm_proc_language.specs.Processes.{CodeProc};
ghost use Rattle.fm_procs.specs.Kept.{AreKept};
ghost use Rattle.fm_procs.specs.Readings.{order_of, procs_of, state_of};
ghost use Rattle.fm_procs.specs.Waiting.{IsNoted, can_at, channel_waited};

use crate::process::CodeProcess;
use fm_base::NoMemory;
use fm_machine_calls::Look;
use fm_machine_instr::Work;
use fm_net_procs::Processes;
use std::alloc::Global;

/// The processes and channels of a run, with what a statement builds before it ends, from statement to statement.
pub type CodeProcs = Processes<CodeProcess, Look, Work>;

/// No process and no channel. Takes no memory.
pub fn no_procs(alloc: Global) -> CodeProcs
    ensures processes { procs_of result.entries ≡ empty }
    ensures order { order_of result.entries ≡ [] }
    ensures kept { AreKept result.entries }
    ensures channels { chans_of result.channels ≡ empty }
    ensures woken { woken_of result.channels ≡ [] }
{
    Processes::new(alloc, Work::new(alloc))
}

/// Whether the process of a number can step.
pub fn can_step(procs: &CodeProcs, number: u32) -> Result<bool, NoMemory>
    requires { AreKept procs.now.entries }
    ensures { IfOk result (λ r. r ≡ can_at (state_of procs.now) (order_of procs.now.entries) number) }
{
    procs.can_step(number)
}

/// Notes the process of a number, which can't step, at the channel at which it waits for a message, if it waits at one.
pub fn note(procs: &mut CodeProcs, number: u32) -> Result<(), NoMemory>
    requires kept { AreKept procs.old.entries }
    requires waits { can_at (state_of procs.old) (order_of procs.old.entries) number ≡ false }
    ensures entries { OnOk result (procs.new.entries ≡ procs.old.entries) }
    ensures channels { OnOk result (chans_of procs.new.channels ≡ chans_of procs.old.channels) }
    ensures noted { OnOk result ((q : Place) (y : CodeProc) → place_at procs.old.entries.rows number ≡ Some q
        → get (procs_of procs.old.entries) q ≡ Some y
        → ((c : declared_channel.ChanName) → channel_waited y ≡ Some c
        → contains_key (chans_of procs.old.channels) c ≡ true)
        → IsNoted procs.new.channels number y) }
    ensures waking { OnOk result (WakesAll procs.old.channels procs.new.channels) }
{
    procs.note(&(), number)
}
