//! A statement that lets ports go.

ghost use Rattle.std.specs.Prelude.{◌≡◌, [], IfOk, OnErr, OnOk};
ghost use Rattle.fm_chan.specs.Bodies.{chans_of};
ghost use Rattle.fm_chan.specs.Woken.{WakesAll};
ghost use Rattle.fm_code.specs.declared.ask.Ask.TheVariants as ask;
ghost use Rattle.fm_machine_calls.specs.declared.looking.Look.TheVariants.{Asks};
ghost use Rattle.fm_proc_events.specs.Performs.{CanPerform, Performs};
ghost use Rattle.fm_proc_events.specs.Phases.{proc_of};
ghost use Rattle.fm_proc_events.specs.Told.{look_of};

use fm_base::{NoMemory, Path, Seq};
use fm_chan::Channels;
use fm_machine::let_go as let_go_of;
use fm_machine_instr::Work;
use fm_proc_events::{Process, shed, vacate};
use fm_proc_slots::Slots;
use std::alloc::Global;

/// Does the next statement, after which these ports are let go. The cost. After want of memory the process and the
/// channels are as they were.
pub(crate) fn let_go(
    alloc: Global,
    work: &mut Work,
    path: &Path,
    process: &mut Process,
    channels: &mut Channels,
    slots: Seq<i64>,
) -> Result<u64, NoMemory>
    requires look { look_of (proc_of process.old) ≡ Asks (ask.LetGo slots) }
    requires can { CanPerform (proc_of process.old) (chans_of channels.old) }
    ensures performs { IfOk result (λ cost. Performs path.now (proc_of process.old) (chans_of channels.old)
        (proc_of process.new) [] (chans_of channels.new) cost) }
    ensures stays { OnErr result (proc_of process.new ≡ proc_of process.old) }
    ensures channels { OnErr result (chans_of channels.new ≡ chans_of channels.old) }
    ensures waking { OnOk result (WakesAll channels.old channels.new) }
{
    let Some(body) = &mut process.body else {
        unreachable!()
    };
    let mut ports = Vec::with_capacity(alloc, slots.len())?;
    let mut held = process.slots.open(alloc, slots.len())?;
    match let_go_of(alloc, work, body, slots.as_slice()) {
        Ok(cost) => {
            vacate(&mut held, slots.as_slice(), &mut ports);
            process.slots = Slots::from_open(held);
            shed(channels, ports);
            Ok(cost)
        }
        Err(error) => {
            process.slots = Slots::from_open(held);
            Err(error)
        }
    }
}
