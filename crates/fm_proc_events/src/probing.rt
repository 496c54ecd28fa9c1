//! Whether a receive would wait.

ghost use Rattle.std.specs.Prelude.{◌≡◌, []};
ghost use Rattle.fm_chan.specs.Bodies.{chans_of};
ghost use Rattle.fm_code.specs.declared.ask.Ask.TheVariants as ask;
ghost use Rattle.fm_machine_calls.specs.declared.looking.Look.TheVariants.{Asks};
ghost use Rattle.fm_proc_events.specs.Performs.{CanPerform, Performs};
ghost use Rattle.fm_proc_events.specs.Phases.{proc_of};
ghost use Rattle.fm_proc_events.specs.Told.{look_of};

use crate::going::put_and_set_address;
use crate::process::Process;
use fm_base::Path;
use fm_chan::Channels;
use fm_values::truth_word;
use std::mem::replace;

/// Looks whether a receive by the port in a slot would wait. The cost is 1.
pub fn probe(
    path: &Path,
    process: &mut Process,
    channels: &Channels,
    slot: i64,
    empty: u32,
    next: u32,
)
    requires look { look_of (proc_of process.old) ≡ Asks (ask.Probe slot empty next) }
    requires can { CanPerform (proc_of process.old) (chans_of channels.now) }
    ensures { Performs path.now (proc_of process.old) (chans_of channels.now) (proc_of process.new) []
        (chans_of channels.now) 1 }
{
    let waits = match process.slots.port(slot) {
        Some(port) => channels.probe(port),
        None => unreachable!(),
    };
    let Some(mut body) = replace(&mut process.body, None) else {
        unreachable!()
    };
    put_and_set_address(&mut body, empty, truth_word(waits), next);
    process.body = Some(body);
}
