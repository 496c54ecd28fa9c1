//! The processes and channels of a run.

ghost use Rattle.std.specs.Prelude.{◌≡◌, []};
ghost use Rattle.std.specs.FinMap.{empty};
ghost use Rattle.fm_chan.specs.Bodies.{chans_of};
ghost use Rattle.fm_chan.specs.Woken.{woken_of};
ghost use Rattle.fm_finmap.specs.Rows.{places_in};
ghost use Rattle.fm_net_procs.specs.Kept.{AreFamilies, AreTold};
ghost use Rattle.fm_net_procs.specs.Readings.{order_of, procs_of};

use crate::entries::Entries;
use crate::process::Proc;
use fm_base::Path;
use fm_chan::Channels;
use std::alloc::Global;
use std::sync::Arc;

/// The processes and channels of a run. Contracts see a state of the machine of processes (`state_of`).
#[derive(Drop)]
pub struct Processes<P, L, W> {
    /// The processes.
    pub entries: Entries<P, L>,
    /// The channels.
    pub channels: Channels,
    /// Memory for their statements.
    pub work: W,
}

impl<L: Drop, W: Drop, P: Proc<Look = L, Work = W>> Processes<P, L, W> {
    /// No process and no channel. Takes no memory.
    pub fn new(alloc: Global, work: W) -> Processes<P, L, W>
        ensures processes { (p : P.Program) → procs_of (P.seen p) result.entries ≡ empty }
        ensures order { order_of result.entries ≡ [] }
        ensures told { (p : P.Program) → AreTold (P.seen p) (P.IsNext p) result.entries }
        ensures families { (p : P.Program) → AreFamilies (P.seen p) P.awaits result.entries }
        ensures channels { chans_of result.channels ≡ empty }
        ensures woken { woken_of result.channels ≡ [] }
        ensures work { result.work ≡ work }
    {
        Processes {
            entries: Entries::new(alloc),
            channels: Channels::new(alloc),
            work,
        }
    }

    /// The paths of the processes alone, in the order of starting.
    pub fn into_paths(self) -> Vec<Arc<Path>>
        ensures { places_in result.items ≡ order_of self.entries }
    {
        let Processes {
            entries,
            channels: _channels,
            work: _work,
        } = self;
        entries.into_paths()
    }
}
