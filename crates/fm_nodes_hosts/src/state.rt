//! What an event changes.

ghost use Rattle.std.specs.Prelude.{◌≡◌, [], ◌∷◌, IfOk};
ghost use Rattle.std.specs.FinMap.{empty, insert};
ghost use Rattle.fm_finmap.specs.Rows.{places_in};
ghost use Rattle.fm_nodes_network.specs.Channels.{linked_chans_of};
ghost use Rattle.fm_nodes_procs.specs.Processes.{by_path, order_of};

use fm_base::{NoMemory, Path, Turn};
use fm_nodes_network::{Channels, Network};
use fm_nodes_procs::Processes;
use std::alloc::Global;
use std::sync::Arc;

/// The processes on hosts, the channels and the wire, and the steps so far.
pub struct NodeState<X> {
    /// The processes.
    pub processes: Processes<X>,
    /// The channels and the wire.
    pub network: Network,
    /// An entry of one step for each step.
    pub history: Vec<Turn>,
    /// What the steps cost.
    pub used: u64,
}

impl<X: Drop> Drop for NodeState<X> {
    fn drop(self) {
        let NodeState {
            processes: _processes,
            network: _network,
            history: _history,
            used: _used,
        } = self;
    }
}

impl<X: Drop> NodeState<X> {
    /// The history, and the paths in the order of starting. Takes no memory.
    pub fn into_parts(self) -> (Vec<Turn>, Vec<Arc<Path>>)
        ensures history { result.0.items ≡ self.history.items }
        ensures paths { places_in result.1.items ≡ order_of self.processes }
    {
        let NodeState {
            processes,
            network: _network,
            history,
            used: _used,
        } = self;
        (history, processes.into_paths())
    }
}

/// Main alone, with no channel and nothing on the wire.
pub fn first_state<X: Drop>(alloc: Global, main: X) -> Result<NodeState<X>, NoMemory>
    ensures map { IfOk result (λ s. by_path s.processes ≡ insert empty [] main) }
    ensures order { IfOk result (λ s. order_of s.processes ≡ [] ∷ []) }
    ensures channels { IfOk result (λ s. linked_chans_of s.network.channels ≡ empty) }
    ensures wire { IfOk result (λ s. s.network.wire.items ≡ []) }
    ensures history { IfOk result (λ s. s.history.items ≡ []) }
    ensures used { IfOk result (λ s. s.used ≡ 0) }
{
    let mut processes = Processes::new(alloc);
    processes.start(alloc, Path::main(alloc), main)?;
    Ok(NodeState {
        processes,
        network: Network {
            channels: Channels::new(alloc),
            wire: Vec::new(alloc),
        },
        history: Vec::new(alloc),
        used: 0,
    })
}
