//! Workers of nodes.

ghost use Rattle.std.specs.Prelude.{◌≡◌, ◌≤◌, ◌<◌};
ghost use Rattle.fm_map.specs.Placement.{worker_of};

use fm_base::Plan;

/// The worker, from 0, that a node belongs to, of so many nodes and workers. Takes no memory.
pub fn worker_of(node: u32, nodes: u32, workers: u32, plan: Plan) -> u32
    requires there { node < nodes }
    requires some_workers { 1 ≤ workers }
    ensures worker { result ≡ worker_of plan node nodes workers }
    ensures below { result < workers }
{
    match plan {
        Plan::Cyclic => node % workers,
        Plan::Block => {
            let scaled = u64::from(node) * u64::from(workers);
            (scaled / u64::from(nodes)) as u32
        }
    }
}
