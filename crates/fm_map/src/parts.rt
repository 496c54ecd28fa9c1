//! Parts of machines.

ghost use Rattle.std.specs.Prelude.{◌≡◌};
ghost use Rattle.fm_map.specs.Placement.{part_of};

use crate::nodes::is_numbered;
use fm_base::Machine;

/// The nodes of a machine from `low` to `high`, both counted from 1. None exactly where they aren't
/// `1 <= low <= high <= machine.count`, or a node of the machine would have a number over 4,294,967,295. Takes no
/// memory.
pub fn part(machine: Machine, low: i64, high: i64) -> Option<Machine>
    ensures { result ≡ part_of machine low high }
{
    if !is_numbered(machine) {
        return None;
    }
    if low < 1 || high < low || i64::from(machine.count) < high {
        return None;
    }
    let before = (low - 1) as u32;
    let behind = (high - low) as u32;
    Some(Machine {
        first: machine.first + before,
        count: behind + 1,
    })
}
