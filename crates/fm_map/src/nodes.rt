//! Nodes of machines.

ghost use Rattle.std.specs.Prelude.{◌≡◌, ◌≤◌, ◌+◌, ◌*◌, ◌-ℤ◌, ◌≤ℤ◌, pos};
ghost use Rattle.fm_values.specs.Trips.{natural};
ghost use Rattle.fm_map.specs.Placement.{is_numbered, node_of, one_of, place_in};

use fm_base::Machine;

/// Whether each node of a machine has a number below 4,294,967,296.
pub(crate) fn is_numbered(machine: Machine) -> bool
    ensures { result ≡ is_numbered machine }
{
    u64::from(machine.first) + u64::from(machine.count) <= 4_294_967_296
}

// The place with one more dimension in front, of the place in the others.
fn place_in_front(extent: u32, subscript: i64, behind: u32) -> u64
    requires within_low { pos 1 ≤ℤ subscript }
    requires within_high { subscript ≤ℤ pos extent }
    ensures { result ≡ natural (subscript -ℤ pos 1) + extent * behind }
{
    let offset = (subscript - 1) as u64;
    u64::from(extent) * u64::from(behind) + offset
}

// The place of subscripts from 1 in column order, where it is one of so many; none where a subscript is outside its
// extent.
fn place_in(count: u32, extents: &[u32], subscripts: &[i64]) -> Option<u32>
    ensures { result ≡ one_of count (place_in extents.now subscripts.now) }
{
    let Some((extent, extents)) = extents.split_first() else {
        return if subscripts.is_empty() && 0 < count {
            Some(0)
        } else {
            None
        };
    };
    let (subscript, subscripts) = subscripts.split_first()?;
    if *subscript < 1 || i64::from(*extent) < *subscript {
        return None;
    }
    let behind = place_in(count, extents, subscripts)?;
    let place = place_in_front(*extent, *subscript, behind);
    if place < u64::from(count) {
        Some(place as u32)
    } else {
        None
    }
}

/// The node of a machine at subscripts from 1 in a shape of these extents, in column order. None exactly where there
/// are not as many subscripts as extents, or one is outside 1 to its extent, or the machine has no such node. Takes no
/// memory.
pub fn place(machine: Machine, extents: &[u32], subscripts: &[i64]) -> Option<u32>
    ensures { result ≡ node_of machine extents.now subscripts.now }
{
    if !is_numbered(machine) {
        return None;
    }
    let place = place_in(machine.count, extents, subscripts)?;
    Some(machine.first + place)
}
