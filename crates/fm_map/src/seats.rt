//! Machines and nodes of processes.

ghost use Rattle.std.specs.Prelude.{◌≡◌, ◌*◌};
ghost use Rattle.fm_map.specs.Placement.{at_first, at_node, fitted, located, no_more, parted, product};

use crate::nodes::place;
use crate::parts::part;
use fm_base::{Fault, Machine};

/// A machine and a node of it, or why there is none.
pub type Seat = Result<(Machine, u32), Fault>;

fn at_node(node: Option<u32>) -> Seat
    ensures { result ≡ at_node node }
{
    match node {
        Some(node) => Ok((
            Machine {
                first: node,
                count: 1,
            },
            node,
        )),
        None => Err(Fault::BadLocation),
    }
}

fn at_first(part: Option<Machine>) -> Seat
    ensures { result ≡ at_first part }
{
    match part {
        Some(part) => Ok((part, part.first)),
        None => Err(Fault::BadMachine),
    }
}

// The product of two numbers that are no more than a limit, where it is no more either.
fn times(limit: u32, extent: u32, behind: u32) -> Option<u32>
    ensures { result ≡ no_more limit (extent * behind) }
{
    let product = u64::from(extent) * u64::from(behind);
    if product <= u64::from(limit) {
        Some(product as u32)
    } else {
        None
    }
}

/// How many nodes a shape has, where these are no more than a limit.
fn product(limit: u32, extents: &[u32]) -> Option<u32>
    ensures { result ≡ no_more limit (product extents.now) }
{
    let Some((extent, extents)) = extents.split_first() else {
        return times(limit, 1, 1);
    };
    if *extent == 0 {
        return Some(0);
    }
    let behind = product(limit, extents)?;
    times(limit, *extent, behind)
}

/// LOCATION: one node of the machine, by the shape of the unit that calls. Takes no memory.
pub fn located(extents: &[u32], machine: Machine, subscripts: &[i64]) -> Seat
    ensures { result ≡ located extents.now machine subscripts.now }
{
    if extents.is_empty() {
        at_node(place(machine, &[machine.count], subscripts))
    } else {
        at_node(place(machine, extents, subscripts))
    }
}

/// SUBMACHINE: nodes of the machine from one to another, counted from 1. Takes no memory.
pub fn parted(machine: Machine, low: i64, high: i64) -> Seat
    ensures { result ≡ parted machine low high }
{
    at_first(part(machine, low, high))
}

/// What a unit takes of the machine at which it is put: as many nodes as its shape has, from the first on. Takes no
/// memory.
pub fn fitted(extents: &[u32], machine: Machine, node: u32) -> Seat
    ensures { result ≡ fitted extents.now (machine, node) }
{
    if extents.is_empty() {
        return Ok((machine, node));
    }
    let first = machine.first;
    match product(machine.count, extents) {
        Some(count) => Ok((Machine { first, count }, node)),
        None => Err(Fault::BadMachine),
    }
}
