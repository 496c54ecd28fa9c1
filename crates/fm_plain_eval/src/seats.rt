//! Where processes are put.

ghost use Rattle.std.specs.Option.{option_copied};
ghost use Rattle.fm_plain_eval.specs.Operands.{seated};
ghost use Rattle.fm_mean.specs.Actions.{seat_at};
ghost use Rattle.fm_plain_eval.specs.Outcomes.{IsDone};
ghost use Rattle.fm_plain_eval.specs.Scopes.{scope_of};

use crate::bounds::number;
use crate::failure::Failure;
use crate::scopes::Scope;
use crate::values::numbers;
use fm_base::Machine;
use fm_map::{fitted, located, parted};
use fm_tree::Where;
use std::alloc::Global;

fn seat_at(
    alloc: Global,
    scope: &Scope<'_>,
    machine: Machine,
    node: u32,
    place: Option<&Where>,
    next: usize,
) -> Result<(Machine, u32), Failure>
    ensures { IsDone (seat_at (scope_of scope.now) machine (machine, node) (option_copied place.entry) next) result }
{
    match place {
        None => Ok((machine, node)),
        Some(Where::Location(subscripts)) => {
            let extents = scope.unit.names().extents.as_slice();
            let (numbers, _) = numbers(alloc, scope, subscripts.as_slice(), next)?;
            Ok(located(extents, machine, numbers.as_slice())?)
        }
        Some(Where::Submachine(first, last)) => {
            let (low, next) = number(alloc, scope, first, next)?;
            let (high, _) = number(alloc, scope, last, next)?;
            Ok(parted(machine, low, high)?)
        }
    }
}

/// Where a child is put whose unit has these extents: its machine and its node. It is called from a process on a
/// machine and a node, and `next` references of the entry stand before the place that is written. The first fault; or
/// want of memory.
pub fn seat(
    alloc: Global,
    scope: &Scope<'_>,
    machine: Machine,
    node: u32,
    extents: &[u32],
    place: Option<&Where>,
    next: usize,
) -> Result<(Machine, u32), Failure>
    ensures { IsDone (seated (scope_of scope.now) machine (machine, node) extents.now (option_copied place.entry) next)
        result }
{
    let (machine, node) = seat_at(alloc, scope, machine, node, place, next)?;
    Ok(fitted(extents, machine, node)?)
}
