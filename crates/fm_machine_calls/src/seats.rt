//! Where processes are put.

ghost use Rattle.std.specs.Prelude.{◌≡◌};
ghost use Rattle.fm_code.specs.Statements.{fitted_in, seat_of, unit_at};
ghost use Rattle.std.specs.Option.{option_map};

use crate::looking::unit_at;
use fm_code::{Body, Place, Unit};
use fm_map::{Seat, fitted, located, parted};

/// Where a statement puts a process.
fn seat_of(body: &Body, place: &Place) -> Seat
    ensures { result ≡ seat_of body.now place.now }
{
    match place {
        Place::Here => Ok((body.machine, body.node)),
        Place::Location(subscripts) => {
            let extents = match unit_at(&body.code, body.frame.unit) {
                Some(unit) => unit.extents.as_slice(),
                None => &[],
            };
            located(extents, body.machine, subscripts.as_slice())
        }
        Place::Submachine(low, high) => parted(body.machine, *low, *high),
    }
}

// What a unit takes of the machine at a seat.
fn fitted_in(unit: &Unit, seat: Seat) -> Seat
    ensures { result ≡ fitted_in unit.now seat }
{
    let (machine, node) = seat?;
    fitted(unit.extents.as_slice(), machine, node)
}

/// Where a process of a unit is put; none where there is no such unit. Takes no memory.
pub fn seat_for(body: &Body, number: u32, place: &Place) -> Option<Seat>
    ensures { result ≡ option_map (λ u. fitted_in u (seat_of body.now place.now)) (unit_at body.now number) }
{
    let unit = unit_at(&body.code, number)?;
    Some(fitted_in(unit, seat_of(body, place)))
}
