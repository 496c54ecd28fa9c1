//! Where elements of arrays stand.

ghost use Rattle.std.specs.Prelude.{◌≡◌, ◌+◌, ◌*◌, ◌^◌, ◌≤◌, ◌-ℤ◌, ◌≤ℤ◌};
ghost use Rattle.std.specs.Option.{option_map, ok_or};
ghost use Rattle.fm_values.specs.Trips.{natural};
ghost use Rattle.fm_values.specs.Places.{extent, size, place_of, element_place, at_most};

use fm_base::Fault;

// The place of an element of one more dimension in front, of its place in the others; at most the
// greatest number.
fn place_in_front(low: i64, high: i64, subscript: i64, behind: usize) -> usize
    requires within_low { low ≤ℤ subscript }
    requires within_high { subscript ≤ℤ high }
    ensures { result ≡ at_most (natural (subscript -ℤ low) + extent (low, high) * behind) }
{
    let offset = subscript.abs_diff(low) as usize;
    let last = high.abs_diff(low) as usize;
    last.saturating_mul(behind)
        .saturating_add(behind)
        .saturating_add(offset)
}

// The place of an element among those of its array, at most the greatest number; `None` where there
// is no such element.
fn held_place(bounds: &[(i64, i64)], subscripts: &[i64]) -> Option<usize>
    ensures { result ≡ option_map at_most (place_of bounds.now subscripts.now) }
{
    if bounds.len() != subscripts.len() {
        return None;
    }
    let mut place: usize = 0;
    let mut dimension = bounds.len();
    'dimensions: while dimension > 0 {
        dimension -= 1;
        let (low, high) = bounds[dimension];
        let subscript = subscripts[dimension];
        if subscript < low || high < subscript {
            return None;
        }
        place = place_in_front(low, high, subscript, place);
    }
    Some(place)
}

/// The place of an element among those of its array, in column order from 0. Bounds are pairs of a
/// lower and an upper one, a pair for each dimension. `None` where the number of subscripts is
/// another, or one is outside its bounds. A place over 2^64 - 1 counts as 2^64 - 1.
#[tactic(auto, using(crate::proofs::PlaceLaws::exact_place))]
pub fn place_of(bounds: &[(i64, i64)], subscripts: &[i64]) -> Option<usize>
    ensures held { result ≡ option_map at_most (place_of bounds.now subscripts.now) }
    ensures exact { size bounds.now ≤ 2 ^ 64 → result ≡ place_of bounds.now subscripts.now }
{
    held_place(bounds, subscripts)
}

/// The same as [`place_of`], with Subscript where there is no such element.
pub fn element_place(bounds: &[(i64, i64)], subscripts: &[i64]) -> Result<usize, Fault>
    ensures held { result ≡ ok_or (option_map at_most (place_of bounds.now subscripts.now)) Fault.Subscript }
    ensures exact { size bounds.now ≤ 2 ^ 64 → result ≡ element_place bounds.now subscripts.now }
{
    match place_of(bounds, subscripts) {
        Some(place) => Ok(place),
        None => Err(Fault::Subscript),
    }
}
