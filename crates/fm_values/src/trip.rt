//! How often a loop runs.

ghost use Rattle.std.specs.Prelude.{◌≡◌, ◌<ℤ◌, pos, Ok};
ghost use Rattle.fm_values.specs.Trips.{trips_behind};

use fm_base::Fault;

#[tactic(auto, using(crate::proofs::TripLaws::trips_up, crate::proofs::TripLaws::no_trips_up))]
fn trips_up(m1: i64, m2: i64, m3: i64) -> Option<u64>
    requires { pos 0 <ℤ m3 }
    ensures { Ok result ≡ trips_behind m1 m2 m3 }
{
    if m1 <= m2 {
        Some(m2.abs_diff(m1) / m3.unsigned_abs())
    } else {
        None
    }
}

#[tactic(auto, using(crate::proofs::TripLaws::trips_down, crate::proofs::TripLaws::no_trips_down))]
fn trips_down(m1: i64, m2: i64, m3: i64) -> Option<u64>
    requires { m3 <ℤ pos 0 }
    ensures { Ok result ≡ trips_behind m1 m2 m3 }
{
    if m2 <= m1 {
        Some(m1.abs_diff(m2) / m3.unsigned_abs())
    } else {
        None
    }
}

/// How many trips a loop from `m1` to `m2` by `m3` makes behind its first, or `None` where it makes
/// none at all. ZeroDivide where `m3` is 0.
#[tactic(auto, using(crate::proofs::TripLaws::no_step))]
pub fn trips_behind(m1: i64, m2: i64, m3: i64) -> Result<Option<u64>, Fault>
    ensures { result ≡ trips_behind m1 m2 m3 }
{
    if m3 > 0 {
        Ok(trips_up(m1, m2, m3))
    } else if m3 < 0 {
        Ok(trips_down(m1, m2, m3))
    } else {
        Err(Fault::ZeroDivide)
    }
}
