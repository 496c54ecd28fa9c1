//! Loops.

ghost use Rattle.std.specs.Prelude.{◌≡◌};
ghost use Rattle.fm_code.specs.Acts.{Over, counted, enters, ends_trip, fewer};
ghost use Rattle.fm_machine_instr.specs.Told.{ended};

use crate::statement_end::{Change, Ending};
use fm_code::{Frame, Loop, Trips};
use fm_values::{add, trips_behind};

/// Where the end of a statement leads, in a loop and behind it.
#[derive(Clone, Copy)]
pub struct Ways {
    /// The address of the body.
    pub body: u32,
    /// The address behind the loop.
    pub behind: u32,
}

/// The trips that are left are kept, and the variable gets a value.
fn count(counts: Loop, ways: Ways, trips: Trips, value: i64, frame: &Frame) -> Ending
    ensures { Over (ended result frame.now) ≡ counted counts ways.body ways.behind trips value frame.now }
{
    let number = counts.number as usize;
    let word = counts.word as usize;
    if number < frame.loops.len() && word < frame.words.len() {
        let to = match trips.behind {
            None => ways.behind,
            Some(_) => ways.body,
        };
        Ending::Goes(Change {
            to,
            word: Some((word, value)),
            trips: Some((number, trips)),
        })
    } else {
        Ending::Stuck
    }
}

/// Begins a loop.
pub(crate) fn enter(counts: Loop, ways: Ways, from: i64, to: i64, by: i64, frame: &Frame) -> Ending
    ensures { Over (ended result frame.now) ≡ enters counts ways.body ways.behind from to by frame.now }
{
    match trips_behind(from, to, by) {
        Ok(behind) => count(counts, ways, Trips { behind, by }, from, frame),
        Err(fault) => Ending::Fails(fault),
    }
}

/// The trips that are left behind the next one, after a trip.
pub fn fewer(behind: Option<u64>) -> Option<u64>
    ensures { result ≡ fewer behind }
{
    match behind {
        None => None,
        Some(trips) => trips.checked_sub(1),
    }
}

/// Ends a trip of a loop; one that wasn't begun is left.
pub(crate) fn end_trip(counts: Loop, ways: Ways, at_work: Option<Trips>, frame: &Frame) -> Ending
    ensures { Over (ended result frame.now) ≡ ends_trip counts ways.body ways.behind at_work frame.now }
{
    let Some(trips) = at_work else {
        return Ending::Goes(Change {
            to: ways.behind,
            word: None,
            trips: None,
        });
    };
    let Some(value) = frame.words.get(counts.word as usize) else {
        return Ending::Stuck;
    };
    let behind = fewer(trips.behind);
    let by = trips.by;
    match add(value, by) {
        Ok(value) => count(counts, ways, Trips { behind, by }, value, frame),
        Err(fault) => Ending::Fails(fault),
    }
}
