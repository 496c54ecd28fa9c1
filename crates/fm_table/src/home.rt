//! The process that is played at home though it is heavy.

use crate::programs::Compiled;
use fm_code::Body;

// How many words a large body has at least.
const LARGE_BODY: usize = 16_384;

/// How many steps a slice at home has at least, for each is an entry of the schedule.
pub(crate) const HOME_SLICE: u32 = 1_000;

// How many steps a slice at home has at most, for others wait meanwhile.
const LONGEST_SLICE: u32 = 16_384;

// How many statements a process gets at home before its worker looks for another one: as many as a piece outside has at
// most.
const STAY: u32 = 1_000_000;

/// A heavy process that isn't given out, since copies of its body would take much memory: one worker plays it in place,
/// slice by slice, and lets others in between. At most one process of a table stays at home.
#[derive(Clone, Copy)]
pub(crate) struct Home {
    /// The worker that plays it.
    pub worker: u32,
    /// Its number.
    pub number: u32,
    /// How many statements it gets still before its worker looks for another one.
    pub left: u32,
}

/// The words of all frames of a body.
pub(crate) fn body_words(body: &Body) -> usize {
    let mut words = body.frame.words.len();
    'frames: for frame in body.below.outermost_first() {
        words = words.saturating_add(frame.words.len());
    }
    words
}

/// A process comes home to a worker, where its body is large, and slices are short, so that others needn't wait long.
pub(crate) fn home_for(net: &Compiled, worker: u32, number: u32, slice: u32) -> Option<Home> {
    let words = match net.body_of(number) {
        Some(body) => body_words(body),
        None => 0,
    };
    if words < LARGE_BODY || slice > LONGEST_SLICE {
        return None;
    }
    Some(Home {
        worker,
        number,
        left: STAY,
    })
}

/// Who is at home with a worker.
pub(crate) fn home_of(home: Option<Home>, worker: u32) -> Option<Home> {
    match home {
        Some(home) => {
            if home.worker == worker {
                Some(home)
            } else {
                None
            }
        }
        None => None,
    }
}

/// Whether a process stays at home behind a slice of so many steps: it used the slice up, and has statements left.
pub(crate) fn home_behind(home: Home, steps: u32, slice: u32) -> Option<Home> {
    if steps < slice || home.left <= steps {
        return None;
    }
    Some(Home {
        worker: home.worker,
        number: home.number,
        left: home.left - steps,
    })
}
