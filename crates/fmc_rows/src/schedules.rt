//! Programs under many schedules.

use crate::answers::play;
use fmc::Exit;
use rand_core::utils::NextWord;
use rand_pcg::Pcg32;
use std::alloc::Global;
use std::test::Fail;

/// How many lists of choices a program is played with.
const LISTS: u64 = 100;

/// The choices of a list. Behind them the first process goes on.
const CHOICES: usize = 400;

fn choices(alloc: Global, seed: u64) -> Result<Vec<u64>, Fail> {
    let mut words = Pcg32::new(seed, 1);
    let mut choices = Vec::new(alloc);
    for _ in 0..CHOICES {
        choices.push(u64::from(words.next_word()))?;
    }
    Ok(choices)
}

/// The number of the first list of choices under which a source comes to another text than without
/// choices, if there is one.
pub fn first_other(alloc: Global, source: &[u8]) -> Result<Option<u64>, Fail> {
    let (_, text) = play(alloc, source, &[])?;
    for seed in 0..LISTS {
        let (_, other) = play(alloc, source, &choices(alloc, seed)?)?;
        if other != text {
            return Ok(Some(seed));
        }
    }
    Ok(None)
}

/// The number of the first list of choices under which a run of a source ends with main waiting, if there is one.
pub fn first_deadlock(alloc: Global, source: &[u8]) -> Result<Option<u64>, Fail> {
    for seed in 0..LISTS {
        let (ran, _) = play(alloc, source, &choices(alloc, seed)?)?;
        if ran.exit == Exit::Deadlocked {
            return Ok(Some(seed));
        }
    }
    Ok(None)
}
