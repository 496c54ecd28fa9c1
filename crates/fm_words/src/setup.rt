//! The setup of a run, from what options ask for.

ghost use Rattle.std.specs.Prelude.{◌≡◌, ◌&&◌, nat_le};
ghost use Rattle.fm_words.specs.Words.{setup_with, setup_of};

use crate::settings::Settings;
use fm_base::{Plan, Setup};

const MOST_TURNS: u64 = 1_000_000_000;

const MOST_WORKERS: u64 = 64;

const MOST_STEPS: u64 = 1_000_000;

const TURNS: u64 = 10_000_000;

const WORKERS: u64 = 4;

const STEPS: u64 = 1_000;

fn is_within(number: u64, most: u64) -> bool
    ensures { result ≡ (nat_le 1 number && nat_le number most) }
{
    1 <= number && number <= most
}

fn setup_with(turns: u64, workers: u64, slice: u64, plan: Plan) -> Option<Setup>
    ensures { result ≡ setup_with turns workers slice plan }
{
    if is_within(turns, MOST_TURNS)
        && is_within(workers, MOST_WORKERS)
        && is_within(slice, MOST_STEPS)
    {
        Some(Setup {
            turns,
            slice: slice as u32,
            workers: workers as u32,
            plan,
        })
    } else {
        None
    }
}

/// The setup that is asked for, or none where a number is out of its range.
pub fn setup_of(settings: Settings) -> Option<Setup>
    ensures { result ≡ setup_of settings }
{
    setup_with(
        settings.turns.unwrap_or(TURNS),
        settings.workers.unwrap_or(WORKERS),
        settings.slice.unwrap_or(STEPS),
        settings.plan.unwrap_or(Plan::Cyclic),
    )
}
