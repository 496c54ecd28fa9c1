//! Runs a program.

ghost use Rattle.std.specs.Prelude.{◌≡◌, ◌≤◌, ◌<◌, IfOk};
ghost use Rattle.fm_run.specs.Orders.{places_of};
ghost use Rattle.fm_run.specs.Runs.{Follows, IsRun};

use crate::net::Net;
use crate::player::Player;
use fm_base::{NoMemory, Path, Turn};
use fm_mean::Outcome;
use std::alloc::Global;
use std::sync::Arc;

/// How a run ended.
#[derive(Drop)]
pub enum Ending {
    /// No process can step any more. This is what the run shows.
    Ended(Outcome),
    /// It cost more than its turns.
    Spent,
}

/// A run of a program.
#[derive(Drop)]
pub struct Run {
    /// Its pieces.
    pub history: Vec<Turn>,
    /// Its processes, in the order of starting.
    pub paths: Vec<Arc<Path>>,
    /// How it ended.
    pub ending: Ending,
}

impl<N: Net> Player<N> {
    // The run, which ended so.
    fn ended(self, alloc: Global, ending: Ending) -> Result<Run, NoMemory>
        ensures history { IfOk result (λ r. r.history.items ≡ N.history self.net) }
        ensures paths { IfOk result (λ r. places_of r.paths.items ≡ N.order self.net) }
        ensures ending { IfOk result (λ r. r.ending ≡ ending) }
    {
        let (history, paths) = self.net.into_parts();
        let history = history.into_vec(alloc)?;
        Ok(Run {
            history,
            paths,
            ending,
        })
    }
}

/// Plays a program from its first state until no process can step, or until its turns are spent. Piece
/// `i` goes to the process at place `choices[i]`, modulo their number, among those that can step, and to
/// the first one when the choices are used up.
///
/// Those that can step stand in a queue. The one that makes its piece leaves its place; others that have
/// become able come behind, in the order of starting, and behind them the one itself, where it can step
/// still. A piece has at most `slice` local steps, and behind them one step more where that isn't local: an event,
/// the process's end or a fault. It ends there, or where the process can't step, or where the slice is used up and
/// the next step is local. Who waits isn't asked again before it's woken.
pub fn run_program<N: Net>(
    alloc: Global,
    program: &N::Source,
    choices: &[u64],
    turns: u64,
    slice: u32,
) -> Result<Run, NoMemory>
    requires { 1 ≤ slice }
    ensures run { IfOk result (λ r. IsRun (N.play program.now) turns r) }
    ensures follows { IfOk result (λ r. Follows (N.play program.now) slice choices.now r.history.items) }
{
    let mut player: Player<N> = Player::new(alloc, program)?;
    'pieces: while let Some(number) = player.next(choices) {
        player.play(alloc, program, number, slice)?;
        if player.used > turns {
            return player.ended(alloc, Ending::Spent);
        }
    }
    let outcome = player.net.outcome(alloc, program, player.used)?;
    player.ended(alloc, Ending::Ended(outcome))
}
