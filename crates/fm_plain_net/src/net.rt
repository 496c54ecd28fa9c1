//! The net over trees, with the pieces that it made.

ghost use Rattle.std.specs.Prelude.{refl};
ghost use Rattle.fm_run.specs.Programs.{play_of};
ghost use Rattle.fm_run.proofs.Programs.{law_of};
ghost use Rattle.fm_plain_net.specs.Held as held;
ghost use Rattle.fm_plain_net.specs.Readings.{order_of, state_of};

use crate::first::first_net;
use crate::outcome::outcome;
use crate::processes::Trees;
use fm_base::{NoMemory, Path};
use fm_mean::Outcome;
use fm_rules::Program;
use fm_run::{Awaited, History, Kind, Net, Piece, put_piece};
use std::alloc::Global;
use std::sync::Arc;

/// The processes of a run over trees, and its pieces.
pub struct TreeNet {
    /// The processes, channels and ports.
    pub trees: Trees,
    /// The entries.
    pub history: History,
}

impl Drop for TreeNet {
    fn drop(self) {
        let TreeNet {
            trees: _trees,
            history: _history,
        } = self;
    }
}

impl Net for TreeNet {
    type Source = Program;

    ghost play = { play_of };

    ghost state = { λ program net. state_of program net.trees };

    ghost order = { λ net. order_of net.trees.entries };

    ghost channels = { λ net. net.trees.channels };

    ghost history = { λ net. net.history };

    ghost IsSound = { λ program net. held.IsSound program net.trees };

    ghost lawful = { λ program net sound. law_of program };

    ghost channels_are = { λ program net sound. refl };

    fn first(alloc: Global, program: &Program) -> Result<TreeNet, NoMemory> {
        let trees = first_net(alloc, program)?;
        let history = History::new(alloc);
        Ok(TreeNet { trees, history })
    }

    fn count(&self) -> usize {
        self.trees.entries.rows.len()
    }

    fn pieces(&self) -> usize {
        self.history.len()
    }

    fn make_piece(
        &mut self,
        alloc: Global,
        program: &Program,
        number: u32,
        slice: u32,
        kind: Kind,
    ) -> Result<Piece, NoMemory> {
        let actor = self.trees.entries.actor(number)?;
        let piece = self
            .trees
            .make_piece(alloc, program, &actor, slice, kind.spare)?;
        put_piece(alloc, &mut self.history, kind.joins, number, piece.steps)?;
        Ok(piece)
    }

    fn can_step(&self, program: &Program, number: u32) -> Result<bool, NoMemory> {
        self.trees.can_step(number)
    }

    fn note(&mut self, program: &Program, number: u32) -> Result<(), NoMemory> {
        self.trees.note(program, number)
    }

    fn next_woken(&mut self) -> Option<u32> {
        self.trees.channels.next_woken()
    }

    fn has_ended(&self, number: u32) -> bool {
        self.trees.entries.has_ended(number)
    }

    fn awaits(&self, number: u32, before: usize) -> Result<Awaited, NoMemory> {
        self.trees.entries.awaited(number, before)
    }

    fn outcome(&self, alloc: Global, program: &Program, used: u64) -> Result<Outcome, NoMemory> {
        outcome(alloc, &self.trees, program, used)
    }

    fn into_parts(self) -> (History, Vec<Arc<Path>>) {
        let TreeNet { trees, history } = self;
        (history, trees.into_paths())
    }
}
