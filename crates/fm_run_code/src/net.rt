//! The net over stack code, with the pieces that it made.

ghost use Rattle.std.specs.Option.{option_copied};
ghost use Rattle.fm_procs.specs.Readings.{order_of};
ghost use Rattle.fm_run_code.specs.Given.{IsBodyAt, IsOwn};
ghost use Rattle.fm_run_code.specs.Played.{played};
ghost use Rattle.fm_run_code.specs.Sound.{IsSound};

use crate::coded::Coded;
use fm_base::{NoMemory, Path};
use fm_code::Body;
use fm_machine::Done;
use fm_mean::Outcome;
use fm_proc_events::Process;
use fm_procs::{CodeProcs, can_step, give_piece, make_piece, note};
use fm_run::{Awaited, History, Kind, Net, OutsideNet, Piece, put_piece};
use std::alloc::Global;
use std::marker::PhantomData;
use std::sync::Arc;

/// The processes and channels of a run of stack code, and its pieces.
#[derive(Drop)]
pub struct CodeNet<S> {
    /// The processes and channels.
    pub stacks: CodeProcs,
    /// The entries.
    pub history: History,
    /// Of which kind the source is.
    of: PhantomData<S>,
}

impl<S: Coded> Net for CodeNet<S> {
    type Source = S::Source;

    ghost play = { S.play };

    ghost state = { λ source net. played (S.play source) net.history (order_of net.stacks.entries) };

    ghost order = { λ net. order_of net.stacks.entries };

    ghost channels = { λ net. net.stacks.channels };

    ghost history = { λ net. net.history };

    ghost IsSound = { λ source net.
        IsSound (S.play source) (S.Corresponds source) (S.IsLive source) net.stacks net.history };

    ghost lawful = { λ source net sound.
        (S.is_coded source).lawful
        (played (S.play source) net.history (order_of net.stacks.entries))
        sound.stands.live };

    ghost channels_are = { λ source net sound. sound.stands.chans };

    fn first(alloc: Global, program: &S::Source) -> Result<CodeNet<S>, NoMemory> {
        let stacks = S::first_stacks(alloc, program)?;
        let history = History::new(alloc);
        Ok(CodeNet {
            stacks,
            history,
            of: PhantomData,
        })
    }

    fn count(&self) -> usize {
        self.stacks.entries.rows.len()
    }

    fn pieces(&self) -> usize {
        self.history.len()
    }

    fn make_piece(
        &mut self,
        alloc: Global,
        program: &S::Source,
        number: u32,
        slice: u32,
        kind: Kind,
    ) -> Result<Piece, NoMemory> {
        let actor = self.stacks.entries.actor(number)?;
        let piece = make_piece(&mut self.stacks, alloc, &actor, slice, kind.spare)?;
        put_piece(alloc, &mut self.history, kind.joins, number, piece.steps)?;
        Ok(piece)
    }

    fn can_step(&self, program: &S::Source, number: u32) -> Result<bool, NoMemory> {
        can_step(&self.stacks, number)
    }

    fn note(&mut self, program: &S::Source, number: u32) -> Result<(), NoMemory> {
        note(&mut self.stacks, number)
    }

    fn next_woken(&mut self) -> Option<u32> {
        self.stacks.channels.next_woken()
    }

    fn has_ended(&self, number: u32) -> bool {
        self.stacks.entries.has_ended(number)
    }

    fn awaits(&self, number: u32, before: usize) -> Result<Awaited, NoMemory> {
        self.stacks.entries.awaited(number, before)
    }

    fn outcome(&self, alloc: Global, program: &S::Source, used: u64) -> Result<Outcome, NoMemory> {
        S::outcome(alloc, program, &self.stacks, used)
    }

    fn into_parts(self) -> (History, Vec<Arc<Path>>) {
        (self.history, self.stacks.into_paths())
    }
}

impl<S: Coded> OutsideNet for CodeNet<S> {
    type Done = Done;

    ghost steps_of = { λ done. done.steps };

    ghost is_own = { λ net number done. IsOwn net.stacks number done };

    fn give_piece(
        &mut self,
        alloc: Global,
        program: &S::Source,
        number: u32,
        done: &Done,
    ) -> Result<Piece, NoMemory> {
        let actor = self.stacks.entries.actor(number)?;
        let piece = give_piece(&mut self.stacks, alloc, &actor, done)?;
        put_piece(alloc, &mut self.history, false, number, piece.steps)?;
        Ok(piece)
    }
}

impl<S> CodeNet<S> {
    /// The body of the process of a number, if it has one.
    pub fn body_of(&self, number: u32) -> Option<&Body>
        ensures { IsBodyAt self.now.stacks number (option_copied result) }
    {
        match self.stacks.entries.process(number) {
            Some(process) => {
                let held: &Process = &process.held;
                held.body.as_ref()
            }
            None => None,
        }
    }
}
