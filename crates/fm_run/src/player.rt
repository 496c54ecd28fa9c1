//! A run as it stands between two pieces.

ghost use Rattle.std.specs.Prelude.{◌≡◌, ◌⊎◌, ◌+◌, ◌++◌, ℕ, ◌<◌, ◌≤◌, true, false, List, [], Some, length, slice_get, slice_index_or, IfOk, OnErr, OnOk};
ghost use Rattle.fm_net.specs.Machine.{Place};
ghost use Rattle.fm_net.specs.Starts.{child_places};
ghost use Rattle.fm_run.specs.Orders.{Among, AreMarked, KeepsFront, can_at, chosen, is_among, ready_after};
ghost use Rattle.fm_run.specs.Pieces.{IsFull};
ghost use Rattle.fm_run.specs.Entries.{EndsWith, MayHaveEntry, MayHavePiece, turn_of, with_piece};
ghost use Rattle.fm_run.specs.Runs.{AreMade, AreNumbered, IsFrontWithin, IsMoved, IsPlayedBy, IsPlayed, IsEntry, first_stand, stand_at};
ghost use Rattle.fm_chan.specs.Woken.{WakesAll};

use crate::becoming::{candidates, keep_count, settle, settle_all, settle_own};
use crate::net::{Kind, Net};
use crate::orders::{Queue, chosen};
use crate::outside::OutsideNet;
use fm_base::NoMemory;
use fm_net_procs::Piece;
use std::alloc::Global;
use std::mem::replace;

/// A piece with a step to spare, an entry of its own.
const WHOLE: Kind = Kind {
    spare: true,
    joins: false,
};

/// A piece of so many steps at most, an entry of its own.
const PART: Kind = Kind {
    spare: false,
    joins: false,
};

/// A piece of so many steps at most, which joins the last entry.
const JOINED: Kind = Kind {
    spare: false,
    joins: true,
};

/// How many numbers are so few that their room is kept.
const SMALL: usize = 4_096;

/// A run between two pieces.
#[derive(Drop)]
pub struct Player<N> {
    /// The processes, channels and pieces.
    pub net: N,
    /// For each process the number of the one that started it, and for main its own.
    pub parents: Vec<u32>,
    /// For each how many of the children that it waits for are known to have ended, from the first on.
    pub ended: Vec<u32>,
    /// Those that can step.
    pub able: Queue,
    /// The cost in turns.
    pub used: u64,
    // room for the numbers of those that are asked behind a piece
    spare: Vec<u32>,
}

// The room of a list is kept for the next one, unless it is large.
fn room_of(alloc: Global, numbers: Vec<u32>) -> Vec<u32> {
    if numbers.len() <= SMALL {
        numbers
    } else {
        Vec::new(alloc)
    }
}

fn both(used: u64, cost: u64) -> Result<u64, NoMemory>
    ensures { IfOk result (λ sum. sum ≡ used + cost) }
{
    match used.checked_add(cost) {
        Some(sum) => Ok(sum),
        None => Err(NoMemory),
    }
}

impl<N: Net> Player<N> {
    /// A run before its first piece.
    pub fn new(alloc: Global, program: &N::Source) -> Result<Player<N>, NoMemory>
        ensures sound { IfOk result (λ player. N.IsSound program.now player.net) }
        ensures played { IfOk result (λ player. IsPlayed (N.play program.now)
            (stand_at (N.state program.now player.net) (N.order player.net) player.able.numbers.items)
            (N.channels player.net) (N.history player.net) player.parents.items player.able.marks.items player.used) }
        ensures used { IfOk result (λ player. player.used ≡ 0) }
        ensures history { IfOk result (λ player. N.history player.net ≡ []) }
        ensures stand { IfOk result (λ player. stand_at (N.state program.now player.net) (N.order player.net)
            player.able.numbers.items ≡ first_stand (N.play program.now)) }
    {
        let mut net = N::first(alloc, program)?;
        let parents = vec![in alloc; 0]?;
        let ended = vec![in alloc; 0]?;
        let mut able = Queue::new(alloc);
        able.grow(1)?;
        settle(&mut net, program, &mut able, 0)?;
        Ok(Player {
            net,
            parents,
            ended,
            able,
            used: 0,
            spare: Vec::new(alloc),
        })
    }

    /// The number of the process at the place of a choice among those that can step, modulo their number, and
    /// without a choice that of the first one. None where no process can step.
    pub fn choose(&self, choice: Option<u64>) -> Option<u32>
        ensures { result ≡ chosen choice self.now.able.numbers.items }
    {
        chosen(&self.able.numbers, choice)
    }

    /// Whether the process of a number can step.
    pub fn is_able(&self, number: u32) -> bool
        requires { (count : ℕ) × AreMarked count self.now.able.marks.items self.now.able.numbers.items
            × ((n : ℕ) → Among n self.now.able.numbers.items → n < count) }
        ensures { result ≡ is_among self.now.able.numbers.items number }
    {
        self.able.contains(number)
    }

    /// The number of the process that makes the next piece: the one that the next choice tells, or the
    /// first one when the choices are used up. None where no process can step.
    pub fn next(&self, choices: &[u64]) -> Option<u32>
        ensures { result
            ≡ chosen (slice_get choices.now (length (N.history self.now.net))) self.now.able.numbers.items }
    {
        let choice = choices.get(self.net.pieces()).copied();
        chosen(&self.able.numbers, choice)
    }

    // Keeps a piece that the net has made: the processes that it started get their numbers, and it is paid.
    fn keep_made(&mut self, number: u32, piece: Piece) -> Result<(), NoMemory>
        ensures net { self.new.net ≡ self.old.net }
        ensures able { self.new.able.numbers.items ≡ self.old.able.numbers.items }
        ensures used { OnOk result (self.new.used ≡ self.old.used + piece.cost) }
        ensures numbered { OnOk result ((places : List Place) (p : Place)
            → slice_get places number ≡ Some p
            → N.order self.old.net ≡ places ++ child_places p piece.block 1 piece.started
            → ((n : ℕ) → Among n self.old.able.numbers.items → n < length places)
            → AreNumbered places self.old.parents.items self.old.able.marks.items self.old.able.numbers.items
            → AreNumbered (N.order self.new.net) self.new.parents.items self.new.able.marks.items
            self.new.able.numbers.items) }
    {
        let count = self.net.count();
        self.parents.resize(count, number)?;
        self.ended.resize(count, 0)?;
        keep_count(&mut self.ended, number, 0);
        self.able.grow(count)?;
        self.used = both(self.used, piece.cost)?;
        Ok(())
    }

    // Makes a piece of a process, which the net keeps: how many steps it has.
    fn keep_piece(
        &mut self,
        alloc: Global,
        program: &N::Source,
        number: u32,
        slice: u32,
        kind: Kind,
    ) -> Result<u32, NoMemory>
        requires some { 1 ≤ slice }
        requires sound { N.IsSound program.now self.old.net }
        requires kept { IsPlayedBy (N.play program.now) (N.history self.old.net) (N.order self.old.net)
            (N.state program.now self.old.net) self.old.used }
        requires able { can_at (N.play program.now) (N.state program.now self.old.net) (N.order self.old.net) number
            ≡ true }
        requires within { (n : ℕ) → Among n self.old.able.numbers.items → n < length (N.order self.old.net) }
        requires numbered { AreNumbered (N.order self.old.net) self.old.parents.items self.old.able.marks.items
            self.old.able.numbers.items }
        requires joins { kind.joins ≡ true → EndsWith (N.history self.old.net) number }
        ensures sound { OnOk result (N.IsSound program.now self.new.net) }
        ensures kept { OnOk result (IsPlayedBy (N.play program.now) (N.history self.new.net) (N.order self.new.net)
            (N.state program.now self.new.net) self.new.used) }
        ensures used { OnOk result (self.old.used < self.new.used) }
        ensures history { IfOk result
            (λ steps. N.history self.new.net ≡ with_piece kind.joins (N.history self.old.net) number steps) }
        ensures made { IfOk result (λ steps. AreMade (N.play program.now) number steps
            (N.state program.now self.old.net) (N.order self.old.net) (N.state program.now self.new.net)
            (N.order self.new.net)) }
        ensures full { IfOk result (λ steps. IsFull (N.play program.now) slice kind.spare
            (N.state program.now self.old.net) (slice_index_or (N.order self.old.net) number []) steps) }
        ensures some_steps { IfOk result (λ steps. 1 ≤ steps) }
        ensures able { self.new.able.numbers.items ≡ self.old.able.numbers.items }
        ensures numbered { OnOk result (AreNumbered (N.order self.new.net) self.new.parents.items
            self.new.able.marks.items self.new.able.numbers.items) }
        ensures waking { OnOk result (WakesAll (N.channels self.old.net) (N.channels self.new.net)) }
        ensures stays { OnErr result
            (MayHavePiece kind.joins number (N.history self.old.net) (N.history self.new.net)) }
    {
        let piece = self.net.make_piece(alloc, program, number, slice, kind)?;
        self.keep_made(number, piece)?;
        Ok(piece.steps)
    }

    // Makes steps of a process that can step, as many as asked for at most, as one entry: how many there were.
    fn keep_steps(
        &mut self,
        alloc: Global,
        program: &N::Source,
        number: u32,
        steps: u32,
    ) -> Result<u32, NoMemory>
        requires some { 1 ≤ steps }
        requires sound { N.IsSound program.now self.old.net }
        requires kept { IsPlayedBy (N.play program.now) (N.history self.old.net) (N.order self.old.net)
            (N.state program.now self.old.net) self.old.used }
        requires able { can_at (N.play program.now) (N.state program.now self.old.net) (N.order self.old.net) number
            ≡ true }
        requires within { (n : ℕ) → Among n self.old.able.numbers.items → n < length (N.order self.old.net) }
        requires numbered { AreNumbered (N.order self.old.net) self.old.parents.items self.old.able.marks.items
            self.old.able.numbers.items }
        ensures sound { OnOk result (N.IsSound program.now self.new.net) }
        ensures kept { OnOk result (IsPlayedBy (N.play program.now) (N.history self.new.net) (N.order self.new.net)
            (N.state program.now self.new.net) self.new.used) }
        ensures used { OnOk result (self.old.used < self.new.used) }
        ensures entry { IfOk result (λ done. IsEntry (N.play program.now) (turn_of number done)
            (N.state program.now self.old.net) (N.order self.old.net) (N.history self.old.net)
            (N.state program.now self.new.net) (N.order self.new.net) (N.history self.new.net)) }
        ensures some_steps { IfOk result (λ done. 1 ≤ done) }
        ensures few { IfOk result (λ done. done ≤ steps) }
        ensures stops { IfOk result (λ done. done < steps
            → can_at (N.play program.now) (N.state program.now self.new.net) (N.order self.new.net) number ≡ false) }
        ensures able { self.new.able.numbers.items ≡ self.old.able.numbers.items }
        ensures numbered { OnOk result (AreNumbered (N.order self.new.net) self.new.parents.items
            self.new.able.marks.items self.new.able.numbers.items) }
        ensures waking { OnOk result (WakesAll (N.channels self.old.net) (N.channels self.new.net)) }
        ensures stays { OnErr result (MayHaveEntry (N.history self.old.net) (N.history self.new.net)) }
    {
        let mut done = self.keep_piece(alloc, program, number, steps, PART)?;
        'pieces: while done < steps {
            if !self.net.can_step(program, number)? {
                return Ok(done);
            }
            let more = self.keep_piece(alloc, program, number, steps - done, JOINED)?;
            done += more;
        }
        Ok(done)
    }

    // Looks who can step, behind an entry of a process: `before` tells how many processes there were before it. The
    // process itself keeps its place until those that became able stand behind the others.
    fn serve(
        &mut self,
        alloc: Global,
        program: &N::Source,
        number: u32,
        before: usize,
    ) -> Result<(), NoMemory>
        requires sound { N.IsSound program.now self.old.net }
        requires moved { IsMoved (N.play program.now) number before (N.state program.now self.old.net)
            (N.order self.old.net) (N.channels self.old.net) (N.history self.old.net) self.old.parents.items
            self.old.able.marks.items self.old.able.numbers.items self.old.used }
        ensures sound { OnOk result (N.IsSound program.now self.new.net) }
        ensures played { OnOk result (IsPlayed (N.play program.now)
            (stand_at (N.state program.now self.new.net) (N.order self.new.net) self.new.able.numbers.items)
            (N.channels self.new.net) (N.history self.new.net) self.new.parents.items self.new.able.marks.items
            self.new.used) }
        ensures used { self.new.used ≡ self.old.used }
        ensures state { OnOk result (N.state program.now self.new.net ≡ N.state program.now self.old.net) }
        ensures order { OnOk result (N.order self.new.net ≡ N.order self.old.net) }
        ensures history { N.history self.new.net ≡ N.history self.old.net }
        ensures able { OnOk result (self.new.able.numbers.items
            ≡ ready_after (N.play program.now) (N.state program.now self.old.net) (N.order self.old.net)
            self.old.able.numbers.items number) }
        ensures front { OnErr result (KeepsFront self.old.able.numbers.items self.new.able.numbers.items) }
    {
        let spare = replace(&mut self.spare, Vec::new(alloc));
        let parents = self.parents.as_slice();
        let asked = candidates(
            spare,
            &mut self.net,
            parents,
            &mut self.ended,
            number,
            before,
        )?;
        settle_all(
            &mut self.net,
            program,
            &mut self.able,
            number,
            asked.as_slice(),
        )?;
        self.spare = room_of(alloc, asked);
        settle_own(&mut self.net, program, &mut self.able, number)
    }

    /// Makes a piece of a process that can step: `slice` local steps at most, and one step more where that isn't
    /// local and the process can make it. Looks who can step then. Answers how many steps the piece has.
    ///
    /// After want of memory the run isn't to be used any more, and the queue is as it was, with perhaps more behind it.
    pub fn play(
        &mut self,
        alloc: Global,
        program: &N::Source,
        number: u32,
        slice: u32,
    ) -> Result<u32, NoMemory>
        requires some { 1 ≤ slice }
        requires sound { N.IsSound program.now self.old.net }
        requires played { IsPlayed (N.play program.now)
            (stand_at (N.state program.now self.old.net) (N.order self.old.net) self.old.able.numbers.items)
            (N.channels self.old.net) (N.history self.old.net) self.old.parents.items self.old.able.marks.items
            self.old.used }
        requires able { Among number self.old.able.numbers.items }
        ensures sound { OnOk result (N.IsSound program.now self.new.net) }
        ensures played { OnOk result (IsPlayed (N.play program.now)
            (stand_at (N.state program.now self.new.net) (N.order self.new.net) self.new.able.numbers.items)
            (N.channels self.new.net) (N.history self.new.net) self.new.parents.items self.new.able.marks.items
            self.new.used) }
        ensures used { OnOk result (self.old.used < self.new.used) }
        ensures front { OnOk result ((turns : ℕ) → self.old.used ≤ turns
            → IsFrontWithin (N.play program.now) turns (N.history self.new.net) (N.order self.new.net)) }
        ensures entry { IfOk result (λ steps. IsEntry (N.play program.now) (turn_of number steps)
            (N.state program.now self.old.net) (N.order self.old.net) (N.history self.old.net)
            (N.state program.now self.new.net) (N.order self.new.net) (N.history self.new.net)) }
        ensures full { IfOk result (λ steps. IsFull (N.play program.now) slice true (N.state program.now self.old.net)
            (slice_index_or (N.order self.old.net) number []) steps) }
        ensures some_steps { IfOk result (λ steps. 1 ≤ steps) }
        ensures stays { OnErr result (MayHaveEntry (N.history self.old.net) (N.history self.new.net)) }
        ensures queue { OnErr result (KeepsFront self.old.able.numbers.items self.new.able.numbers.items) }
        ensures able { OnOk result (self.new.able.numbers.items
            ≡ ready_after (N.play program.now) (N.state program.now self.new.net) (N.order self.new.net)
            self.old.able.numbers.items number) }
    {
        let before = self.net.count();
        let steps = self.keep_piece(alloc, program, number, slice, WHOLE)?;
        self.serve(alloc, program, number, before)?;
        Ok(steps)
    }

    /// Makes steps of a process that can step, as many as asked for at most, as one entry, and looks who can step then.
    /// Answers how many there were. They are fewer only where the process can't step behind them.
    ///
    /// After want of memory the run isn't to be used any more, and the queue is as it was, with perhaps more behind it.
    pub fn play_steps(
        &mut self,
        alloc: Global,
        program: &N::Source,
        number: u32,
        steps: u32,
    ) -> Result<u32, NoMemory>
        requires some { 1 ≤ steps }
        requires sound { N.IsSound program.now self.old.net }
        requires played { IsPlayed (N.play program.now)
            (stand_at (N.state program.now self.old.net) (N.order self.old.net) self.old.able.numbers.items)
            (N.channels self.old.net) (N.history self.old.net) self.old.parents.items self.old.able.marks.items
            self.old.used }
        requires able { Among number self.old.able.numbers.items }
        ensures sound { OnOk result (N.IsSound program.now self.new.net) }
        ensures played { OnOk result (IsPlayed (N.play program.now)
            (stand_at (N.state program.now self.new.net) (N.order self.new.net) self.new.able.numbers.items)
            (N.channels self.new.net) (N.history self.new.net) self.new.parents.items self.new.able.marks.items
            self.new.used) }
        ensures used { OnOk result (self.old.used < self.new.used) }
        ensures front { OnOk result ((turns : ℕ) → self.old.used ≤ turns
            → IsFrontWithin (N.play program.now) turns (N.history self.new.net) (N.order self.new.net)) }
        ensures entry { IfOk result (λ done. IsEntry (N.play program.now) (turn_of number done)
            (N.state program.now self.old.net) (N.order self.old.net) (N.history self.old.net)
            (N.state program.now self.new.net) (N.order self.new.net) (N.history self.new.net)) }
        ensures some_steps { IfOk result (λ done. 1 ≤ done) }
        ensures few { IfOk result (λ done. done ≤ steps) }
        ensures stops { IfOk result (λ done. done < steps
            → can_at (N.play program.now) (N.state program.now self.new.net) (N.order self.new.net) number ≡ false) }
        ensures stays { OnErr result (MayHaveEntry (N.history self.old.net) (N.history self.new.net)) }
        ensures queue { OnErr result (KeepsFront self.old.able.numbers.items self.new.able.numbers.items) }
        ensures able { OnOk result (self.new.able.numbers.items
            ≡ ready_after (N.play program.now) (N.state program.now self.new.net) (N.order self.new.net)
            self.old.able.numbers.items number) }
    {
        let before = self.net.count();
        let done = self.keep_steps(alloc, program, number, steps)?;
        self.serve(alloc, program, number, before)?;
        Ok(done)
    }
}

impl<N: OutsideNet> Player<N> {
    // Makes a piece of a process by what came of a slice outside, which the net keeps as an entry: how many steps it
    // has.
    fn keep_given(
        &mut self,
        alloc: Global,
        program: &N::Source,
        number: u32,
        done: &N::Done,
    ) -> Result<u32, NoMemory>
        requires sound { N.IsSound program.now self.old.net }
        requires kept { IsPlayedBy (N.play program.now) (N.history self.old.net) (N.order self.old.net)
            (N.state program.now self.old.net) self.old.used }
        requires able { can_at (N.play program.now) (N.state program.now self.old.net) (N.order self.old.net) number
            ≡ true }
        requires within { (n : ℕ) → Among n self.old.able.numbers.items → n < length (N.order self.old.net) }
        requires numbered { AreNumbered (N.order self.old.net) self.old.parents.items self.old.able.marks.items
            self.old.able.numbers.items }
        requires own { N.is_own self.old.net number done.now }
        ensures sound { OnOk result (N.IsSound program.now self.new.net) }
        ensures kept { OnOk result (IsPlayedBy (N.play program.now) (N.history self.new.net) (N.order self.new.net)
            (N.state program.now self.new.net) self.new.used) }
        ensures used { OnOk result (self.old.used < self.new.used) }
        ensures history { IfOk result
            (λ steps. N.history self.new.net ≡ with_piece false (N.history self.old.net) number steps) }
        ensures made { IfOk result (λ steps. AreMade (N.play program.now) number steps
            (N.state program.now self.old.net) (N.order self.old.net) (N.state program.now self.new.net)
            (N.order self.new.net)) }
        ensures full { IfOk result (λ steps. IsFull (N.play program.now) (N.steps_of done.now) true
            (N.state program.now self.old.net) (slice_index_or (N.order self.old.net) number []) steps) }
        ensures some_steps { IfOk result (λ steps. 1 ≤ steps) }
        ensures steps { IfOk result (λ steps. (steps ≡ N.steps_of done.now) ⊎ (steps ≡ N.steps_of done.now + 1)) }
        ensures able { self.new.able.numbers.items ≡ self.old.able.numbers.items }
        ensures numbered { OnOk result (AreNumbered (N.order self.new.net) self.new.parents.items
            self.new.able.marks.items self.new.able.numbers.items) }
        ensures waking { OnOk result (WakesAll (N.channels self.old.net) (N.channels self.new.net)) }
        ensures stays { OnErr result (MayHavePiece false number (N.history self.old.net) (N.history self.new.net)) }
    {
        let piece = self.net.give_piece(alloc, program, number, done)?;
        self.keep_made(number, piece)?;
        Ok(piece.steps)
    }

    /// Makes a piece of a process that can step, by what came of a slice that was made of it outside: its local steps,
    /// and one step more where that isn't local and the process can make it. Looks who can step then. Answers how many
    /// steps the piece has.
    ///
    /// After want of memory the run isn't to be used any more, and the queue is as it was, with perhaps more behind it.
    pub fn give(
        &mut self,
        alloc: Global,
        program: &N::Source,
        number: u32,
        done: &N::Done,
    ) -> Result<u32, NoMemory>
        requires sound { N.IsSound program.now self.old.net }
        requires played { IsPlayed (N.play program.now)
            (stand_at (N.state program.now self.old.net) (N.order self.old.net) self.old.able.numbers.items)
            (N.channels self.old.net) (N.history self.old.net) self.old.parents.items self.old.able.marks.items
            self.old.used }
        requires able { Among number self.old.able.numbers.items }
        requires own { N.is_own self.old.net number done.now }
        ensures sound { OnOk result (N.IsSound program.now self.new.net) }
        ensures played { OnOk result (IsPlayed (N.play program.now)
            (stand_at (N.state program.now self.new.net) (N.order self.new.net) self.new.able.numbers.items)
            (N.channels self.new.net) (N.history self.new.net) self.new.parents.items self.new.able.marks.items
            self.new.used) }
        ensures used { OnOk result (self.old.used < self.new.used) }
        ensures front { OnOk result ((turns : ℕ) → self.old.used ≤ turns
            → IsFrontWithin (N.play program.now) turns (N.history self.new.net) (N.order self.new.net)) }
        ensures entry { IfOk result (λ steps. IsEntry (N.play program.now) (turn_of number steps)
            (N.state program.now self.old.net) (N.order self.old.net) (N.history self.old.net)
            (N.state program.now self.new.net) (N.order self.new.net) (N.history self.new.net)) }
        ensures full { IfOk result (λ steps. IsFull (N.play program.now) (N.steps_of done.now) true
            (N.state program.now self.old.net) (slice_index_or (N.order self.old.net) number []) steps) }
        ensures some_steps { IfOk result (λ steps. 1 ≤ steps) }
        ensures steps { IfOk result (λ steps. (steps ≡ N.steps_of done.now) ⊎ (steps ≡ N.steps_of done.now + 1)) }
        ensures stays { OnErr result (MayHaveEntry (N.history self.old.net) (N.history self.new.net)) }
        ensures queue { OnErr result (KeepsFront self.old.able.numbers.items self.new.able.numbers.items) }
        ensures able { OnOk result (self.new.able.numbers.items
            ≡ ready_after (N.play program.now) (N.state program.now self.new.net) (N.order self.new.net)
            self.old.able.numbers.items number) }
    {
        let before = self.net.count();
        let steps = self.keep_given(alloc, program, number, done)?;
        self.serve(alloc, program, number, before)?;
        Ok(steps)
    }
}
