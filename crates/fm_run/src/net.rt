//! A net: processes and their channels in memory, whose steps are those of what is run.

ghost use Rattle.std.specs.Prelude.{◌≡◌, ◌≤◌, ◌++◌, ◌∷◌, true, false, [], List, Some, length, slice_get, slice_index_or, option_to_list, IfNone, IfOk, OnErr, OnOk};
ghost use Rattle.std.specs.FinMap.{get};
ghost use Rattle.fm_base.specs.declared.path.ChanName as declared_channel;
ghost use Rattle.fm_base.specs.declared.schedule.Turn as declared_turn;
ghost use Rattle.fm_chan.specs.declared.channels.Channels.{Channels};
ghost use Rattle.fm_chan.specs.Bodies.{chans_of};
ghost use Rattle.fm_chan.specs.Woken.{WakesAll, waiting_reader, woken_of};
ghost use Rattle.fm_sched.specs.Schedule.{IsReached};
ghost use Rattle.fm_net.specs.Machine.{Place, State};
ghost use Rattle.fm_net.specs.Owned.{IsOwned};
ghost use Rattle.fm_net.specs.Starts.{child_places};
ghost use Rattle.fm_run.specs.Plays.{IsLawfulPlay, Play, ended_at, first, language, outcome_of, step};
ghost use Rattle.fm_run.specs.Waiting.{AreKnown, IsAwaited};
ghost use Rattle.fm_run.specs.Entries.{EndsWith, with_piece};
ghost use Rattle.fm_run.specs.Noted.{IsNoted};
ghost use Rattle.fm_run.specs.Orders.{can_at, places_of};
ghost use Rattle.fm_run.specs.Pieces.{IsPiece};

use crate::history::History;
use fm_base::{NoMemory, Path};
use fm_mean::Outcome;
use fm_net_procs::{Awaited, Piece};
use std::alloc::Global;
use std::sync::Arc;

/// What a piece is for.
#[derive(Clone, Copy)]
pub struct Kind {
    /// Whether a step that isn't local may stand behind a slice that is used up.
    pub spare: bool,
    /// Whether it joins the last entry, which is of its process.
    pub joins: bool,
}

/// The processes of a run by their numbers, in the order of starting, also those that have ended, with
/// their channels and the pieces that they made. Contracts see a state of the meaning.
///
/// After want of memory a net isn't to be used any more.
pub trait Net: Drop {
    /// Of what it is a net.
    type Source;

    /// What is run.
    ghost play: { Self.Source → Play };

    /// The state of the meaning.
    ghost state: { (p : Self.Source) → Self → State (play p).Proc };

    /// The places of the processes, in the order of starting.
    ghost order: { Self → List Place };

    /// The channels, who waits at them, and who was woken.
    ghost channels: { Self → Channels };

    /// The entries, from the first on: each one or more pieces of a process.
    ghost history: { Self → List declared_turn.Turn };

    /// What holds between two pieces.
    ghost IsSound: { Self.Source → Self → Type 0 };

    /// Main alone, before the first piece.
    fn first(alloc: Global, program: &Self::Source) -> Result<Self, NoMemory>
        ensures state { IfOk result (λ net. state program.now net ≡ first (play program.now)) }
        ensures order { IfOk result (λ net. order net ≡ [] ∷ []) }
        ensures history { IfOk result (λ net. history net ≡ []) }
        ensures sound { IfOk result (λ net. IsSound program.now net) };

    /// The number of processes.
    fn count(&self) -> usize
        ensures { result ≡ length (order self.now) };

    /// The number of entries.
    fn pieces(&self) -> usize
        ensures { result ≡ length (history self.now) };

    /// Makes a piece of a process, which can step: local steps, as many as `slice` at most, and then a step that
    /// isn't local, where it comes to one that it can make. With a step to spare this may be one more than the
    /// slice, and without it is counted among the slice's. The piece is an entry, or joins the last one.
    fn make_piece(
        &mut self,
        alloc: Global,
        program: &Self::Source,
        number: u32,
        slice: u32,
        kind: Kind,
    ) -> Result<Piece, NoMemory>
        requires some { 1 ≤ slice }
        requires joins { kind.joins ≡ true → EndsWith (history self.old) number }
        requires reached { IsReached (step (play program.now)) (first (play program.now)) (state program.now self.old) }
        requires sound { IsSound program.now self.old }
        requires able { can_at (play program.now) (state program.now self.old) (order self.old) number ≡ true }
        ensures sound { OnOk result (IsSound program.now self.new) }
        ensures order { IfOk result (λ r. order self.new
            ≡ order self.old ++ child_places (slice_index_or (order self.old) number []) r.block 1 r.started) }
        ensures piece { IfOk result (λ r. IsPiece (play program.now) slice kind.spare (state program.now self.old)
            (slice_index_or (order self.old) number []) r (state program.now self.new)) }
        ensures history { IfOk result
            (λ r. history self.new ≡ with_piece kind.joins (history self.old) number r.steps) }
        ensures stays { OnErr result (history self.new ≡ history self.old) }
        ensures waking { OnOk result (WakesAll (channels self.old) (channels self.new)) };

    /// Whether the process of a number can step.
    fn can_step(&self, program: &Self::Source, number: u32) -> Result<bool, NoMemory>
        requires owned { IsOwned (language (play program.now)) (state program.now self.now) }
        requires sound { IsSound program.now self.now }
        ensures { IfOk result
            (λ r. r ≡ can_at (play program.now) (state program.now self.now) (order self.now) number) };

    /// Notes the process of a number, which can't step, at the channel at which it waits, if it waits at one.
    fn note(&mut self, program: &Self::Source, number: u32) -> Result<(), NoMemory>
        requires owned { IsOwned (language (play program.now)) (state program.now self.old) }
        requires sound { IsSound program.now self.old }
        requires waits { can_at (play program.now) (state program.now self.old) (order self.old) number ≡ false }
        ensures order { OnOk result (order self.new ≡ order self.old) }
        ensures history { history self.new ≡ history self.old }
        ensures state { OnOk result (state program.now self.new ≡ state program.now self.old) }
        ensures sound { OnOk result (IsSound program.now self.new) }
        ensures noted { OnOk result ((q : Place) (x : (play program.now).Proc)
            → slice_get (order self.old) number ≡ Some q → get (state program.now self.old).procs q ≡ Some x
            → IsNoted (play program.now) (channels self.new) number x) }
        ensures waking { OnOk result (WakesAll (channels self.old) (channels self.new)) };

    /// The number of one who was woken, which is taken out.
    fn next_woken(&mut self) -> Option<u32>
        ensures woken { woken_of (channels self.old) ≡ woken_of (channels self.new) ++ option_to_list result }
        ensures none { IfNone result (woken_of (channels self.old) ≡ []) }
        ensures readers { (c : declared_channel.ChanName)
            → waiting_reader (channels self.new) c ≡ waiting_reader (channels self.old) c }
        ensures order { order self.new ≡ order self.old }
        ensures history { history self.new ≡ history self.old }
        ensures state { (p : Self.Source) → state p self.new ≡ state p self.old }
        ensures sound { (p : Self.Source) → IsSound p self.old → IsSound p self.new };

    /// Whether the process of a number has ended.
    fn has_ended(&self, number: u32) -> bool
        ensures { (p : Self.Source) (q : Place) → IsSound p self.now
            → slice_get (order self.now) number ≡ Some q
            → result ≡ ended_at (play p) (get (state p self.now).procs q) };

    /// What is known of the children that the process of a number waits for, where so many of them, from the
    /// first on, are known to have ended: how many have, up to one that hasn't, and whether one hasn't. One that
    /// can step waits for nobody.
    fn awaits(&self, number: u32, before: usize) -> Result<Awaited, NoMemory>
        ensures children { IfOk result (λ r. (p : Self.Source) (q : Place) (x : (play p).Proc)
            → IsSound p self.now → slice_get (order self.now) number ≡ Some q
            → get (state p self.now).procs q ≡ Some x → AreKnown (play p) (state p self.now) q x before
            → IsAwaited (play p) (state p self.now) q x r) }
        ensures able { IfOk result (λ r. (p : Self.Source) → IsSound p self.now
            → can_at (play p) (state p self.now) (order self.now) number ≡ true
            → r.waits ≡ false) };

    /// What the run shows when it has ended at this cost in turns.
    fn outcome(&self, alloc: Global, program: &Self::Source, used: u64) -> Result<Outcome, NoMemory>
        requires sound { IsSound program.now self.now }
        requires main { slice_get (order self.now) 0 ≡ Some [] }
        ensures { IfOk result (λ o. o ≡ outcome_of (play program.now) used (state program.now self.now)) };

    /// The entries, and the paths of the processes.
    fn into_parts(self) -> (History, Vec<Arc<Path>>)
        ensures history { result.0 ≡ history self }
        ensures paths { places_of result.1.items ≡ order self };

    /// What is run is lawful where something holds between two pieces.
    ghost lawful: { (p : Self.Source) (x : Self) → IsSound p x → IsLawfulPlay (play p) };

    /// The state has these channels.
    ghost channels_are: { (p : Self.Source) (x : Self) → IsSound p x → chans_of (channels x) ≡ (state p x).chans };
}
