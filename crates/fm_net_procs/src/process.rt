//! A process, as a table of processes sees it.

ghost use Rattle.std.specs.Prelude.{◌≡◌, ◌≤◌, ℕ, Bool, true, false, is_some, Option, Some, None, [], map, IfOk, OnOk, IfSome, IfNone};
ghost use Rattle.std.specs.FinMap.{get};
ghost use Rattle.std.specs.Option.{option_copied};
ghost use Rattle.fm_chan.specs.Bodies.{chans_of};
ghost use Rattle.fm_chan.specs.Woken.{WakesAll};
ghost use Rattle.fm_net.specs.Language.{Language, language_step};
ghost use Rattle.fm_net.specs.Machine.{Place, State};
ghost use Rattle.fm_net.specs.Starts.{starts_at};
ghost use Rattle.fm_net_procs.specs.Kept.{AreFamilies, AreToldBut, count_awaited};
ghost use Rattle.fm_net_procs.specs.Readings.{IsActor, actor_place, order_of, procs_of};
ghost use Rattle.fm_net_procs.specs.Stepping.{Advances, CanStep, StepsTo};
ghost use Rattle.fm_net_procs.specs.Waiting.{JoinsBlock, channel_waited};

use crate::entries::{Actor, Entries};
use crate::piece::{Advanced, Done};
use fm_base::{ChanName, NoMemory, Path};
use fm_chan::Channels;
use std::alloc::Global;

/// A process in memory. Contracts see a process of a language, which the program may tell.
///
/// After want of memory it isn't to be used any more, nor are the channels and the memory for its statements.
pub trait Proc: Drop {
    /// What it does next.
    type Look: Drop;

    /// What it meets others in: it starts or joins children, or something happens at a channel.
    type Event: Drop;

    /// What its statements are read from, where it doesn't have them itself.
    type Program;

    /// Memory in which its statements are worked out, or what processes have has its place.
    type Work;

    /// What it leaves to its parent.
    type Left: Drop;

    /// Processes of the language.
    ghost Seen: { Type 0 };

    /// What processes of the language leave.
    ghost SeenLeft: { Type 0 };

    /// The process as one of the language.
    ghost seen: { Self.Program → Self → Seen };

    /// The language.
    ghost language: { Self.Program → Language Seen };

    /// The process does this next.
    ghost IsNext: { Self.Program → Seen → Self.Look → Type 0 };

    /// The process stands at this event.
    ghost MeetsIt: { Self.Program → Seen → Self.Event → Type 0 };

    /// The event at which it stands that does this next, if it stands at one.
    ghost event_in: { Self.Look → Option Self.Event };

    /// Whether an event is the join of a block.
    ghost joins: { Self.Event → Bool };

    /// Whether its next step concerns itself alone.
    ghost is_local: { Self.Program → Seen → Bool };

    /// The memory fits the state.
    ghost Fits: { Self.Program → Self.Work → State Seen → Type 0 };

    /// The block whose children it waits for, and how many they are, if it waits for some.
    ghost awaits: { Seen → Option (ℕ × ℕ) };

    /// Whether it has ended.
    ghost over: { Self → Bool };

    /// What is left, as one of the language leaves it.
    ghost left_of: { Self.Program → Self.Left → SeenLeft };

    /// What a process of the language leaves.
    ghost left_by: { Seen → SeenLeft };

    /// Looks what it does next.
    fn look(
        &self,
        alloc: Global,
        program: &Self::Program,
        work: &mut Self::Work,
    ) -> Result<Self::Look, NoMemory>
        ensures next { IfOk result (λ l. IsNext program.now (seen program.now self.now) l) }
        ensures fits { OnOk result ((s : State Seen) → Fits program.now work.old s → Fits program.now work.new s) };

    /// What a process does next that was joined: nothing.
    fn rests() -> Self::Look
        ensures { (p : Self.Program) (y : Seen) → (language p).has_ended y ≡ true
            → IsNext p ((language p).emptied y) result };

    /// The event at which it stands that does this next, if it stands at one.
    fn event(look: &Self::Look) -> Option<&Self::Event>
        ensures event { option_copied result ≡ event_in look.now }
        ensures meets { (p : Self.Program) (y : Seen) → IsNext p y look.now
            → IfSome (event_in look.now) (λ e. MeetsIt p y e) };

    /// The same event, taken out. The step concerns others then.
    fn into_event(look: Self::Look) -> Option<Self::Event>
        ensures event { result ≡ event_in look }
        ensures meets { (p : Self.Program) (y : Seen) → IsNext p y look
            → IfSome (event_in look) (λ e. MeetsIt p y e × (is_local p y ≡ false)) };

    /// What it does next that stands at an event which it can't do yet: that event.
    fn waiting(event: Self::Event) -> Self::Look
        ensures { (p : Self.Program) (w : Self.Work) (s : State Seen) (q : Place) (y : Seen)
            → get s.procs q ≡ Some y → Fits p w s → MeetsIt p y event
            → is_some (language_step (language p) s q) ≡ false
            → IsNext p y result };

    /// Whether an event is the join of a block.
    fn is_join(event: &Self::Event) -> bool
        ensures { result ≡ joins event.now };

    /// Whether it can step, where it does this next and stands at no event.
    fn can_go(&self, look: &Self::Look) -> bool
        ensures { (p : Self.Program) (w : Self.Work) (s : State Seen) (q : Place)
            → get s.procs q ≡ Some (seen p self.now) → Fits p w s
            → IsNext p (seen p self.now) look.now → event_in look.now ≡ None
            → result ≡ is_some (language_step (language p) s q) };

    /// Whether the channels let it do the event at which it stands, or nothing where its children do.
    fn is_served(&self, channels: &Channels, work: &Self::Work, event: &Self::Event) -> Option<bool>
        ensures served { IfSome result (λ r. (p : Self.Program) (s : State Seen) (q : Place)
            → get s.procs q ≡ Some (seen p self.now) → s.chans ≡ chans_of channels.now
            → Fits p work.now s → MeetsIt p (seen p self.now) event.now
            → r ≡ is_some (language_step (language p) s q)) }
        ensures joins { IfNone result ((p : Self.Program) → MeetsIt p (seen p self.now) event.now
            → JoinsBlock (language p) awaits (seen p self.now)) };

    /// The channel at which it waits for a message that does this next, if it waits at one.
    fn channel<'a>(&'a self, look: &'a Self::Look) -> Option<&'a ChanName>
        ensures { (p : Self.Program) → IsNext p (seen p self.now) look.now
            → option_copied result ≡ channel_waited (language p) (seen p self.now) };

    /// Steps of its own, as many as `slice` at most, and those that let ports go, of which there is one at most: behind
    /// the others, where there is room for one more step. With a step to `spare` there is room behind a whole slice
    /// too.
    fn advance(
        &mut self,
        alloc: Global,
        program: &Self::Program,
        channels: &mut Channels,
        work: &mut Self::Work,
        slice: u32,
        spare: bool,
    ) -> Result<Advanced<Self::Event, Self::Look>, NoMemory>
        requires some { 1 ≤ slice }
        requires can { (q : Place)
            × CanStep (language program.now) (Fits program.now work.old) q (seen program.now self.old)
            (chans_of channels.old) }
        requires goes { (l : Self.Look) × IsNext program.now (seen program.now self.old) l × (event_in l ≡ None) }
        ensures advances { IfOk result (λ a. (s : State Seen) (q : Place)
            → get s.procs q ≡ Some (seen program.now self.old)
            → s.chans ≡ chans_of channels.old → Fits program.now work.old s
            → is_some (language_step (language program.now) s q) ≡ true
            → Advances (language program.now) (is_local program.now) awaits (IsNext program.now) (MeetsIt program.now)
            (Fits program.now work.new) slice spare s q (seen program.now self.old) (seen program.now self.new) a
            (chans_of channels.new)) }
        ensures waking { OnOk result (WakesAll channels.old channels.new) };

    /// Does the event at which it stands, other than a join.
    fn perform(
        &mut self,
        alloc: Global,
        program: &Self::Program,
        path: &Path,
        channels: &mut Channels,
        work: &mut Self::Work,
        event: Self::Event,
    ) -> Result<Done<Self>, NoMemory>
        requires event { MeetsIt program.now (seen program.now self.old) event }
        requires alone { joins event ≡ false }
        requires can { CanStep (language program.now) (Fits program.now work.old) path.now (seen program.now self.old)
            (chans_of channels.old) }
        ensures performs { IfOk result (λ d. (s : State Seen)
            → get s.procs path.now ≡ Some (seen program.now self.old)
            → s.chans ≡ chans_of channels.old → Fits program.now work.old s
            → is_some (language_step (language program.now) s path.now) ≡ true
            → StepsTo (language program.now) awaits (Fits program.now work.new) s path.now (seen program.now self.old)
            (seen program.now self.new) (map (seen program.now) d.children.items) (chans_of channels.new) d.cost) }
        ensures waking { OnOk result (WakesAll channels.old channels.new) };

    /// Whether it has ended.
    fn has_ended(&self) -> bool
        ensures { result ≡ over self.now };

    /// How many children it waits for.
    fn kid_count(&self) -> usize
        ensures { (p : Self.Program) → result ≡ count_awaited (awaits (seen p self.now)) };

    /// The number of the block that it starts next.
    fn next_block(&self) -> u32
        ensures { (p : Self.Program) → result ≡ (language p).next_block (seen p self.now) };

    /// Takes out what it leaves to its parent.
    fn release(&mut self, alloc: Global) -> Self::Left
        ensures process { (p : Self.Program) → seen p self.new ≡ (language p).emptied (seen p self.old) }
        ensures left { (p : Self.Program) → left_of p result ≡ left_by (seen p self.old) };

    /// It has ended where the language says so.
    ghost ends: { (p : Self.Program) (x : Self) → (language p).has_ended (seen p x) ≡ over x };

    /// One that was joined waits for whom it waited before.
    ghost awaits_still: { (p : Self.Program) (y : Seen) → awaits ((language p).emptied y) ≡ awaits y };
}

/// A process that joins its children, among those of a run.
pub trait JoiningProc: Proc {
    /// Joins a process with the children of its block, which have ended: the cost.
    fn join(
        alloc: Global,
        program: &Self::Program,
        entries: &mut Entries<Self, Self::Look>,
        channels: &mut Channels,
        work: &mut Self::Work,
        actor: &Actor,
        event: Self::Event,
    ) -> Result<u64, NoMemory>
        requires families { AreFamilies (Self.seen program.now) Self.awaits entries.old }
        requires actor { IsActor entries.old actor.now }
        requires fits { Self.Fits program.now work.old
            (record { procs = procs_of (Self.seen program.now) entries.old; chans = chans_of channels.old }) }
        requires can { is_some (language_step (Self.language program.now)
            (record { procs = procs_of (Self.seen program.now) entries.old; chans = chans_of channels.old })
            (actor_place actor.now)) ≡ true }
        requires event { (y : Self.Seen)
            → get (procs_of (Self.seen program.now) entries.old) (actor_place actor.now) ≡ Some y
            → Self.MeetsIt program.now y event }
        requires joins { Self.joins event ≡ true }
        ensures step { IfOk result (λ cost. language_step (Self.language program.now)
            (record { procs = procs_of (Self.seen program.now) entries.old; chans = chans_of channels.old })
            (actor_place actor.now)
            ≡ Some
            (record { procs = procs_of (Self.seen program.now) entries.new; chans = chans_of channels.new }, cost)) }
        ensures starts { OnOk result (starts_at (Self.language program.now)
            (record { procs = procs_of (Self.seen program.now) entries.old; chans = chans_of channels.old })
            (actor_place actor.now) ≡ []) }
        ensures order { OnOk result (order_of entries.new ≡ order_of entries.old) }
        ensures told { OnOk result (AreToldBut (Self.seen program.now) (Self.IsNext program.now) (actor_place actor.now)
            entries.old
            → AreToldBut (Self.seen program.now) (Self.IsNext program.now) (actor_place actor.now) entries.new) }
        ensures families { OnOk result (AreFamilies (Self.seen program.now) Self.awaits entries.new) }
        ensures fits { OnOk result (Self.Fits program.now work.new
            (record { procs = procs_of (Self.seen program.now) entries.new; chans = chans_of channels.new })) }
        ensures waking { OnOk result (WakesAll channels.old channels.new) };
}
