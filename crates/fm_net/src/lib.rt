//! Networks of processes over channels: the machine that runs them, and its laws for any language of
//! processes.
//!
//! A language says what each process asks for next, which ports it holds, and what is left of it when
//! its parent has joined it (`Language`); the machine gives each process its steps (`Machine`). A process
//! may send, receive within limits, look whether a receive would wait, make channels of one writer or
//! many, start children and join them. A language that accounts for its ports (`IsLawfulLanguage`) has
//! these laws: each open port stands somewhere once (`IsOwned`), no step takes another process its step,
//! each step costs a turn, and where processes are plain (`KeepsPlain`: nobody looks, no channel has a
//! second writer), all schedules lead to one outcome at one cost. Who becomes able by a step of another
//! waited for it (`MayWake`); processes have numbers in the order of their starting (`Starts`); and two
//! languages whose processes correspond have machines that do the same (`Correspondence`). The
//! definitions stand in `specs/`.
//! Each function of this file has an empty body: its contract is a law. That what channels and processes
//! owe to the types of channels is kept by each step is a lemma of `proofs/Typed.antt`, since a contract
//! can't quantify over facts.
#![tactic(auto)]

mod kids;

ghost use Rattle.std.specs.Prelude.{◌≡◌, ◌≢◌, ◌⊎◌, ◌≤◌, ◌+◌, ◌++◌, ◌∷◌, ℕ, Option, Some, None, List, [], Bool, true, false, length, replicate, slice_get};
ghost use Rattle.std.specs.FinMap.{get, insert, empty};
ghost use Rattle.fm_base.specs.declared.path.ChanName.{ChanName};
ghost use Rattle.fm_base.specs.declared.port.PortValue.{PortValue};
ghost use Rattle.fm_base.specs.declared.schedule.Turn.{Turn};
ghost use Rattle.fm_base.specs.Channels.{Message, Limits, Chan, ChannelOp, Push, Pop, is_ready, changed, gives, exceeds, spills, fresh, all_shed};
ghost use Rattle.fm_sched.specs.Schedule.{Can, next, play, IsLegal, IsEnding, Stays, Diamond, Throughout, Settles};
ghost use Rattle.fm_sched.specs.Simulation.{Passes, ReadsAs};
ghost use Rattle.fm_net.specs.Machine.{Place, State, Need, Nothing, Event, New, Reply, Onward, Stop, Go, made, reply_with, reply_at, served, going, finished};
ghost use Rattle.fm_net.specs.Language.{Language, language_step};
ghost use Rattle.fm_net.specs.Owned.{queued, opened, name_of, IsOwned, HasOneWriter, GoneIsEmpty, main_alone};
ghost use Rattle.fm_net.specs.Plain.{KeepsPlain, AllPlain};
ghost use Rattle.fm_net.specs.Lawful.{holds, IsLawfulLanguage};
ghost use Rattle.fm_net.specs.Starts.{child_places, starts_at, starts_along, starts_of, choices_of};
ghost use Rattle.fm_net.specs.Woken.{MayWake};
ghost use Rattle.fm_net.specs.Correspondence.{IsCorrespondence, AreAlike};
ghost use Rattle.fm_net.specs.Marked.{unmarked, marked};
ghost use Rattle.fm_net.specs.Small.{Instr, language as small, first_state, HasOneItemMessages, sample, sample_choices};

pub use kids::{Endings, Family, child_path, count_ended, number_behind};

/// The step of the process at a place, by what it asks. Where there is no process, where it asks for
/// nothing more, and where what it needs isn't served, there is none. Where it starts no child and
/// joins none, it alone changes, and with it the one channel that it touches or makes; then the ports
/// that it drops are discarded. The reply to an event (`reply_at`) has the message, whether one stays
/// that exceeds the limits, and whether a receive would wait.
pub fn one_step<P>()
    ensures absent { (language : Language P) (s : State P) (p : Place) → get s.procs p ≡ None →
        language_step language s p ≡ None }
    ensures stopped { (language : Language P) (s : State P) (p : Place) (x : P) → get s.procs p ≡ Some x →
        language.ask x ≡ Stop → language_step language s p ≡ None }
    ensures waits { (language : Language P) (s : State P) (p : Place) (x : P) → get s.procs p ≡ Some x →
        (need : Need) (f : ChanName → Reply P → Onward P) → language.ask x ≡ Go need f →
        served language.has_ended s.procs s.chans p need ≡ None → language_step language s p ≡ None }
    ensures served { (language : Language P) (s : State P) (p : Place) (x : P) → get s.procs p ≡ Some x →
        (need : Need) (f : ChanName → Reply P → Onward P) → language.ask x ≡ Go need f → (r : Reply P) →
        served language.has_ended s.procs s.chans p need ≡ Some r →
        language_step language s p
        ≡ Some (finished (going language.emptied s.procs s.chans p need (f (made p need) r))) }
    ensures local { (language : Language P) (s : State P) (p : Place) (x : P) → get s.procs p ≡ Some x →
        (f : ChanName → Reply P → Onward P) (o : Onward P) → language.ask x ≡ Go Nothing f →
        f (name_of p 0) (reply_with []) ≡ o → o.starts ≡ [] →
        language_step language s p
        ≡ Some (record { procs = insert s.procs p o.self; chans = all_shed o.drops s.chans }, o.cost) }
    ensures channel { (language : Language P) (s : State P) (p : Place) (x : P)
        → get s.procs p ≡ Some x → (n k : ℕ) (f : ChanName → Reply P → Onward P) (o : Onward P)
        → language.ask x ≡ Go (New n k) f → f (name_of p n) (reply_with []) ≡ o
        → o.starts ≡ []
        → language_step language s p
        ≡ Some (
          record { procs = insert s.procs p o.self; chans = all_shed o.drops (insert s.chans (name_of p n) (fresh k)) },
          o.cost,
        ) }
    ensures event { (language : Language P) (s : State P) (p : Place) (x : P)
        → get s.procs p ≡ Some x → (c : ChanName) (a : ChannelOp) (f : ChanName → Reply P → Onward P)
        → language.ask x ≡ Go (Event c a) f → (ch : Chan) → get s.chans c ≡ Some ch
        → (o : Onward P) → f (name_of p 0) (reply_at a ch) ≡ o
        → o.starts ≡ [] → is_ready a ch ≡ true
        → language_step language s p
        ≡ Some (
          record {
            procs = insert s.procs p o.self;
            chans = all_shed (o.drops ++ spills a ch) (insert s.chans c (changed a ch));
          },
          o.cost,
        ) }
    ensures event_waits { (language : Language P) (s : State P) (p : Place) (x : P) → get s.procs p ≡ Some x →
        (c : ChanName) (a : ChannelOp) (f : ChanName → Reply P → Onward P) →
        language.ask x ≡ Go (Event c a) f → (ch : Chan) → get s.chans c ≡ Some ch →
        is_ready a ch ≡ false → language_step language s p ≡ None }
{}

/// A receive whose first message exceeds its limits has its step: no message comes, the channel stays as
/// it is, and the reply says so. After a send the same message is still the first.
pub fn exceeding_message_stays()
    ensures ready { (l : Limits) (ch : Chan) → exceeds (Pop l) ch ≡ true → is_ready (Pop l) ch ≡ true }
    ensures nothing_comes { (l : Limits) (ch : Chan) → exceeds (Pop l) ch ≡ true → gives (Pop l) ch ≡ None }
    ensures unchanged { (l : Limits) (ch : Chan) → exceeds (Pop l) ch ≡ true → changed (Pop l) ch ≡ ch }
    ensures after_send { (l : Limits) (ch : Chan) (w : ℕ) (m : Message) → exceeds (Pop l) ch ≡ true →
        exceeds (Pop l) (changed (Push w m) ch) ≡ true }
{}

/// Each step of a lawful language costs a turn.
pub fn each_step_costs<P>()
    ensures { (language : Language P) → IsLawfulLanguage language → (s : State P) (p : Place) (t : State P × ℕ) →
        language_step language s p ≡ Some t → 1 ≤ t.1 }
{}

/// Ownership of ports holds where main is alone with no port, is kept by each step, and so holds
/// throughout.
pub fn ports_are_owned<P>()
    ensures first { (language : Language P) (x : P) → language.held x ≡ [] → IsOwned language (main_alone x) }
    ensures step { (language : Language P) → IsLawfulLanguage language → (s : State P) (p : Place) →
        IsOwned language s → Can (language_step language) s p →
        IsOwned language (next (language_step language) s p) }
    ensures throughout { (language : Language P) → IsLawfulLanguage language → (start : State P) →
        IsOwned language start → Throughout (language_step language) (IsOwned language) start }
{}

/// What ownership says of one port: where it stands, it is open; it stands once, in one process or in
/// one message; and an open port stands somewhere.
pub fn where_a_port_stands<P>()
    ensures held_open { (language : Language P) (s : State P) → IsOwned language s → (p : Place) (x : P)
        (z : PortValue) → get s.procs p ≡ Some x → 1 ≤ holds language z x → opened s.chans z ≡ 1 }
    ensures queued_open { (language : Language P) (s : State P) → IsOwned language s → (c : ChanName)
        (ch : Chan) (z : PortValue) → get s.chans c ≡ Some ch → 1 ≤ queued z ch → opened s.chans z ≡ 1 }
    ensures held_once { (language : Language P) (s : State P) → IsOwned language s → (p : Place) (x : P)
        (z : PortValue) → get s.procs p ≡ Some x → holds language z x ≤ 1 }
    ensures one_holder { (language : Language P) (s : State P) → IsOwned language s → (p q : Place)
        (x y : P) (z : PortValue) → (p ≢ q) → get s.procs p ≡ Some x → get s.procs q ≡ Some y →
        1 ≤ holds language z x → holds language z y ≡ 0 }
    ensures held_or_queued { (language : Language P) (s : State P) → IsOwned language s → (p : Place)
        (x : P) (c : ChanName) (ch : Chan) (z : PortValue) → get s.procs p ≡ Some x →
        get s.chans c ≡ Some ch → 1 ≤ holds language z x → queued z ch ≡ 0 }
    ensures open_stands { (language : Language P) (s : State P) → IsOwned language s → (z : PortValue) →
        opened s.chans z ≡ 1 →
        ((p : Place) × (x : P) × (get s.procs p ≡ Some x) × (1 ≤ holds language z x))
        ⊎ ((c : ChanName) × (ch : Chan) × (get s.chans c ≡ Some ch) × (1 ≤ queued z ch)) }
{}

/// Where no message waits at a channel whose inport is gone, no step leaves one there.
pub fn gone_is_empty<P>()
    ensures { (language : Language P) → IsLawfulLanguage language → (start : State P) → IsOwned language start →
        GoneIsEmpty start.chans → Throughout (language_step language) (λ s. GoneIsEmpty s.chans) start }
{}

/// A process that asks for an event at a channel finds the channel: it waits for no other thing than a
/// message there.
pub fn events_find_channels<P>()
    ensures { (language : Language P) (s : State P) → IsOwned language s → IsLawfulLanguage language →
        (p : Place) (x : P) (c : ChanName) (a : ChannelOp) (f : ChanName → Reply P → Onward P) →
        get s.procs p ≡ Some x → language.ask x ≡ Go (Event c a) f →
        (ch : Chan) × (get s.chans c ≡ Some ch) }
{}

/// With no channel there is no second writer, and no step of a plain process gives a channel one. Plain
/// is who looks at no channel and makes none with a second writer, then and later.
pub fn channels_have_one_writer<P>()
    ensures first { HasOneWriter empty }
    ensures step { (language : Language P) → IsLawfulLanguage language → (is_plain : P → Bool) →
        KeepsPlain language (λ x. is_plain x ≡ true) → (s : State P) (p : Place) → IsOwned language s →
        AllPlain language (λ x. is_plain x ≡ true) s.procs → HasOneWriter s.chans → Can (language_step language) s p →
        AllPlain language (λ x. is_plain x ≡ true) (next (language_step language) s p).procs
        × HasOneWriter (next (language_step language) s p).chans }
{}

/// A step of one process leaves every other its step, also where channels have more writers.
pub fn steps_stay<P>()
    ensures here { (language : Language P) → IsLawfulLanguage language → (s : State P) → IsOwned language s →
        Stays (language_step language) s }
    ensures throughout { (language : Language P) → IsLawfulLanguage language → (start : State P) →
        IsOwned language start → Throughout (language_step language) (Stays (language_step language)) start }
{}

/// Which other processes become able by a step of `p`: who waits for a message of the channel to which
/// it sends; who waits at a channel whose last writer goes by the step; who waits for the children of a
/// block, of which it is the last that ends; and the children that it starts. Nobody else does, and
/// (`steps_stay`) nobody else becomes unable.
pub fn who_becomes_able<P>()
    ensures { (language : Language P) → IsLawfulLanguage language → (s : State P) → IsOwned language s →
        (p q : Place) → (q ≢ p) → Can (language_step language) s p → language_step language s q ≡ None →
        Can (language_step language) (next (language_step language) s p) q → MayWake language s p q }
{}

/// With plain processes and one writer a channel, the two orders of the steps of two processes give one
/// state, at the same costs.
pub fn steps_commute<P>()
    ensures here { (language : Language P) → IsLawfulLanguage language → (is_plain : P → Bool) →
        KeepsPlain language (λ x. is_plain x ≡ true) → (s : State P) → IsOwned language s →
        AllPlain language (λ x. is_plain x ≡ true) s.procs → HasOneWriter s.chans → Diamond (language_step language) s }
    ensures throughout { (language : Language P) → IsLawfulLanguage language → (is_plain : P → Bool) →
        KeepsPlain language (λ x. is_plain x ≡ true) → (start : State P) → IsOwned language start →
        AllPlain language (λ x. is_plain x ≡ true) start.procs → HasOneWriter start.chans →
        Throughout (language_step language) (Diamond (language_step language)) start }
{}

/// With plain processes and one writer a channel, one list of choices that ends bounds every legal list,
/// each of which goes on to an end, and each that ends gives its state at its cost.
pub fn one_outcome<P>()
    ensures { (language : Language P) → IsLawfulLanguage language → (is_plain : P → Bool) →
        KeepsPlain language (λ x. is_plain x ≡ true) → (start : State P) → IsOwned language start →
        AllPlain language (λ x. is_plain x ≡ true) start.procs → HasOneWriter start.chans → (cs : List Place) →
        IsEnding (language_step language) start cs → Settles (language_step language) start cs }
{}

/// The children that a step starts, by how the process goes on, and in what order choices start them.
pub fn starts_in_turn<P>()
    ensures served { (language : Language P) (s : State P) (p : Place) (x : P) → get s.procs p ≡ Some x →
        (need : Need) (f : ChanName → Reply P → Onward P) → language.ask x ≡ Go need f → (r : Reply P) →
        served language.has_ended s.procs s.chans p need ≡ Some r →
        starts_at language s p ≡ child_places p (f (made p need) r).block 1 (length (f (made p need) r).starts) }
    ensures no_step { (language : Language P) (s : State P) (p : Place) → language_step language s p ≡ None →
        starts_at language s p ≡ [] }
    ensures append { (language : Language P) (s : State P) (cs ds : List Place) →
        starts_of language s (cs ++ ds)
        ≡ starts_of language s cs ++ starts_along language (play (language_step language) s cs) ds }
    ensures one_more { (language : Language P) (s : State P) (cs : List Place) (p : Place) →
        starts_of language s (cs ++ p ∷ [])
        ≡ starts_of language s cs ++ starts_at language (play (language_step language) s cs) p }
    ensures repeated { (language : Language P) (s : State P) (n : ℕ) (p : Place) →
        starts_along language s (replicate (n + 1) p)
        ≡ starts_along language s (replicate n p)
        ++ starts_at language (play (language_step language) s (replicate n p)) p }
{}

/// From main alone, each process has one number in the order of starting, and each number that is given
/// is that of a process.
pub fn one_number_each<P>()
    ensures everybody { (language : Language P) (x : P) (cs : List Place) →
        IsLegal (language_step language) (main_alone x) cs → (q : Place) (y : P) →
        get (play (language_step language) (main_alone x) cs).procs q ≡ Some y →
        (n : ℕ) × (slice_get (starts_of language (main_alone x) cs) n ≡ Some q) }
    ensures stands { (language : Language P) (x : P) (cs : List Place) →
        IsLegal (language_step language) (main_alone x) cs → (n : ℕ) (q : Place) →
        slice_get (starts_of language (main_alone x) cs) n ≡ Some q →
        (y : P) × (get (play (language_step language) (main_alone x) cs).procs q ≡ Some y) }
    ensures once { (language : Language P) → IsLawfulLanguage language → (x : P) → language.held x ≡ [] →
        (cs : List Place) → IsLegal (language_step language) (main_alone x) cs → (n m : ℕ) (q : Place) →
        slice_get (starts_of language (main_alone x) cs) n ≡ Some q →
        slice_get (starts_of language (main_alone x) cs) m ≡ Some q → n ≡ m }
{}

/// The choices of a history: its turns one after the other. Processes that start later change nothing.
pub fn choices_of_a_history()
    ensures none { (places : List Place) → choices_of [] places ≡ Some [] }
    ensures first { (t : Turn) (ts : List Turn) (places : List Place) (p : Place) (cs : List Place) →
        slice_get places t.number ≡ Some p → choices_of ts places ≡ Some cs →
        choices_of (t ∷ ts) places ≡ Some (replicate t.steps p ++ cs) }
    ensures one_more { (ts : List Turn) (places more cs : List Place) (t : Turn) (p : Place) →
        choices_of ts places ≡ Some cs → slice_get places t.number ≡ Some p →
        choices_of (ts ++ t ∷ []) (places ++ more) ≡ Some (cs ++ replicate t.steps p) }
    ensures stay { (ts : List Turn) (places more cs : List Place) → choices_of ts places ≡ Some cs →
        choices_of ts (places ++ more) ≡ Some cs }
{}

/// Two languages whose processes correspond have machines that do the same. Here processes of the second
/// that pass a test are read as those of the first, in states that pass a test; the law for any relation
/// is `alike` of `proofs/Correspondences.antt`.
pub fn languages_alike<P, Q>()
    ensures { (first : Language P) (second : Language Q) (read : Q → P) (is_good : Q → Bool)
        (is_live : State P → Bool) → IsCorrespondence (ReadsAs read is_good) (Passes is_live) first second →
        AreAlike (ReadsAs read is_good) (Passes is_live) first second }
{}

/// The premise of that law can be met: a language whose processes carry marks corresponds to the one
/// without.
pub fn marks_tell_nothing<P, M>()
    ensures { (language : Language P)
        → IsCorrespondence (ReadsAs (unmarked {M = M}) (λ y. true)) (Passes (λ s. true)) language
        (marked {M = M} language) }
{}

/// What the laws ask for can be met: a small language with channels, ports in messages and blocks of
/// children is lawful, and has one outcome from its first state, whatever its units are. Its messages are
/// of one item each, and a sample program ends.
pub fn small_language()
    ensures lawful { (units : List (List Instr)) → IsLawfulLanguage (small units) }
    ensures owned { (units : List (List Instr)) →
        Throughout (language_step (small units)) (IsOwned (small units)) (first_state units) }
    ensures typed { (units : List (List Instr)) →
        Throughout (language_step (small units)) HasOneItemMessages (first_state units) }
    ensures commutes { (units : List (List Instr)) →
        Throughout (language_step (small units)) (Diamond (language_step (small units))) (first_state units) }
    ensures sample_ends { IsEnding (language_step (small sample)) (first_state sample) sample_choices }
    ensures settles { (units : List (List Instr)) (cs : List Place) →
        IsEnding (language_step (small units)) (first_state units) cs →
        Settles (language_step (small units)) (first_state units) cs }
{}
