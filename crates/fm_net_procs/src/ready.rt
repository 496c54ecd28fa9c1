//! Which processes can step, and where those wait that can't.

ghost use Rattle.std.specs.Prelude.{◌≡◌, true, false, is_some, Some, None, OnOk, IfOk};
ghost use Rattle.std.specs.FinMap.{get, contains_key};
ghost use Rattle.std.specs.Option.{option_copied};
ghost use Rattle.fm_base.specs.declared.path.ChanName as declared_channel;
ghost use Rattle.fm_chan.specs.Bodies.{chans_of};
ghost use Rattle.fm_chan.specs.Received.{pops_at};
ghost use Rattle.fm_chan.specs.Woken.{WakesAll, waiting_reader};
ghost use Rattle.fm_finmap.specs.Rows.{place_at};
ghost use Rattle.fm_net.specs.Language.{language_step};
ghost use Rattle.fm_net.specs.Machine.{Place};
ghost use Rattle.fm_net_procs.specs.Kept.{AreFamilies, AreTold, HasFamily};
ghost use Rattle.fm_net_procs.specs.Readings.{order_of, proc_in, procs_of, state_of};
ghost use Rattle.fm_net_procs.specs.Waiting.{IsNoted, can_at, channel_waited};

use crate::entries::Entry;
use crate::process::Proc;
use crate::processes::Processes;
use fm_base::{ChanName, NoMemory};
use fm_chan::Channels;

// Notes the number of a process, which can't step, at the channel at which it waits, if it waits at one that is there.
fn note_at(channels: &mut Channels, channel: Option<&ChanName>, number: u32) -> Result<(), NoMemory>
    requires { (c : declared_channel.ChanName) → option_copied channel ≡ Some c
        → pops_at (get (chans_of channels.old) c) ≡ false }
    ensures channels { OnOk result (chans_of channels.new ≡ chans_of channels.old) }
    ensures noted { OnOk result ((c : declared_channel.ChanName)
        → option_copied channel.entry ≡ Some c → contains_key (chans_of channels.old) c ≡ true
        → waiting_reader channels.new c ≡ Some number) }
    ensures waking { OnOk result (WakesAll channels.old channels.new) }
{
    match channel {
        Some(channel) => {
            if channels.contains(channel) {
                channels.wait(channel, number)
            } else {
                Ok(())
            }
        }
        None => Ok(()),
    }
}

impl<E: Drop, L: Drop, W: Drop, P: Proc<Event = E, Look = L, Work = W>> Processes<P, L, W> {
    // Whether a process, which stands at this event, can step.
    #[inline(always)]
    fn is_served(&self, entry: &Entry<P, L>, event: &E) -> Result<bool, NoMemory>
        ensures { IfOk result (λ r. (p : P.Program) (q : Place)
            → get (procs_of (P.seen p) self.now.entries) q ≡ Some (proc_in (P.seen p) entry.now)
            → HasFamily (order_of self.now.entries) q (P.awaits (proc_in (P.seen p) entry.now)) entry.now.first_child
            → P.Fits p self.now.work (state_of (P.seen p) self.now)
            → P.MeetsIt p (proc_in (P.seen p) entry.now) event.now
            → r ≡ is_some (language_step (P.language p) (state_of (P.seen p) self.now) q)) }
    {
        match entry.process.is_served(&self.channels, &self.work, event) {
            Some(served) => Ok(served),
            None => self.entries.have_ended(entry.family()),
        }
    }

    // Whether the process of a number, which stands at this event, can step.
    #[inline(always)]
    pub(crate) fn is_able(&self, number: u32, event: &E) -> Result<bool, NoMemory>
        ensures { IfOk result (λ r. (p : P.Program) → AreFamilies (P.seen p) P.awaits self.now.entries
            → P.Fits p self.now.work (state_of (P.seen p) self.now)
            → ((q : Place) (y : P.Seen) → place_at self.now.entries.rows number ≡ Some q
            → get (procs_of (P.seen p) self.now.entries) q ≡ Some y
            → P.MeetsIt p y event.now)
            → r ≡ can_at (P.language p) (state_of (P.seen p) self.now) (order_of self.now.entries) number) }
    {
        match self.entries.rows.get(number) {
            Some(entry) => self.is_served(entry, event),
            None => Ok(false),
        }
    }

    // Whether a process can step, by what it does next.
    fn can_entry(&self, entry: &Entry<P, L>) -> Result<bool, NoMemory>
        ensures { IfOk result (λ r. (p : P.Program) (q : Place)
            → get (procs_of (P.seen p) self.now.entries) q ≡ Some (proc_in (P.seen p) entry.now)
            → HasFamily (order_of self.now.entries) q (P.awaits (proc_in (P.seen p) entry.now)) entry.now.first_child
            → P.Fits p self.now.work (state_of (P.seen p) self.now)
            → P.IsNext p (proc_in (P.seen p) entry.now) entry.now.next
            → r ≡ is_some (language_step (P.language p) (state_of (P.seen p) self.now) q)) }
    {
        match P::event(&entry.next) {
            Some(event) => self.is_served(entry, event),
            None => Ok(entry.process.can_go(&entry.next)),
        }
    }

    /// Whether the process of a number can step.
    pub fn can_step(&self, number: u32) -> Result<bool, NoMemory>
        ensures { IfOk result (λ r. (p : P.Program) → AreTold (P.seen p) (P.IsNext p) self.now.entries
            → AreFamilies (P.seen p) P.awaits self.now.entries
            → P.Fits p self.now.work (state_of (P.seen p) self.now)
            → r ≡ can_at (P.language p) (state_of (P.seen p) self.now) (order_of self.now.entries) number) }
    {
        match self.entries.rows.get(number) {
            Some(entry) => self.can_entry(entry),
            None => Ok(false),
        }
    }

    /// Notes the process of a number, which can't step, at the channel at which it waits for a message, if it waits at
    /// one.
    pub fn note(&mut self, program: &P::Program, number: u32) -> Result<(), NoMemory>
        requires told { AreTold (P.seen program.now) (P.IsNext program.now) self.old.entries }
        requires waits { can_at (P.language program.now) (state_of (P.seen program.now) self.old)
            (order_of self.old.entries) number ≡ false }
        ensures entries { OnOk result (self.new.entries ≡ self.old.entries) }
        ensures work { OnOk result (self.new.work ≡ self.old.work) }
        ensures channels { OnOk result (chans_of self.new.channels ≡ chans_of self.old.channels) }
        ensures noted { OnOk result ((q : Place) (y : P.Seen)
            → place_at self.old.entries.rows number ≡ Some q
            → get (procs_of (P.seen program.now) self.old.entries) q ≡ Some y
            → ((c : declared_channel.ChanName) → channel_waited (P.language program.now) y ≡ Some c
            → contains_key (chans_of self.old.channels) c ≡ true)
            → IsNoted (P.language program.now) self.new.channels number y) }
        ensures waking { OnOk result (WakesAll self.old.channels self.new.channels) }
    {
        let _program = program;
        match self.entries.rows.get(number) {
            Some(entry) => {
                note_at(
                    &mut self.channels,
                    entry.process.channel(&entry.next),
                    number,
                )
            }
            None => Ok(()),
        }
    }
}
