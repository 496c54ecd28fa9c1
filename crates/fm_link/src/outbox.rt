//! The writer's end of a link.

ghost use Rattle.std.specs.Prelude.{◌≡◌, ◌+◌, ◌-◌, ◌^◌, ◌<◌, ◌≤◌, drop, length, IfOk, OnOk, OnErr, IfErr, IfSome, IsOk};

use crate::load::{Ack, Load, Packet};
use fm_base::NoMemory;
use std::alloc::Global;
use std::collections::VecDeque;

/// The writer's end of a link: the loads that aren't acknowledged.
pub struct Outbox {
    /// How many loads are acknowledged.
    acknowledged: u64,
    /// The loads that were pushed and aren't acknowledged, oldest first.
    waiting: VecDeque<Load>,
    ghost few: { acknowledged + length waiting.items ≤ 2 ^ 63 },
}

impl Drop for Outbox {
    fn drop(self) {
        let Outbox {
            acknowledged: _acknowledged,
            waiting: _waiting,
        } = self;
    }
}

// Drops so many loads, the oldest first.
fn drop_first(waiting: &mut VecDeque<Load>, count: u64)
    ensures items { waiting.new.items ≡ drop count waiting.old.items }
    ensures room { waiting.old.cap - waiting.old.len ≤ waiting.new.cap - waiting.new.len }
{
    let mut dropped = 0;
    'loads: while dropped < count {
        waiting.pop_front();
        dropped += 1;
    }
}

impl Outbox {
    ghost use Rattle.fm_link.specs.Ends.{fresh_outgoing, pushes, with_load, number_of, packet_of, is_news, acked_by};
    ghost use Rattle.fm_link.specs.Boxes.{outgoing_of, room_of};

    /// Nothing was pushed. Takes no memory.
    pub fn new(alloc: Global) -> Outbox
        ensures { outgoing_of result ≡ fresh_outgoing }
    {
        Outbox {
            acknowledged: 0,
            waiting: VecDeque::new(alloc),
        }
    }

    /// Puts a load last. Its number is the count of those that were pushed before. Where there is room it can't
    /// fail; else want of memory gives the load back and changes nothing.
    pub fn push(&mut self, load: Load) -> Result<(), (Load, NoMemory)>
        requires few { pushes (outgoing_of self.old) < 2 ^ 63 }
        ensures ok { OnOk result (outgoing_of self.new ≡ with_load (outgoing_of self.old) load) }
        ensures room { room_of self.old ≤ room_of self.new + 1 }
        ensures reserved { 1 ≤ room_of self.old → IsOk result }
        ensures back { IfErr result (λ e. e.0 ≡ load) }
        ensures err { OnErr result (outgoing_of self.new ≡ outgoing_of self.old) }
    {
        match self.waiting.push_back(load) {
            Ok(()) => Ok(()),
            Err(full) => Err((full.value, NoMemory)),
        }
    }

    /// Makes room for two loads more: the next push can't fail, and neither can one behind it. So a writer that
    /// sends always has room left for its end. Want of memory changes nothing.
    pub fn reserve(&mut self) -> Result<(), NoMemory>
        ensures same { outgoing_of self.new ≡ outgoing_of self.old }
        ensures kept { room_of self.old ≤ room_of self.new }
        ensures ok { OnOk result (2 ≤ room_of self.new) }
    {
        self.waiting.reserve(2)?;
        Ok(())
    }

    /// How many loads were pushed. Takes no memory.
    pub fn pushed(&self) -> u64
        ensures { result ≡ pushes (outgoing_of self.now) }
    {
        self.acknowledged + self.waiting.len() as u64
    }

    /// The number of the load at this place among those that aren't acknowledged; none where there are fewer.
    /// Takes no memory.
    pub fn number(&self, place: usize) -> Option<u64>
        ensures number { result ≡ number_of (outgoing_of self.now) place }
        ensures small { IfSome result (λ number. number < 2 ^ 63) }
    {
        if place < self.waiting.len() {
            return Some(self.acknowledged + place as u64);
        }
        None
    }

    /// The packet of the load at this place among those that aren't acknowledged, as a copy, so that it can be sent
    /// again; none where there are fewer.
    pub fn packet(&self, alloc: Global, place: usize) -> Result<Option<Packet>, NoMemory>
        ensures { IfOk result (λ packet. packet ≡ packet_of (outgoing_of self.now) place) }
    {
        match self.waiting.get(place) {
            Some(load) => Ok(Some(Packet {
                number: self.acknowledged + place as u64,
                load: load.copy(alloc)?,
            })),
            None => Ok(None),
        }
    }

    /// An acknowledgement came: drops the loads before its number. It is false, and nothing has changed, where
    /// it tells nothing new, or more than was pushed. Takes no memory.
    pub fn acked(&mut self, ack: Ack) -> bool
        ensures answer { result ≡ is_news (outgoing_of self.old) ack.next }
        ensures state { outgoing_of self.new ≡ acked_by (outgoing_of self.old) ack.next }
        ensures room { room_of self.old ≤ room_of self.new }
    {
        if ack.next <= self.acknowledged || ack.next > self.pushed() {
            return false;
        }
        let count = ack.next - self.acknowledged;
        drop_first(&mut self.waiting, count);
        self.acknowledged = ack.next;
        true
    }
}
