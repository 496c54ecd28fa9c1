//! The reader's end of a link.

ghost use Rattle.std.specs.Prelude.{◌≡◌, ◌≢◌, ◌^◌, ◌<◌, IfOk, OnOk, OnErr, IfErr, IsOk, option_copied};
ghost use Rattle.fm_link.specs.Ends.{fresh_incoming, arrival, with_packet, first_of, behind_first};
ghost use Rattle.fm_link.specs.Boxes.{incoming_of};

use crate::load::{Ack, Load, Packet};
use fm_base::NoMemory;
use std::alloc::Global;
use std::collections::VecDeque;

/// What became of a packet that arrived.
#[derive(Clone, Copy, Debug, PartialEq, Eq)]
pub enum Arrived {
    /// It was the next one, and is kept.
    Taken,
    /// It had come before.
    Old,
    /// One before it hasn't come yet.
    Early,
}

/// The reader's end of a link: the loads that have arrived and weren't taken. It takes packets in the order of
/// their numbers alone, so nothing is lost, doubled or out of order.
pub struct Inbox {
    /// How many loads have arrived.
    arrived: u64,
    /// Those of them that weren't taken, oldest first.
    waiting: VecDeque<Load>,
}

impl Drop for Inbox {
    fn drop(self) {
        let Inbox {
            arrived: _arrived,
            waiting: _waiting,
        } = self;
    }
}

impl Inbox {
    /// Nothing has arrived. Takes no memory.
    pub fn new(alloc: Global) -> Inbox
        ensures { incoming_of result ≡ fresh_incoming }
    {
        Inbox {
            arrived: 0,
            waiting: VecDeque::new(alloc),
        }
    }

    /// A packet came. It is taken where its number is the next one, and dropped otherwise. Only what is taken takes
    /// memory; want of it gives the packet back and changes nothing.
    pub fn arrive(&mut self, packet: Packet) -> Result<Arrived, (Packet, NoMemory)>
        requires { packet.number < 2 ^ 63 }
        ensures answer { IfOk result (λ r. r ≡ arrival (incoming_of self.old) packet.number) }
        ensures ok { OnOk result (incoming_of self.new ≡ with_packet (incoming_of self.old) packet) }
        ensures sure { packet.number ≢ (incoming_of self.old).arrived → IsOk result }
        ensures back { IfErr result (λ e. e.0 ≡ packet) }
        ensures err { OnErr result (incoming_of self.new ≡ incoming_of self.old) }
    {
        if packet.number < self.arrived {
            return Ok(Arrived::Old);
        }
        if packet.number > self.arrived {
            return Ok(Arrived::Early);
        }
        let Packet { number, load } = packet;
        match self.waiting.push_back(load) {
            Ok(()) => {
                self.arrived = number + 1;
                Ok(Arrived::Taken)
            }
            Err(full) => Err((
                Packet {
                    number,
                    load: full.value,
                },
                NoMemory,
            )),
        }
    }

    /// The acknowledgement of all that has arrived. Takes no memory.
    pub fn ack(&self) -> Ack
        ensures { result.next ≡ (incoming_of self.now).arrived }
    {
        Ack { next: self.arrived }
    }

    /// The oldest load that wasn't taken. Takes no memory.
    pub fn first(&self) -> Option<&Load>
        ensures { option_copied result ≡ first_of (incoming_of self.now) }
    {
        self.waiting.front()
    }

    /// Takes the oldest load that wasn't taken. Takes no memory.
    pub fn take(&mut self) -> Option<Load>
        ensures load { result ≡ first_of (incoming_of self.old) }
        ensures rest { incoming_of self.new ≡ behind_first (incoming_of self.old) }
    {
        self.waiting.pop_front()
    }
}
