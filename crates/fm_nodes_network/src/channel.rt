//! A channel: the two ends of its link.

ghost use Rattle.std.specs.Prelude.{◌≡◌, ◌^◌, ◌<◌, ◌≤◌, ◌+◌, ◌-◌, cond, true, map, IfOk, OnOk, OnErr, is_some, option_copied, slice_get};
ghost use Rattle.fm_link.specs.Ends.{first_of, number_of, packet_of, pushes, with_load};
ghost use Rattle.fm_link.specs.Boxes.{outgoing_of, room_of};

use fm_base::{NoMemory, Seq};
use fm_link::{Ack, Inbox, Load, Outbox, Packet};
use std::alloc::Global;

/// A channel. Where its writer is open there is room for the end, so closing takes no memory.
pub struct Channel {
    /// The writer's end.
    pub(crate) outbox: Outbox,
    /// The reader's end.
    pub(crate) inbox: Inbox,
    /// Whether the writer is open.
    pub(crate) is_open: bool,
    /// Whether the inport lives.
    pub(crate) lives: bool,
    ghost room: { is_open ≡ true → 1 ≤ room_of outbox },
    ghost few: { is_open ≡ true → pushes (outgoing_of outbox) < 2 ^ 63 },
}

impl Drop for Channel {
    fn drop(self) {
        let Channel {
            outbox: _outbox,
            inbox: _inbox,
            is_open: _is_open,
            lives: _lives,
        } = self;
    }
}

// Puts a load last, for which there is room.
fn push(outbox: &mut Outbox, load: Load)
    requires few { pushes (outgoing_of outbox.old) < 2 ^ 63 }
    requires room { 1 ≤ room_of outbox.old }
    ensures load { outgoing_of outbox.new ≡ with_load (outgoing_of outbox.old) load }
    ensures room { room_of outbox.old ≤ room_of outbox.new + 1 }
{
    match outbox.push(load) {
        Ok(()) => {}
        Err(_) => unreachable!(),
    }
}

impl Channel {
    ghost use Rattle.fm_base.specs.Channels.{Words};
    ghost use Rattle.fm_link_law.specs.Channels.{new_linked, pushed, closed, gone, packet_comes, ack_comes};
    ghost use Rattle.fm_nodes_network.specs.Channel.{is_left, linked_of, with_first_taken, HasRoom};

    /// A channel that was just made, with one writer or none. With none it is at its end.
    pub fn new(alloc: Global, has_writer: bool) -> Result<Channel, NoMemory>
        ensures { IfOk result (λ c. linked_of c ≡ new_linked (cond has_writer 1 0)) }
    {
        let mut outbox = Outbox::new(alloc);
        outbox.reserve()?;
        if !has_writer {
            push(&mut outbox, Load::Close);
        }
        Ok(Channel {
            outbox,
            inbox: Inbox::new(alloc),
            is_open: has_writer,
            lives: true,
        })
    }

    /// Makes room for a message, and for the end behind it. Want of memory changes nothing.
    pub fn reserve(&mut self) -> Result<(), NoMemory>
        ensures same { linked_of self.new ≡ linked_of self.old }
        ensures ok { OnOk result (HasRoom self.new) }
    {
        // So many loads that the end would have no number: told as want of memory.
        if self.outbox.pushed() >= 9_223_372_036_854_775_807 {
            return Err(NoMemory);
        }
        self.outbox.reserve()
    }

    /// A message of these words is sent, for which there is room. Takes no memory.
    pub fn send(&mut self, words: Seq<Seq<i64>>)
        requires { HasRoom self.old }
        ensures { linked_of self.new ≡ pushed (map Words words) (linked_of self.old) }
    {
        push(&mut self.outbox, Load::Words(words));
    }

    /// The writer is closed: the end goes last. Takes no memory.
    pub fn close(&mut self)
        requires { (linked_of self.old).is_open ≡ true }
        ensures { linked_of self.new ≡ closed (linked_of self.old) }
    {
        self.is_open = false;
        push(&mut self.outbox, Load::Close);
    }

    /// The inport is gone. Takes no memory.
    pub fn leave(&mut self)
        ensures { linked_of self.new ≡ gone (linked_of self.old) }
    {
        self.lives = false;
    }

    /// The oldest load that has arrived and wasn't taken.
    pub fn first(&self) -> Option<&Load>
        ensures { option_copied result ≡ first_of (linked_of self.now).incoming }
    {
        self.inbox.first()
    }

    // Whether a load that waits at the writer's end hasn't arrived.
    fn is_under_way(&self) -> bool
        ensures { result
            ≡ is_some (slice_get (linked_of self.now).outgoing.waiting
            ((linked_of self.now).incoming.arrived - (linked_of self.now).outgoing.acknowledged)) }
    {
        match self.outbox.number(0) {
            Some(first) => {
                let ahead = self.inbox.ack().next.saturating_sub(first);
                self.outbox.number(ahead as usize).is_some()
            }
            None => false,
        }
    }

    /// Whether a load was pushed that wasn't taken. Takes no memory.
    pub fn is_left(&self) -> bool
        ensures { result ≡ is_left (linked_of self.now) }
    {
        match self.inbox.first() {
            Some(_) => true,
            None => self.is_under_way(),
        }
    }

    /// Takes the oldest load that has arrived and wasn't taken. Takes no memory.
    pub fn take(&mut self)
        ensures { linked_of self.new ≡ with_first_taken (linked_of self.old) }
    {
        self.inbox.take();
    }

    /// The number of the packet at this place among those that aren't acknowledged.
    pub fn number(&self, place: usize) -> Option<u64>
        ensures { result ≡ number_of (linked_of self.now).outgoing place }
    {
        self.outbox.number(place)
    }

    /// The packet at this place among those that aren't acknowledged.
    pub fn packet(&self, alloc: Global, place: usize) -> Result<Option<Packet>, NoMemory>
        ensures { IfOk result (λ packet. packet ≡ packet_of (linked_of self.now).outgoing place) }
    {
        self.outbox.packet(alloc, place)
    }

    /// The acknowledgement of all that has arrived.
    pub fn ack(&self) -> Ack
        ensures { result.next ≡ (linked_of self.now).incoming.arrived }
    {
        self.inbox.ack()
    }

    /// A packet comes. Where the inport is gone nothing changes, and neither after want of memory.
    pub fn arrive(&mut self, packet: Packet) -> Result<(), NoMemory>
        requires { packet.number < 2 ^ 63 }
        ensures ok { OnOk result (linked_of self.new ≡ packet_comes packet (linked_of self.old)) }
        ensures err { OnErr result (linked_of self.new ≡ linked_of self.old) }
    {
        if !self.lives {
            return Ok(());
        }
        match self.inbox.arrive(packet) {
            Ok(_) => Ok(()),
            Err((_, fail)) => Err(fail),
        }
    }

    /// An acknowledgement comes. Takes no memory.
    pub fn acked(&mut self, ack: Ack)
        ensures { linked_of self.new ≡ ack_comes ack.next (linked_of self.old) }
    {
        self.outbox.acked(ack);
    }
}
