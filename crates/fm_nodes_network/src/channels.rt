//! The channels by their names.

ghost use Rattle.std.specs.Prelude.{◌≡◌, ◌^◌, ◌<◌, true, cond, map, Some, OnOk, OnErr, is_some, option_copied, option_map, slice_get};
ghost use Rattle.std.specs.FinMap as finite;
ghost use Rattle.fm_base.specs.Channels.{Words};
ghost use Rattle.fm_finmap.specs.Changes.{adjust};
ghost use Rattle.fm_link_law.specs.Channels.{LinkedChan, new_linked, pushed, closed, gone, packet_comes, ack_comes};
ghost use Rattle.fm_nodes_network.specs.Channel.{is_left_at, linked_of, with_first_taken};

use crate::channel::Channel;
use fm_base::{ChanName, NoMemory, Seq};
use fm_finmap::Map;
use fm_link::{Ack, Packet};
use std::alloc::Global;

/// The channels by their names.
pub struct Channels {
    /// The channels.
    pub(crate) by_name: Map<ChanName, Channel>,
}

impl Drop for Channels {
    fn drop(self) {
        let Channels { by_name: _by_name } = self;
    }
}

impl Channels {
    ghost use Rattle.fm_nodes_network.specs.Channels.{HasRoomIn, linked_chans_of};

    /// No channel. Takes no memory.
    pub fn new(alloc: Global) -> Channels
        ensures { linked_chans_of result ≡ finite.empty }
    {
        Channels {
            by_name: Map::new(alloc),
        }
    }

    /// The channel of a name.
    pub fn get(&self, name: &ChanName) -> Option<&Channel>
        ensures { option_map linked_of (option_copied result) ≡ finite.get (linked_chans_of self.now) name.now }
    {
        self.by_name.get(name)
    }

    /// How many there are. Takes no memory.
    pub fn len(&self) -> usize
        ensures { result ≡ finite.len (linked_chans_of self.now) }
    {
        self.by_name.len()
    }

    /// The name at a place, from 0, in the order of the makers' paths and then of the numbers; none where there are
    /// fewer. Takes no memory.
    pub fn name(&self, at: usize) -> Option<&ChanName>
        ensures { option_copied result ≡ slice_get (map (λ e. e.0) (finite.entries (linked_chans_of self.now))) at }
    {
        match self.by_name.iter().nth(at) {
            Some(entry) => Some(entry.0),
            None => None,
        }
    }

    /// Whether something was pushed into a channel that wasn't taken. Takes no memory.
    pub fn is_left(&self, name: &ChanName) -> bool
        ensures { result ≡ is_left_at (finite.get (linked_chans_of self.now) name.now) }
    {
        match self.get(name) {
            Some(channel) => channel.is_left(),
            None => false,
        }
    }

    /// Whether there is a channel of a name.
    pub fn has(&self, name: &ChanName) -> bool
        ensures { result ≡ is_some (finite.get (linked_chans_of self.now) name.now) }
    {
        match self.get(name) {
            Some(_) => true,
            None => false,
        }
    }

    /// A new channel of this name, with one writer or none. With none it is at its end. After want of memory nothing
    /// has changed.
    pub fn make(&mut self, alloc: Global, name: ChanName, has_writer: bool) -> Result<(), NoMemory>
        ensures ok { OnOk result (linked_chans_of self.new ≡
            finite.insert (linked_chans_of self.old) name (new_linked (cond has_writer 1 0))) }
        ensures err { OnErr result (self.new ≡ self.old) }
    {
        let channel = Channel::new(alloc, has_writer)?;
        self.by_name.insert(name, channel)?;
        Ok(())
    }

    /// The channel of this name is gone again, as if it hadn't been made. Takes no memory.
    pub fn unmake(&mut self, name: &ChanName)
        ensures { linked_chans_of self.new ≡ finite.remove (linked_chans_of self.old) name.now }
    {
        self.by_name.remove(name);
    }

    /// Makes room for a message at a channel. Want of memory changes nothing.
    pub fn reserve(&mut self, name: &ChanName) -> Result<(), NoMemory>
        ensures same { linked_chans_of self.new ≡ linked_chans_of self.old }
        ensures ok { OnOk result (HasRoomIn self.new.by_name name.now) }
    {
        match self.by_name.get_mut(name) {
            Some(channel) => channel.reserve(),
            None => Ok(()),
        }
    }

    /// A message of these words is sent, for which there is room. Takes no memory.
    pub fn send(&mut self, name: &ChanName, words: Seq<Seq<i64>>)
        requires { HasRoomIn self.old.by_name name.now }
        ensures { linked_chans_of self.new ≡ adjust (linked_chans_of self.old) name.now (pushed (map Words words)) }
    {
        match self.by_name.get_mut(name) {
            Some(channel) => channel.send(words),
            None => {}
        }
    }

    /// Takes the oldest load that has arrived at a channel and wasn't taken. Takes no memory.
    pub fn take(&mut self, name: &ChanName)
        ensures { linked_chans_of self.new ≡ adjust (linked_chans_of self.old) name.now with_first_taken }
    {
        match self.by_name.get_mut(name) {
            Some(channel) => channel.take(),
            None => {}
        }
    }

    /// The writer is closed: the end goes last. Takes no memory.
    pub fn close(&mut self, name: &ChanName)
        requires { (l : LinkedChan) → finite.get (linked_chans_of self.old) name.now ≡ Some l → l.is_open ≡ true }
        ensures { linked_chans_of self.new ≡ adjust (linked_chans_of self.old) name.now closed }
    {
        match self.by_name.get_mut(name) {
            Some(channel) => channel.close(),
            None => {}
        }
    }

    /// The inport is gone. Takes no memory.
    pub fn leave(&mut self, name: &ChanName)
        ensures { linked_chans_of self.new ≡ adjust (linked_chans_of self.old) name.now gone }
    {
        match self.by_name.get_mut(name) {
            Some(channel) => channel.leave(),
            None => {}
        }
    }

    /// A packet comes. Want of memory changes nothing.
    pub fn arrive(&mut self, name: &ChanName, packet: Packet) -> Result<(), NoMemory>
        requires { packet.number < 2 ^ 63 }
        ensures ok { OnOk result
            (linked_chans_of self.new ≡ adjust (linked_chans_of self.old) name.now (packet_comes packet)) }
        ensures err { OnErr result (linked_chans_of self.new ≡ linked_chans_of self.old) }
    {
        match self.by_name.get_mut(name) {
            Some(channel) => channel.arrive(packet),
            None => Ok(()),
        }
    }

    /// An acknowledgement comes. Takes no memory.
    pub fn acked(&mut self, name: &ChanName, ack: Ack)
        ensures { linked_chans_of self.new ≡ adjust (linked_chans_of self.old) name.now (ack_comes ack.next) }
    {
        match self.by_name.get_mut(name) {
            Some(channel) => channel.acked(ack),
            None => {}
        }
    }
}
