//! The channels, and what is on the wire.

ghost use Rattle.std.specs.Prelude.{◌≡◌, Bool, true, false, Some, None, option_map, IfOk, OnOk, OnErr};
ghost use Rattle.fm_base.specs.declared.path.ChanName as declared;

use crate::channels::Channels;
use fm_base::{ChanName, NoMemory};
use fm_link::{Ack, Packet};
use std::alloc::Global;

/// What travels on the wire.
#[derive(Drop)]
pub enum Thing {
    /// A packet, to the reader's end.
    SentPacket(Packet),
    /// An acknowledgement, to the writer's end.
    SentAck(Ack),
}

/// A thing on the wire, and its channel.
#[derive(Drop)]
pub struct Carried {
    /// The channel.
    pub channel: ChanName,
    /// The thing.
    pub thing: Thing,
}

/// What stays on the wire where hosts start again.
pub trait Outlasts {
    /// Whether what travels over this channel stays.
    ghost outlasts: { Self → declared.ChanName → Bool };

    /// Whether what travels over this channel stays: none of its ends is on such a host.
    fn outlasts(&self, channel: &ChanName) -> bool
        ensures { result ≡ outlasts self.now channel.now };
}

/// The channels, and what is on the wire.
#[derive(Drop)]
pub struct Network {
    /// The channels.
    pub channels: Channels,
    /// What is on the wire. What is put there stands last.
    pub wire: Vec<Carried>,
}

impl Network {
    ghost use Rattle.fm_link_law.specs.Hosts.{answered, delivered, lost, packet_at, restarted, sent, with_thing};
    ghost use Rattle.fm_nodes_network.specs.Channels.{linked_chans_of};
    ghost use Rattle.fm_nodes_network.specs.Network.{carried_of, hosts_of};
    ghost use Rattle.std.specs.FinMap.{get};

    // The packet that would be sent.
    fn packet(
        &self,
        alloc: Global,
        name: &ChanName,
        place: usize,
    ) -> Result<Option<Packet>, NoMemory>
        ensures { IfOk result (λ packet. packet ≡ packet_at (get (linked_chans_of self.now.channels) name.now) place) }
    {
        match self.channels.get(name) {
            Some(channel) => channel.packet(alloc, place),
            None => Ok(None),
        }
    }

    // Something is put on the wire. Want of memory changes nothing.
    fn put(&mut self, carried: Carried) -> Result<(), NoMemory>
        ensures ok { OnOk result (hosts_of self.new ≡ with_thing (hosts_of self.old) (carried_of carried)) }
        ensures err { OnErr result (hosts_of self.new ≡ hosts_of self.old) }
    {
        self.wire.push(carried)?;
        Ok(())
    }

    /// The packet at a place among those of the channel that aren't acknowledged goes on the wire.
    pub fn send(&mut self, alloc: Global, name: &ChanName, place: usize) -> Result<bool, NoMemory>
        ensures sends { IfOk result (λ done. done ≡ true →
            sent (hosts_of self.old) name.now place ≡ Some (hosts_of self.new)) }
        ensures none { IfOk result (λ done. done ≡ false →
            (sent (hosts_of self.old) name.now place ≡ None) × (hosts_of self.new ≡ hosts_of self.old)) }
        ensures err { OnErr result (hosts_of self.new ≡ hosts_of self.old) }
    {
        match self.packet(alloc, name, place)? {
            Some(packet) => {
                let channel = name.copy(alloc)?;
                self.put(Carried {
                    channel,
                    thing: Thing::SentPacket(packet),
                })?;
                Ok(true)
            }
            None => Ok(false),
        }
    }

    // The acknowledgement of the reader's end.
    fn ack(&self, name: &ChanName) -> Option<Ack>
        ensures { option_map (λ a. a.next) result ≡
            option_map (λ l. l.incoming.arrived) (get (linked_chans_of self.now.channels) name.now) }
    {
        match self.channels.get(name) {
            Some(channel) => Some(channel.ack()),
            None => None,
        }
    }

    /// The reader's end answers: its acknowledgement goes on the wire.
    pub fn answer(&mut self, alloc: Global, name: &ChanName) -> Result<bool, NoMemory>
        ensures answers { IfOk result (λ done. done ≡ true →
            answered (hosts_of self.old) name.now ≡ Some (hosts_of self.new)) }
        ensures none { IfOk result (λ done. done ≡ false →
            (answered (hosts_of self.old) name.now ≡ None) × (hosts_of self.new ≡ hosts_of self.old)) }
        ensures err { OnErr result (hosts_of self.new ≡ hosts_of self.old) }
    {
        match self.ack(name) {
            Some(ack) => {
                let channel = name.copy(alloc)?;
                self.put(Carried {
                    channel,
                    thing: Thing::SentAck(ack),
                })?;
                Ok(true)
            }
            None => Ok(false),
        }
    }

    /// The thing at a place of the wire comes to its end, and stays on the wire.
    pub fn deliver(&mut self, alloc: Global, place: usize) -> Result<bool, NoMemory>
        ensures delivers { IfOk result (λ done. done ≡ true →
            delivered (hosts_of self.old) place ≡ Some (hosts_of self.new)) }
        ensures none { IfOk result (λ done. done ≡ false →
            (delivered (hosts_of self.old) place ≡ None) × (hosts_of self.new ≡ hosts_of self.old)) }
        ensures err { OnErr result (hosts_of self.new ≡ hosts_of self.old) }
    {
        match self.wire.get(place) {
            Some(carried) => {
                match &carried.thing {
                    Thing::SentPacket(packet) => {
                        // No packet of such a number was ever sent.
                        if packet.number >= 9_223_372_036_854_775_808 {
                            return Err(NoMemory);
                        }
                        let packet = packet.copy(alloc)?;
                        self.channels.arrive(&carried.channel, packet)?;
                    }
                    Thing::SentAck(ack) => self.channels.acked(&carried.channel, *ack),
                }
                Ok(true)
            }
            None => Ok(false),
        }
    }

    /// The thing at a place of the wire is lost.
    pub fn lose(&mut self, place: usize) -> bool
        ensures loses { result ≡ true → lost (hosts_of self.old) place ≡ Some (hosts_of self.new) }
        ensures none { result ≡ false →
            (lost (hosts_of self.old) place ≡ None) × (hosts_of self.new ≡ hosts_of self.old) }
    {
        let things = self.wire.as_slice();
        if place >= things.len() {
            return false;
        }
        self.wire.remove(place);
        true
    }

    /// Hosts start again: of what is on the wire only that stays whose channel outlasts it, and no end of a link
    /// changes. Takes no memory.
    pub fn restart<O: Outlasts>(&mut self, hosts: &O)
        ensures { hosts_of self.new ≡ restarted (λ e. O.outlasts hosts.now e.0) (hosts_of self.old) }
    {
        self.wire.retain(|carried| hosts.outlasts(&carried.channel));
    }
}
