//! The channels of a run.

ghost use Rattle.std.specs.Prelude.{◌≡◌, ◌≤◌, ◌+◌, true, false, None, Some, [], ◌∷◌, ◌++◌, IfOk, OnOk, OnErr, IfErr, IfNone, IsOk, option_to_list, vec_len, vec_capacity};
ghost use Rattle.std.specs.Option.{option_copied};
ghost use Rattle.fm_base.specs.declared.port.PortValue.TheVariants.{Writer, Reader};
ghost use Rattle.fm_chan.specs.Events.{outports};
ghost use Rattle.fm_chan.specs.Readers.{HasRoomToWake, count_of};

use crate::body::{Body, Put};
use crate::by_name::{Bodies, note, put, put_back, receive, reserve, shut};
use crate::discarding::Discarding;
use crate::limits::Limits;
use crate::message::{Got, Message};
use crate::port::Port;
use fm_base::{ChanName, NoMemory, PortValue};
use fm_finmap::Map;
use std::alloc::Global;

/// The channels, by their names. Contracts see a finite map of them (`chans_of`), and beside it which
/// channels have room for one more message (`HasRoom`), which process waits at a channel
/// (`waiting_reader`), and which were woken (`woken_of`).
///
/// Each call finds its channel in logarithmic time, whatever waits in it. A port whose channel isn't
/// here is passed over: a send loses its message, a receive waits, a discard changes nothing.
///
/// A process that waits for a message may note its number at its inport's channel (`wait`). The call
/// that makes a receive ready there, be it a send or whatever closes the last writer, wakes it: its
/// number is to be taken out then (`next_woken`). Room for it was made before, so that takes no memory.
pub struct Channels {
    alloc: Global,
    bodies: Bodies,
    woken: Vec<u32>,
    ghost room: { HasRoomToWake bodies woken },
}

impl Drop for Channels {
    fn drop(self) {
        let Channels {
            alloc: _alloc,
            bodies: _bodies,
            woken: _woken,
        } = self;
    }
}

fn outports(alloc: Global, name: &ChanName, writers: u32) -> Result<Vec<Port>, NoMemory>
    ensures { IfOk result (λ v. v.items ≡ outports name.now writers) }
{
    let mut ports = Vec::new(alloc);
    let mut next = 0;
    'writers: while next < writers {
        ports.push(Port::new(PortValue::Writer(name.copy(alloc)?, next)))?;
        next += 1;
    }
    Ok(ports)
}

// Adds a reader to those that were woken.
fn wake(woken: &mut Vec<u32>, reader: Option<u32>)
    requires { vec_len woken.old + count_of reader ≤ vec_capacity woken.old }
    ensures items { woken.new.items ≡ woken.old.items ++ option_to_list reader }
    ensures len { vec_len woken.new ≡ vec_len woken.old + count_of reader }
    ensures capacity { vec_capacity woken.old ≤ vec_capacity woken.new }
{
    match reader {
        Some(number) => match woken.push(number) {
            Ok(()) => {}
            Err(_) => unreachable!(),
        },
        None => {}
    }
}

impl Channels {
    ghost use Rattle.std.specs.Prelude.{◌≢◌, ℕ};
    ghost use Rattle.std.specs.FinMap as map;
    ghost use Rattle.fm_base.specs.declared.path.ChanName as declared;
    ghost use Rattle.fm_base.specs.Channels.{fresh, channel_of, Push, Pop, freed, shut, message_ports, all_shed};
    ghost use Rattle.fm_chan.specs.Bodies.{chans_of};
    ghost use Rattle.fm_chan.specs.Rooms.{HasRoom, KeepsRoom, KeepsOthersRoom};
    ghost use Rattle.fm_chan.specs.Events.{is_outport, writer_number, chan_at, open_writers_at, after_op, after_send, after_send_to, put_first};
    ghost use Rattle.fm_finmap.specs.Changes.{adjust};
    ghost use Rattle.fm_chan.specs.Received.{got_at, brings, first_at, pops_at, waits_at};
    ghost use Rattle.fm_chan.specs.Rest.{left_ports};
    ghost use Rattle.fm_chan.specs.Woken.{waiting_reader, woken_of, Wakes, WakesAtEnd, WakesAll};

    /// No channels. Takes no memory.
    pub fn new(alloc: Global) -> Channels
        ensures channels { chans_of result ≡ map.empty }
        ensures woken { woken_of result ≡ [] }
    {
        Channels {
            alloc,
            bodies: Map::new(alloc),
            woken: Vec::new(alloc),
        }
    }

    /// Whether there is a channel of this name.
    pub fn contains(&self, name: &ChanName) -> bool
        ensures { result ≡ map.contains_key (chans_of self.now) name.now }
    {
        self.bodies.contains_key(name)
    }

    /// Whether a receive at the port's channel has its step: a message is there, or none comes any
    /// more. Where the channel isn't there, it has none.
    pub fn is_ready(&self, port: &Port) -> bool
        ensures { result ≡ pops_at (chan_at port.now (chans_of self.now)) }
    {
        match self.bodies.get(port.channel()) {
            Some(body) => body.is_ready(),
            None => false,
        }
    }

    /// Whether a receive at the port's channel would wait.
    pub fn probe(&self, port: &Port) -> bool
        ensures { result ≡ waits_at (chan_at port.now (chans_of self.now)) }
    {
        match self.bodies.get(port.channel()) {
            Some(body) => !body.is_ready(),
            None => true,
        }
    }

    /// How many writers of the port's channel are open; none where it isn't here. Takes no memory.
    pub fn open_writers(&self, port: &Port) -> usize
        ensures { result ≡ open_writers_at (chan_at port.now (chans_of self.now)) }
    {
        match self.bodies.get(port.channel()) {
            Some(body) => body.open_writers(),
            None => 0,
        }
    }

    /// What stands first in the port's channel: its oldest message, which stays there. None where no message is there,
    /// or no such channel. Takes no memory.
    pub fn first(&self, port: &Port) -> Option<&Message>
        ensures { option_copied result ≡ first_at (chan_at port.now (chans_of self.now)) }
    {
        match self.bodies.get(port.channel()) {
            Some(body) => body.first(),
            None => None,
        }
    }

    fn add(&mut self, alloc: Global, name: ChanName, writers: u32) -> Result<(), NoMemory>
        requires { map.get (chans_of self.old) name ≡ None }
        ensures ok { OnOk result (chans_of self.new ≡ map.insert (chans_of self.old) name (fresh writers)) }
        ensures err { OnErr result (self.new ≡ self.old) }
        ensures room { KeepsOthersRoom name self.old self.new }
        ensures waking { Wakes self.old self.new }
    {
        let body = Body::new(alloc, writers)?;
        self.bodies.insert(name, body)?;
        Ok(())
    }

    /// A new channel of this name: its inport, and its outport, which is writer 0. After want of
    /// memory nothing has changed.
    pub fn make(&mut self, alloc: Global, name: ChanName) -> Result<(Port, Port), NoMemory>
        requires { map.get (chans_of self.old) name ≡ None }
        ensures ok { OnOk result (chans_of self.new ≡ map.insert (chans_of self.old) name (fresh 1)) }
        ensures inport { IfOk result (λ ends. ends.0 ≡ Reader name) }
        ensures outport { IfOk result (λ ends. ends.1 ≡ Writer name 0) }
        ensures err { OnErr result (self.new ≡ self.old) }
        ensures room { KeepsOthersRoom name self.old self.new }
        ensures waking { Wakes self.old self.new }
    {
        let inport = Port::new(PortValue::Reader(name.copy(alloc)?));
        let outport = Port::new(PortValue::Writer(name.copy(alloc)?, 0));
        self.add(alloc, name, 1)?;
        Ok((inport, outport))
    }

    /// A new channel of this name with so many writers, at least 1: its inport, and its outports, which
    /// are the writers from 0. After want of memory nothing has changed.
    pub fn merge(
        &mut self,
        alloc: Global,
        name: ChanName,
        writers: u32,
    ) -> Result<(Port, Vec<Port>), NoMemory>
        requires absent { map.get (chans_of self.old) name ≡ None }
        requires some { 1 ≤ writers }
        ensures ok { OnOk result (chans_of self.new ≡ map.insert (chans_of self.old) name (fresh writers)) }
        ensures inport { IfOk result (λ ends. ends.0 ≡ Reader name) }
        ensures outports { IfOk result (λ ends. ends.1.items ≡ outports name writers) }
        ensures err { OnErr result (self.new ≡ self.old) }
        ensures room { KeepsOthersRoom name self.old self.new }
        ensures waking { Wakes self.old self.new }
    {
        let inport = Port::new(PortValue::Reader(name.copy(alloc)?));
        let outports = outports(alloc, &name, writers)?;
        self.add(alloc, name, writers)?;
        Ok((inport, outports))
    }

    /// Makes room for one more message of the port's channel: a send there can't fail then, as long as
    /// nothing else is sent there before.
    pub fn reserve(&mut self, port: &Port) -> Result<(), NoMemory>
        requires { is_outport port.now ≡ true }
        ensures channels { chans_of self.new ≡ chans_of self.old }
        ensures ok { OnOk result (HasRoom self.new (channel_of port.now)) }
        ensures room { KeepsRoom self.old self.new }
        ensures waking { Wakes self.old self.new }
    {
        reserve(&mut self.bodies, port.channel())
    }

    /// Puts a message last. Where the inport is gone, the message is discarded with the ports in it.
    /// After want of memory, which comes only where the channel has no room for one more message, the
    /// message comes back, and nothing has changed.
    #[inline(always)]
    pub fn send(&mut self, port: &Port, message: Message) -> Result<(), (Message, NoMemory)>
        requires { is_outport port.now ≡ true }
        ensures ok { OnOk result (chans_of self.new ≡ after_send port.now message (chans_of self.old)) }
        ensures back { IfErr result (λ e. e.0 ≡ message) }
        ensures err { OnErr result (chans_of self.new ≡ chans_of self.old) }
        ensures reserved { HasRoom self.old (channel_of port.now) → IsOk result }
        ensures room { KeepsOthersRoom (channel_of port.now) self.old self.new }
        ensures waking { Wakes self.old self.new }
    {
        self.send_to(port.channel(), message)
    }

    /// Puts a message last in the channel of this name. It is for who owns an outport of the channel and
    /// can't show it, since it goes away with the message. The rest is as in `send`.
    pub fn send_to(&mut self, name: &ChanName, message: Message) -> Result<(), (Message, NoMemory)>
        ensures ok { OnOk result (chans_of self.new ≡ after_send_to name.now message (chans_of self.old)) }
        ensures back { IfErr result (λ e. e.0 ≡ message) }
        ensures err { OnErr result (chans_of self.new ≡ chans_of self.old) }
        ensures reserved { HasRoom self.old name.now → IsOk result }
        ensures room { KeepsOthersRoom name.now self.old self.new }
        ensures waking { Wakes self.old self.new }
    {
        match put(&mut self.bodies, name, message)? {
            Put::Done(reader) => {
                wake(&mut self.woken, reader);
                Ok(())
            }
            Put::Spilt(spilt) => {
                self.discard_all(Discarding::of_message(self.alloc, spilt));
                Ok(())
            }
        }
    }

    /// As `send_to`, for who doesn't want the message back: after want of memory it is gone.
    pub fn send_or_lose(&mut self, name: &ChanName, message: Message) -> Result<(), NoMemory>
        ensures ok { OnOk result (chans_of self.new ≡ after_send_to name.now message (chans_of self.old)) }
        ensures err { OnErr result (chans_of self.new ≡ chans_of self.old) }
        ensures waking { Wakes self.old self.new }
    {
        match self.send_to(name, message) {
            Ok(()) => Ok(()),
            Err(_) => Err(NoMemory),
        }
    }

    /// The oldest message, which leaves the queue, where no item of it has more elements than its
    /// limit; or that it exceeds the limits, a wait, or the end, which change nothing.
    #[inline(always)]
    pub fn receive<L: Limits>(&mut self, port: &Port, limits: &L) -> Got
        requires { is_outport port.now ≡ false }
        ensures got { result ≡ got_at (L.most limits.now) (chan_at port.now (chans_of self.old)) }
        ensures channels { chans_of self.new ≡ after_op port.now (Pop (L.most limits.now)) (chans_of self.old) }
        ensures unchanged { brings result ≡ false → chans_of self.new ≡ chans_of self.old }
        ensures room { KeepsRoom self.old self.new }
        ensures taken { brings result ≡ true → HasRoom self.new (channel_of port.now) }
        ensures waking { Wakes self.old self.new }
    {
        receive(&mut self.bodies, port.channel(), limits)
    }

    /// Puts a message first, where there is room for it: one that was just received goes back to where it was. Takes no
    /// memory, and wakes nobody.
    pub fn put_back(&mut self, port: &Port, message: Message)
        requires { HasRoom self.old (channel_of port.now) }
        ensures { chans_of self.new ≡ adjust (chans_of self.old) (channel_of port.now) (put_first message) }
    {
        put_back(&mut self.bodies, port.channel(), message)
    }

    /// Notes that the process of this number waits for a message of the channel of this name, in place
    /// of one that was noted there before, which is woken. After want of memory nothing is noted.
    pub fn wait(&mut self, name: &ChanName, number: u32) -> Result<(), NoMemory>
        requires there { map.contains_key (chans_of self.old) name.now ≡ true }
        requires waits { pops_at (map.get (chans_of self.old) name.now) ≡ false }
        ensures channels { chans_of self.new ≡ chans_of self.old }
        ensures ok { OnOk result (waiting_reader self.new name.now ≡ Some number) }
        ensures err { OnErr result ((c : declared.ChanName) → waiting_reader self.new c ≡ waiting_reader self.old c) }
        ensures others { (c : declared.ChanName) → c ≢ name.now
            → waiting_reader self.new c ≡ waiting_reader self.old c }
        ensures room { KeepsRoom self.old self.new }
        ensures waking { WakesAll self.old self.new }
    {
        self.woken.reserve(self.bodies.len() + 1)?;
        let before = note(&mut self.bodies, name, number);
        wake(&mut self.woken, before);
        Ok(())
    }

    /// Takes out the number of a process that was woken, or none where there is none.
    pub fn next_woken(&mut self) -> Option<u32>
        ensures woken { woken_of self.old ≡ woken_of self.new ++ option_to_list result }
        ensures none { IfNone result (woken_of self.old ≡ []) }
        ensures channels { chans_of self.new ≡ chans_of self.old }
        ensures readers { (c : declared.ChanName) → waiting_reader self.new c ≡ waiting_reader self.old c }
        ensures room { KeepsRoom self.old self.new }
    {
        self.woken.pop()
    }

    fn shut(&mut self, port: Port, discarding: &mut Discarding)
        ensures channels { chans_of self.new ≡ shut port (chans_of self.old) }
        ensures ports { left_ports discarding.new
            ≡ freed port (chan_at port (chans_of self.old)) ++ left_ports discarding.old }
        ensures room { KeepsRoom self.old self.new }
        ensures waking { WakesAtEnd self.old self.new }
    {
        let reader = shut(&mut self.bodies, port, discarding);
        wake(&mut self.woken, reader);
    }

    fn discard_all(&mut self, mut discarding: Discarding)
        ensures channels { chans_of self.new ≡ all_shed (left_ports discarding) (chans_of self.old) }
        ensures room { KeepsRoom self.old self.new }
        ensures waking { WakesAtEnd self.old self.new }
    {
        'ports: while let Some(port) = discarding.next() {
            self.shut(port, &mut discarding);
        }
    }

    /// Closes the writer of an outport. What waits in the channel stays. Takes no memory.
    pub fn close(&mut self, port: Port)
        requires { is_outport port ≡ true }
        ensures channels { chans_of self.new ≡ shut port (chans_of self.old) }
        ensures room { KeepsRoom self.old self.new }
        ensures waking { Wakes self.old self.new }
    {
        let mut nothing = Discarding::new(self.alloc);
        self.shut(port, &mut nothing);
    }

    /// Closes the writer of an outport, or forgets an inport with all that waits there; ports in the
    /// messages are discarded too. Takes no memory.
    pub fn discard(&mut self, port: Port)
        ensures channels { chans_of self.new ≡ all_shed (port ∷ []) (chans_of self.old) }
        ensures room { KeepsRoom self.old self.new }
        ensures waking { Wakes self.old self.new }
    {
        let mut discarding = Discarding::new(self.alloc);
        self.shut(port, &mut discarding);
        self.discard_all(discarding);
    }

    /// The name of the port's channel.
    pub fn name<'a>(&self, port: &'a Port) -> &'a ChanName
        ensures { result.now ≡ channel_of port.now }
    {
        port.channel()
    }

    /// The number of the writer that an outport is, or none of an inport.
    pub fn writer(&self, port: &Port) -> Option<u32>
        ensures { result ≡ writer_number port.now }
    {
        port.writer()
    }
}
