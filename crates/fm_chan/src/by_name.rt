//! What a call does to the channel of one name.

ghost use Rattle.std.specs.Prelude.{◌≡◌, ◌≢◌, ◌+◌, true, false, None, Some, ◌++◌, IfOk, OnOk, OnErr, IfErr, IsOk};
ghost use Rattle.std.specs.FinMap as map;
ghost use Rattle.fm_base.specs.declared.path.ChanName as declared;
ghost use Rattle.fm_base.specs.Channels.{Push, Pop, changed, freed, shut, spills_at};
ghost use Rattle.fm_finmap.specs.Changes.{adjust};
ghost use Rattle.fm_chan.specs.Kept.{chans_in};
ghost use Rattle.fm_chan.specs.Readers.{IsReadyAt, IsClosedAt, WakesOne, count_of, noted_in, reader_at, woken_by};
ghost use Rattle.fm_chan.specs.Rooms.{HasRoomIn, KeepsRoomIn, KeepsOthersRoomIn};
ghost use Rattle.fm_chan.specs.Events.{chan_at, ports_back, put_first};
ghost use Rattle.fm_chan.specs.Received.{got_at, brings, pops_at};
ghost use Rattle.fm_chan.specs.Rest.{left_ports};

use crate::body::{Body, Put};
use crate::discarding::Discarding;
use crate::limits::Limits;
use crate::message::{Got, Message};
use crate::port::Port;
use fm_base::{ChanName, NoMemory};
use fm_finmap::Map;

/// What stands behind the channels' names.
pub type Bodies = Map<ChanName, Body>;

/// Makes room for one more message.
pub fn reserve(bodies: &mut Bodies, name: &ChanName) -> Result<(), NoMemory>
    ensures channels { chans_in bodies.new ≡ chans_in bodies.old }
    ensures readers { WakesOne IsReadyAt bodies.old bodies.new None }
    ensures noted { noted_in bodies.new ≡ noted_in bodies.old }
    ensures ok { OnOk result (HasRoomIn bodies.new name.now) }
    ensures room { KeepsRoomIn bodies.old bodies.new }
{
    match bodies.get_mut(name) {
        Some(body) => body.reserve(),
        None => Ok(()),
    }
}

/// Puts a message last. Where the inport is gone, it comes back.
#[inline(always)]
pub fn put(
    bodies: &mut Bodies,
    name: &ChanName,
    message: Message,
) -> Result<Put, (Message, NoMemory)>
    ensures ok { OnOk result (chans_in bodies.new ≡ adjust (chans_in bodies.old) name.now (changed (Push 0 message))) }
    ensures spilt { IfOk result
        (λ put. ports_back put ≡ spills_at (Push 0 message) (map.get (chans_in bodies.old) name.now)) }
    ensures readers { WakesOne IsReadyAt bodies.old bodies.new (woken_by result) }
    ensures noted { noted_in bodies.new + count_of (woken_by result) ≡ noted_in bodies.old }
    ensures back { IfErr result (λ e. e.0 ≡ message) }
    ensures err { OnErr result (chans_in bodies.new ≡ chans_in bodies.old) }
    ensures reserved { HasRoomIn bodies.old name.now → IsOk result }
    ensures room { KeepsOthersRoomIn name.now bodies.old bodies.new }
{
    match bodies.get_mut(name) {
        Some(body) => body.put_last(message),
        None => Ok(Put::Done(None)),
    }
}

/// The oldest message, which leaves the queue if it is within the limits; or what stands against it.
#[inline(always)]
pub fn receive<L: Limits>(bodies: &mut Bodies, name: &ChanName, limits: &L) -> Got
    ensures got { result ≡ got_at (L.most limits.now) (map.get (chans_in bodies.old) name.now) }
    ensures channels { chans_in bodies.new ≡ adjust (chans_in bodies.old) name.now (changed (Pop (L.most limits.now))) }
    ensures unchanged { brings result ≡ false → chans_in bodies.new ≡ chans_in bodies.old }
    ensures readers { WakesOne IsReadyAt bodies.old bodies.new None }
    ensures noted { noted_in bodies.new ≡ noted_in bodies.old }
    ensures room { KeepsRoomIn bodies.old bodies.new }
    ensures taken { brings result ≡ true → HasRoomIn bodies.new name.now }
{
    match bodies.get_mut(name) {
        Some(body) => body.receive(limits),
        None => Got::Wait,
    }
}

/// Puts a message first, where there is room for it.
pub fn put_back(bodies: &mut Bodies, name: &ChanName, message: Message)
    requires { HasRoomIn bodies.old name.now }
    ensures channels { chans_in bodies.new ≡ adjust (chans_in bodies.old) name.now (put_first message) }
    ensures noted { noted_in bodies.new ≡ noted_in bodies.old }
{
    match bodies.get_mut(name) {
        Some(body) => body.put_back(message),
        None => {}
    }
}

/// Closes the writer of an outport, or takes what waits at an inport to what is to be discarded.
/// Answers the reader that waited for the last writer to close.
pub fn shut(bodies: &mut Bodies, port: Port, discarding: &mut Discarding) -> Option<u32>
    ensures channels { chans_in bodies.new ≡ shut port (chans_in bodies.old) }
    ensures ports { left_ports discarding.new
        ≡ freed port (chan_at port (chans_in bodies.old)) ++ left_ports discarding.old }
    ensures readers { WakesOne IsClosedAt bodies.old bodies.new result }
    ensures noted { noted_in bodies.new + count_of result ≡ noted_in bodies.old }
    ensures room { KeepsRoomIn bodies.old bodies.new }
{
    match bodies.get_mut(port.channel()) {
        Some(body) => body.shut(&port, discarding),
        None => None,
    }
}

/// Notes that a process waits at the channel, and answers the number of the one that was noted before.
pub fn note(bodies: &mut Bodies, name: &ChanName, number: u32) -> Option<u32>
    requires there { map.contains_key (chans_in bodies.old) name.now ≡ true }
    requires waits { pops_at (map.get (chans_in bodies.old) name.now) ≡ false }
    ensures channels { chans_in bodies.new ≡ chans_in bodies.old }
    ensures here { reader_at bodies.new name.now ≡ Some number }
    ensures before { result ≡ reader_at bodies.old name.now }
    ensures others { (c : declared.ChanName) → c ≢ name.now → reader_at bodies.new c ≡ reader_at bodies.old c }
    ensures noted { noted_in bodies.new + count_of result ≡ noted_in bodies.old + 1 }
    ensures room { KeepsRoomIn bodies.old bodies.new }
{
    match bodies.get_mut(name) {
        Some(body) => body.note(number),
        None => unreachable!(),
    }
}
