//! What stands behind a channel's name.

ghost use Rattle.std.specs.Prelude.{◌≡◌, ◌+◌, [], ◌++◌, Some, None, true, false, length, IfOk, IfSome, OnOk, OnErr, IfErr, IsOk};
ghost use Rattle.std.specs.Option.{option_copied};
ghost use Rattle.fm_base.specs.Channels.{numbers_from, fresh, Push, Pop, changed, gives, exceeds, spills, can_pop, without, discarded, freed, queue_ports};
ghost use Rattle.fm_chan.specs.Kept.{chan_of};
ghost use Rattle.fm_chan.specs.Readers.{IsReadyAt, IsClosedAt, WakesHere, count_of, woken_by};
ghost use Rattle.fm_chan.specs.Rooms.{IsRoomy};
ghost use Rattle.fm_chan.specs.Events.{ports_back, put_first};
ghost use Rattle.fm_chan.specs.Received.{brings, got_from, oldest};
ghost use Rattle.fm_chan.specs.Rest.{left_ports};

use crate::discarding::{Chain, Discarding};
use crate::limits::Limits;
use crate::message::{Got, Message};
use crate::port::Port;
use fm_base::{NoMemory, PortValue};
use std::alloc::Global;
use std::collections::{BTreeSet, VecDeque};

/// A living inport: what waits there, and room for one level of discarding.
#[derive(Drop)]
pub struct Inport {
    /// The messages, oldest first.
    pub queue: VecDeque<Message>,
    /// Kept from the start, so that discarding takes no memory.
    pub room: Box<Chain>,
}

/// What stands behind a channel's name.
pub struct Body {
    /// None where the inport is gone.
    pub inport: Option<Inport>,
    /// The numbers of the open writers.
    pub writers: BTreeSet<u32>,
    /// The number of the process that waits for a message or the end of the channel.
    pub reader: Option<u32>,
}

impl Drop for Body {
    fn drop(self) {
        let Body {
            inport: _inport,
            writers: _writers,
            reader: _reader,
        } = self;
    }
}

/// What came of a message that was put last.
#[derive(Drop)]
pub enum Put {
    /// It is done with. This reader waited for it.
    Done(Option<u32>),
    /// The inport is gone, and it comes back.
    Spilt(Message),
}

fn numbers(alloc: Global, count: u32) -> Result<BTreeSet<u32>, NoMemory>
    ensures { IfOk result (λ v. v.keys ≡ numbers_from 0 count) }
{
    let mut numbers = BTreeSet::new(alloc);
    let mut next = 0;
    'numbers: while next < count {
        numbers.insert(next)?;
        next += 1;
    }
    Ok(numbers)
}

fn close_writer(writers: &mut BTreeSet<u32>, number: u32)
    ensures { writers.new.keys ≡ without number writers.old.keys }
{
    // By its contract the numbers ascend.
    let _count = writers.len();
    writers.remove(&number);
}

impl Body {
    /// A channel that was just made, with so many writers.
    pub fn new(alloc: Global, writers: u32) -> Result<Body, NoMemory>
        ensures chan { IfOk result (λ b. chan_of b ≡ fresh writers) }
        ensures reader { IfOk result (λ b. b.reader ≡ None) }
    {
        let writers = numbers(alloc, writers)?;
        let room = Box::new(alloc, Chain::End)?;
        let queue = VecDeque::new(alloc);
        Ok(Body {
            inport: Some(Inport { queue, room }),
            writers,
            reader: None,
        })
    }

    /// Notes that a process waits here, and answers the number of the one that was noted before.
    pub fn note(&mut self, number: u32) -> Option<u32>
        ensures chan { chan_of self.new ≡ chan_of self.old }
        ensures before { result ≡ self.old.reader }
        ensures reader { self.new.reader ≡ Some number }
        ensures room { IsRoomy self.old → IsRoomy self.new }
    {
        self.reader.replace(number)
    }

    /// Puts a message last, or gives it back where the inport is gone.
    #[inline(always)]
    pub fn put_last(&mut self, message: Message) -> Result<Put, (Message, NoMemory)>
        ensures ok { OnOk result (chan_of self.new ≡ changed (Push 0 message) (chan_of self.old)) }
        ensures spilt { IfOk result (λ put. ports_back put ≡ spills (Push 0 message) (chan_of self.old)) }
        ensures readers { WakesHere IsReadyAt self.old self.new (woken_by result) }
        ensures noted { count_of self.new.reader + count_of (woken_by result) ≡ count_of self.old.reader }
        ensures back { IfErr result (λ e. e.0 ≡ message) }
        ensures err { OnErr result (chan_of self.new ≡ chan_of self.old) }
        ensures reserved { IsRoomy self.old → IsOk result }
    {
        match &mut self.inport {
            None => Ok(Put::Spilt(message)),
            Some(inport) => match inport.queue.push_back(message) {
                Ok(()) => Ok(Put::Done(self.reader.take())),
                Err(full) => Err((full.value, NoMemory)),
            },
        }
    }

    /// Makes room for one more message.
    pub fn reserve(&mut self) -> Result<(), NoMemory>
        ensures chan { chan_of self.new ≡ chan_of self.old }
        ensures reader { self.new.reader ≡ self.old.reader }
        ensures ok { OnOk result (IsRoomy self.new) }
        ensures room { IsRoomy self.old → IsRoomy self.new }
    {
        match &mut self.inport {
            None => Ok(()),
            Some(inport) => {
                inport.queue.reserve(1)?;
                Ok(())
            }
        }
    }

    /// Whether a message is there, or none comes any more.
    pub fn is_ready(&self) -> bool
        ensures { result ≡ can_pop (chan_of self.now).queue (chan_of self.now).writers }
    {
        let waits = match &self.inport {
            None => false,
            Some(inport) => !inport.queue.is_empty(),
        };
        waits || self.writers.len() == 0
    }

    /// How many writers are open.
    pub fn open_writers(&self) -> usize
        ensures { result ≡ length (chan_of self.now).writers }
    {
        self.writers.len()
    }

    /// The oldest message, or none.
    pub fn first(&self) -> Option<&Message>
        ensures { option_copied result ≡ oldest (chan_of self.now).queue }
    {
        match &self.inport {
            None => None,
            Some(inport) => inport.queue.front(),
        }
    }

    fn exceeds<L: Limits>(&self, limits: &L) -> bool
        ensures { result ≡ exceeds (Pop (L.most limits.now)) (chan_of self.now) }
    {
        match self.first() {
            None => false,
            Some(message) => !limits.fits(message),
        }
    }

    fn take_first(&mut self) -> Option<Message>
        ensures first { result ≡ gives (Pop []) (chan_of self.old) }
        ensures rest { chan_of self.new ≡ changed (Pop []) (chan_of self.old) }
        ensures reader { self.new.reader ≡ self.old.reader }
        ensures room { IsRoomy self.old → IsRoomy self.new }
        ensures taken { IfSome result (λ message. IsRoomy self.new) }
    {
        match &mut self.inport {
            None => None,
            Some(inport) => inport.queue.pop_front(),
        }
    }

    /// The oldest message, which leaves the queue if it is within the limits; or what stands against it.
    #[inline(always)]
    pub fn receive<L: Limits>(&mut self, limits: &L) -> Got
        ensures got { result ≡ got_from (L.most limits.now) (chan_of self.old) }
        ensures rest { chan_of self.new ≡ changed (Pop (L.most limits.now)) (chan_of self.old) }
        ensures reader { self.new.reader ≡ self.old.reader }
        ensures room { IsRoomy self.old → IsRoomy self.new }
        ensures taken { brings result ≡ true → IsRoomy self.new }
    {
        if !self.is_ready() {
            return Got::Wait;
        }
        if self.exceeds(limits) {
            return Got::Exceeds;
        }
        match self.take_first() {
            Some(message) => Got::Message(message),
            None => Got::End,
        }
    }

    /// Puts a message first, where there is room for it.
    pub fn put_back(&mut self, message: Message)
        requires { IsRoomy self.old }
        ensures chan { chan_of self.new ≡ put_first message (chan_of self.old) }
        ensures reader { self.new.reader ≡ self.old.reader }
    {
        match &mut self.inport {
            None => {}
            Some(inport) => inport.queue.push_front_reserved(message),
        }
    }

    // Closes a writer, and answers the reader that waited for the last one to close.
    fn close(&mut self, number: u32) -> Option<u32>
        ensures body { chan_of self.new ≡ record (chan_of self.old) { writers = without number self.old.writers.keys } }
        ensures readers { WakesHere IsClosedAt self.old self.new result }
        ensures noted { count_of self.new.reader + count_of result ≡ count_of self.old.reader }
        ensures room { IsRoomy self.old → IsRoomy self.new }
    {
        close_writer(&mut self.writers, number);
        if self.writers.len() == 0 {
            return self.reader.take();
        }
        None
    }

    // Takes what waits at the inport to what is to be discarded.
    fn leave(&mut self, discarding: &mut Discarding)
        ensures body { chan_of self.new ≡ record (chan_of self.old) { queue = []; lives = false } }
        ensures ports { left_ports discarding.new ≡ queue_ports (chan_of self.old).queue ++ left_ports discarding.old }
        ensures readers { WakesHere IsClosedAt self.old self.new None }
        ensures noted { self.new.reader ≡ self.old.reader }
        ensures room { IsRoomy self.new }
    {
        if let Some(inport) = self.inport.take() {
            discarding.enter(inport.queue, inport.room);
        }
    }

    /// Closes the writer of an outport, or takes what waits at an inport to what is to be discarded.
    /// Answers the reader that waited for the last writer to close.
    pub fn shut(&mut self, port: &Port, discarding: &mut Discarding) -> Option<u32>
        ensures body { chan_of self.new ≡ discarded port.now (chan_of self.old) }
        ensures ports { left_ports discarding.new
            ≡ freed port.now (Some (chan_of self.old)) ++ left_ports discarding.old }
        ensures readers { WakesHere IsClosedAt self.old self.new result }
        ensures noted { count_of self.new.reader + count_of result ≡ count_of self.old.reader }
        ensures room { IsRoomy self.old → IsRoomy self.new }
    {
        match port.plain() {
            PortValue::Writer(_, number) => self.close(*number),
            PortValue::Reader(_) => {
                self.leave(discarding);
                None
            }
        }
    }
}
