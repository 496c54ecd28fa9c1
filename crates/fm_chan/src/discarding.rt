//! What is still to be discarded, level by level. It takes no memory: each living inport has kept
//! room for the level that its discarding opens.

ghost use Rattle.std.specs.Prelude.{◌≡◌, [], ◌∷◌, ◌++◌};
ghost use Rattle.fm_base.specs.Channels.{item_ports, message_ports, queue_ports};
ghost use Rattle.fm_chan.specs.Items.{plain_item};
ghost use Rattle.fm_chan.specs.Rest.{ports_in, items_ports, rest_ports, chain_ports, left_ports, Yields, Leaves};

use crate::message::{Content, Item, Message};
use crate::port::Port;
use std::alloc::Global;
use std::collections::VecDeque;
use std::mem;

/// One level: the ports of the item at hand, the items of the message at hand, the messages behind it.
pub struct Rest {
    ports: VecDeque<Option<Port>>,
    items: VecDeque<Item>,
    queue: VecDeque<Message>,
}

impl Drop for Rest {
    fn drop(self) {
        let Rest {
            ports: _ports,
            items: _items,
            queue: _queue,
        } = self;
    }
}

/// The levels that were left for a deeper one, the deepest first.
#[derive(Drop)]
pub enum Chain {
    /// No level was left.
    End,
    /// The level that was left last, and those before it.
    More(Rest, Box<Chain>),
}

/// The level at hand, and those that were left for it.
#[derive(Drop)]
pub struct Discarding {
    alloc: Global,
    rest: Rest,
    chain: Chain,
}

fn next_of_ports(ports: &mut VecDeque<Option<Port>>) -> Option<Port>
    ensures { Yields (ports_in ports.old.items) result (ports_in ports.new.items) }
{
    'ports: while let Some(place) = ports.pop_front() {
        if let Some(port) = place {
            return Some(port);
        }
    }
    None
}

fn unpack_item(item: Item, ports: &mut VecDeque<Option<Port>>)
    requires { ports_in ports.old.items ≡ [] }
    ensures { ports_in ports.new.items ≡ item_ports (plain_item item) }
{
    match item {
        Item::Words(_) => {}
        Item::Ports(places) => *ports = VecDeque::from_vec(places.into_vec()),
    }
}

fn next_of_items(ports: &mut VecDeque<Option<Port>>, items: &mut VecDeque<Item>) -> Option<Port>
    ensures { Yields (ports_in ports.old.items ++ items_ports items.old.items) result
        (ports_in ports.new.items ++ items_ports items.new.items) }
{
    'items: loop {
        let port = next_of_ports(ports);
        if port.is_some() {
            return port;
        }
        match items.pop_front() {
            Some(item) => unpack_item(item, ports),
            None => return None,
        }
    }
}

fn unpack_message(alloc: Global, message: Message) -> VecDeque<Item>
    ensures { items_ports result.items ≡ message_ports message }
{
    match message.content {
        Content::Word(_) => VecDeque::new(alloc),
        Content::Items(items) => VecDeque::from_vec(items.into_vec()),
    }
}

fn next_of_rest(alloc: Global, rest: &mut Rest) -> Option<Port>
    ensures { Yields (rest_ports rest.old) result (rest_ports rest.new) }
{
    'messages: loop {
        let port = next_of_items(&mut rest.ports, &mut rest.items);
        if port.is_some() {
            return port;
        }
        match rest.queue.pop_front() {
            Some(message) => rest.items = unpack_message(alloc, message),
            None => return None,
        }
    }
}

impl Discarding {
    /// Nothing to discard. Takes no memory.
    pub fn new(alloc: Global) -> Discarding
        ensures { left_ports result ≡ [] }
    {
        Discarding {
            alloc,
            rest: Rest {
                ports: VecDeque::new(alloc),
                items: VecDeque::new(alloc),
                queue: VecDeque::new(alloc),
            },
            chain: Chain::End,
        }
    }

    /// The ports of a message. Takes no memory.
    pub fn of_message(alloc: Global, message: Message) -> Discarding
        ensures { left_ports result ≡ message_ports message }
    {
        Discarding {
            alloc,
            rest: Rest {
                ports: VecDeque::new(alloc),
                items: unpack_message(alloc, message),
                queue: VecDeque::new(alloc),
            },
            chain: Chain::End,
        }
    }

    /// The messages of an inport that goes, before all else. Its room keeps the level that is left.
    pub fn enter(&mut self, queue: VecDeque<Message>, mut room: Box<Chain>)
        ensures { left_ports self.new ≡ queue_ports queue.items ++ left_ports self.old }
    {
        let below = Rest {
            ports: VecDeque::new(self.alloc),
            items: VecDeque::new(self.alloc),
            queue,
        };
        let rest = mem::replace(&mut self.rest, below);
        *room = mem::replace(&mut self.chain, Chain::End);
        self.chain = Chain::More(rest, room);
    }

    fn leave(&mut self) -> bool
        ensures { Leaves self.old result self.new }
    {
        match mem::replace(&mut self.chain, Chain::End) {
            Chain::End => false,
            Chain::More(rest, above) => {
                self.rest = rest;
                self.chain = Box::into_inner(above);
                true
            }
        }
    }

    /// The next port to discard, or none where all are.
    pub fn next(&mut self) -> Option<Port>
        ensures { Yields (left_ports self.old) result (left_ports self.new) }
    {
        'levels: loop {
            let port = next_of_rest(self.alloc, &mut self.rest);
            if port.is_some() {
                return port;
            }
            if !self.leave() {
                return None;
            }
        }
    }
}
