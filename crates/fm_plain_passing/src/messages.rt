//! Messages: what a SEND takes out of a frame, and what a RECEIVE stores into one.

ghost use Rattle.std.specs.Prelude.{◌≡◌, ◌+◌, ◌≤◌, ◌++◌, None, IfOk, OnOk, OnErr, length, map, replicate, vec_items, vec_len, vec_capacity};
ghost use Rattle.fm_mean.specs.Layout.{AreLaidOut};
ghost use Rattle.fm_mean.specs.Places.{item_from, live, message_from, placed_all, stored, stored_all};
ghost use Rattle.fm_plain_frame.specs.Memory.{values_of};
ghost use Rattle.fm_base.specs.Channels.{item_ports};
ghost use Rattle.fm_plain_passing.specs.Items.{item_of, message_of};
ghost use Rattle.fm_plain_passing.specs.Rooms.{all_ports, ports_by, rooms_for, taken_by};

use crate::entering::taken_by;
use crate::item::Item;
use crate::moving::{put_from, take_into};
use crate::room::{Room, make_room, nulls, put};
use fm_base::{NoMemory, PortValue, Seq};
use fm_mean::{Actual, Span};
use fm_plain_frame::Word;
use fm_plain_frame::memory::{exchange, write};
use fm_symbols::Variable;
use std::alloc::Global;
use std::collections::VecDeque;

/// Room for the ports of each item.
fn rooms_for(alloc: Global, items: &[Actual]) -> Result<Vec<Room>, NoMemory>
    ensures { IfOk result (λ r. map vec_items r.items ≡ rooms_for items.now) }
{
    let mut rooms = Vec::new(alloc);
    'items: for item in items {
        rooms.push(nulls(alloc, taken_by(item))?)?;
    }
    Ok(rooms)
}

/// An item of a message, whose ports leave NULL.
fn take_item(variables: &[Variable], memory: &mut [Word], item: Actual, room: Room) -> Item
    requires laid_out { AreLaidOut 0 variables.now }
    requires room { room.items ≡ replicate (taken_by item) None }
    ensures memory { values_of variables.now memory.new ≡ (item_from (values_of variables.now memory.old) item).0 }
    ensures item { item_of result ≡ (item_from (values_of variables.now memory.old) item).1 }
{
    match item {
        Actual::Given(words, _) => Item::Words(words),
        Actual::Taken(span) => {
            let mut ports = room;
            ports.clear();
            take_into(&mut ports, variables, memory, span);
            Item::Ports(Seq::from_vec(ports))
        }
    }
}

fn take_each(
    variables: &[Variable],
    memory: &mut [Word],
    items: Vec<Actual>,
    rooms: Vec<Room>,
    message: &mut Vec<Item>,
)
    requires laid_out { AreLaidOut 0 variables.now }
    requires rooms { map vec_items rooms.items ≡ rooms_for items.items }
    requires message { vec_len message.old + length items.items ≤ vec_capacity message.old }
    ensures memory { values_of variables.now memory.new
        ≡ (message_from (values_of variables.now memory.old) items.items).0 }
    ensures message { message_of message.new.items
        ≡ message_of message.old.items ++ (message_from (values_of variables.now memory.old) items.items).1 }
{
    let mut items = VecDeque::from_vec(items);
    let mut rooms = VecDeque::from_vec(rooms);
    'items: while let Some(item) = items.pop_front() {
        if let Some(room) = rooms.pop_front() {
            put(message, take_item(variables, memory, item, room));
        }
    }
}

/// The items of a message, taken from left to right; the places of ports are NULL then. The only error is want of
/// memory; the memory of the frame is then as it was.
pub fn take_items(
    alloc: Global,
    variables: &[Variable],
    memory: &mut [Word],
    items: Seq<Actual>,
) -> Result<Seq<Item>, NoMemory>
    requires { AreLaidOut 0 variables.now }
    ensures memory { OnOk result
        (values_of variables.now memory.new ≡ (message_from (values_of variables.now memory.old) items).0) }
    ensures message { IfOk result (λ m. message_of m ≡ (message_from (values_of variables.now memory.old) items).1) }
    ensures err { OnErr result (values_of variables.now memory.new ≡ values_of variables.now memory.old) }
{
    let items = items.into_vec();
    let rooms = rooms_for(alloc, items.as_slice())?;
    let mut message = make_room(alloc, items.len())?;
    take_each(variables, memory, items, rooms, &mut message);
    Ok(Seq::from_vec(message))
}

fn ports_by(item: &Item) -> usize
    ensures { result ≡ ports_by item.now }
{
    match item {
        Item::Words(_) => 0,
        Item::Ports(ports) => ports.len(),
    }
}

fn all_ports(message: &[Item]) -> Result<usize, NoMemory>
    ensures { IfOk result (λ n. n ≡ all_ports message.now) }
{
    let mut ports: usize = 0;
    'items: for item in message {
        ports = ports.checked_add(ports_by(item)).ok_or(NoMemory)?;
    }
    Ok(ports)
}

/// Stores an item into a span. What was put out of its place goes into the room.
fn store(room: &mut Room, variables: &[Variable], memory: &mut [Word], span: Span, item: Item)
    requires laid_out { AreLaidOut 0 variables.now }
    requires room { vec_len room.old + ports_by item ≤ vec_capacity room.old }
    ensures memory { values_of variables.now memory.new
        ≡ (stored (values_of variables.now memory.old) span (item_of item)).0 }
    ensures drops { live room.new.items
        ≡ live room.old.items ++ (stored (values_of variables.now memory.old) span (item_of item)).1 }
    ensures len { vec_len room.new ≡ vec_len room.old + ports_by item }
    ensures capacity { vec_capacity room.old ≤ vec_capacity room.new }
{
    match item {
        Item::Words(words) => write(memory, variables, span, words.as_slice()),
        Item::Ports(ports) => put_from(room, variables, memory, span, ports.into_vec()),
    }
}

/// Keeps the ports of an item that finds no place.
fn keep(room: &mut Room, item: Item)
    requires { vec_len room.old + ports_by item ≤ vec_capacity room.old }
    ensures drops { live room.new.items ≡ live room.old.items ++ item_ports (item_of item) }
    ensures len { vec_len room.new ≡ vec_len room.old + ports_by item }
    ensures capacity { vec_capacity room.old ≤ vec_capacity room.new }
{
    match item {
        Item::Words(_) => {}
        Item::Ports(ports) => {
            let mut waiting = VecDeque::from_vec(ports.into_vec());
            'ports: while let Some(port) = waiting.pop_front() {
                put(room, port);
            }
        }
    }
}

fn store_each(
    room: &mut Room,
    variables: &[Variable],
    memory: &mut [Word],
    places: &[Span],
    message: Vec<Item>,
)
    requires laid_out { AreLaidOut 0 variables.now }
    requires room { vec_len room.old + all_ports message.items ≤ vec_capacity room.old }
    ensures memory { values_of variables.now memory.new
        ≡ (stored_all (values_of variables.now memory.old) places.now (message_of message.items)).0 }
    ensures drops { live room.new.items
        ≡ live room.old.items
        ++ (stored_all (values_of variables.now memory.old) places.now (message_of message.items)).1 }
{
    let mut waiting = VecDeque::from_vec(message);
    let mut left = places;
    'items: while let Some(item) = waiting.pop_front() {
        match left.split_first() {
            None => keep(room, item),
            Some((place, rest)) => {
                store(room, variables, memory, *place, item);
                left = rest;
            }
        }
    }
}

/// Stores the items of a message one after the other, and answers the ports that find no place or were put out of
/// theirs. The only error is want of memory; the memory of the frame is then as it was, and the message's ports are
/// gone with it.
pub fn store_items(
    alloc: Global,
    variables: &[Variable],
    memory: &mut [Word],
    places: &[Span],
    message: Seq<Item>,
) -> Result<Vec<Option<PortValue>>, NoMemory>
    requires { AreLaidOut 0 variables.now }
    ensures memory { OnOk result (values_of variables.now memory.new
        ≡ (stored_all (values_of variables.now memory.old) places.now (message_of message)).0) }
    ensures drops { IfOk result
        (λ d. live d.items ≡ (stored_all (values_of variables.now memory.old) places.now (message_of message)).1) }
    ensures err { OnErr result (values_of variables.now memory.new ≡ values_of variables.now memory.old) }
{
    let mut room = make_room(alloc, all_ports(message.as_slice())?)?;
    store_each(&mut room, variables, memory, places, message.into_vec());
    Ok(room)
}

fn place_each(
    room: &mut Room,
    variables: &[Variable],
    memory: &mut [Word],
    places: &[Span],
    ports: Vec<PortValue>,
)
    requires laid_out { AreLaidOut 0 variables.now }
    requires room { vec_len room.old + length ports.items ≤ vec_capacity room.old }
    ensures memory { values_of variables.now memory.new
        ≡ (placed_all (values_of variables.now memory.old) places.now ports.items).0 }
    ensures drops { live room.new.items
        ≡ live room.old.items ++ (placed_all (values_of variables.now memory.old) places.now ports.items).1 }
{
    let mut waiting = VecDeque::from_vec(ports);
    let mut left = places;
    'ports: while let Some(port) = waiting.pop_front() {
        match left.split_first() {
            None => put(room, Some(port)),
            Some((place, rest)) => {
                let replaced = exchange(memory, variables, place.variable, place.first, Some(port));
                put(room, replaced);
                left = rest;
            }
        }
    }
}

/// Puts ports that were made into these places, each into its own, and answers those that find no place or were put out
/// of theirs. The only error is want of memory; the memory of the frame is then as it was, and the ports are gone.
pub fn place_ports(
    alloc: Global,
    variables: &[Variable],
    memory: &mut [Word],
    places: &[Span],
    ports: Vec<PortValue>,
) -> Result<Vec<Option<PortValue>>, NoMemory>
    requires { AreLaidOut 0 variables.now }
    ensures memory { OnOk result (values_of variables.now memory.new
        ≡ (placed_all (values_of variables.now memory.old) places.now ports.items).0) }
    ensures drops { IfOk result
        (λ d. live d.items ≡ (placed_all (values_of variables.now memory.old) places.now ports.items).1) }
    ensures err { OnErr result (values_of variables.now memory.new ≡ values_of variables.now memory.old) }
{
    let mut room = make_room(alloc, ports.len())?;
    place_each(&mut room, variables, memory, places, ports);
    Ok(room)
}
