//! Slots with room: ports come and go without memory.

ghost use Rattle.std.specs.Prelude.{◌≡◌, OnOk};
ghost use Rattle.fm_proc_slots.specs.Stocks.{HasRoomIn, slots_of};

use crate::slots::Slots;
use crate::stock::Stock;
use fm_base::NoMemory;
use fm_chan::Port;
use fm_code::is_port;
use std::alloc::Global;
use std::mem::replace;

/// The ports of a process while a step moves them. What that takes was reserved before: contracts see the slots
/// (`slots_in`), and how many ports may still come and go (`HasRoom`).
#[derive(Drop)]
pub struct OpenSlots {
    stock: Option<Box<Stock>>,
}

// Takes room for so many ports to come and so many to go. After want of memory the slots are as they were.
fn make_room(alloc: Global, stock: &mut Option<Box<Stock>>, room: usize) -> Result<(), NoMemory>
    ensures slots { slots_of stock.new ≡ slots_of stock.old }
    ensures room { OnOk result (HasRoomIn stock.new room) }
{
    match stock {
        Some(stock) => stock.reserve(room),
        None => {
            if room != 0 {
                let fresh = Stock::with_room(alloc, room)?;
                *stock = Some(Box::new(alloc, fresh)?);
            }
            Ok(())
        }
    }
}

impl Slots {
    ghost use Rattle.std.specs.Prelude.{◌≡◌, IfOk, OnErr};
    ghost use Rattle.fm_proc_slots.specs.Rooms.{HasRoom, slots_in};

    /// Takes the ports out, with room for so many to come and so many to go. After want of memory the slots are as they
    /// were.
    pub fn open(&mut self, alloc: Global, room: usize) -> Result<OpenSlots, NoMemory>
        ensures opened { IfOk result (λ o. (slots_in o ≡ self.old) × HasRoom o room) }
        ensures stays { OnErr result (self.new ≡ self.old) }
    {
        make_room(alloc, &mut self.stock, room)?;
        let stock = replace(&mut self.stock, None);
        Ok(OpenSlots { stock })
    }

    /// The slots, which need no room any more. Takes no memory.
    pub fn from_open(slots: OpenSlots) -> Slots
        ensures { result ≡ slots_in slots }
    {
        let OpenSlots { stock } = slots;
        Slots { stock }
    }
}

impl OpenSlots {
    ghost use Rattle.std.specs.Prelude.{◌≡◌, ◌≤◌, ◌+◌, ◌++◌, IfOk, length, vec_len, vec_capacity};
    ghost use Rattle.fm_proc_language.specs.Slots.{all_taken, in_slot, left, no_slots, put, put_any, taken};
    ghost use Rattle.fm_proc_slots.specs.Rooms.{HasRoom, LeavesRoom, slots_in};

    /// No slots, with room for so many ports to come and so many to go.
    pub fn with_room(alloc: Global, room: usize) -> Result<OpenSlots, NoMemory>
        ensures { IfOk result (λ o. (slots_in o ≡ no_slots) × HasRoom o room) }
    {
        let mut stock = None;
        make_room(alloc, &mut stock, room)?;
        Ok(OpenSlots { stock })
    }

    /// A port comes to the free slot that is next, or else to a new one: its number.
    pub(crate) fn put(&mut self, port: Port) -> i64
        requires { HasRoom self.old 1 }
        ensures put { (result, slots_in self.new) ≡ put (slots_in self.old) port }
        ensures room { LeavesRoom 1 self.old self.new }
    {
        match &mut self.stock {
            Some(stock) => stock.put(port),
            None => unreachable!(),
        }
    }

    /// The word of what may be NULL.
    pub(crate) fn put_any(&mut self, port: Option<Port>) -> i64
        requires { HasRoom self.old 1 }
        ensures put { (result, slots_in self.new) ≡ put_any (slots_in self.old) port }
        ensures room { LeavesRoom 1 self.old self.new }
    {
        match port {
            Some(port) => self.put(port),
            None => 0,
        }
    }

    /// A slot is free again: what stood there.
    pub fn leave(&mut self, word: i64) -> Option<Port>
        requires { HasRoom self.old 1 }
        ensures port { result ≡ in_slot (slots_in self.old) word }
        ensures slots { slots_in self.new ≡ left (slots_in self.old) word }
        ensures room { LeavesRoom 1 self.old self.new }
    {
        match &mut self.stock {
            Some(stock) => stock.leave(word),
            None => unreachable!(),
        }
    }

    /// What stands at a port word, whose slot is free then.
    pub(crate) fn take(&mut self, word: i64) -> Option<Port>
        requires { HasRoom self.old 1 }
        ensures taken { (result, slots_in self.new) ≡ taken (slots_in self.old) word }
        ensures room { LeavesRoom 1 self.old self.new }
    {
        if is_port(word) {
            self.leave(word)
        } else {
            None
        }
    }

    /// What stands at port words, one after the other, is added; their slots are free then.
    pub(crate) fn take_all(&mut self, words: &[i64], ports: &mut Vec<Option<Port>>)
        requires slots { HasRoom self.old (length words.now) }
        requires ports { vec_len ports.old + length words.now ≤ vec_capacity ports.old }
        ensures ports { ports.new.items ≡ ports.old.items ++ (all_taken (slots_in self.old) words.now).0 }
        ensures slots { slots_in self.new ≡ (all_taken (slots_in self.old) words.now).1 }
        ensures room { LeavesRoom (length words.now) self.old self.new }
    {
        'words: for word in words {
            ports.push_reserved(self.take(*word));
        }
    }
}
