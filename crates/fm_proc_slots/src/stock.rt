//! Ports, and which of their slots are free, in a box of their own.

ghost use Rattle.fm_proc_slots.specs.Places.{HaveNumbers};

use crate::slots::{before, replaced};
use fm_base::NoMemory;
use fm_chan::Port;
use std::alloc::Global;

/// Ports in numbered slots.
#[derive(Drop)]
pub(crate) struct Stock {
    ports: Vec<Option<Port>>,
    // by how many stand before them; the one that is used next stands last
    free: Vec<usize>,
    ghost numbers: { HaveNumbers free.items },
}

impl Stock {
    ghost use Rattle.std.specs.Prelude.{◌≡◌, ◌+◌, ℕ, None, slice_set, OnOk, IfOk};
    ghost use Rattle.std.specs.Option.{option_copied};
    ghost use Rattle.fm_proc_language.specs.Slots.{before, in_slot, left, no_slots, put};
    ghost use Rattle.fm_proc_slots.specs.Stocks.{HasPlaces, slots_by};

    /// No slots, with room for so many ports to come and so many to go.
    pub fn with_room(alloc: Global, room: usize) -> Result<Stock, NoMemory>
        ensures { IfOk result (λ s. (slots_by s ≡ no_slots) × HasPlaces s room) }
    {
        if room > i64::MAX as usize {
            return Err(NoMemory);
        }
        Ok(Stock {
            ports: Vec::with_capacity(alloc, room)?,
            free: Vec::with_capacity(alloc, room)?,
        })
    }

    /// The port in a slot.
    pub fn port(&self, word: i64) -> Option<&Port>
        ensures { option_copied result ≡ in_slot (slots_by self.now) word }
    {
        match self.ports.get(before(word)) {
            Some(Some(port)) => Some(port),
            Some(None) => None,
            None => None,
        }
    }

    /// A port leaves its slot, and the slot isn't noted as free: what stood there.
    pub fn drain(&mut self, word: i64) -> Option<Port>
        ensures port { result ≡ in_slot (slots_by self.old) word }
        ensures slots { slots_by self.new
            ≡ record (slots_by self.old) { ports = slice_set (slots_by self.old).ports (before word) None } }
    {
        replaced(&mut self.ports, before(word), None)
    }

    /// Takes room for so many ports to come and so many to go. After want of memory the slots are as they were.
    pub fn reserve(&mut self, room: usize) -> Result<(), NoMemory>
        ensures slots { slots_by self.new ≡ slots_by self.old }
        ensures room { OnOk result (HasPlaces self.new room) }
    {
        let most = self.ports.len().checked_add(room).ok_or(NoMemory)?;
        if most > i64::MAX as usize {
            return Err(NoMemory);
        }
        self.ports.reserve(room)?;
        self.free.reserve(room)?;
        Ok(())
    }

    /// A port comes to the free slot that is next, or else to a new one: its number.
    pub fn put(&mut self, port: Port) -> i64
        requires { HasPlaces self.old 1 }
        ensures put { (result, slots_by self.new) ≡ put (slots_by self.old) port }
        ensures room { (n : ℕ) → HasPlaces self.old (1 + n) → HasPlaces self.new n }
    {
        match self.free.pop() {
            Some(place) => {
                replaced(&mut self.ports, place, Some(port));
                (place + 1) as i64
            }
            None => {
                let place = self.ports.len();
                self.ports.push_reserved(Some(port));
                (place + 1) as i64
            }
        }
    }

    /// A slot is free again: what stood there.
    pub fn leave(&mut self, word: i64) -> Option<Port>
        requires { HasPlaces self.old 1 }
        ensures port { result ≡ in_slot (slots_by self.old) word }
        ensures slots { slots_by self.new ≡ left (slots_by self.old) word }
        ensures room { (n : ℕ) → HasPlaces self.old (1 + n) → HasPlaces self.new n }
    {
        let place = before(word);
        self.free.push_reserved(place);
        replaced(&mut self.ports, place, None)
    }
}
