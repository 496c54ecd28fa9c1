//! Ports in numbered slots.

ghost use Rattle.std.specs.Prelude.{◌≡◌, ◌≤◌, ◌<◌, ◌+◌, ◌++◌, None, option_to_list, slice_get, slice_set, unwrap_or, vec_len, vec_capacity};
ghost use Rattle.std.specs.Option.{option_copied};
ghost use Rattle.fm_proc_language.specs.Slots.{before, in_slot, no_slots};
ghost use Rattle.fm_proc_slots.specs.Places.{HasNumber};

use crate::stock::Stock;
use fm_chan::Port;
use std::alloc::Global;
use std::marker::Model;
use std::mem::replace;

/// The ports of a process. The number of a slot is a word of a frame. Contracts see what stands in the slots, and which
/// are free.
pub struct Slots {
    // none of a process that has never had room for a port, as many haven't: so it takes little
    pub(crate) stock: Option<Box<Stock>>,
}

impl Drop for Slots {
    fn drop(self) {
        let Slots { stock: _stock } = self;
    }
}

impl Model for Slots {
    ghost use Rattle.fm_proc_language.specs.Slots.{Slots};
    ghost use Rattle.fm_proc_slots.specs.Stocks.{slots_of};

    ghost Value = { Slots };

    ghost view = { λ s. slots_of s.stock };
}

/// How many slots stand before the one with this number.
pub(crate) fn before(word: i64) -> usize
    ensures place { result ≡ before word }
    ensures number { HasNumber result }
{
    match usize::try_from(word) {
        Ok(number) => number.saturating_sub(1),
        Err(_) => 0,
    }
}

/// What stands at a place, if there is such a place, is exchanged for another.
pub(crate) fn replaced(
    ports: &mut Vec<Option<Port>>,
    place: usize,
    port: Option<Port>,
) -> Option<Port>
    ensures out { result ≡ unwrap_or (slice_get ports.old.items place) None }
    ensures new { ports.new.items ≡ slice_set ports.old.items place port }
    ensures len { vec_len ports.new ≡ vec_len ports.old }
    ensures capacity { vec_capacity ports.new ≡ vec_capacity ports.old }
{
    if place < ports.len() {
        replace(&mut ports[place], port)
    } else {
        None
    }
}

/// Adds a port, if there is one, where there is room for it.
pub(crate) fn keep_some(ports: &mut Vec<Port>, port: Option<Port>)
    requires { vec_len ports.old < vec_capacity ports.old }
    ensures items { ports.new.items ≡ ports.old.items ++ option_to_list port }
    ensures len { vec_len ports.new ≤ vec_len ports.old + 1 }
    ensures capacity { vec_capacity ports.old ≤ vec_capacity ports.new }
{
    match port {
        Some(port) => ports.push_reserved(port),
        None => {}
    }
}

impl Slots {
    /// No slots. Takes no memory.
    pub fn new(alloc: Global) -> Slots
        ensures { result ≡ no_slots }
    {
        Slots { stock: None }
    }

    /// The port in a slot.
    pub fn port(&self, word: i64) -> Option<&Port>
        ensures { option_copied result ≡ in_slot self.now word }
    {
        match &self.stock {
            Some(stock) => stock.port(word),
            None => None,
        }
    }

    /// A port leaves its slot, and the slot isn't noted as free: what stood there. Takes no memory.
    pub fn drain(&mut self, word: i64) -> Option<Port>
        ensures port { result ≡ in_slot self.old word }
        ensures slots { self.new ≡ record self.old { ports = slice_set self.old.ports (before word) None } }
    {
        match &mut self.stock {
            Some(stock) => stock.drain(word),
            None => None,
        }
    }
}
