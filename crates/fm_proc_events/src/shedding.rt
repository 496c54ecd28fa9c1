//! Ports are let go.

ghost use Rattle.std.specs.Prelude.{◌≡◌, ◌+◌, ◌≤◌, ◌++◌, [], ◌∷◌, length, option_to_list, vec_capacity, vec_len};
ghost use Rattle.fm_base.specs.Channels.{all_shed};
ghost use Rattle.fm_code.specs.Passing.{live};
ghost use Rattle.fm_proc_language.specs.Slots.{all_left, in_slot, left, vacated};
ghost use Rattle.fm_chan.specs.Bodies.{chans_of};
ghost use Rattle.fm_chan.specs.Woken.{WakesAll};
ghost use Rattle.fm_proc_slots.specs.Rooms.{HasRoom, LeavesRoom, slots_in};
ghost use Rattle.fm_proc_events.specs.Discards.{all_discarded};

use fm_chan::{Channels, Port};
use fm_code::is_port;
use fm_proc_slots::{OpenSlots, Slots};
use std::collections::VecDeque;

/// A port leaves its slot.
fn leave(slots: &mut OpenSlots, word: i64, ports: &mut Vec<Port>)
    requires slots { HasRoom slots.old 1 }
    requires ports { vec_len ports.old + 1 ≤ vec_capacity ports.old }
    ensures ports { ports.new.items ≡ ports.old.items ++ option_to_list (in_slot (slots_in slots.old) word) }
    ensures slots { slots_in slots.new ≡ left (slots_in slots.old) word }
    ensures room { LeavesRoom 1 slots.old slots.new }
    ensures len { vec_len ports.new ≤ vec_len ports.old + 1 }
    ensures capacity { vec_capacity ports.old ≤ vec_capacity ports.new }
{
    match slots.leave(word) {
        Some(port) => ports.push_reserved(port),
        None => {}
    }
}

/// The ports in these slots, which are free then, one after the other. Takes no memory.
pub fn vacate(slots: &mut OpenSlots, words: &[i64], ports: &mut Vec<Port>)
    requires slots { HasRoom slots.old (length words.now) }
    requires ports { vec_len ports.old + length words.now ≤ vec_capacity ports.old }
    ensures ports { ports.new.items ≡ ports.old.items ++ vacated (slots_in slots.old) words.now }
    ensures slots { slots_in slots.new ≡ all_left (slots_in slots.old) words.now }
{
    'words: for word in words {
        leave(slots, *word, ports);
    }
}

/// Discards ports, one after the other. Takes no memory.
#[inline(always)]
pub fn shed(channels: &mut Channels, ports: Vec<Port>)
    ensures channels { chans_of channels.new ≡ all_shed ports.items (chans_of channels.old) }
    ensures waking { WakesAll channels.old channels.new }
{
    if ports.is_empty() {
        return;
    }
    let mut rest = VecDeque::from_vec(ports);
    'ports: while let Some(port) = rest.pop_front() {
        channels.discard(port);
    }
}

/// The port at a port word leaves its slot, which isn't noted as free, and is discarded.
fn discard_word(slots: &mut Slots, word: i64, channels: &mut Channels)
    ensures gone { (slots.new, chans_of channels.new)
        ≡ all_discarded slots.old (chans_of channels.old) (live (word ∷ [])) }
    ensures waking { WakesAll channels.old channels.new }
{
    if is_port(word) {
        match slots.drain(word) {
            Some(port) => channels.discard(port),
            None => {}
        }
    }
}

/// The ports at these port words leave their slots, which aren't noted as free, and are discarded, one after the other.
/// Takes no memory.
pub fn discard_words(slots: &mut Slots, words: &[i64], channels: &mut Channels)
    ensures gone { (slots.new, chans_of channels.new)
        ≡ all_discarded slots.old (chans_of channels.old) (live words.now) }
    ensures waking { WakesAll channels.old channels.new }
{
    'words: for word in words {
        discard_word(slots, *word, channels);
    }
}
