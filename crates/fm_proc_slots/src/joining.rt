//! What a child gives back to its parent. Room is taken before, so that nothing is given where memory is wanting.

ghost use Rattle.std.specs.Prelude.{◌≡◌, ◌≤◌, ◌<◌, ◌+◌, ◌++◌, Some, [], ◌∷◌, length, option_to_list, vec_len, vec_capacity};
ghost use Rattle.fm_code.specs.Passing.{back_words, live};
ghost use Rattle.fm_proc_language.specs.Frames.{all_given, exchanged, one_given, port_given, ports_given};
ghost use Rattle.fm_proc_language.specs.Slots.{all_left, vacated};
ghost use Rattle.fm_proc_slots.specs.Helds.{held};
ghost use Rattle.fm_proc_slots.specs.Joins.{GivesSo, HasRoomFor, LeavesRoomFor, SamePorts, joined};
ghost use Rattle.fm_proc_slots.specs.Rooms.{slots_in};

use crate::exchanging::exchange;
use crate::open::OpenSlots;
use crate::slots::{Slots, keep_some};
use crate::words::{set_word, splice_within};
use fm_base::Seq;
use fm_chan::Port;
use fm_code::{Back, given_span, is_port, word_at, words_of};

/// What a parent has while it joins, with room for what its children give back.
#[derive(Drop)]
pub struct Gains {
    /// The words of its frame.
    pub words: Vec<i64>,
    /// Its ports.
    pub slots: OpenSlots,
    /// What is let go.
    pub drops: Vec<Port>,
}

/// What a child left.
#[derive(Drop)]
pub struct Child {
    /// The words of its frame.
    pub words: Seq<i64>,
    /// Its ports.
    pub slots: Slots,
}

/// A port goes to its word, and what was there is let go.
fn settle(gains: &mut Gains, number: usize, port: Port)
    requires room { HasRoomFor gains.old 1 }
    ensures held { held gains.new.words.items (slots_in gains.new.slots)
        ≡ (exchanged (held gains.old.words.items (slots_in gains.old.slots)) number (Some port)).0 }
    ensures drops { gains.new.drops.items
        ≡ gains.old.drops.items
        ++ option_to_list (exchanged (held gains.old.words.items (slots_in gains.old.slots)) number (Some port)).1 }
    ensures room { LeavesRoomFor 1 gains.old gains.new }
{
    let out = exchange(&mut gains.words, &mut gains.slots, number, Some(port));
    keep_some(&mut gains.drops, out);
}

/// The port at a word of a child goes to a word of its parent; NULL isn't copied.
fn give_port(gains: &mut Gains, child: &mut Child, from: usize, to: usize)
    requires room { HasRoomFor gains.old 1 }
    ensures given { GivesSo (port_given (joined gains.old child.old) from to) gains.new child.new }
    ensures room { LeavesRoomFor 1 gains.old gains.new }
{
    let word = word_at(child.words.as_slice(), from);
    if is_port(word) {
        match child.slots.drain(word) {
            Some(port) => {
                set_word(&mut child.words, from, 0);
                settle(gains, to, port);
            }
            None => {}
        }
    }
}

fn give_ports(gains: &mut Gains, child: &mut Child, back: Back)
    requires room { HasRoomFor gains.old back.words }
    ensures given { GivesSo (ports_given (joined gains.old child.old) back.from back.to back.words) gains.new
        child.new }
    ensures room { LeavesRoomFor back.words gains.old gains.new }
{
    'ports: for index in 0..back.words as usize {
        give_port(
            gains,
            child,
            back.from as usize + index,
            back.to as usize + index,
        );
    }
}

fn give_one(gains: &mut Gains, child: &mut Child, back: Back)
    requires room { HasRoomFor gains.old back.words }
    ensures given { GivesSo (one_given (joined gains.old child.old) back) gains.new child.new }
    ensures room { LeavesRoomFor back.words gains.old gains.new }
{
    if back.port {
        give_ports(gains, child, back);
    } else {
        let given = words_of(child.words.as_slice(), given_span(back));
        splice_within(&mut gains.words, back.to as usize, given);
    }
}

/// A child gives back in the order of its arguments; the ports that are let go are added. Takes no memory.
pub fn give_back(gains: &mut Gains, child: &mut Child, backs: &[Back])
    requires room { HasRoomFor gains.old (back_words backs.now) }
    ensures given { GivesSo (all_given (joined gains.old child.old) backs.now) gains.new child.new }
    ensures room { LeavesRoomFor (back_words backs.now) gains.old gains.new }
{
    'backs: for back in backs {
        give_one(gains, child, *back);
    }
}

/// What stands at a port word is let go.
fn vacate_word(slots: &mut Slots, word: i64, drops: &mut Vec<Port>)
    requires room { vec_len drops.old < vec_capacity drops.old }
    ensures drops { drops.new.items ≡ drops.old.items ++ vacated slots.old (live (word ∷ [])) }
    ensures slots { SamePorts (all_left slots.old (live (word ∷ []))) slots.new }
    ensures len { vec_len drops.new ≤ vec_len drops.old + 1 }
    ensures capacity { vec_capacity drops.old ≤ vec_capacity drops.new }
{
    if is_port(word) {
        keep_some(drops, slots.drain(word));
    }
}

/// The ports at these port words are let go, one after the other. The slots that they leave aren't noted. Takes no
/// memory.
pub fn vacate_words(slots: &mut Slots, words: &[i64], drops: &mut Vec<Port>)
    requires room { vec_len drops.old + length words.now ≤ vec_capacity drops.old }
    ensures drops { drops.new.items ≡ drops.old.items ++ vacated slots.old (live words.now) }
    ensures slots { SamePorts (all_left slots.old (live words.now)) slots.new }
    ensures len { vec_len drops.new ≤ vec_len drops.old + length words.now }
    ensures capacity { vec_capacity drops.old ≤ vec_capacity drops.new }
{
    'words: for word in words {
        vacate_word(slots, *word, drops);
    }
}
