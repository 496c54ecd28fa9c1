//! Ports at the words of a frame are exchanged for others.

ghost use Rattle.std.specs.Prelude.{◌≡◌, ◌≤◌, ◌+◌, ◌*◌, ◌++◌, length, vec_len, vec_capacity};
ghost use Rattle.fm_proc_language.specs.Frames.{all_exchanged, exchanged};
ghost use Rattle.fm_proc_slots.specs.Helds.{held};
ghost use Rattle.fm_proc_slots.specs.Rooms.{HasRoom, LeavesRoom, slots_in};

use crate::open::OpenSlots;
use crate::slots::keep_some;
use fm_chan::Port;
use fm_code::{Span, word_at};
use std::collections::VecDeque;

/// What stands at a port word is exchanged for another without memory: what came out.
pub(crate) fn exchange(
    words: &mut Vec<i64>,
    slots: &mut OpenSlots,
    number: usize,
    port: Option<Port>,
) -> Option<Port>
    requires { HasRoom slots.old 2 }
    ensures exchanged { (held words.new.items (slots_in slots.new), result)
        ≡ exchanged (held words.old.items (slots_in slots.old)) number port }
    ensures len { vec_len words.new ≡ vec_len words.old }
    ensures capacity { vec_capacity words.new ≡ vec_capacity words.old }
    ensures room { LeavesRoom 2 slots.old slots.new }
{
    let out = slots.take(word_at(words.as_slice(), number));
    let word = slots.put_any(port);
    if number < words.len() {
        words[number] = word;
    }
    out
}

/// Ports at the words of a span, as many as come, are exchanged for these; what came out is added. Takes no memory.
pub(crate) fn exchange_all(
    words: &mut Vec<i64>,
    slots: &mut OpenSlots,
    span: Span,
    ports: Vec<Option<Port>>,
    drops: &mut Vec<Port>,
)
    requires count { length ports.items ≤ span.count }
    requires slots { HasRoom slots.old (2 * length ports.items) }
    requires drops { vec_len drops.old + length ports.items ≤ vec_capacity drops.old }
    ensures held { held words.new.items (slots_in slots.new)
        ≡ (all_exchanged (held words.old.items (slots_in slots.old)) span.first ports.items).0 }
    ensures drops { drops.new.items
        ≡ drops.old.items ++ (all_exchanged (held words.old.items (slots_in slots.old)) span.first ports.items).1 }
    ensures words { vec_len words.new ≡ vec_len words.old }
    ensures room { vec_capacity words.new ≡ vec_capacity words.old }
    ensures slots { LeavesRoom (2 * length ports.items) slots.old slots.new }
    ensures len { vec_len drops.new ≤ vec_len drops.old + length ports.items }
    ensures capacity { vec_capacity drops.old ≤ vec_capacity drops.new }
{
    let mut index: usize = 0;
    let mut rest = VecDeque::from_vec(ports);
    'ports: while let Some(port) = rest.pop_front() {
        let out = exchange(words, slots, span.first as usize + index, port);
        keep_some(drops, out);
        index += 1;
    }
}
