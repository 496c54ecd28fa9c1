//! Ports of new channels come to words.

ghost use Rattle.std.specs.Prelude.{◌≡◌, ◌≤◌, ◌<◌, ◌+◌, ◌*◌, ◌++◌, ◌∷◌, [], length, IfOk, OnOk, vec_len, vec_capacity};
ghost use Rattle.fm_proc_language.specs.Frames.{all_placed, port_words, words_from};
ghost use Rattle.fm_proc_slots.specs.Helds.{held};
ghost use Rattle.fm_proc_slots.specs.Rooms.{HasRoom, LeavesRoom, slots_in};
ghost use Rattle.fm_proc_slots.specs.Stores.{PlacesPort};

use crate::exchanging::exchange;
use crate::open::OpenSlots;
use crate::slots::keep_some;
use fm_base::NoMemory;
use fm_chan::Port;
use fm_code::{Operand, Span, front};
use std::alloc::Global;
use std::collections::VecDeque;

/// Adds the numbers of the words of a span.
fn push_numbers(numbers: &mut Vec<u32>, span: Span) -> Result<(), NoMemory>
    ensures { OnOk result (numbers.new.items ≡ numbers.old.items ++ words_from span.first span.count) }
{
    'words: for index in 0..span.count {
        numbers.push(span.first.checked_add(index).ok_or(NoMemory)?)?;
    }
    Ok(())
}

fn push_operand(numbers: &mut Vec<u32>, operand: Operand) -> Result<(), NoMemory>
    ensures { OnOk result (numbers.new.items ≡ numbers.old.items ++ port_words (operand ∷ [])) }
{
    match operand {
        Operand::Value(_) => Ok(()),
        Operand::Words(span) => push_numbers(numbers, span),
        Operand::Ports(span) => push_numbers(numbers, span),
    }
}

/// The numbers of the words of operands, one by one. A number that is no `u32` is want of memory.
pub fn port_words(alloc: Global, operands: &[Operand]) -> Result<Vec<u32>, NoMemory>
    ensures { IfOk result (λ v. v.items ≡ port_words operands.now) }
{
    let mut numbers = Vec::new(alloc);
    'operands: for operand in operands {
        push_operand(&mut numbers, *operand)?;
    }
    Ok(numbers)
}

/// A port goes to the first word, or is let go: the words that are left. Takes no memory.
fn place_next<'a>(
    words: &mut Vec<i64>,
    slots: &mut OpenSlots,
    numbers: &'a [u32],
    port: Port,
    out: &mut Vec<Port>,
) -> &'a [u32]
    requires slots { HasRoom slots.old 2 }
    requires out { vec_len out.old < vec_capacity out.old }
    ensures placed { PlacesPort (held words.old.items (slots_in slots.old)) numbers.now out.old.items port
        (held words.new.items (slots_in slots.new)) result.now out.new.items }
    ensures room { LeavesRoom 2 slots.old slots.new }
    ensures len { vec_len out.new ≤ vec_len out.old + 1 }
    ensures capacity { vec_capacity out.old ≤ vec_capacity out.new }
{
    match front(numbers) {
        Some((number, left)) => {
            let there = exchange(words, slots, number as usize, Some(port));
            keep_some(out, there);
            left
        }
        None => {
            out.push_reserved(port);
            numbers
        }
    }
}

/// Ports go to words one after the other; what is let go is added, which is what was there and what finds no word.
/// Takes no memory.
pub fn place_all(
    words: &mut Vec<i64>,
    slots: &mut OpenSlots,
    numbers: &[u32],
    ports: Vec<Port>,
    out: &mut Vec<Port>,
)
    requires slots { HasRoom slots.old (2 * length ports.items) }
    requires out { vec_len out.old + length ports.items ≤ vec_capacity out.old }
    ensures held { held words.new.items (slots_in slots.new)
        ≡ (all_placed (held words.old.items (slots_in slots.old)) numbers.now ports.items).0 }
    ensures out { out.new.items
        ≡ out.old.items ++ (all_placed (held words.old.items (slots_in slots.old)) numbers.now ports.items).1 }
{
    let mut numbers = numbers;
    let mut rest = VecDeque::from_vec(ports);
    'ports: while let Some(port) = rest.pop_front() {
        numbers = place_next(words, slots, numbers, port, out);
    }
}
