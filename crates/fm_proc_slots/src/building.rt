//! Messages with ports are built: all room is taken first, and then nothing can fail.

ghost use Rattle.std.specs.Prelude.{◌≡◌, ◌≤◌, ◌<◌, ◌++◌, [], length, map, IfOk, OnErr, vec_len, vec_capacity};
ghost use Rattle.fm_base.specs.Channels as base;
ghost use Rattle.fm_chan.specs.Items.{plain_item};
ghost use Rattle.fm_code.specs.Acts.{span_of};
ghost use Rattle.fm_code.specs.Passing.{nulls};
ghost use Rattle.fm_code.specs.declared.ask.Operand.TheVariants as operand;
ghost use Rattle.fm_proc_language.specs.Frames.{item_from, message_from};
ghost use Rattle.fm_proc_language.specs.Processes.{message_words};
ghost use Rattle.fm_proc_slots.specs.Builds.{operand_in};
ghost use Rattle.fm_proc_slots.specs.Helds.{held};
ghost use Rattle.fm_proc_slots.specs.Operands.{operand_grown, operand_ports, operand_words, ports_room, reach, words_room};
ghost use Rattle.fm_proc_slots.specs.Rooms.{HasRoom, LeavesRoom, slots_in};

use crate::blanks::{Blank, blank_for};
use crate::open::OpenSlots;
use crate::slots::Slots;
use crate::words::{extend_within, open_words, reach, splice_within};
use fm_base::{NoMemory, Seq};
use fm_chan::{Content, Item, Message, Port};
use fm_code::{Operand, Span, words_of};
use std::alloc::Global;
use std::collections::VecDeque;

/// The items that are to be built.
fn blanks(alloc: Global, items: &[Operand]) -> Result<Vec<Blank>, NoMemory>
    ensures { IfOk result (λ v. map operand_in v.items ≡ items.now) }
{
    let mut blanks = Vec::with_capacity(alloc, items.len())?;
    'items: for item in items {
        blanks.push(blank_for(alloc, *item)?)?;
    }
    Ok(blanks)
}

/// Words of the frame come into the room for them.
fn copied(own: Vec<i64>, words: &[i64], span: Span) -> Item
    requires empty { own.items ≡ [] }
    requires room { span.count ≤ vec_capacity own }
    ensures { plain_item result ≡ base.Words (span_of words.now span) }
{
    let mut own = own;
    extend_within(&mut own, words_of(words, span));
    Item::Words(Seq::from_vec(own))
}

/// Ports of the frame come into the room for them, and leave NULLs.
fn taken(
    own: &[i64],
    ports: Vec<Option<Port>>,
    words: &mut Vec<i64>,
    slots: &mut OpenSlots,
    span: Span,
) -> Item
    requires nulls { own.now ≡ nulls span.count }
    requires empty { ports.items ≡ [] }
    requires ports { span.count ≤ vec_capacity ports }
    requires words { operand_grown (vec_len words.old) (operand.Ports span) ≤ vec_capacity words.old }
    requires slots { HasRoom slots.old span.count }
    ensures item { (held words.new.items (slots_in slots.new), plain_item result)
        ≡ item_from (held words.old.items (slots_in slots.old)) (operand.Ports span) }
    ensures len { vec_len words.new ≤ operand_grown (vec_len words.old) (operand.Ports span) }
    ensures capacity { vec_capacity words.old ≤ vec_capacity words.new }
    ensures slots { LeavesRoom span.count slots.old slots.new }
{
    let mut ports = ports;
    slots.take_all(words_of(words.as_slice(), span), &mut ports);
    splice_within(words, span.first as usize, own);
    Item::Ports(Seq::from_vec(ports))
}

/// An item, whose ports leave NULL. Takes no memory.
fn fill(blank: Blank, words: &mut Vec<i64>, slots: &mut OpenSlots) -> Item
    requires words { operand_grown (vec_len words.old) blank.operand ≤ vec_capacity words.old }
    requires slots { HasRoom slots.old (operand_ports blank.operand) }
    ensures item { (held words.new.items (slots_in slots.new), plain_item result)
        ≡ item_from (held words.old.items (slots_in slots.old)) blank.operand }
    ensures len { vec_len words.new ≤ operand_grown (vec_len words.old) blank.operand }
    ensures capacity { vec_capacity words.old ≤ vec_capacity words.new }
    ensures slots { LeavesRoom (operand_ports blank.operand) slots.old slots.new }
{
    let Blank {
        operand,
        words: own,
        ports,
    } = blank;
    match operand {
        Operand::Value(_) => Item::Words(Seq::from_vec(own)),
        Operand::Words(span) => copied(own, words.as_slice(), span),
        Operand::Ports(span) => taken(own.as_slice(), ports, words, slots, span),
    }
}

/// Items one after the other, whose ports leave NULL, where there is room for them. Takes no memory.
fn fill_all(blanks: Vec<Blank>, words: &mut Vec<i64>, slots: &mut OpenSlots, items: &mut Vec<Item>)
    requires words { reach (vec_len words.old) (map operand_in blanks.items) ≤ vec_capacity words.old }
    requires slots { HasRoom slots.old (ports_room (map operand_in blanks.items)) }
    requires empty { items.old.items ≡ [] }
    requires room { length blanks.items ≤ vec_capacity items.old }
    ensures { (held words.new.items (slots_in slots.new), map plain_item items.new.items)
        ≡ message_from (held words.old.items (slots_in slots.old)) (map operand_in blanks.items) }
{
    let mut rest = VecDeque::from_vec(blanks);
    'blanks: while let Some(blank) = rest.pop_front() {
        items.push_reserved(fill(blank, words, slots));
    }
}

fn operand_words(operand: Operand) -> u32
    ensures { result ≡ operand_words operand }
{
    match operand {
        Operand::Value(_) => 1,
        Operand::Words(span) => span.count,
        Operand::Ports(span) => span.count,
    }
}

/// As many words and ports as these send at most. More than may be counted are want of memory.
fn words_room(items: &[Operand]) -> Result<u64, NoMemory>
    ensures { IfOk result (λ n. n ≡ words_room items.now) }
{
    let mut count: u64 = 0;
    'items: for item in items {
        count = count
            .checked_add(operand_words(*item) as u64)
            .ok_or(NoMemory)?;
    }
    Ok(count)
}

fn operand_ports(operand: Operand) -> usize
    ensures { result ≡ operand_ports operand }
{
    match operand {
        Operand::Value(_) => 0,
        Operand::Words(_) => 0,
        Operand::Ports(span) => span.count as usize,
    }
}

/// As many ports as these name at most.
fn ports_room(items: &[Operand]) -> Result<usize, NoMemory>
    ensures { IfOk result (λ n. n ≡ ports_room items.now) }
{
    let mut count: usize = 0;
    'items: for item in items {
        count = count.checked_add(operand_ports(*item)).ok_or(NoMemory)?;
    }
    Ok(count)
}

/// The items of a message that are built where the words and the slots stay meanwhile.
fn items_from(
    alloc: Global,
    words: &mut Seq<i64>,
    slots: &mut Slots,
    items: &[Operand],
) -> Result<Vec<Item>, NoMemory>
    ensures items { IfOk result
        (λ v. (held words.new slots.new, map plain_item v.items) ≡ message_from (held words.old slots.old) items.now) }
    ensures stays { OnErr result (held words.new slots.new ≡ held words.old slots.old) }
{
    let blanks = blanks(alloc, items)?;
    let mut all = Vec::with_capacity(alloc, blanks.len())?;
    let ports = ports_room(items)?;
    let most = reach(words.len(), items)?;
    let mut own = open_words(alloc, words, most)?;
    match slots.open(alloc, ports) {
        Ok(mut open) => {
            fill_all(blanks, &mut own, &mut open, &mut all);
            *words = Seq::from_vec(own);
            *slots = Slots::from_open(open);
            Ok(all)
        }
        Err(error) => {
            *words = Seq::from_vec(own);
            Err(error)
        }
    }
}

/// A message of these items, from left to right, whose ports leave NULL. After want of memory the words and the slots
/// are as they were. A message whose words and ports can't be counted is want of memory.
pub fn ports_message(
    alloc: Global,
    words: &mut Seq<i64>,
    slots: &mut Slots,
    items: &[Operand],
) -> Result<Message, NoMemory>
    ensures message { IfOk result
        (λ m. (held words.new slots.new, m) ≡ message_from (held words.old slots.old) items.now) }
    ensures counted { IfOk result (λ m. message_words m < 18446744073709551615) }
    ensures stays { OnErr result (held words.new slots.new ≡ held words.old slots.old) }
{
    if words_room(items)? == u64::MAX {
        return Err(NoMemory);
    }
    let all = items_from(alloc, words, slots, items)?;
    Ok(Message {
        content: Content::Items(Seq::from_vec(all)),
    })
}
