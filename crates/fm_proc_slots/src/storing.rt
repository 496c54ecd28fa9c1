//! Messages come to a frame: all room is taken first, and then nothing can fail.

ghost use Rattle.std.specs.Prelude.{◌≡◌, ◌≤◌, ◌+◌, ◌*◌, ◌++◌, [], ◌∷◌, ℕ, None, length, map, take, IfErr, IfOk, OnErr, OnOk, vec_len, vec_capacity};
ghost use Rattle.fm_base.specs.Channels as base;
ghost use Rattle.fm_base.specs.Channels.{item_ports};
ghost use Rattle.fm_chan.specs.Items.{plain_item, plain_message};
ghost use Rattle.fm_code.specs.declared.ask.Operand.TheVariants as operand;
ghost use Rattle.fm_proc_language.specs.Frames.{all_stored, stored};
ghost use Rattle.fm_proc_language.specs.Slots.{Slots as PlainSlots};
ghost use Rattle.fm_proc_slots.specs.Copies.{kept_word};
ghost use Rattle.fm_proc_slots.specs.Helds.{held};
ghost use Rattle.fm_proc_slots.specs.Operands.{operand_grown};
ghost use Rattle.fm_proc_slots.specs.Stores.{HasRoomToStore, LeavesRoomToStore, PlacesMessage, holds, item_slots, message_slots, words_stored};

use crate::exchanging::exchange_all;
use crate::messages::{kept_items, kept_word, listed_items};
use crate::open::OpenSlots;
use crate::slots::{Slots, keep_some};
use crate::words::{open_words, reach, splice, splice_within};
use fm_base::{NoMemory, Seq};
use fm_chan::{Content, Item, Message, Port};
use fm_code::{Operand, Span, front};
use std::alloc::Global;
use std::collections::VecDeque;

/// What the items of a message are stored in, with room for them.
#[derive(Drop)]
struct Stage {
    words: Vec<i64>,
    slots: OpenSlots,
    // what is let go
    drops: Vec<Port>,
}

/// Adds ports where there is room for them.
fn push_ports(ports: Vec<Option<Port>>, drops: &mut Vec<Port>)
    requires { vec_len drops.old + length ports.items ≤ vec_capacity drops.old }
    ensures items { drops.new.items ≡ drops.old.items ++ item_ports (base.Ports ports.items) }
    ensures len { vec_len drops.new ≤ vec_len drops.old + length ports.items }
    ensures capacity { vec_capacity drops.old ≤ vec_capacity drops.new }
{
    let mut rest = VecDeque::from_vec(ports);
    'ports: while let Some(port) = rest.pop_front() {
        keep_some(drops, port);
    }
}

/// The first words of these, as far as they are there.
fn first_words(words: &[i64], count: u32) -> &[i64]
    ensures { result.now ≡ take count words.now }
{
    let (there, _) = words.split_at(words.len().min(count as usize));
    there
}

/// Words come to a place, where there is room for them.
fn store_words(words: &mut Vec<i64>, place: Operand, items: &[i64])
    requires { operand_grown (vec_len words.old) place ≤ vec_capacity words.old }
    ensures words { words.new.items ≡ words_stored words.old.items place items.now }
    ensures len { vec_len words.new ≤ operand_grown (vec_len words.old) place }
    ensures capacity { vec_capacity words.old ≤ vec_capacity words.new }
{
    match place {
        Operand::Value(_) => {}
        Operand::Words(span) => splice_within(
            words,
            span.first as usize,
            first_words(items, span.count),
        ),
        Operand::Ports(_) => {}
    }
}

/// Ports come to the port words of a span; what was there is let go.
fn store_span(stage: &mut Stage, span: Span, ports: Vec<Option<Port>>)
    requires { HasRoomToStore stage.old (operand.Ports span ∷ []) (length ports.items) }
    ensures held { holds stage.new ≡ (stored (holds stage.old) (operand.Ports span) (base.Ports ports.items)).0 }
    ensures drops { stage.new.drops.items
        ≡ stage.old.drops.items ++ (stored (holds stage.old) (operand.Ports span) (base.Ports ports.items)).1 }
    ensures room { LeavesRoomToStore (operand.Ports span) (length ports.items) stage.old stage.new }
{
    let mut ports = ports;
    ports.truncate(span.count as usize);
    exchange_all(
        &mut stage.words,
        &mut stage.slots,
        span,
        ports,
        &mut stage.drops,
    );
}

fn store_ports(stage: &mut Stage, place: Operand, ports: Vec<Option<Port>>)
    requires { HasRoomToStore stage.old (place ∷ []) (length ports.items) }
    ensures held { holds stage.new ≡ (stored (holds stage.old) place (base.Ports ports.items)).0 }
    ensures drops { stage.new.drops.items
        ≡ stage.old.drops.items ++ (stored (holds stage.old) place (base.Ports ports.items)).1 }
    ensures room { LeavesRoomToStore place (length ports.items) stage.old stage.new }
{
    match place {
        Operand::Value(_) => push_ports(ports, &mut stage.drops),
        Operand::Words(_) => push_ports(ports, &mut stage.drops),
        Operand::Ports(span) => store_span(stage, span, ports),
    }
}

/// An item is stored; what is let go is added.
fn store(stage: &mut Stage, place: Operand, item: Item)
    requires { HasRoomToStore stage.old (place ∷ []) (item_slots (plain_item item)) }
    ensures held { holds stage.new ≡ (stored (holds stage.old) place (plain_item item)).0 }
    ensures drops { stage.new.drops.items
        ≡ stage.old.drops.items ++ (stored (holds stage.old) place (plain_item item)).1 }
    ensures room { LeavesRoomToStore place (item_slots (plain_item item)) stage.old stage.new }
{
    match item {
        Item::Words(items) => store_words(&mut stage.words, place, items.as_slice()),
        Item::Ports(ports) => store_ports(stage, place, ports.into_vec()),
    }
}

/// An item that finds no place is let go.
fn let_go(item: Item, drops: &mut Vec<Port>)
    requires { vec_len drops.old + item_slots (plain_item item) ≤ vec_capacity drops.old }
    ensures items { drops.new.items ≡ drops.old.items ++ item_ports (plain_item item) }
    ensures len { vec_len drops.new ≤ vec_len drops.old + item_slots (plain_item item) }
    ensures capacity { vec_capacity drops.old ≤ vec_capacity drops.new }
{
    match item {
        Item::Words(_) => {}
        Item::Ports(ports) => push_ports(ports.into_vec(), drops),
    }
}

/// An item is stored at the first place, or let go: the places that are left.
fn store_next<'a>(stage: &mut Stage, places: &'a [Operand], item: Item) -> &'a [Operand]
    requires { HasRoomToStore stage.old places.now (item_slots (plain_item item)) }
    ensures placed { PlacesMessage (holds stage.old) places.now stage.old.drops.items (plain_item item)
        (holds stage.new) result.now stage.new.drops.items }
    ensures room { (n : ℕ) → HasRoomToStore stage.old places.now (item_slots (plain_item item) + n)
        → HasRoomToStore stage.new result.now n }
{
    match front(places) {
        Some((place, left)) => {
            store(stage, place, item);
            left
        }
        None => {
            let_go(item, &mut stage.drops);
            places
        }
    }
}

/// Items go to places one after the other; what is let go is added. Takes no memory.
fn store_items(stage: &mut Stage, places: &[Operand], items: Seq<Item>)
    requires { HasRoomToStore stage.old places.now (message_slots (map plain_item items)) }
    ensures held { holds stage.new ≡ (all_stored (holds stage.old) places.now (map plain_item items)).0 }
    ensures drops { stage.new.drops.items
        ≡ stage.old.drops.items ++ (all_stored (holds stage.old) places.now (map plain_item items)).1 }
{
    let mut places = places;
    let mut rest = VecDeque::from_vec(items.into_vec());
    'items: while let Some(item) = rest.pop_front() {
        places = store_next(stage, places, item);
    }
}

fn item_slots(item: &Item) -> usize
    ensures { result ≡ item_slots (plain_item item.now) }
{
    match item {
        Item::Words(_) => 0,
        Item::Ports(ports) => ports.len(),
    }
}

/// How many ports and NULLs items have.
fn items_slots(items: &[Item]) -> Result<usize, NoMemory>
    ensures { IfOk result (λ n. n ≡ message_slots (map plain_item items.now)) }
{
    let mut count: usize = 0;
    'items: for item in items {
        count = count.checked_add(item_slots(item)).ok_or(NoMemory)?;
    }
    Ok(count)
}

/// Room for items that come to places. After want of memory the words and the slots are as they were.
fn open_stage(
    alloc: Global,
    words: &mut Seq<i64>,
    slots: &mut Slots,
    places: &[Operand],
    items: &[Item],
) -> Result<Stage, NoMemory>
    ensures held { IfOk result (λ g. holds g ≡ held words.old slots.old) }
    ensures drops { IfOk result (λ g. g.drops.items ≡ []) }
    ensures room { IfOk result (λ g. HasRoomToStore g places.now (message_slots (map plain_item items.now))) }
    ensures stays { OnErr result (held words.new slots.new ≡ held words.old slots.old) }
{
    let ports = items_slots(items)?;
    let twice = ports.checked_mul(2).ok_or(NoMemory)?;
    let most = reach(words.len(), places)?;
    let drops = Vec::with_capacity(alloc, ports)?;
    let own = open_words(alloc, words, most)?;
    match slots.open(alloc, twice) {
        Ok(open) => Ok(Stage {
            words: own,
            slots: open,
            drops,
        }),
        Err(error) => {
            *words = Seq::from_vec(own);
            Err(error)
        }
    }
}

/// A message that isn't kept as one word is stored: what is let go.
fn store_listed(
    alloc: Global,
    words: &mut Seq<i64>,
    slots: &mut Slots,
    places: &[Operand],
    content: Content,
) -> Result<Vec<Port>, (Content, NoMemory)>
    requires { kept_word content ≡ None }
    ensures message { IfOk result (λ v. (held words.new slots.new, v.items)
        ≡ all_stored (held words.old slots.old) places.now (plain_message content)) }
    ensures back { IfErr result (λ e. e.0 ≡ content) }
    ensures stays { OnErr result (held words.new slots.new ≡ held words.old slots.old) }
{
    match open_stage(alloc, words, slots, places, listed_items(&content)) {
        Ok(stage) => {
            let mut stage = stage;
            store_items(&mut stage, places, kept_items(alloc, content));
            let Stage {
                words: own,
                slots: open,
                drops,
            } = stage;
            *words = Seq::from_vec(own);
            *slots = Slots::from_open(open);
            Ok(drops)
        }
        Err(error) => Err((content, error)),
    }
}

/// Words come to a place. After want of memory the words of the frame are as they were.
#[inline(always)]
fn store_row(
    alloc: Global,
    words: &mut Seq<i64>,
    place: Operand,
    items: &[i64],
) -> Result<(), NoMemory>
    ensures stored { OnOk result (words.new ≡ words_stored words.old place items.now) }
    ensures stays { OnErr result (words.new ≡ words.old) }
{
    match place {
        Operand::Value(_) => Ok(()),
        Operand::Words(span) => splice(
            alloc,
            words,
            span.first as usize,
            first_words(items, span.count),
        ),
        Operand::Ports(_) => Ok(()),
    }
}

/// An item of words goes to the first place, if there is one. After want of memory the words are as they were.
#[inline(always)]
fn store_first(
    alloc: Global,
    words: &mut Seq<i64>,
    places: &[Operand],
    items: &[i64],
) -> Result<(), NoMemory>
    ensures stored { OnOk result ((slots : PlainSlots)
        → (held words.new slots, []) ≡ all_stored (held words.old slots) places.now (base.Words items.now ∷ [])) }
    ensures stays { OnErr result (words.new ≡ words.old) }
{
    match front(places) {
        Some((place, _)) => store_row(alloc, words, place, items),
        None => Ok(()),
    }
}

#[inline(always)]
fn store_content(
    alloc: Global,
    words: &mut Seq<i64>,
    slots: &mut Slots,
    places: &[Operand],
    content: Content,
) -> Result<Vec<Port>, (Content, NoMemory)>
    ensures message { IfOk result (λ v. (held words.new slots.new, v.items)
        ≡ all_stored (held words.old slots.old) places.now (plain_message content)) }
    ensures back { IfErr result (λ e. e.0 ≡ content) }
    ensures stays { OnErr result (held words.new slots.new ≡ held words.old slots.old) }
{
    match kept_word(&content) {
        Some(word) => match store_first(alloc, words, places, &[word]) {
            Ok(()) => Ok(Vec::new(alloc)),
            Err(error) => Err((content, error)),
        },
        None => store_listed(alloc, words, slots, places, content),
    }
}

/// The items of a message go to places one after the other: what is let go, which is what was there and what finds no
/// place. After want of memory the message comes back, and the words and the slots are as they were.
#[inline(always)]
pub fn store_all(
    alloc: Global,
    words: &mut Seq<i64>,
    slots: &mut Slots,
    places: &[Operand],
    message: Message,
) -> Result<Vec<Port>, (Message, NoMemory)>
    ensures message { IfOk result
        (λ v. (held words.new slots.new, v.items) ≡ all_stored (held words.old slots.old) places.now message) }
    ensures back { IfErr result (λ e. e.0 ≡ message) }
    ensures stays { OnErr result (held words.new slots.new ≡ held words.old slots.old) }
{
    match store_content(alloc, words, slots, places, message.content) {
        Ok(drops) => Ok(drops),
        Err((content, error)) => Err((Message { content }, error)),
    }
}
