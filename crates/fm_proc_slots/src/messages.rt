//! Messages without ports, and what is in a message.

ghost use Rattle.std.specs.Prelude.{◌≡◌, ◌<◌, [], ◌∷◌, None, false, not, is_some, map, IfOk, IfSome, IsOk};
ghost use Rattle.fm_base.specs.Channels as base;
ghost use Rattle.fm_base.specs.Channels.{item_length};
ghost use Rattle.fm_chan.specs.Items.{plain_item, plain_message};
ghost use Rattle.fm_proc_language.specs.Processes.{message_words};
ghost use Rattle.fm_proc_slots.specs.Copies.{carries_ports, copied_words, has_ports, kept_word, words_message};

use fm_base::{NoMemory, Seq};
use fm_chan::{Content, Item, Message};
use fm_code::{Operand, front, words_of};
use std::alloc::Global;

/// An item of words; none where it has ports.
fn words_item(alloc: Global, words: &[i64], operand: Operand) -> Result<Option<Item>, NoMemory>
    ensures item { IfOk result (λ r. IfSome r (λ i. plain_item i ≡ base.Words (copied_words words.now operand))) }
    ensures some { IfOk result (λ r. is_some r ≡ not (has_ports operand)) }
{
    match operand {
        Operand::Value(word) => Ok(Some(Item::Words(Seq::from_slice(alloc, &[word])?))),
        Operand::Words(span) => {
            let there = Seq::from_slice(alloc, words_of(words, span))?;
            Ok(Some(Item::Words(there)))
        }
        Operand::Ports(_) => Ok(None),
    }
}

/// The word of an item that is one word, and no port.
#[inline(always)]
fn only_word(words: &[i64], operand: Operand) -> Option<i64>
    ensures word { IfSome result (λ w. copied_words words.now operand ≡ w ∷ []) }
    ensures plain { IfSome result (λ w. has_ports operand ≡ false) }
{
    match operand {
        Operand::Value(word) => Some(word),
        Operand::Words(span) => match front(words_of(words, span)) {
            Some((word, rest)) => { if rest.is_empty() { Some(word) } else { None } }
            None => None,
        },
        Operand::Ports(_) => None,
    }
}

/// The word of a message that is one word, and no port.
#[inline(always)]
fn one_word(words: &[i64], items: &[Operand]) -> Option<i64>
    ensures message { IfSome result (λ w. words_message words.now items.now ≡ base.Words (w ∷ []) ∷ []) }
    ensures plain { IfSome result (λ w. carries_ports items.now ≡ false) }
{
    match front(items) {
        Some((item, rest)) => {
            if rest.is_empty() {
                only_word(words, item)
            } else {
                None
            }
        }
        None => None,
    }
}

/// A message of these items, which have no ports; none where one has.
fn listed_words(
    alloc: Global,
    words: &[i64],
    items: &[Operand],
) -> Result<Option<Message>, NoMemory>
    ensures message { IfOk result (λ r. IfSome r (λ m. m ≡ words_message words.now items.now)) }
    ensures some { IfOk result (λ r. is_some r ≡ not (carries_ports items.now)) }
{
    let mut all = Vec::with_capacity(alloc, items.len())?;
    'items: for item in items {
        match words_item(alloc, words, *item)? {
            Some(item) => all.push(item)?,
            None => return Ok(None),
        }
    }
    Ok(Some(Message {
        content: Content::Items(Seq::from_vec(all)),
    }))
}

/// A message of these items, which have no ports; none where one has. One word takes no memory.
#[inline(always)]
pub fn words_message(
    alloc: Global,
    words: &[i64],
    items: &[Operand],
) -> Result<Option<Message>, NoMemory>
    ensures message { IfOk result (λ r. IfSome r (λ m. m ≡ words_message words.now items.now)) }
    ensures some { IfOk result (λ r. is_some r ≡ not (carries_ports items.now)) }
{
    match one_word(words, items) {
        Some(word) => Ok(Some(Message {
            content: Content::Word(word),
        })),
        None => listed_words(alloc, words, items),
    }
}

/// The word, where a message is kept as one.
pub(crate) fn kept_word(content: &Content) -> Option<i64>
    ensures { result ≡ kept_word content.now }
{
    match content {
        Content::Word(word) => Some(*word),
        Content::Items(_) => None,
    }
}

/// The items, where a message isn't kept as one word.
pub(crate) fn kept_items(alloc: Global, content: Content) -> Seq<Item>
    ensures { kept_word content ≡ None → map plain_item result ≡ plain_message content }
{
    match content {
        Content::Word(_) => Seq::new(alloc),
        Content::Items(items) => items,
    }
}

/// The same, without taking the message apart.
pub(crate) fn listed_items(content: &Content) -> &[Item]
    ensures { kept_word content.now ≡ None → map plain_item result.now ≡ plain_message content.now }
{
    match content {
        Content::Word(_) => &[],
        Content::Items(items) => items.as_slice(),
    }
}

fn item_words(item: &Item) -> usize
    ensures { result ≡ item_length (plain_item item.now) }
{
    match item {
        Item::Words(words) => words.len(),
        Item::Ports(ports) => ports.len(),
    }
}

fn items_words(items: &[Item]) -> Result<u64, NoMemory>
    ensures words { IfOk result (λ n. n ≡ message_words (map plain_item items.now)) }
    ensures counted { message_words (map plain_item items.now) < 18446744073709551615 → IsOk result }
{
    let mut count: u64 = 0;
    'items: for item in items {
        count = count.checked_add(item_words(item) as u64).ok_or(NoMemory)?;
    }
    Ok(count)
}

/// How many words and ports a message has. Only more than may be counted are want of memory.
#[inline(always)]
pub fn message_words(message: &Message) -> Result<u64, NoMemory>
    ensures words { IfOk result (λ n. n ≡ message_words message.now) }
    ensures counted { message_words message.now < 18446744073709551615 → IsOk result }
{
    match &message.content {
        Content::Word(_) => Ok(1),
        Content::Items(items) => items_words(items.as_slice()),
    }
}
