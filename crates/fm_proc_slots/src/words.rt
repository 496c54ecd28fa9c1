//! Words of a frame.

ghost use Rattle.std.specs.Prelude.{◌≡◌, ◌≤◌, ◌+◌, ◌++◌, IfOk, OnErr, OnOk, length, nat_le, slice_set, vec_len, vec_capacity};
ghost use Rattle.fm_code.specs.Passing.{spliced};
ghost use Rattle.fm_proc_language.specs.Frames.{nulled};
ghost use Rattle.fm_proc_slots.specs.Operands.{grown, operand_grown, reach};
ghost use Rattle.fm_proc_slots.specs.Rooms.{span_words};

use fm_base::{NoMemory, Seq};
use fm_code::{Operand, Span, words_of};
use std::alloc::Global;

/// Puts a word at a place, if there is such a place.
pub fn set_word(words: &mut Seq<i64>, number: usize, word: i64)
    ensures { words.new ≡ slice_set words.old number word }
{
    if number < words.len() {
        words.set(number, word);
    }
}

/// Whether so many words from a place on are there.
fn has_room(words: usize, at: usize, count: usize) -> bool
    ensures { result ≡ nat_le (at + count) words }
{
    match at.checked_add(count) {
        Some(end) => end <= words,
        None => false,
    }
}

/// Words with others over them from a place on; those behind the last are added.
fn rebuilt(alloc: Global, words: &[i64], at: usize, items: &[i64]) -> Result<Vec<i64>, NoMemory>
    ensures { IfOk result (λ v. v.items ≡ spliced words.now at items.now) }
{
    let (before, from) = words.split_at(words.len().min(at));
    let (_, behind) = from.split_at(from.len().min(items.len()));
    let mut all = Vec::from_slice(alloc, before)?;
    all.extend_from_slice(items)?;
    all.extend_from_slice(behind)?;
    Ok(all)
}

/// Puts items over the words from a place on. After want of memory the words are as they were.
#[inline(always)]
pub(crate) fn splice(
    alloc: Global,
    words: &mut Seq<i64>,
    at: usize,
    items: &[i64],
) -> Result<(), NoMemory>
    ensures spliced { OnOk result (words.new ≡ spliced words.old at items.now) }
    ensures stays { OnErr result (words.new ≡ words.old) }
{
    if has_room(words.len(), at, items.len()) {
        words.put(at, items);
    } else {
        *words = Seq::from_vec(rebuilt(alloc, words.as_slice(), at, items)?);
    }
    Ok(())
}

/// Adds items where there is room for them.
pub(crate) fn extend_within(words: &mut Vec<i64>, items: &[i64])
    requires { vec_len words.old + length items.now ≤ vec_capacity words.old }
    ensures items { words.new.items ≡ words.old.items ++ items.now }
    ensures len { vec_len words.new ≡ vec_len words.old + length items.now }
    ensures capacity { vec_capacity words.old ≤ vec_capacity words.new }
{
    match words.extend_from_slice(items) {
        Ok(()) => {}
        Err(_) => unreachable!(),
    }
}

/// Puts items over the words from a place on, where there is room for those behind the last.
pub(crate) fn splice_within(words: &mut Vec<i64>, at: usize, items: &[i64])
    requires { grown (vec_len words.old) at (length items.now) ≤ vec_capacity words.old }
    ensures items { words.new.items ≡ spliced words.old.items at items.now }
    ensures len { vec_len words.new ≤ grown (vec_len words.old) at (length items.now) }
    ensures capacity { vec_capacity words.old ≤ vec_capacity words.new }
{
    if has_room(words.len(), at, items.len()) {
        words[at..at + items.len()].copy_from_slice(items);
    } else {
        words.truncate(at);
        extend_within(words, items);
    }
}

/// The words of a span become NULL, as far as they are there. Takes no memory.
pub fn null_span(words: &mut Seq<i64>, span: Span)
    ensures { words.new ≡ nulled words.old span }
{
    let count = words_of(words.as_slice(), span).len();
    'words: for index in 0..count {
        set_word(words, span.first as usize + index, 0);
    }
}

/// How many words there are after words came to a span.
fn grown(len: usize, span: Span) -> Result<usize, NoMemory>
    ensures { IfOk result (λ n. n ≡ grown len span.first span.count) }
{
    let end = len
        .min(span.first as usize)
        .checked_add(span.count as usize)
        .ok_or(NoMemory)?;
    Ok(len.max(end))
}

/// How many words there are at most after words came to an operand, or left it.
fn operand_grown(len: usize, operand: Operand) -> Result<usize, NoMemory>
    ensures { IfOk result (λ n. n ≡ operand_grown len operand) }
{
    match operand {
        Operand::Value(_) => Ok(len),
        Operand::Words(span) => grown(len, span),
        Operand::Ports(span) => grown(len, span),
    }
}

/// How many words there are at most after words came to these operands, or left them, one after the other.
pub(crate) fn reach(len: usize, operands: &[Operand]) -> Result<usize, NoMemory>
    ensures { IfOk result (λ n. n ≡ reach len operands.now) }
{
    let mut reach = len;
    'operands: for operand in operands {
        reach = operand_grown(reach, *operand)?;
    }
    Ok(reach)
}

/// Words that come from a row, with room to become so many. After want of memory they are where they were.
pub(crate) fn open_words(
    alloc: Global,
    words: &mut Seq<i64>,
    most: usize,
) -> Result<Vec<i64>, NoMemory>
    ensures words { IfOk result (λ own. own.items ≡ words.old) }
    ensures room { IfOk result (λ own. most ≤ vec_capacity own) }
    ensures stays { OnErr result (words.new ≡ words.old) }
{
    let mut own = words.take(alloc).into_vec();
    match own.reserve(most.saturating_sub(own.len())) {
        Ok(()) => Ok(own),
        Err(_) => {
            *words = Seq::from_vec(own);
            Err(NoMemory)
        }
    }
}

/// As many words as these spans have at most.
pub fn span_words(spans: &[Span]) -> Result<usize, NoMemory>
    ensures { IfOk result (λ n. n ≡ span_words spans.now) }
{
    let mut count = 0usize;
    'spans: for span in spans {
        count = count.checked_add(span.count as usize).ok_or(NoMemory)?;
    }
    Ok(count)
}
