//! What is read of a frame's memory.

ghost use Rattle.std.specs.Prelude.{◌≡◌, IfOk, drop, length, map, take};
ghost use Rattle.std.specs.Option.{option_copied};
ghost use Rattle.fm_mean.specs.Places.{items_at, port_at, word_at, words_in, words_of};
ghost use Rattle.fm_plain_frame.specs.Memory.{number_in, values_of};

use crate::lookup::item_at;
use crate::word::{Word, holds_ports};
use fm_base::{NoMemory, PortValue, Seq};
use fm_mean::Span;
use fm_symbols::Variable;
use std::alloc::Global;

/// So many words from this one on, as far as they go.
pub fn part(words: &[Word], first: usize, count: usize) -> &[Word]
    ensures { result.now ≡ take count (drop first words.now) }
{
    let (_, rest) = words.split_at(first.min(words.len()));
    let (part, _) = rest.split_at(count.min(rest.len()));
    part
}

/// The words of a variable.
pub(crate) fn variable_words<'a>(memory: &'a [Word], variable: &Variable) -> &'a [Word]
    ensures { result.now ≡ take variable.now.words (drop variable.now.first memory.now) }
{
    part(memory, variable.first as usize, variable.words as usize)
}

/// The words of a span, if they aren't ports.
fn numbers<'a>(memory: &'a [Word], variables: &[Variable], span: Span) -> &'a [Word]
    ensures { map number_in result.now ≡ words_of (values_of variables.now memory.now) span }
{
    match item_at(variables, span.variable as usize) {
        None => part(memory, 0, 0),
        Some(variable) => {
            if holds_ports(&variable.kind) {
                part(memory, 0, 0)
            } else {
                part(
                    variable_words(memory, variable),
                    span.first,
                    span.count as usize,
                )
            }
        }
    }
}

/// How many words a variable that isn't of ports has; 0 where there is no such variable.
pub fn variable_len(memory: &[Word], variables: &[Variable], place: u32) -> usize
    ensures { result ≡ length (words_in (items_at (values_of variables.now memory.now) place)) }
{
    match item_at(variables, place as usize) {
        None => 0,
        Some(variable) => {
            if holds_ports(&variable.kind) {
                0
            } else {
                variable_words(memory, variable).len()
            }
        }
    }
}

/// The first word of a span, or 0 where there is none.
pub fn number_at(memory: &[Word], variables: &[Variable], span: Span) -> i64
    ensures { result ≡ word_at (values_of variables.now memory.now) span }
{
    let Some(word) = item_at(numbers(memory, variables, span), 0) else {
        return 0;
    };
    word.number()
}

/// The words of a span.
pub fn words(
    alloc: Global,
    memory: &[Word],
    variables: &[Variable],
    span: Span,
) -> Result<Seq<i64>, NoMemory>
    ensures { IfOk result (λ w. w ≡ words_of (values_of variables.now memory.now) span) }
{
    let numbers = numbers(memory, variables, span);
    let mut words = Seq::new(alloc);
    'words: for word in numbers {
        words.push(word.number())?;
    }
    Ok(words)
}

/// The port at the first element of a span.
pub fn port_at<'a>(memory: &'a [Word], variables: &[Variable], span: Span) -> Option<&'a PortValue>
    ensures { option_copied result ≡ port_at (values_of variables.now memory.now) span }
{
    let variable = item_at(variables, span.variable as usize)?;
    if !holds_ports(&variable.kind) {
        return None;
    }
    item_at(variable_words(memory, variable), span.first)?.port()
}
